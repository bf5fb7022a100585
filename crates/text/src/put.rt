// Writing into a lent buffer.
ghost use Rattle.std.specs.Prelude.{[], ◌∷◌, ◌+◌, ◌≤◌, ◌<◌, length};
ghost use Rattle.laws.specs.Wrote.{Wrote};

// Puts a byte at a position, and gives the position past it.
#[tactic(auto, using(laws::proofs::Wrote::wrote_byte))]
pub fn put_byte(buf: &mut [u8], at: usize, b: u8) -> usize
    requires { at < length buf.old }
    ensures { Wrote buf.old at (b ∷ []) buf.new result }
{
    buf[at] = b;
    at + 1
}

// Puts bytes at a position, and gives the position past them. Byte by byte: `copy_from_slice` was tried, and with it the texts that are put are
// some 300 bytes more of read-only data (docs/COST.md).
#[tactic(auto, using(laws::proofs::Wrote::wrote_none, laws::proofs::Wrote::wrote_more))]
pub fn put(buf: &mut [u8], at: usize, bs: &[u8]) -> usize
    requires { at + length bs.now ≤ length buf.old }
    ensures { Wrote buf.old at bs.now buf.new result }
{
    for (i, b) in bs.iter().enumerate() {
        buf[at + i] = *b;
    }
    at + bs.len()
}
