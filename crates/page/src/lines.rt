// Lines in a stream of bytes that comes in chunks: where a line ends, and as much of it as its buffer has room for.
ghost use Rattle.std.specs.Prelude.{◌≡◌, ◌-◌, ◌≤◌, length, take};
ghost use Rattle.laws.specs.Wrote.{Wrote};
ghost use Rattle.page.specs.Lines.{piece_at};

use text::class::Other;

// A piece of a line in a chunk: where it ends, and where the piece behind it begins; they differ by the LF of a line that ends there.
#[derive(Clone, Copy)]
pub struct Piece {
    pub end: usize,
    pub next: usize,
}

// The piece that begins at a position.
#[tactic(auto, unfolding(crate::specs::Lines::piece_at))]
pub fn piece_at(chunk: &[u8], at: usize) -> Piece
    ensures { result ≡ piece_at chunk.now at }
{
    let e = text::runs::past(chunk, at, Other(b'\n'));
    if e < chunk.len() {
        return Piece {
            end: e,
            next: e + 1,
        };
    }
    Piece { end: e, next: e }
}

// Some bytes more of a line of which n are held; those that its buffer has no room for are dropped.
pub fn hold_all(line: &mut [u8], n: usize, bs: &[u8]) -> usize
    requires { n ≤ length line.old }
    ensures { Wrote line.old n (take (length line.old - n) bs.now) line.new result }
{
    let room = (line.len() - n).min(bs.len());
    text::put::put(line, n, &bs[..room])
}
