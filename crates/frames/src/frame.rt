// What the bytes of a frame ask for.
ghost use Rattle.std.specs.Prelude.{◌≡◌, ◌+◌, ◌≤◌, length, drop};
ghost use Rattle.laws.specs.Lists.{part};
ghost use Rattle.listing.specs.Frames.{high_first, frame_of};
ghost use Rattle.frames.specs.Asked.{frame_with};

// What is asked for: to add an address with its start and spent, or to handle a request at a clock. The address or the request is what
// follows the first nine bytes.
#[derive(Clone, Copy)]
pub enum Asked {
    Adds { start: u32, spent: u32 },
    Handles { clock: u64 },
}

// The number of the four bytes from a position on, high first.
#[tactic(auto, using(crate::proofs::NumberLaws::four_is))]
fn four(f: &[u8], i: usize) -> u32
    requires { i + 4 ≤ length f.now }
    ensures { result ≡ high_first 0 (part f.now i (i + 4)) }
{
    u32::from_be_bytes([f[i], f[i + 1], f[i + 2], f[i + 3]])
}

// The number of the eight bytes from a position on, high first.
#[tactic(auto, using(crate::proofs::NumberLaws::eight_is))]
pub fn eight(f: &[u8], i: usize) -> u64
    requires { i + 8 ≤ length f.now }
    ensures { result ≡ high_first 0 (part f.now i (i + 8)) }
{
    u64::from(four(f, i)) * 0x1_0000_0000 + u64::from(four(f, i + 4))
}

// What a frame asks for; nothing where it is not so built.
#[tactic(auto, using(crate::proofs::FrameLaws::frame_short, crate::proofs::FrameLaws::frame_adds, crate::proofs::FrameLaws::frame_handles, crate::proofs::FrameLaws::frame_other))]
pub fn read_frame(f: &[u8]) -> Option<Asked>
    ensures { frame_with result (drop 9 f.now) ≡ frame_of f.now }
{
    if f.len() < 9 {
        return None;
    }
    match f[0] {
        0 => Some(Asked::Adds {
            start: four(f, 1),
            spent: four(f, 5),
        }),
        1 => Some(Asked::Handles { clock: eight(f, 1) }),
        _ => None,
    }
}

// What follows the first nine bytes.
#[tactic(auto, using(crate::proofs::FrameLaws::rest_is))]
pub fn rest(f: &[u8]) -> &[u8]
    ensures { result.now ≡ drop 9 f.now }
{
    text::part::part_of(f, 9, f.len())
}
