// What the witness's own frame wants to be read.
ghost use Rattle.std.specs.Prelude.{◌≡◌};
ghost use Rattle.frames.specs.Wanted.{wanted_of};

use crate::frame;

// State at a clock, with where the length of the package stands and where the default body begins.
#[derive(Clone, Copy)]
pub struct Wanted {
    pub clock: u64,
    pub name: usize,
    pub default: usize,
}

// What a frame wants to be read; nothing where it is another frame.
#[tactic(auto, using(crate::proofs::WantedLaws::wanted_begun, crate::proofs::WantedLaws::wanted_named, crate::proofs::WantedLaws::wanted_short, crate::proofs::WantedLaws::wanted_state, crate::proofs::WantedLaws::wanted_other))]
pub fn read_wanted(f: &[u8]) -> Option<Wanted>
    ensures { result ≡ wanted_of f.now }
{
    let name = 10 + usize::from(*f.get(9)?);
    let default = name + 1 + usize::from(*f.get(name)?);
    if f.len() < default {
        return None;
    }
    if f[0] != 2 {
        return None;
    }
    Some(Wanted {
        clock: frame::eight(f, 1),
        name,
        default,
    })
}
