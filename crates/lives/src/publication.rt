// A publication: the success that it asks for, and what stands against it.
ghost use Rattle.std.specs.Prelude.{◌≡◌, ◌≤◌, ◌<◌, length, IfNone};
ghost use Rattle.success.specs.After.{written_slot};

use crate::script::Publication;
use record::{Record, slots};
use std::fmt;
use success::{Success, after};

// What stands against a publication.
#[derive(Clone, Copy)]
pub enum Refusal {
    Back,
    Unmatched,
    Empty,
    Spent,
    Full { least: u64 },
}

impl fmt::Display for Refusal {
    fn fmt<W: fmt::Write>(&self, f: &mut fmt::Formatter<W>) -> fmt::Result {
        match self {
            Refusal::Back => write!(f, "back"),
            Refusal::Unmatched => write!(f, "unmatched"),
            Refusal::Empty => write!(f, "empty"),
            Refusal::Spent => write!(f, "spent"),
            Refusal::Full { least } => write!(f, "full {least}"),
        }
    }
}

// The success that is asked for: its slot is the one that the token matches, or 8 where none is presented or none has it.
#[tactic(auto, using(laws::proofs::Some::told_below, laws::proofs::Some::told_is))]
pub fn success_of(r: Record, p: Publication<'_>) -> Success
    ensures clock { result.clock ≤ 1000000000000 }
    ensures slot { result.slot ≤ 8 }
    ensures length { (length p.entry.body.now ≡ result.length) × (result.length ≤ 512) }
{
    let slot = match slots::matching_slot(r, p.clock, p.event, p.token) {
        Some(k) => k as u8,
        None => 8,
    };
    Success {
        clock: p.clock,
        event: p.event,
        slot,
        granted: p.granted,
        length: p.body.len() as u16,
    }
}

// What stands against a success, where a tag is presented or not.
pub fn refused(r: Record, x: Success, presents: bool) -> Option<Refusal>
    ensures { IfNone result ((r.spent < 4294967295) × (0 < x.granted → written_slot x r < 8)) }
{
    if x.clock < r.clock {
        return Some(Refusal::Back);
    }
    if presents && 8 <= x.slot {
        return Some(Refusal::Unmatched);
    }
    if !presents && x.length == 0 {
        return Some(Refusal::Empty);
    }
    if r.spent == u32::MAX {
        return Some(Refusal::Spent);
    }
    if 0 < x.granted && !after::has_room(x, r) {
        return Some(Refusal::Full {
            least: slots::least_end(r, x.clock),
        });
    }
    None
}
