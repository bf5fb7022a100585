// What the slots of a record say at a clock.
ghost use Rattle.std.specs.Prelude.{◌≡◌, ◌&&◌, eqb, ltb, Some, MatchOption};
ghost use Rattle.laws.specs.Choose.{pick, below};
ghost use Rattle.tag.specs.Written.{is_tag_text};
ghost use Rattle.record.specs.Places.{zero_slot, is_live, is_of, live, smaller, least_end, matching, newest};

use crate::{Record, Slot};

// A slot that is freed.
pub fn zero_slot() -> Slot
    ensures { result ≡ zero_slot }
{
    Slot {
        event: 0,
        tag: 0,
        end: 0,
        length: 0,
        edition: 0,
    }
}

// Whether a slot is a live publication: it is occupied, and the clock is below its end.
#[tactic(auto, unfolding(crate::specs::Places::is_live))]
pub fn is_live(taken: bool, s: Slot, clock: u64) -> bool
    ensures { result ≡ is_live clock (record { taken = taken; slot = s }) }
{
    taken && clock < s.end
}

// Whether it is a live publication of that package.
#[tactic(auto, unfolding(crate::specs::Places::is_of))]
pub fn is_of(taken: bool, s: Slot, clock: u64, event: u8) -> bool
    ensures { result ≡ is_of clock event (record { taken = taken; slot = s }) }
{
    is_live(taken, s, clock) && s.event == event
}

// Whether it is such a one and has the presented tag.
fn is_match(taken: bool, s: Slot, clock: u64, event: u8, token: &[u8]) -> bool
    ensures { result ≡ (is_of clock event (record { taken = taken; slot = s }) && is_tag_text token.now s.tag) }
{
    is_of(taken, s, clock, event) && tag::is_tag_text(token, s.tag)
}

// The slot of the live publication of that package that has the presented tag; none where there is none.
pub fn matching_slot(r: Record, clock: u64, event: u8, token: &[u8]) -> Option<usize>
    ensures { result ≡ below 8 (matching clock event token.now r) }
{
    let mut m = r.map;
    for (i, s) in r.slots.iter().enumerate() {
        if is_match(m % 2 == 1, *s, clock, event, token) {
            return Some(i);
        }
        m /= 2;
    }
    None
}

// The least end so far, 0 where there is none, with one more end where that counts.
#[tactic(auto, unfolding(crate::specs::Places::smaller))]
fn lesser(least: u64, counts: bool, end: u64) -> u64
    ensures { result ≡ pick counts (pick (eqb least 0) end (smaller least end)) least }
{
    if !counts {
        least
    } else if least == 0 {
        end
    } else {
        least.min(end)
    }
}

// The least end among the live publications; 0 where there is none.
pub fn least_end(r: Record, clock: u64) -> u64
    ensures { result ≡ least_end (live clock r) }
{
    let mut m = r.map;
    let mut least = 0;
    for s in &r.slots {
        least = lesser(least, is_live(m % 2 == 1, *s, clock), s.end);
        m /= 2;
    }
    least
}

// The newest publication so far: its slot and its body number.
#[derive(Clone, Copy)]
struct Best {
    slot: usize,
    edition: u32,
}

// The newest so far with slot i as well, where that counts: of two with one number the first stays.
fn better(best: Option<Best>, counts: bool, i: usize, edition: u32) -> Option<Best>
    ensures { MatchOption best (result ≡ pick counts (Some (record { slot = i; edition = edition })) best)
        (λ b. result ≡ pick (counts && ltb b.edition edition) (Some (record { slot = i; edition = edition })) best) }
{
    if counts && best.is_none_or(|b| b.edition < edition) {
        Some(Best { slot: i, edition })
    } else {
        best
    }
}

// The slot of that package's live publication with the highest body number; none where none is live.
pub fn newest_slot(r: Record, clock: u64, event: u8) -> Option<usize>
    ensures { result ≡ below 8 (newest clock event r) }
{
    let mut m = r.map;
    let mut best: Option<Best> = None;
    for (i, s) in r.slots.iter().enumerate() {
        best = better(best, is_of(m % 2 == 1, *s, clock, event), i, s.edition);
        m /= 2;
    }
    best.map(|b| b.slot)
}
