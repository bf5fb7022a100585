// The slots of a record at a clock, with those freed whose end has come.
ghost use Rattle.std.specs.Prelude.{◌≡◌, ◌%◌, eqb, length};
ghost use Rattle.laws.specs.Choose.{pick};
ghost use Rattle.record.specs.Places.{live, is_live, map_of, slots_of};
ghost use Rattle.success.specs.After.{freed, freed_at};

use record::{Record, Slot, map, slots};

// A slot's bit in the map of the live ones, where its bit in the map is the lowest of m.
fn live_bit(m: u8, s: Slot, clock: u64) -> u8
    ensures { result ≡ pick (is_live clock (record { taken = eqb (m % 2) 1; slot = s })) 1 0 }
{
    u8::from(slots::is_live(m % 2 == 1, s, clock))
}

// A slot whose bit is the lowest of m: all zero where it is occupied and its end has come.
#[tactic(auto, unfolding(crate::specs::After::freed))]
fn freed_slot(m: u8, s: Slot, clock: u64) -> Slot
    ensures { result ≡ (freed clock (record { taken = eqb (m % 2) 1; slot = s })).slot }
{
    if m % 2 == 1 && s.end <= clock {
        slots::zero_slot()
    } else {
        s
    }
}

// The map of the slots that are still occupied.
pub fn live_map(r: Record, clock: u64) -> u8
    ensures { result ≡ map_of (freed_at clock r) }
{
    let mut out = 0;
    for i in (0..8).rev() {
        out = live_bit(r.map >> i, r.slots[i], clock) + 2 * out;
    }
    out
}

// The slots, with those zero that are freed.
pub fn freed_slots(r: Record, clock: u64) -> [Slot; 8]
    ensures { result ≡ slots_of (freed_at clock r) }
{
    let mut out = r.slots;
    let mut m = r.map;
    for s in &mut out {
        *s = freed_slot(m, *s, clock);
        m /= 2;
    }
    out
}

// How many slots are live: the count of the map's ones.
pub fn live_count(r: Record, clock: u64) -> u32
    ensures { result ≡ length (live clock r) }
{
    map::occupied(live_map(r, clock))
}
