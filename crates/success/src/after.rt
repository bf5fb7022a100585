// What a success does to a record, and to its part of the lent store.
ghost use Rattle.std.specs.Prelude.{◌≡◌, ◌+◌, ◌*◌, ◌≤◌, ◌<◌, ltb, length};
ghost use Rattle.laws.specs.Choose.{pick, below};
ghost use Rattle.record.specs.Map.{lowest_free_in};
ghost use Rattle.record.specs.Places.{map_of, slots_of};
ghost use Rattle.success.specs.Store.{part_of, with_part};
ghost use Rattle.success.specs.After.{freed_at, is_match, success_number, written, written_slot, record_after, with_body, part_after};

use crate::{Success, freed, store};
use record::{Record, Slot, map, slots};

// The slot that is written: the one that was matched, or else the lowest free one; none where there is none.
#[tactic(auto, unfolding(laws::specs::Choose::below, crate::specs::After::is_match))]
fn slot_to_write(x: Success, live: u8) -> Option<u8>
    ensures { result ≡ below 8 (pick (is_match x) x.slot (lowest_free_in 8 live)) }
{
    if x.slot < 8 {
        return Some(x.slot);
    }
    let k = map::lowest_free(live);
    if k < 8 { Some(k as u8) } else { None }
}

// What is written to a slot that holds old: a body, where given, sets length and body number.
#[tactic(auto, unfolding(crate::specs::After::written, crate::specs::After::given_tag, crate::specs::After::has_body, crate::specs::After::success_number))]
fn written_slot(x: Success, r: Record, old: Slot) -> Slot
    requires { (r.spent < 4294967295) × (x.clock + x.granted < 18446744073709551616) }
    ensures { result ≡ written x r old }
{
    let (length, edition) = if x.length == 0 {
        (old.length, old.edition)
    } else {
        (x.length, r.spent + 1)
    };
    Slot {
        event: x.event,
        tag: tag::given_tag(r.start, r.spent),
        end: x.clock + u64::from(x.granted),
        length,
        edition,
    }
}

// The record with one tag more spent, the latest clock, and these slots.
#[tactic(auto, unfolding(crate::specs::After::success_number))]
fn with_slots(x: Success, r: Record, map: u8, slots: [Slot; 8]) -> Record
    requires { r.spent < 4294967295 }
    ensures { result ≡ record { used = r.used; address = r.address; start = r.start; spent = success_number r; clock = x.clock; map = map; slots = slots } }
{
    Record {
        spent: r.spent + 1,
        clock: x.clock,
        map,
        slots,
        ..r
    }
}

// Granted 0 leaves nothing live: a matched slot is freed, an initial one takes none.
fn ended(x: Success, r: Record, live: u8, mut kept: [Slot; 8]) -> Record
    requires { (r.spent < 4294967295) × (x.granted ≡ 0) × (live ≡ map_of (freed_at x.clock r)) × (kept ≡ slots_of (freed_at x.clock r)) }
    ensures { result ≡ record_after x r }
{
    if 8 <= x.slot {
        return with_slots(x, r, live, kept);
    }
    kept[usize::from(x.slot)] = slots::zero_slot();
    with_slots(x, r, map::without_place(live, x.slot), kept)
}

// Otherwise the slot is occupied, with what is written to it; nothing is written where none is free.
#[tactic(auto, using(laws::proofs::Some::told_is, laws::proofs::Some::told_below))]
fn begun(x: Success, r: Record, live: u8, mut kept: [Slot; 8]) -> Record
    requires { (r.spent < 4294967295) × (x.clock + x.granted < 18446744073709551616) × (0 < x.granted) × (live ≡ map_of (freed_at x.clock r)) × (kept ≡ slots_of (freed_at x.clock r)) }
    ensures { result ≡ record_after x r }
{
    let Some(k) = slot_to_write(x, live) else {
        return with_slots(x, r, live, kept);
    };
    let i = usize::from(k);
    kept[i] = written_slot(x, r, kept[i]);
    with_slots(x, r, map::with_place(live, k), kept)
}

// The record after a success: slots whose end has come are freed, and then one is written or freed.
pub fn record_after(x: Success, r: Record) -> Record
    requires { (r.spent < 4294967295) × (x.clock + x.granted < 18446744073709551616) × (x.slot ≤ 8) }
    ensures { result ≡ record_after x r }
{
    let live = freed::live_map(r, x.clock);
    let kept = freed::freed_slots(r, x.clock);
    if x.granted == 0 {
        ended(x, r, live, kept)
    } else {
        begun(x, r, live, kept)
    }
}

// Whether a slot is there to be written: the one that was matched, or a free one.
pub fn has_room(x: Success, r: Record) -> bool
    ensures { result ≡ ltb (written_slot x r) 8 }
{
    slot_to_write(x, freed::live_map(r, x.clock)).is_some()
}

// Puts the body given, where there is one that is to be live, into the room of the slot that is written.
fn put_given(store: &mut [u8], i: usize, x: Success, r: Record, body: &[u8])
    requires { (4096 * i + 4096 ≤ length store.old) × (i < 16) × (length body.now ≤ 512) × (0 < x.length → 0 < x.granted → written_slot x r < 8) }
    ensures { store.new ≡ with_part i (with_body x r body.now (part_of i store.old)) store.old }
{
    if x.length == 0 || x.granted == 0 {
        return;
    }
    let k = slot_to_write(x, freed::live_map(r, x.clock)).unwrap();
    store::put_body(store, i, usize::from(k), body);
}

// A success: gives the record after it, and leaves in its part of the store the live bodies and zeros around them.
pub fn succeed(store: &mut [u8], i: usize, x: Success, r: Record, body: &[u8]) -> Record
    requires { (r.spent < 4294967295) × (x.clock + x.granted < 18446744073709551616) × (x.slot ≤ 8) × (4096 * i + 4096 ≤ length store.old) × (i < 16) × (length body.now ≡ x.length) × (x.length ≤ 512) × (0 < x.length → 0 < x.granted → written_slot x r < 8) }
    ensures { (result ≡ record_after x r) × (store.new ≡ with_part i (part_after x r body.now (part_of i store.old)) store.old) }
{
    put_given(store, i, x, r, body);
    let n = record_after(x, r);
    store::clear_part(store, i, n.map, n.slots);
    n
}
