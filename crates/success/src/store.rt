// A record's part of the lent store: zeroed, with a body put in, and with every byte outside its bodies zero.
ghost use Rattle.std.specs.Prelude.{◌≡◌, ◌+◌, ◌*◌, ◌%◌, ◌≤◌, ◌<◌, eqb, length, replicate};
ghost use Rattle.laws.specs.Choose.{pick};
ghost use Rattle.laws.specs.Lists.{put_at};
ghost use Rattle.record.specs.Places.{places_in, smaller};
ghost use Rattle.success.specs.Store.{room_at, part_of, with_part, cleared};

use record::Slot;

// Zeroes n bytes from a position on.
fn zero_from(store: &mut [u8], at: usize, n: usize)
    requires { at + n ≤ length store.old }
    ensures { store.new ≡ put_at store.old at (replicate n 0) }
{
    store[at..at + n].fill(0);
}

// How many bytes of its room a slot keeps, where its bit is the lowest of m: its body, and none where it is not occupied.
#[tactic(auto, unfolding(record::specs::Places::smaller))]
fn kept(m: u8, s: Slot) -> usize
    ensures { (result ≡ pick (eqb (m % 2) 1) (smaller s.length 512) 0) × (result ≤ 512) }
{
    if m % 2 == 1 {
        usize::from(s.length.min(512))
    } else {
        0
    }
}

// Zeroes the part of record i.
#[tactic(auto, unfolding(crate::specs::Store::with_part, crate::specs::Store::part_at))]
pub fn zero_part(store: &mut [u8], i: usize)
    requires { (4096 * i + 4096 ≤ length store.old) × (i < 16) }
    ensures { store.new ≡ with_part i (replicate 4096 0) store.old }
{
    zero_from(store, 4096 * i, 4096);
}

// Puts a body into the room of slot k of record i.
pub fn put_body(store: &mut [u8], i: usize, k: usize, body: &[u8])
    requires { (4096 * i + 4096 ≤ length store.old) × (i < 16) × (k < 8) × (length body.now ≤ 512) }
    ensures { store.new ≡ with_part i (put_at (part_of i store.old) (room_at k) body.now) store.old }
{
    text::put::put(store, 4096 * i + 512 * k, body);
}

// Zeroes every byte of the part of record i outside the bodies of its occupied slots.
pub fn clear_part(store: &mut [u8], i: usize, map: u8, slots: [Slot; 8])
    requires { (4096 * i + 4096 ≤ length store.old) × (i < 16) }
    ensures { store.new ≡ with_part i (cleared (places_in map slots) (part_of i store.old)) store.old }
{
    let mut m = map;
    for (k, s) in slots.iter().enumerate() {
        let n = kept(m, *s);
        zero_from(store, 4096 * i + 512 * k + n, 512 - n);
        m /= 2;
    }
}
