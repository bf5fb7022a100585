// Soundness of one record.
ghost use Rattle.std.specs.Prelude.{◌≡◌, ◌&&◌, ◌||◌, not, ◌+◌, ◌%◌, ◌/◌, eqb, leb, drop};
ghost use Rattle.laws.specs.Lists.{every, those};
ghost use Rattle.text.specs.Class.{from_to};
ghost use Rattle.record.specs.Packages.{package_at};
ghost use Rattle.record.specs.Places.{places_in, slots_of, occupied};
ghost use Rattle.record.specs.Sound.{is_sound_slot, tags_differ, numbers_differ, slots_differ, is_sound};

use crate::{Record, Slot, address, packages};

// Whether a slot's end is at most the latest clock plus its package's most.
fn ends_in_time(clock: u64, s: &Slot) -> bool
    ensures { result ≡ leb s.now.end (clock + (package_at s.now.event).most) }
{
    let most = u64::from(packages::most_of(s.event));
    s.end.saturating_sub(clock) <= most
}

// Whether a body number is one from 1 to spent.
fn is_spent(spent: u32, edition: u32) -> bool
    ensures { result ≡ from_to 1 spent edition }
{
    1 <= edition && edition <= spent
}

// Whether a slot is a sound one of a record.
#[tactic(auto, unfolding(crate::specs::Sound::is_sound_slot))]
pub fn is_sound_slot(r: &Record, s: &Slot) -> bool
    ensures { result ≡ is_sound_slot r.now s.now }
{
    packages::is_listed(s.event)
        && s.length <= 512
        && ends_in_time(r.clock, s)
        && is_spent(r.spent, s.edition)
        && tag::is_given(r.start, r.spent, s.tag)
}

// Whether every occupied slot is sound.
pub fn slots_sound(r: &Record) -> bool
    ensures { result ≡ every (is_sound_slot r.now) (occupied r.now) }
{
    let mut m = r.map;
    for s in &r.slots {
        if m % 2 == 1 && !is_sound_slot(r, s) {
            return false;
        }
        m /= 2;
    }
    true
}

// Whether two slots have the same tag or the same body number.
#[tactic(auto, unfolding(crate::specs::Sound::tags_differ, crate::specs::Sound::numbers_differ))]
fn are_alike(s: &Slot, t: &Slot) -> bool
    ensures { result ≡ not (tags_differ s.now t.now && numbers_differ s.now t.now) }
{
    s.tag == t.tag || s.edition == t.edition
}

// Whether a slot differs in tag and body number from each occupied one of those behind it; the map's lowest bit is for the first of these.
fn is_apart(s: &Slot, map: u8, behind: &[Slot]) -> bool
    ensures { result ≡ every (λ t. tags_differ s.now t && numbers_differ s.now t) (slots_of (those (λ p. p.taken) (places_in map behind.now))) }
{
    let mut m = map;
    for t in behind {
        if m % 2 == 1 && are_alike(s, t) {
            return false;
        }
        m /= 2;
    }
    true
}

// Whether tags differ between occupied slots, and body numbers too.
pub fn slots_differ(r: &Record) -> bool
    ensures { result ≡ slots_differ (occupied r.now) }
{
    let slots: &[Slot] = &r.slots;
    let mut m = r.map;
    for (i, s) in slots.iter().enumerate() {
        if m % 2 == 1 && !is_apart(s, m / 2, &slots[i + 1..]) {
            return false;
        }
        m /= 2;
    }
    true
}

// Whether a record by itself is sound; one that is not in use is.
#[tactic(auto, unfolding(crate::specs::Sound::is_sound, crate::specs::Places::is_in_use))]
pub fn is_sound(r: &Record) -> bool
    ensures { result ≡ is_sound r.now }
{
    r.used == 0
        || r.used == 1
            && address::has_address(r)
            && r.clock <= 1000000000000
            && slots_sound(r)
            && slots_differ(r)
}
