// What the looks at the lent records say: whether all are sound, where an address stands, and the lowest record that is not in use.
ghost use Rattle.std.specs.List.{list_all};
ghost use Rattle.std.specs.Prelude.{◌≡◌, ◌&&◌, not, position};
ghost use Rattle.laws.specs.Lists.{same};
ghost use Rattle.lent.specs.Look.{looks_sound, is_look_for};
ghost use Rattle.table.specs.Looked.{sought_in};

use lent::look::Look;

// What is found of an address: whether all records are sound, and its place (past the end where it has none).
// A number, not an Option: table/Looked.sought_in, which may not change, says it so.
#[derive(Clone, Copy)]
pub struct Sought {
    pub sound: bool,
    pub place: usize,
}

// Whether a record is in use and has that address.
fn is_taken(a: &[u8; 64], l: &Look) -> bool
    ensures { result ≡ (l.now.used && same a.now l.now.address) }
{
    l.used && record::address::same_bytes(a, &l.address)
}

// Whether an address is another than that of each record in use.
fn is_apart(a: &[u8; 64], ls: &[Look]) -> bool
    ensures { result ≡ list_all (λ l. not (l.used && same a.now l.address)) ls.now }
{
    ls.iter().all(|l| !is_taken(a, l))
}

// Whether records are sound: each by itself, and no two in use with the same address. Each pair is compared once.
#[tactic(auto, using(crate::proofs::SeekLaws::sound_step, crate::proofs::SeekLaws::sound_end))]
pub fn all_sound(ls: &[Look]) -> bool
    ensures { result ≡ looks_sound ls.now }
{
    for (i, l) in ls.iter().enumerate() {
        if !l.sound {
            return false;
        }
        if l.used && !is_apart(&l.address, &ls[i + 1..]) {
            return false;
        }
    }
    true
}

// Whether a record is in use for an address.
#[tactic(auto, unfolding(lent::specs::Look::is_look_for))]
fn is_for(a: &[u8], l: &Look) -> bool
    ensures { result ≡ is_look_for a.now l.now }
{
    l.used && record::address::is_held(a, &l.address)
}

// The place of the record that is in use for an address.
pub fn place_for(a: &[u8], ls: &[Look]) -> Option<usize>
    ensures { result ≡ position (is_look_for a.now) ls.now }
{
    ls.iter().position(|l| is_for(a, l))
}

// The place of the lowest unused record.
pub fn lowest_unused(ls: &[Look]) -> Option<usize>
    ensures { result ≡ position (λ l. not l.used) ls.now }
{
    ls.iter().position(|l| !l.used)
}

// What is found of an address among n lent records.
#[tactic(auto, using(crate::proofs::PlaceLaws::place_or_end), unfolding(crate::specs::Looked::sought_in, record::specs::Places::smaller))]
pub fn seek(a: &[u8], ls: &[Look; 16], n: usize) -> Sought
    ensures { result ≡ sought_in a.now ls.now n }
{
    let m = n.min(16);
    let seen = &ls[..m];
    Sought {
        sound: all_sound(seen),
        place: place_for(a, seen).unwrap_or(m),
    }
}
