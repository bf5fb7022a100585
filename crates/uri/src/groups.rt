// IPv4 and IPv6 addresses: numbers between dots, and groups between colons.
ghost use Rattle.std.specs.Prelude.{◌≡◌, ◌&&◌, leb, length};
ghost use Rattle.laws.specs.Lists.{every};
ghost use Rattle.uri.specs.Classes.{is_of};
ghost use Rattle.uri.specs.Host.{is_octet, is_iPv4, is_hex4, is_iPv6, is_reference};
ghost use Rattle.uri.specs.Groups.{told, stepped, may_end};

use crate::classes::Class;
use text::class::ByteSet;

// Where an IPv6 address stands between two groups. `Wrong` is a place among them: no group leads out of it.
#[derive(Clone, Copy)]
pub enum Place {
    Begin,
    Front,
    Behind,
    Gap,
    After,
    Closed,
    Wrong,
}

// Whether a text is bytes of a class, one or more and at most so many.
fn is_run(p: &[u8], most: usize, class: Class) -> bool
    ensures { result ≡ (leb 1 (length p.now) && (leb (length p.now) most && every (is_of class) p.now)) }
{
    !p.is_empty() && p.len() <= most && p.iter().all(|b| class.has(*b))
}

// Whether a text is one to three digits.
#[tactic(auto, using(crate::proofs::OctetLaws::octet_is))]
fn is_octet(p: &[u8]) -> bool
    ensures { result ≡ is_octet p.now }
{
    is_run(p, 3, Class::Digit)
}

// Whether a text is four such numbers with dots between them.
pub fn is_ipv4(s: &[u8]) -> bool
    ensures { result ≡ is_iPv4 s.now }
{
    let mut left: u8 = 4;
    for p in s.split(|b| *b == b'.') {
        if left == 0 || !is_octet(p) {
            return false;
        }
        left -= 1;
    }
    left == 0
}

// Whether a text is one to four hex digits.
#[tactic(auto, unfolding(crate::specs::Host::is_hex4))]
fn is_hex4(p: &[u8]) -> bool
    ensures { result ≡ is_hex4 p.now }
{
    is_run(p, 4, Class::Hex)
}

// Behind an empty group the first, behind a hex4 the second, and otherwise it is wrong.
#[tactic(auto, unfolding(laws::specs::Lists::empty))]
fn tell(p: &[u8], a: Place, b: Place) -> Place
    ensures { result ≡ told p.now a b }
{
    if p.is_empty() {
        a
    } else if is_hex4(p) {
        b
    } else {
        Place::Wrong
    }
}

// Where one group more leads.
#[tactic(auto, unfolding(crate::specs::Groups::stepped))]
fn step(at: Place, p: &[u8]) -> Place
    ensures { result ≡ stepped at p.now }
{
    match at {
        Place::Begin => tell(p, Place::Front, Place::Behind),
        Place::Front => tell(p, Place::Gap, Place::Wrong),
        Place::Behind => tell(p, Place::Gap, Place::Behind),
        Place::Gap => tell(p, Place::Closed, Place::After),
        Place::After => tell(p, Place::Wrong, Place::After),
        Place::Closed | Place::Wrong => Place::Wrong,
    }
}

// Whether an address may end there.
#[tactic(auto, unfolding(crate::specs::Groups::may_end))]
fn may_end(at: Place) -> bool
    ensures { result ≡ may_end at }
{
    matches!(at, Place::Behind | Place::After | Place::Closed)
}

// Whether a text is an IPv6 address: its groups lead to a place where it may end, or the last one is an IPv4 address behind such a place.
pub fn is_ipv6(s: &[u8]) -> bool
    ensures { result ≡ is_iPv6 s.now }
{
    let mut at = Place::Begin;
    let mut before = at;
    let mut last = s;
    for p in s.split(|b| *b == b':') {
        before = at;
        last = p;
        at = step(at, p);
    }
    may_end(at) || is_ipv4(last) && may_end(before)
}

// Whether a text is an IPv6 address in brackets.
#[tactic(auto, using(crate::proofs::GroupLaws::reference_short, crate::proofs::GroupLaws::reference_other, crate::proofs::GroupLaws::reference_bare, crate::proofs::GroupLaws::reference_is), unfolding(laws::specs::Lists::part))]
pub fn is_reference(s: &[u8]) -> bool
    ensures { result ≡ is_reference s.now }
{
    match s {
        [b'[', inner @ .., b']'] => is_ipv6(inner),
        _ => false,
    }
}
