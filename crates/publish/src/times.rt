// The package of a request, and the time that it asks for and is granted.
ghost use Rattle.std.specs.Prelude.{◌≡◌};
ghost use Rattle.record.specs.Packages.{package_at};
ghost use Rattle.record.specs.Places.{smaller};
ghost use Rattle.publish.specs.Refusals.{event_of, requested};

use record::packages;
use request::Request;
use request::names::Name;

// The number of the request's package; 3 where it is not listed.
#[tactic(auto, unfolding(crate::specs::Refusals::event_of))]
pub fn event_of(q: Request<'_>) -> u8
    ensures { result ≡ event_of q.entry.text.now q.entry.head }
{
    packages::package_named(q.event_text())
}

// The time requested of the package: Expires, or the default without it.
#[tactic(auto, using(crate::proofs::TimeLaws::expires_most), unfolding(crate::specs::Refusals::requested, text::specs::Number::value_or))]
pub fn requested_time(event: u8, q: Request<'_>) -> u32
    requires { event ≡ event_of q.text.now q.head }
    ensures { result ≡ requested q.entry.text.now q.entry.head }
{
    if q.head.lacks(Name::Expires) {
        return packages::default_of(event);
    }
    match q.expires() {
        Some(n) => n as u32,
        None => 0,
    }
}

// The time granted: the smaller of that and the package's most.
#[tactic(auto, unfolding(record::specs::Places::smaller))]
pub fn granted_time(event: u8, requested: u32) -> u32
    ensures { result ≡ smaller requested (package_at event).most }
{
    requested.min(packages::most_of(event))
}
