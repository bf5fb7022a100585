// The packages: constant arrays by package number.
ghost use Rattle.std.specs.Prelude.{◌≡◌, slice_index};
ghost use Rattle.text.specs.Names.{same_text};
ghost use Rattle.record.specs.Packages.{package_at, package_named, is_listed};

const LEAST: [u32; 3] = [60, 300, 60];

const DEFAULT: [u32; 3] = [3600, 3600, 600];

const MOST: [u32; 3] = [3600, 7200, 3600];

// What a row of times has for a package; 0 where it is not listed.
fn of_three(row: &[u32; 3], event: u8) -> u32
    ensures { result ≡ slice_index row.now event }
{
    row.get(usize::from(event)).copied().unwrap_or(0)
}

// Whether a package is listed under that number.
#[tactic(auto, unfolding(crate::specs::Packages::is_listed, crate::specs::Packages::packages))]
pub fn is_listed(event: u8) -> bool
    ensures { result ≡ is_listed event }
{
    event < 3
}

// The least time of a package; 0 where it is not listed.
#[tactic(auto, unfolding(crate::specs::Packages::package_at, crate::specs::Packages::packages))]
pub fn least_of(event: u8) -> u32
    ensures { result ≡ (package_at event).least }
{
    of_three(&LEAST, event)
}

// The default time of a package; 0 where it is not listed.
#[tactic(auto, unfolding(crate::specs::Packages::package_at, crate::specs::Packages::packages))]
pub fn default_of(event: u8) -> u32
    ensures { result ≡ (package_at event).default }
{
    of_three(&DEFAULT, event)
}

// The most time of a package; 0 where it is not listed.
#[tactic(auto, unfolding(crate::specs::Packages::package_at, crate::specs::Packages::packages))]
pub fn most_of(event: u8) -> u32
    ensures { result ≡ (package_at event).most }
{
    of_three(&MOST, event)
}

// The number of the package of that name; 3 where none has it.
#[tactic(auto, unfolding(crate::specs::Packages::package_named, crate::specs::Packages::packages, laws::specs::Lists::place_of))]
pub fn package_named(name: &[u8]) -> u8
    ensures { result ≡ package_named name.now }
{
    if text::runs::are_same(name, b"presence") {
        0
    } else if text::runs::are_same(name, b"message-summary") {
        1
    } else if text::runs::are_same(name, b"dialog") {
        2
    } else {
        3
    }
}

// Whether a text is the content type of a package, in either case; an empty one where it is not listed.
#[tactic(auto, unfolding(crate::specs::Packages::package_at, crate::specs::Packages::packages))]
pub fn is_type_of(event: u8, t: &[u8]) -> bool
    ensures { result ≡ same_text t.now (package_at event).type }
{
    match event {
        0 => text::names::same_text(t, b"application/pidf+xml"),
        1 => text::names::same_text(t, b"application/simple-message-summary"),
        2 => text::names::same_text(t, b"application/dialog-info+xml"),
        _ => text::names::same_text(t, b""),
    }
}
