// Table addresses, and when a URI is one of them.
ghost use Rattle.std.specs.Prelude.{◌≡◌, ◌&&◌, []};
ghost use Rattle.std.specs.Bool.{then_some};
ghost use Rattle.laws.specs.Choose.{pick};
ghost use Rattle.laws.specs.Lists.{part, same};
ghost use Rattle.text.specs.Names.{same_text};
ghost use Rattle.uri.specs.Escapes.{normal};
ghost use Rattle.uri.specs.Read.{ends_of, has_user, parts_of};
ghost use Rattle.uri.specs.Address.{is_table_address, same_address, same_written, is_open};
ghost use Rattle.uri.specs.Key.{key_of};

use crate::classes::Class;
use crate::pieces::Piece;
use crate::reading::{Ends, Split};
use crate::{escapes, reading};
use text::names::same_text;
use text::part::part_of;
use text::runs::{are_same, past, stands_at};

// The ends of a table address: 1 to 64 bytes, a URI, no parameters, no headers.
#[tactic(auto, unfolding(crate::specs::Address::is_table_address, crate::specs::Address::is_bare, crate::specs::Parts::reading_of))]
fn tabled(a: &[u8]) -> Option<Ends>
    ensures { result ≡ then_some (is_table_address a.now) (ends_of a.now) }
{
    if a.is_empty() || 64 < a.len() {
        return None;
    }
    reading::read(a).ok().filter(|e| e.port == a.len())
}

// Whether a text is a table address.
pub fn is_table_address(a: &[u8]) -> bool
    ensures { result ≡ is_table_address a.now }
{
    tabled(a).is_some()
}

impl<'a> Split<'a> {
    // A part of a userinfo; empty where there is none.
    fn in_userinfo(self, a: usize, b: usize) -> &'a [u8]
        ensures { result.now ≡ pick (has_user self.entry.text.now self.entry.ends) (part self.entry.text.now a b) [] }
    {
        if !self.has_user() {
            return &[];
        }
        part_of(self.text, a, b)
    }

    // Whether host and port are the same, the host in either case.
    #[tactic(auto, unfolding(crate::specs::Read::parts_of))]
    fn same_place(self, other: Split) -> bool
        ensures { result ≡ (same_text (parts_of self.entry.text.now self.entry.ends).host (parts_of other.entry.text.now other.entry.ends).host
            && same (parts_of self.entry.text.now self.entry.ends).port (parts_of other.entry.text.now other.entry.ends).port) }
    {
        let (e, f) = (self.ends, other.ends);
        same_text(
            part_of(self.text, e.start, e.host),
            part_of(other.text, f.start, f.host),
        ) && are_same(
            part_of(self.text, e.host, e.port),
            part_of(other.text, f.host, f.port),
        )
    }

    // Whether user and password are the same, an escape being what it stands for.
    #[tactic(auto, unfolding(crate::specs::Read::parts_of))]
    fn same_users(self, other: Split) -> bool
        ensures { result ≡ (same (normal (parts_of self.entry.text.now self.entry.ends).user) (normal (parts_of other.entry.text.now other.entry.ends).user)
            && same (normal (parts_of self.entry.text.now self.entry.ends).password) (normal (parts_of other.entry.text.now other.entry.ends).password)) }
    {
        let (e, f) = (self.ends, other.ends);
        escapes::same_normal(
            self.in_userinfo(e.scheme, e.user),
            other.in_userinfo(f.scheme, f.user),
        ) && escapes::same_normal(
            self.in_userinfo(e.user, e.password),
            other.in_userinfo(f.user, f.password),
        )
    }

    // Whether scheme, user, password, host and port are the same.
    #[tactic(auto, unfolding(crate::specs::Read::parts_of, crate::specs::Address::same_written))]
    fn same_written(self, other: Split) -> bool
        ensures { result ≡ same_written (parts_of self.entry.text.now self.entry.ends) (parts_of other.entry.text.now other.entry.ends) }
    {
        same_text(
            part_of(self.text, 0, self.ends.scheme),
            part_of(other.text, 0, other.ends.scheme),
        ) && self.same_users(other)
            && self.same_place(other)
    }

    // Whether a URI has no headers, and its parameters may all stand alone.
    #[tactic(auto, using(crate::proofs::AddressLaws::open_headers, crate::proofs::AddressLaws::open_each), unfolding(crate::specs::Read::parameters_of))]
    fn is_open(self) -> bool
        ensures { result ≡ is_open (parts_of self.entry.text.now self.entry.ends) }
    {
        let (s, e) = (self.text, self.ends);
        !stands_at(s, e.parameters, b'?')
            && reading::pieces_fit(s, e.port, b';', e.parameters, b';', Piece::Loose)
    }
}

// Whether a text is that table address.
#[tactic(auto, using(crate::proofs::AddressLaws::same_not, crate::proofs::AddressLaws::same_unread))]
pub fn is_same(s: &[u8], a: &[u8]) -> bool
    ensures { result ≡ same_address s.now a.now }
{
    let Some(f) = tabled(a) else {
        return false;
    };
    let Ok(e) = reading::read(s) else {
        return false;
    };
    let uri = Split { text: s, ends: e };
    let address = Split { text: a, ends: f };
    uri.same_written(address) && uri.is_open()
}

// The number of a URI's user.
#[tactic(auto, using(crate::proofs::AddressLaws::key_none), unfolding(crate::specs::Key::key_of, crate::specs::Read::parts_of, crate::specs::Read::has_user, crate::specs::Read::ends_of, crate::specs::Read::user_end, crate::specs::Read::password_end, crate::specs::Key::weighed, crate::specs::Escapes::normal))]
pub fn key_of(s: &[u8]) -> u32
    ensures { result ≡ key_of s.now }
{
    if s.is_empty() {
        return 0;
    }
    let scheme = reading::scheme_end(s);
    let user = past(s, scheme, Class::User);
    let password = reading::behind_colon(s, user, Class::Password);
    if !stands_at(s, password, b'@') {
        return 0;
    }
    escapes::weight(part_of(s, scheme, user))
}
