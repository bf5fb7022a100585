// Addresses: which are well formed, how a record holds one, and when a text is that address.
ghost use Rattle.std.specs.Prelude.{◌≡◌, not, ◌≤◌, eqb, length, drop, slice_index};
ghost use Rattle.laws.specs.Lists.{every, same};
ghost use Rattle.text.specs.Runs.{front};
ghost use Rattle.record.specs.Address.{is_address, padded, has_address, same_address};

use crate::Record;
use text::class::Kind;

// Whether every byte from a position on is zero. It does not stop at the first that is not, so that the compiler can take sixteen at a time.
#[tactic(auto, using(std::proofs::lemmas::Grind::common_steps, crate::proofs::AddressLaws::or_zero))]
fn is_zero_from(s: &[u8], from: usize) -> bool
    requires { from ≤ length s.now }
    ensures { result ≡ every (eqb 0) (drop from s.now) }
{
    s[from..].iter().fold(0, |all, b| all | *b) == 0
}

// Whether a text is an address: 1 to 64 bytes, each 33 to 126.
#[tactic(auto, using(crate::proofs::AddressLaws::address_none, crate::proofs::AddressLaws::address_long, crate::proofs::AddressLaws::address_run))]
pub fn is_address(a: &[u8]) -> bool
    ensures { result ≡ is_address a.now }
{
    1 <= a.len() && a.len() <= 64 && text::runs::past(a, 0, Kind::Visible) == a.len()
}

// An address in its 64 bytes, zero past its end.
pub fn padded_address(a: &[u8]) -> [u8; 64]
    requires { length a.now ≤ 64 }
    ensures { result ≡ padded a.now }
{
    let mut bytes = [0u8; 64];
    text::put::put(&mut bytes, 0, a);
    bytes
}

// Whether the address of a record is well formed, and zero past its end.
#[tactic(auto, using(crate::proofs::AddressLaws::address_seen, text::proofs::RunLaws::past_within))]
pub fn has_address(r: &Record) -> bool
    ensures { result ≡ has_address r.now }
{
    // Copied first: with a reference into the record all of it is copied.
    let address = r.address;
    let n = text::runs::past(&address, 0, Kind::Visible);
    0 < n && is_zero_from(&address, n)
}

// The byte at a position; 0 past the end.
fn byte_or_zero(s: &[u8], i: usize) -> u8
    ensures { result ≡ slice_index s.now i }
{
    s.get(i).copied().unwrap_or(0)
}

// Whether a text is the address that a record's 64 bytes hold, up to their first zero.
#[tactic(auto, using(crate::proofs::CompareLaws::held_end))]
pub fn is_held(a: &[u8], held: &[u8]) -> bool
    ensures { result ≡ same_address a.now (front (λ b. not (eqb b 0)) held.now) }
{
    for (i, b) in a.iter().enumerate() {
        let h = byte_or_zero(held, i);
        if h == 0 || *b != h {
            return false;
        }
    }
    byte_or_zero(held, a.len()) == 0
}

// Whether two addresses have the same 64 bytes. `==` of arrays stops nowhere: it takes sixteen bytes at a time.
#[tactic(auto, using(crate::proofs::CompareLaws::same_pointwise))]
pub fn same_bytes(a: &[u8; 64], b: &[u8; 64]) -> bool
    ensures { result ≡ same a.now b.now }
{
    a == b
}
