// Texts with escapes: a % and two hex digits. They are read in place.
ghost use Rattle.std.specs.Prelude.{◌≡◌, ◌&&◌, ◌+◌, ◌<◌, length, drop, IfSome, ⊤};
ghost use Rattle.std.specs.Iterator.{MakesProgress, YieldsFirst, item_count};
ghost use Rattle.laws.specs.Lists.{byte_at, same};
ghost use Rattle.text.specs.Digits.{hex_value};
ghost use Rattle.uri.specs.Classes.{is_hex};
ghost use Rattle.uri.specs.Escapes.{escapes_whole, escaped_byte, normal};
ghost use Rattle.uri.specs.Units.{unit_at, units_left};
ghost use Rattle.uri.specs.Key.{weighed};

use crate::classes::Class;
use text::class::ByteSet;

// What stands at a position for one byte of the normal text, and where the next begins.
#[derive(Clone, Copy)]
pub struct Unit {
    pub value: u16,
    pub next: usize,
}

// The normal text, number by number: an escape is what it stands for, any other byte is itself. A reserved escape is told from its byte by
// 256 more and not by a kind: the definitions (normal, escaped_byte) compare numbers.
#[derive(Drop)]
pub struct Units<'a> {
    pub rest: &'a [u8],
}

impl<'a> Iterator for Units<'a> {
    type Item = u16;

    ghost next_gives = { YieldsFirst units_left };

    ghost remaining = { item_count units_left };

    // The unit that stands first. What is left begins where that says.
    fn next(&mut self) -> Option<u16>
        ensures steps { YieldsFirst units_left self.old result self.new }
        ensures goes { MakesProgress (λ _. ⊤) (item_count units_left) self.old result self.new }
        ensures left { IfSome result (λ _. self.new.rest.now ≡ drop (unit_at self.old.rest.now 0).next self.old.rest.now) }
    {
        if self.rest.is_empty() {
            return None;
        }
        let u = unit_at(self.rest, 0);
        self.rest = &self.rest[u.next..];
        Some(u.value)
    }
}

// Whether a hex digit stands at a position.
#[tactic(auto, using(crate::proofs::UnitLaws::hex_there, crate::proofs::UnitLaws::hex_past))]
fn hex_at(s: &[u8], i: usize) -> bool
    ensures { result ≡ is_hex (byte_at s.now i) }
{
    match s.get(i) {
        Some(b) => Class::Hex.has(*b),
        None => false,
    }
}

// Whether two hex digits stand behind a position.
fn two_behind(s: &[u8], i: usize) -> bool
    requires { i < length s.now }
    ensures { result ≡ (is_hex (byte_at s.now (i + 1)) && is_hex (byte_at s.now (i + 2))) }
{
    hex_at(s, i + 1) && hex_at(s, i + 2)
}

// Whether every % begins an escape.
#[tactic(auto, using(crate::proofs::WholeLaws::whole_plain, crate::proofs::WholeLaws::whole_escape, crate::proofs::WholeLaws::whole_end))]
pub fn escapes_whole(s: &[u8]) -> bool
    ensures { result ≡ escapes_whole s.now }
{
    for (i, b) in s.iter().enumerate() {
        if *b == b'%' && !two_behind(s, i) {
            return false;
        }
    }
    true
}

// The value of a hex digit; 16 where the byte is none, as the definition hex_value has it.
#[tactic(auto, using(crate::proofs::EscapedLaws::hex_told))]
fn digit(b: u8) -> u16
    ensures { result ≡ hex_value b }
{
    u16::from(text::digits::hex_value(b).unwrap_or(16))
}

// What an escape of two digits stands for: the byte, or 256 above it where it is reserved.
#[tactic(auto, using(crate::proofs::EscapedLaws::hex_most, crate::proofs::EscapedLaws::above_bare), unfolding(crate::specs::Escapes::escaped_byte))]
fn escaped_byte(y: u8, z: u8) -> u16
    ensures { result ≡ escaped_byte y z }
{
    let b = digit(y) * 16 + digit(z);
    match u8::try_from(b) {
        Ok(byte) if Class::Reserved.has(byte) => 256 + b,
        _ => b,
    }
}

// The unit at a position.
#[tactic(auto, using(crate::proofs::UnitLaws::unit_bare, crate::proofs::UnitLaws::unit_escape))]
pub fn unit_at(s: &[u8], i: usize) -> Unit
    requires { i < length s.now }
    ensures { result ≡ unit_at s.now i }
{
    if s[i] == b'%' && 2 < s.len() - i {
        return Unit {
            value: escaped_byte(s[i + 1], s[i + 2]),
            next: i + 3,
        };
    }
    Unit {
        value: u16::from(s[i]),
        next: i + 1,
    }
}

// Whether two texts are the same once each escape is what it stands for. Both are gone over at once.
pub fn same_normal(s: &[u8], t: &[u8]) -> bool
    ensures { result ≡ same (normal s.now) (normal t.now) }
{
    Units { rest: s }.eq(Units { rest: t })
}

// The number of a text, each escape being what it stands for.
#[tactic(auto, unfolding(crate::specs::Key::weighed))]
pub fn weight(s: &[u8]) -> u32
    ensures { result ≡ weighed 0 (normal s.now) }
{
    let mut k: u32 = 0;
    for u in (Units { rest: s }) {
        k = (k * 31 + u32::from(u)) % 65536;
    }
    k
}
