// The names of parameters that make two URIs differ where only one of them has it.
ghost use Rattle.std.specs.Prelude.{◌≡◌};
ghost use Rattle.laws.specs.Lists.{same};
ghost use Rattle.text.specs.Names.{lower};
ghost use Rattle.uri.specs.Escapes.{folded};
ghost use Rattle.uri.specs.Alike.{name_of, is_loose};

use crate::escapes::Units;

// A capital as its small letter, anything else as it is.
#[tactic(auto, unfolding(text::specs::Names::lower))]
fn small_unit(v: u16) -> u16
    ensures { result ≡ lower v }
{
    match u8::try_from(v) {
        Ok(b) => u16::from(text::names::small(b)),
        Err(_) => v,
    }
}

// Whether a parameter has that name, in either case and with its escapes as what they stand for.
fn is_named(p: &[u8], name: &[u8]) -> bool
    ensures { result ≡ same (name_of (folded p.now)) name.now }
{
    Units { rest: p }
        .map(small_unit)
        .take_while(|v| *v != u16::from(b'='))
        .eq(name.iter().map(|b| u16::from(*b)))
}

// Whether a parameter may stand in one URI alone.
#[tactic(auto, unfolding(crate::specs::Alike::is_loose, crate::specs::Alike::telling, laws::specs::Lists::any))]
pub fn is_loose(p: &[u8]) -> bool
    ensures { result ≡ is_loose (folded p.now) }
{
    !is_named(p, b"transport")
        && !is_named(p, b"user")
        && !is_named(p, b"ttl")
        && !is_named(p, b"method")
        && !is_named(p, b"maddr")
}
