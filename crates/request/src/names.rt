// The names that we read, in either case, full and compact.
#![tactic(auto, unfolding(text::specs::All::all_text, crate::specs::All::all_request))]

ghost use Rattle.std.specs.Prelude.{◌≡◌, [], ◌∷◌, drop};
ghost use Rattle.laws.specs.Lists.{place_of};
ghost use Rattle.text.specs.Names.{is_named};
ghost use Rattle.request.specs.Names.{spellings, name_number, number_of};

use text::names::same_text;

// The names.
#[derive(Clone, Copy)]
pub enum Name {
    Via,
    From,
    To,
    CallId,
    CSeq,
    ContentType,
    ContentLength,
    Event,
    Expires,
    SipIfMatch,
}

// The number of a name, which is its place among those seen.
pub fn number(name: Name) -> usize
    ensures { result ≡ number_of name }
{
    name as usize
}

// Whether the text is one of two spellings.
fn spells(t: &[u8], full: &[u8], compact: &[u8]) -> bool
    ensures { result ≡ is_named (full.now ∷ compact.now ∷ []) t.now }
{
    same_text(t, full) || same_text(t, compact)
}

// The number of the name that a text spells, among the last five, counted from 0; 5 where it is none of them.
// By ifs: a table of the spellings would be more read-only data (docs/COST.md). In two functions: in one the proof did not close.
fn late_number(t: &[u8]) -> usize
    ensures { result ≡ place_of (λ n. is_named n t.now) (drop 5 spellings) }
{
    if spells(t, b"Content-Type", b"c") {
        0
    } else if spells(t, b"Content-Length", b"l") {
        1
    } else if spells(t, b"Event", b"o") {
        2
    } else if same_text(t, b"Expires") {
        3
    } else if same_text(t, b"SIP-If-Match") {
        4
    } else {
        5
    }
}

// The number of the name that a text spells; 10 where it is none of ours: the eleventh of those seen is for any other name.
pub fn name_number(t: &[u8]) -> usize
    ensures { result ≡ name_number t.now }
{
    if spells(t, b"Via", b"v") {
        0
    } else if spells(t, b"From", b"f") {
        1
    } else if spells(t, b"To", b"t") {
        2
    } else if spells(t, b"Call-ID", b"i") {
        3
    } else if same_text(t, b"CSeq") {
        4
    } else {
        5 + late_number(t)
    }
}
