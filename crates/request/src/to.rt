// Whether a To value has a tag.
ghost use Rattle.std.specs.Prelude.{◌≡◌, ◌≢◌, true, false, MatchOption};
ghost use Rattle.laws.specs.Choose.{pick};
ghost use Rattle.request.specs.declared.Quote.TheVariants.{Outside};
ghost use Rattle.request.specs.declared.ToValue.TheVariants.{Tagged, Untagged};
ghost use Rattle.request.specs.To.{next_quote, shown_in, outside_quotes, quotes_close, has, behind_first, is_tag, some_tag, to_value};

use crate::{Quote, ToValue};
use text::class::Kind;
use text::runs::{past, stands_at};

// How the byte after this one stands to quotes.
#[tactic(auto, unfolding(crate::specs::To::next_quote))]
fn next_quote(q: Quote, b: u8) -> Quote
    ensures { result ≡ next_quote q b }
{
    match (q, b) {
        (Quote::Outside, b'"') => Quote::Inside,
        (Quote::Outside, _) => Quote::Outside,
        (Quote::Inside, b'"') => Quote::Outside,
        (Quote::Inside, b'\\') => Quote::Covered,
        (Quote::Inside | Quote::Covered, _) => Quote::Inside,
    }
}

// A byte as it counts: one that stands in quotes counts as a quote mark.
#[tactic(auto, unfolding(crate::specs::To::shown_in))]
fn shown_in(q: Quote, b: u8) -> u8
    ensures { result ≡ shown_in q b }
{
    match q {
        Quote::Outside => b,
        Quote::Inside | Quote::Covered => b'"',
    }
}

// Whether no quote is open at the end.
#[tactic(auto, using(crate::proofs::ToLaws::closes), unfolding(crate::specs::To::is_outside))]
fn quotes_close(v: &[u8]) -> bool
    ensures { result ≡ quotes_close Outside v.now }
{
    let mut q = Quote::Outside;
    for b in v {
        q = next_quote(q, *b);
    }
    q == Quote::Outside
}

// The text behind the first such byte outside quotes, which is no quote mark; nothing where there is none.
#[tactic(auto, using(crate::proofs::ToLaws::walk))]
fn behind_first(v: &[u8], b: u8) -> Option<&[u8]>
    requires { b ≢ 34 }
    ensures { MatchOption result (has b (outside_quotes Outside v.now) ≡ false)
        (λ r. (has b (outside_quotes Outside v.now) ≡ true) × (outside_quotes Outside r.now ≡ behind_first b (outside_quotes Outside v.now))) }
{
    let mut q = Quote::Outside;
    for (i, x) in v.iter().enumerate() {
        if shown_in(q, *x) == b {
            return Some(&v[i + 1..]);
        }
        q = next_quote(q, *x);
    }
    None
}

// Whether a parameter is named tag, before an equals sign.
#[tactic(auto, using(text::proofs::RunLaws::past_within, crate::proofs::TagLaws::tag_is))]
fn is_tag(p: &[u8]) -> bool
    ensures { result ≡ is_tag p.now }
{
    let name = past(p, 0, Kind::Blank);
    let end = name + 3;
    text::names::same_text(text::part::part_of(p, name, end), b"tag")
        && stands_at(p, past(p, end, Kind::Blank), b'=')
}

// Whether a parameter of a text, which begins outside quotes, is named tag.
#[tactic(auto, using(crate::proofs::TagLaws::steps))]
fn some_tag(v: &[u8]) -> bool
    ensures { result ≡ some_tag (outside_quotes Outside v.now) }
{
    let mut q = Quote::Outside;
    for (i, x) in v.iter().enumerate() {
        if shown_in(q, *x) == b';' && is_tag(&v[i + 1..]) {
            return true;
        }
        q = next_quote(q, *x);
    }
    false
}

// What the parameters of a text say.
fn tag_in(v: &[u8]) -> ToValue
    ensures { result ≡ pick (some_tag (outside_quotes Outside v.now)) Tagged Untagged }
{
    if some_tag(v) {
        ToValue::Tagged
    } else {
        ToValue::Untagged
    }
}

// What a To value says of its tag.
#[tactic(auto, unfolding(crate::specs::To::to_value, crate::specs::To::angle_closes, crate::specs::To::parameter_text))]
pub fn to_value(v: &[u8]) -> ToValue
    ensures { result ≡ to_value v.now }
{
    if !quotes_close(v) {
        return ToValue::Unclosed;
    }
    let Some(address) = behind_first(v, b'<') else {
        return tag_in(v);
    };
    match behind_first(address, b'>') {
        Some(parameters) => tag_in(parameters),
        None => ToValue::Unclosed,
    }
}
