// One header line, and its parts.
ghost use Rattle.std.specs.Prelude.{◌≡◌};
ghost use Rattle.text.specs.Class.{class_table};
ghost use Rattle.request.specs.HeaderLines.{header_line, name_of, value_of};

use crate::{Line, first_line};
use text::class::{Class, Kind};
use text::runs::{past, past_class, stands_at};

// The header line at a position: a token, blanks, a colon, value bytes, CR LF.
#[tactic(auto, using(crate::proofs::LineLaws::line_parts), unfolding(crate::specs::HeaderLines::header_line))]
pub fn header_line(s: &[u8], at: usize, classes: &[u8; 256]) -> Option<Line>
    requires { classes.now ≡ class_table }
    ensures { result ≡ header_line s.now at }
{
    let name = past_class(s, at, Class::Token, classes);
    let colon = past(s, name, Kind::Blank);
    if name == at || !stands_at(s, colon, b':') {
        return None;
    }
    let end = past_class(s, colon + 1, Class::Value, classes);
    if !first_line::crlf_at(s, end) {
        return None;
    }
    Some(Line {
        start: at,
        name,
        colon,
        end,
    })
}

// The name of a line.
#[tactic(auto, unfolding(crate::specs::HeaderLines::name_of))]
pub fn name_of(s: &[u8], l: Line) -> &[u8]
    ensures { result.now ≡ name_of s.now l }
{
    text::part::part_of(s, l.start, l.name)
}

// The value of a line, without its outer blanks. Behind the largest number no byte stands, so the sum may end there.
#[tactic(auto, using(crate::proofs::LineLaws::value_saturated), unfolding(crate::specs::HeaderLines::value_of))]
pub fn value_of(s: &[u8], l: Line) -> &[u8]
    ensures { result.now ≡ value_of s.now l }
{
    text::runs::trimmed(text::part::part_of(s, l.colon.saturating_add(1), l.end))
}
