// The first line of a request.
ghost use Rattle.std.specs.Prelude.{◌≡◌, ◌<◌, length};
ghost use Rattle.text.specs.Class.{class_table};
ghost use Rattle.request.specs.FirstLine.{crlf_at, version_at, first_line};

use crate::FirstLine;
use text::class::{Class, Kind};
use text::runs::{past, past_class, stands_at};

// Whether CR LF stands at a position.
#[tactic(auto, using(crate::proofs::LineLaws::stands_within), unfolding(crate::specs::FirstLine::crlf_at))]
pub fn crlf_at(s: &[u8], i: usize) -> bool
    ensures { result ≡ crlf_at s.now i }
{
    stands_at(s, i, b'\r') && stands_at(s, i + 1, b'\n')
}

// Whether SIP/2.0 and CR LF stand behind the byte at a position.
#[tactic(auto, unfolding(crate::specs::FirstLine::version_at))]
fn version_at(s: &[u8], i: usize) -> bool
    requires { i < length s.now }
    ensures { result ≡ version_at s.now i }
{
    let version = text::part::part_of(s, i + 1, i + 8);
    text::names::same_text(version, b"SIP/2.0") && crlf_at(s, i + 8)
}

// The first line: a token, one space, bytes 33 to 126, one space, SIP/2.0, CR LF.
#[tactic(auto, using(crate::proofs::LineLaws::first_parts), unfolding(crate::specs::FirstLine::first_line, crate::specs::FirstLine::is_first_line))]
pub fn first_line(s: &[u8], classes: &[u8; 256]) -> Option<FirstLine>
    requires { classes.now ≡ class_table }
    ensures { result ≡ first_line s.now }
{
    let method = past_class(s, 0, Class::Token, classes);
    if method == 0 || !stands_at(s, method, b' ') {
        return None;
    }
    let from = method + 1;
    let uri = past(s, from, Kind::Visible);
    if uri == from || !stands_at(s, uri, b' ') || !version_at(s, uri) {
        return None;
    }
    Some(FirstLine {
        method,
        uri,
        next: uri + 10,
    })
}
