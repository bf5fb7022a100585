// What the first line and the header lines of a request say, read in one pass. The table of classes is made here, once, and lent down.
ghost use Rattle.std.specs.Prelude.{◌≡◌};
ghost use Rattle.text.specs.Class.{class_table};
ghost use Rattle.request.specs.HeaderLines.{header_lines};
ghost use Rattle.request.specs.Head.{not_built, with_headers, head_of};
ghost use Rattle.request.specs.Noted.{noted_once};

use crate::{FirstLine, Head, Line, Request, Seen, first_line, header_line, names};

// What is said of a request that is not built as it must be.
fn not_built() -> Head
    ensures { result ≡ not_built }
{
    Head::default()
}

// A name with one line more: its first line is kept.
#[tactic(auto, unfolding(crate::specs::Noted::noted_once))]
fn noted_once(f: Seen, l: Line) -> Seen
    ensures { result ≡ noted_once f l }
{
    if f.times == 0 {
        Seen { times: 1, line: l }
    } else {
        Seen {
            times: 2,
            line: f.line,
        }
    }
}

// The header lines from a position, at most 64, up to the empty line, behind a first line that is read.
// No header line begins with CR LF, so what ends them is the empty line, or is wrong.
#[tactic(auto, using(crate::proofs::ReadingLaws::going))]
fn header_lines(s: &[u8], first: FirstLine, classes: &[u8; 256]) -> Head
    requires { classes.now ≡ class_table }
    ensures { result ≡ with_headers s.now first.method first.uri (header_lines 64 s.now first.next) }
{
    let mut seen = [Seen::default(); 11];
    let mut at = first.next;
    for _ in 0..64u32 {
        let Some(line) = header_line::header_line(s, at, classes) else {
            break;
        };
        let n = names::name_number(header_line::name_of(s, line));
        seen[n] = noted_once(seen[n], line);
        at = line.end + 2;
    }
    if !first_line::crlf_at(s, at) {
        return not_built();
    }
    Head {
        built: true,
        method: first.method,
        uri: first.uri,
        rest: at + 2,
        seen,
    }
}

// What the first line and the header lines of a request say.
#[tactic(auto, unfolding(crate::specs::Head::head_of, crate::specs::Head::with_first_line))]
pub fn read_head(s: &[u8]) -> Head
    ensures { result ≡ head_of s.now }
{
    let classes = text::class::classes();
    match first_line::first_line(s, &classes) {
        Some(first) => header_lines(s, first, &classes),
        None => not_built(),
    }
}

// A request, with what its head says.
pub fn read(text: &[u8]) -> Request<'_>
    ensures { (result.text.now ≡ text.now) × (result.head ≡ head_of text.now) }
{
    Request {
        text,
        head: read_head(text),
    }
}
