// The lines of the request that a message repeats: all Via lines in their order, then From, To, Call-ID, CSeq.
ghost use Rattle.std.specs.Prelude.{◌≡◌, true, [], ◌∷◌, ◌++◌, ◌+◌, ◌≤◌, ◌<◌, length};
ghost use Rattle.laws.specs.Bytes.{bytes};
ghost use Rattle.laws.specs.Wrote.{Wrote};
ghost use Rattle.text.specs.Digits.{eight_hex};
ghost use Rattle.request.specs.HeaderLines.{bare_line, whole_line, copied};
ghost use Rattle.request.specs.Names.{Via, To, number_of};
ghost use Rattle.request.specs.To.{to_value};
ghost use Rattle.request.specs.Head.{head_of, lines_of, lines_named, once, value_named, is_readable};
ghost use Rattle.response.specs.Outcomes.{crlf};
ghost use Rattle.response.specs.Message.{tagged_line, to_lines, echoed};

use request::names::{self, Name};
use request::{Line, Request, ToValue, header_line};

// Puts a line as it came.
#[tactic(auto, unfolding(request::specs::HeaderLines::whole_line))]
fn put_line(buf: &mut [u8], at: usize, s: &[u8], l: Line) -> usize
    requires { (l.end + 2 ≤ length s.now) × (at + length (whole_line s.now l) ≤ length buf.old) }
    ensures { Wrote buf.old at (whole_line s.now l) buf.new result }
{
    text::put::put(buf, at, text::part::part_of(s, l.start, l.end + 2))
}

// Puts a line as it came if its name is Via.
#[tactic(auto, using(std::proofs::lemmas::Grind::common_steps, laws::proofs::Wrote::wrote_none), unfolding(request::specs::Head::lines_named, laws::specs::Lists::those, request::specs::HeaderLines::copied))]
fn put_if_via(buf: &mut [u8], at: usize, s: &[u8], l: Line) -> usize
    requires { (l.end + 2 ≤ length s.now)
        × (at + length (copied s.now (lines_named Via s.now (l ∷ []))) ≤ length buf.old) }
    ensures { Wrote buf.old at (copied s.now (lines_named Via s.now (l ∷ [])))
        buf.new result }
{
    if names::name_number(header_line::name_of(s, l)) == names::number(Name::Via) {
        put_line(buf, at, s, l)
    } else {
        at
    }
}

// Puts all Via lines in their order: the header lines are gone through once more, up to the empty line.
// A while: each line says where the next begins, and no index is counted.
#[tactic(auto, using(crate::proofs::ViaLaws::line_by_line))]
fn put_vias(buf: &mut [u8], at: usize, q: Request<'_>) -> usize
    requires { (q.head ≡ head_of q.text.now)
        × (q.head.built ≡ true)
        × (at + length (copied q.text.now (lines_named Via q.text.now (lines_of q.text.now))) ≤ length buf.old) }
    ensures { Wrote buf.old at (copied q.entry.text.now (lines_named Via q.entry.text.now (lines_of q.entry.text.now)))
        buf.new result }
{
    let s = q.text;
    let classes = text::class::classes();
    let mut p = at;
    let mut i = q.head.uri + 10;
    while let Some(l) = header_line::header_line(s, i, &classes) {
        p = put_if_via(buf, p, s, l);
        i = l.end + 2;
    }
    p
}

// Puts the one line of a name that stands once.
#[tactic(auto, using(crate::proofs::OnceLaws::noted_once), unfolding(request::specs::HeaderLines::copied))]
fn put_once(buf: &mut [u8], at: usize, q: Request<'_>, name: Name) -> usize
    requires { (q.head ≡ head_of q.text.now)
        × (once (number_of name) q.head ≡ true)
        × (at + length (copied q.text.now (lines_named (number_of name) q.text.now (lines_of q.text.now))) ≤ length buf.old) }
    ensures { Wrote buf.old at (copied q.entry.text.now (lines_named (number_of name) q.entry.text.now (lines_of q.entry.text.now)))
        buf.new result }
{
    put_line(buf, at, q.text, q.head.seen(name).line)
}

// Puts all Via lines: the one where it stands once, otherwise each in turn.
fn put_all_vias(buf: &mut [u8], at: usize, q: Request<'_>) -> usize
    requires { (q.head ≡ head_of q.text.now)
        × (q.head.built ≡ true)
        × (at + length (copied q.text.now (lines_named Via q.text.now (lines_of q.text.now))) ≤ length buf.old) }
    ensures { Wrote buf.old at (copied q.entry.text.now (lines_named Via q.entry.text.now (lines_of q.entry.text.now)))
        buf.new result }
{
    if q.head.has_one(Name::Via) {
        put_once(buf, at, q, Name::Via)
    } else {
        put_vias(buf, at, q)
    }
}

// Puts a line with ";tag=" and eight hex digits of the number added before its CR LF.
#[tactic(auto, using(crate::proofs::MessageLaws::in_a_row, text::proofs::DigitLaws::eight_length), unfolding(request::specs::HeaderLines::bare_line))]
fn put_with_tag(buf: &mut [u8], at: usize, s: &[u8], l: Line, number: u32) -> usize
    requires { at + (length (bare_line s.now l) + 15) ≤ length buf.old }
    ensures { Wrote buf.old at (bare_line s.now l ++ (bytes ";tag=" ++ (eight_hex number ++ crlf)))
        buf.new result }
{
    let p = text::put::put(buf, at, text::part::part_of(s, l.start, l.end));
    let t = text::put::put(buf, p, b";tag=");
    let e = text::digits::put_eight(buf, t, number);
    text::put::put(buf, e, b"\r\n")
}

// Puts a To line: as it came if it has a tag, otherwise with one.
#[tactic(auto, using(crate::proofs::FitsLaws::bare_short), unfolding(crate::specs::Message::tagged_line))]
fn put_to_line(buf: &mut [u8], at: usize, s: &[u8], l: Line, to: ToValue, number: u32) -> usize
    requires { (l.end + 2 ≤ length s.now) × (at + (length (whole_line s.now l) + 15) ≤ length buf.old) }
    ensures { Wrote buf.old at (tagged_line to s.now number l)
        buf.new result }
{
    match to {
        ToValue::Tagged | ToValue::Unclosed => put_line(buf, at, s, l),
        ToValue::Untagged => put_with_tag(buf, at, s, l, number),
    }
}

// Puts the one To line.
#[tactic(auto, using(crate::proofs::OnceLaws::noted_once), unfolding(crate::specs::Message::to_lines, request::specs::Head::value_named, request::specs::HeaderLines::copied))]
fn put_to(buf: &mut [u8], at: usize, q: Request<'_>, to: ToValue, number: u32) -> usize
    requires { (q.head ≡ head_of q.text.now)
        × (to ≡ to_value (value_named To q.text.now q.head))
        × (once To q.head ≡ true)
        × (at + (length (copied q.text.now (lines_named To q.text.now (lines_of q.text.now))) + 15) ≤ length buf.old) }
    ensures { Wrote buf.old at (to_lines q.entry.text.now number (lines_named To q.entry.text.now (lines_of q.entry.text.now)))
        buf.new result }
{
    put_to_line(buf, at, q.text, q.head.seen(Name::To).line, to, number)
}

// Puts the lines of the request that a message repeats.
#[tactic(auto, using(crate::proofs::MessageLaws::in_a_row, crate::proofs::FitsLaws::to_fits, request::proofs::BoundLaws::copied_short), unfolding(crate::specs::Message::echoed, request::specs::Head::is_readable, request::specs::Head::stand_as_they_must))]
pub fn put_echoed(buf: &mut [u8], at: usize, q: Request<'_>, to: ToValue, number: u32) -> usize
    requires { (q.head ≡ head_of q.text.now)
        × (to ≡ to_value (value_named To q.text.now q.head))
        × (is_readable q.text.now q.head ≡ true)
        × (at + (length q.text.now + 15) ≤ length buf.old) }
    ensures { Wrote buf.old at (echoed q.entry.text.now (lines_of q.entry.text.now) number)
        buf.new result }
{
    let f = put_all_vias(buf, at, q);
    let t = put_once(buf, f, q, Name::From);
    let i = put_to(buf, t, q, to, number);
    let c = put_once(buf, i, q, Name::CallId);
    put_once(buf, c, q, Name::CSeq)
}
