// The status line of a message: SIP/2.0, code and phrase, one space between.
ghost use Rattle.std.specs.Prelude.{◌≡◌, ◌+◌, ◌≤◌, length};
ghost use Rattle.laws.specs.Wrote.{Wrote};
ghost use Rattle.response.specs.Outcomes.{status_of, phrase_of};
ghost use Rattle.response.specs.Message.{status_line};

use crate::Outcome;

// The status of the message; 0 where there is none.
#[tactic(auto, unfolding(crate::specs::Outcomes::status_of))]
pub fn status_of(o: Outcome) -> u16
    ensures { result ≡ status_of o }
{
    match o {
        Outcome::Silent(_) => 0,
        Outcome::Refused(status, _) => status,
        Outcome::Granted(_, _) => 200,
    }
}

// Puts the phrase of a code; nothing where it has none.
// An arm each: a function that gives the text was tried, and takes 67 bytes more of read-only data (docs/COST.md).
#[tactic(auto, using(laws::proofs::Wrote::wrote_none, std::proofs::lemmas::Bool::Decides::nat_tests), unfolding(crate::specs::Outcomes::phrase_of, crate::specs::Outcomes::phrases, crate::specs::Outcomes::phrase_in))]
fn put_phrase(buf: &mut [u8], at: usize, code: u16) -> usize
    requires { at + 26 ≤ length buf.old }
    ensures { Wrote buf.old at (phrase_of code) buf.new result }
{
    match code {
        200 => text::put::put(buf, at, b"OK"),
        400 => text::put::put(buf, at, b"Bad Request"),
        404 => text::put::put(buf, at, b"Not Found"),
        405 => text::put::put(buf, at, b"Method Not Allowed"),
        412 => text::put::put(buf, at, b"Conditional Request Failed"),
        413 => text::put::put(buf, at, b"Request Entity Too Large"),
        415 => text::put::put(buf, at, b"Unsupported Media Type"),
        423 => text::put::put(buf, at, b"Interval Too Brief"),
        489 => text::put::put(buf, at, b"Bad Event"),
        500 => text::put::put(buf, at, b"Server Internal Error"),
        503 => text::put::put(buf, at, b"Service Unavailable"),
        _ => at,
    }
}

// Puts the status line.
#[tactic(auto, using(crate::proofs::MessageLaws::in_a_row, text::proofs::DigitLaws::decimal_twenty, crate::proofs::FitsLaws::phrase_fits), unfolding(crate::specs::Message::status_line))]
pub fn put_status_line(buf: &mut [u8], at: usize, code: u16) -> usize
    requires { at + 57 ≤ length buf.old }
    ensures { Wrote buf.old at (status_line code) buf.new result }
{
    let p = text::put::put(buf, at, b"SIP/2.0 ");
    let q = text::digits::put_decimal(buf, p, u64::from(code));
    let t = text::put::put(buf, q, b" ");
    let e = put_phrase(buf, t, code);
    text::put::put(buf, e, b"\r\n")
}
