// A line of the listing, or the two that the witness has in its place where it reads state.
ghost use Rattle.std.specs.Prelude.{◌+◌, ◌≤◌, length};
ghost use Rattle.laws.specs.Wrote.{Wrote};
ghost use Rattle.listing.specs.Listing.{field_text, outcome_text};
ghost use Rattle.response.specs.declared.Outcome.TheVariants.{Refused, Granted};
ghost use Rattle.frames.specs.Shown.{shown_text, line_text};

use crate::{readout, words};
use response::{Field, Outcome};
use table::State;
use text::{digits, put};

// What came of a line: the result of adding, the outcome of a request, the state that was read with the length of the default body, or that
// it was not so built.
#[derive(Clone, Copy)]
pub enum Shown {
    Added(u8),
    Answered(Outcome),
    Read(State, usize),
    Bad,
}

// Puts Min-Expires or Retry-After, or -.
#[tactic(auto, unfolding(listing::specs::Listing::field_text))]
fn put_field(buf: &mut [u8], at: usize, f: Field) -> usize
    requires { at + 20 ≤ length buf.old }
    ensures { Wrote buf.old at (field_text f) buf.new result }
{
    match f {
        Field::MinExpires(least) => digits::put_decimal(buf, at, u64::from(least)),
        Field::RetryAfter(seconds) => digits::put_decimal(buf, at, seconds),
        Field::Nothing | Field::Allow | Field::AllowEvents | Field::Accept(_) => {
            put::put(buf, at, b"-")
        }
    }
}

// Puts a status, - for the tag, and the field's number.
#[tactic(auto, using(response::proofs::MessageLaws::in_a_row, text::proofs::DigitLaws::decimal_twenty), unfolding(listing::specs::Listing::outcome_text))]
fn put_refused(buf: &mut [u8], at: usize, status: u16, f: Field) -> usize
    requires { at + 43 ≤ length buf.old }
    ensures { Wrote buf.old at (outcome_text (Refused status f)) buf.new result }
{
    let p = digits::put_decimal(buf, at, u64::from(status));
    let q = put::put(buf, p, b" - ");
    put_field(buf, q, f)
}

// Puts 200, the tag, and the time granted.
#[tactic(auto, using(response::proofs::MessageLaws::in_a_row, text::proofs::DigitLaws::eight_length), unfolding(listing::specs::Listing::outcome_text, tag::specs::Written::tag_text))]
fn put_granted(buf: &mut [u8], at: usize, tag: u32, time: u32) -> usize
    requires { at + 33 ≤ length buf.old }
    ensures { Wrote buf.old at (outcome_text (Granted tag time)) buf.new result }
{
    let p = put::put(buf, at, b"200 ");
    let q = digits::put_eight(buf, p, tag);
    let e = put::put(buf, q, b" ");
    digits::put_decimal(buf, e, u64::from(time))
}

// Puts what an outcome says.
#[tactic(auto, unfolding(listing::specs::Listing::outcome_text))]
fn put_outcome(buf: &mut [u8], at: usize, o: Outcome) -> usize
    requires { at + 43 ≤ length buf.old }
    ensures { Wrote buf.old at (outcome_text o) buf.new result }
{
    match o {
        Outcome::Silent(n) => words::put_word(buf, at, b"none ", u64::from(n)),
        Outcome::Refused(status, field) => put_refused(buf, at, status, field),
        Outcome::Granted(tag, time) => put_granted(buf, at, tag, time),
    }
}

// Puts what is shown of a line.
#[tactic(auto, unfolding(crate::specs::Shown::shown_text))]
fn put_shown(buf: &mut [u8], at: usize, s: Shown) -> usize
    requires { at + 81 ≤ length buf.old }
    ensures { Wrote buf.old at (shown_text s) buf.new result }
{
    match s {
        Shown::Added(n) => words::put_word(buf, at, b"add ", u64::from(n)),
        Shown::Answered(o) => put_outcome(buf, at, o),
        Shown::Read(s, n) => readout::put_read(buf, at, n, s),
        Shown::Bad => put::put(buf, at, b"bad"),
    }
}

// Puts a line of the listing: its number, and what is shown.
#[tactic(auto, using(response::proofs::MessageLaws::in_a_row, text::proofs::DigitLaws::decimal_twenty, crate::proofs::TextLaws::shown_most), unfolding(crate::specs::Shown::line_text))]
pub fn put_line(buf: &mut [u8], nth: u64, s: Shown) -> usize
    requires { 103 ≤ length buf.old }
    ensures { Wrote buf.old 0 (line_text nth s) buf.new result }
{
    let p = digits::put_decimal(buf, 0, nth);
    let q = put::put(buf, p, b" ");
    let e = put_shown(buf, q, s);
    put::put(buf, e, b"\n")
}
