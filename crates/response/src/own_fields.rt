// The fields of ours: a name, a colon, one space, the value.
ghost use Rattle.std.specs.Prelude.{◌+◌, ◌≤◌, length};
ghost use Rattle.laws.specs.Bytes.{bytes};
ghost use Rattle.laws.specs.Wrote.{Wrote};
ghost use Rattle.text.specs.Digits.{decimal_of};
ghost use Rattle.tag.specs.Written.{tag_text};
ghost use Rattle.record.specs.Packages.{package_at};
ghost use Rattle.response.specs.Outcomes.{our_field, field_line, field_lines};
ghost use Rattle.response.specs.declared.Outcome.TheVariants.{Granted};

use crate::{Field, Outcome};

// Puts a field with a text.
#[tactic(auto, using(crate::proofs::MessageLaws::in_a_row), unfolding(crate::specs::Outcomes::our_field))]
fn put_text_field(buf: &mut [u8], at: usize, name: &[u8], value: &[u8]) -> usize
    requires { at + (length name.now + (length value.now + 4)) ≤ length buf.old }
    ensures { Wrote buf.old at (our_field name.now value.now) buf.new result }
{
    let p = text::put::put(buf, at, name);
    let q = text::put::put(buf, p, b": ");
    let e = text::put::put(buf, q, value);
    text::put::put(buf, e, b"\r\n")
}

// Puts a field with a number in decimal.
#[tactic(auto, using(crate::proofs::MessageLaws::in_a_row, text::proofs::DigitLaws::decimal_twenty), unfolding(crate::specs::Outcomes::our_field))]
fn put_number_field(buf: &mut [u8], at: usize, name: &[u8], n: u64) -> usize
    requires { at + (length name.now + 24) ≤ length buf.old }
    ensures { Wrote buf.old at (our_field name.now (decimal_of n)) buf.new result }
{
    let p = text::put::put(buf, at, name);
    let q = text::put::put(buf, p, b": ");
    let e = text::digits::put_decimal(buf, q, n);
    text::put::put(buf, e, b"\r\n")
}

// Puts the field with a tag.
#[tactic(auto, using(crate::proofs::MessageLaws::in_a_row, text::proofs::DigitLaws::eight_length), unfolding(crate::specs::Outcomes::our_field, tag::specs::Written::tag_text))]
fn put_tag_field(buf: &mut [u8], at: usize, tag: u32) -> usize
    requires { at + 20 ≤ length buf.old }
    ensures { Wrote buf.old at (our_field (bytes "SIP-ETag") (tag_text tag)) buf.new result }
{
    let p = text::put::put(buf, at, b"SIP-ETag: ");
    let e = text::digits::put_eight(buf, p, tag);
    text::put::put(buf, e, b"\r\n")
}

// Puts the field with a package's content type.
// An arm each, as for the phrases: a function that gives the type was tried, and takes 17 bytes more of read-only data.
#[tactic(auto, unfolding(record::specs::Packages::package_at, record::specs::Packages::packages))]
fn put_accept(buf: &mut [u8], at: usize, event: u8) -> usize
    requires { at + 44 ≤ length buf.old }
    ensures { Wrote buf.old at (our_field (bytes "Accept") (package_at event).type) buf.new result }
{
    match event {
        0 => put_text_field(buf, at, b"Accept", b"application/pidf+xml"),
        1 => put_text_field(buf, at, b"Accept", b"application/simple-message-summary"),
        2 => put_text_field(buf, at, b"Accept", b"application/dialog-info+xml"),
        _ => put_text_field(buf, at, b"Accept", b""),
    }
}

// Puts the field of a refusal, or nothing.
#[tactic(auto, using(laws::proofs::Wrote::wrote_none), unfolding(crate::specs::Outcomes::field_line))]
fn put_field_line(buf: &mut [u8], at: usize, f: Field) -> usize
    requires { at + 51 ≤ length buf.old }
    ensures { Wrote buf.old at (field_line f) buf.new result }
{
    match f {
        Field::Nothing => at,
        Field::Allow => put_text_field(buf, at, b"Allow", b"PUBLISH"),
        Field::AllowEvents => put_text_field(
            buf,
            at,
            b"Allow-Events",
            b"presence, message-summary, dialog",
        ),
        Field::MinExpires(least) => put_number_field(buf, at, b"Min-Expires", u64::from(least)),
        Field::Accept(event) => put_accept(buf, at, event),
        Field::RetryAfter(seconds) => put_number_field(buf, at, b"Retry-After", seconds),
    }
}

// Puts SIP-ETag, then Expires (granted).
#[tactic(auto, using(crate::proofs::MessageLaws::in_a_row, crate::proofs::FitsLaws::tag_field_length), unfolding(crate::specs::Outcomes::field_lines))]
fn put_granted(buf: &mut [u8], at: usize, tag: u32, time: u32) -> usize
    requires { at + 51 ≤ length buf.old }
    ensures { Wrote buf.old at (field_lines (Granted tag time)) buf.new result }
{
    let p = put_tag_field(buf, at, tag);
    put_number_field(buf, p, b"Expires", u64::from(time))
}

// Puts the fields of an outcome.
#[tactic(auto, using(laws::proofs::Wrote::wrote_none), unfolding(crate::specs::Outcomes::field_lines))]
pub fn put_field_lines(buf: &mut [u8], at: usize, o: Outcome) -> usize
    requires { at + 51 ≤ length buf.old }
    ensures { Wrote buf.old at (field_lines o) buf.new result }
{
    match o {
        Outcome::Silent(_) => at,
        Outcome::Refused(_, field) => put_field_line(buf, at, field),
        Outcome::Granted(tag, time) => put_granted(buf, at, tag, time),
    }
}
