// Reads requests, one a line in hexadecimal, and prints what each says: the reads listing.
#![tactic(auto)]

use page::listing::{self, Listing};
use page::output::{Hex, Page};
use request::names::Name;
use request::{Head, Request, ToValue};
use std::io::{self, Write};

// Puts how often each of the ten names stands.
fn put_times<W: Write>(to: &mut W, h: Head) -> io::Result<()> {
    write!(to, " ")?;
    for seen in &h.seen[..10] {
        write!(to, "{}", seen.times)?;
    }
    Ok(())
}

// Puts whether To has a tag.
fn put_to<W: Write>(to: &mut W, value: ToValue) -> io::Result<()> {
    match value {
        ToValue::Tagged => write!(to, " tagged"),
        ToValue::Untagged => write!(to, " untagged"),
        ToValue::Unclosed => Ok(()),
    }
}

// Puts the length of the body, where it has one.
fn put_length<W: Write>(to: &mut W, body: Option<&[u8]>) -> io::Result<()> {
    match body {
        Some(bytes) => write!(to, " {}", bytes.len()),
        None => write!(to, " -"),
    }
}

// Puts what Expires says.
fn put_expires<W: Write>(to: &mut W, r: Request<'_>) -> io::Result<()> {
    if r.head.lacks(Name::Expires) {
        return write!(to, " absent");
    }
    match r.expires() {
        Some(n) if r.head.has_one(Name::Expires) => write!(to, " {n}"),
        _ => write!(to, " -"),
    }
}

// Puts the tag presented.
fn put_match<W: Write>(to: &mut W, r: Request<'_>) -> io::Result<()> {
    if !r.head.has_match() {
        return write!(to, " absent");
    }
    if r.is_bad_match() {
        return write!(to, " unfit");
    }
    write!(to, " {}", Hex(r.match_text()))
}

// The body, where Content-Length says no other length than one that is there.
fn body_of(r: Request<'_>) -> Option<&[u8]> {
    if !r.content_length_fits() {
        return None;
    }
    Some(r.body(r.body_length()))
}

// Puts method, Request-URI, the names, what To says, and whether CSeq fits.
fn put_front<W: Write>(to: &mut W, r: Request<'_>, value: ToValue) -> io::Result<()> {
    write!(to, " {} {}", Hex(r.method()), Hex(r.uri()))?;
    put_times(to, r.head)?;
    put_to(to, value)?;
    write!(to, " {}", u8::from(r.cseq_fits()))
}

// Puts what stands behind that.
fn put_back<W: Write>(to: &mut W, r: Request<'_>) -> io::Result<()> {
    let body = body_of(r);
    put_length(to, body)?;
    put_expires(to, r)?;
    let content_type = text::runs::up_to_parameter(r.value(Name::ContentType));
    write!(to, " {} {}", Hex(r.event_text()), Hex(content_type))?;
    put_match(to, r)?;
    write!(to, " {}", Hex(body.unwrap_or(b"")))
}

// Puts what a request says.
fn put_request<W: Write>(to: &mut W, r: Request<'_>) -> io::Result<()> {
    let value = request::to::to_value(r.value(Name::To));
    if !r.head.is_readable(value) {
        return write!(to, " unreadable");
    }
    put_front(to, r, value)?;
    put_back(to, r)
}

// The reads listing: a line shows at most six texts of 4,096 bytes, two digits each, and less than 300 bytes besides.
#[derive(Drop)]
struct Reads;

impl Listing for Reads {
    fn put(&mut self, page: &mut Page<'_>, line: &[u8]) -> io::Result<()> {
        let mut room = [0; 4096];
        match page::input::decode(line, &mut room) {
            Some(text) => put_request(page, request::reading::read(text))?,
            None => write!(page, " bad")?,
        }
        writeln!(page)
    }
}

fn main(rt: HostRuntime) -> io::Result<()> {
    let room: &mut [u8] = &mut [0; 65536];
    listing::run(&mut rt.stdin(), &mut rt.stdout(), room, &mut Reads)
}
