// A listing: what a program prints for the lines of its input.
use crate::input::Line;
use crate::output::Page;
use std::io::{self, ErrorKind, Read, Write};

// What a program prints for a line.
pub trait Listing {
    // Puts what comes of a line, behind its number. What the page has no room for is left out.
    fn put(&mut self, page: &mut Page<'_>, line: &[u8]) -> io::Result<()>;
}

// Prints the line of the listing for a line of the input, by way of some room that is as long as its longest.
fn print_line<W: Write, L: Listing>(
    to: &mut W,
    listing: &mut L,
    line: &Line,
    room: &mut [u8],
) -> io::Result<()> {
    let mut page = Page { bytes: room, at: 0 };
    page.decimal(line.nth);
    listing.put(&mut page, line.held())?;
    to.write_all(page.front())
}

// Some bytes more of the input: at LF the line is printed.
fn take_all<W: Write, L: Listing>(
    to: &mut W,
    listing: &mut L,
    line: &mut Line,
    room: &mut [u8],
    chunk: &[u8],
) -> io::Result<()> {
    for b in chunk {
        if *b == b'\n' {
            print_line(to, listing, line, room)?;
            line.next();
        } else {
            line.hold(*b);
        }
    }
    Ok(())
}

// Reads an input to its end, and prints the listing of its lines, each by way of the same room. The loop is counted, so that it is known
// to end.
pub fn run<L: Listing, R: Read, W: Write>(
    from: &mut R,
    to: &mut W,
    room: &mut [u8],
    listing: &mut L,
) -> io::Result<()> {
    let mut chunk = [0; 65536];
    let mut line = Line::first();
    for _ in 0..u64::MAX {
        match from.read(&mut chunk) {
            Ok(0) => break,
            Ok(got) => take_all(to, listing, &mut line, room, &chunk[..got])?,
            Err(e) if e.kind() == ErrorKind::Interrupted => {}
            Err(e) => return Err(e),
        }
    }
    if !line.held().is_empty() {
        print_line(to, listing, &line, room)?;
    }
    Ok(())
}
