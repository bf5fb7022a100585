// The lines of an input, of any length and number.
use crate::reading::Reader;
use crate::records;
use std::io::{self, ErrorKind, Read, Write};
use text::part;

// Runs the lines of an input, and prints the listing; more after each of its lines where that is asked for.
pub fn run<R: Read, W: Write>(input: &mut R, to: &mut W, more: bool) -> io::Result<()> {
    let chunk: &mut [u8] = &mut [0; 65536];
    let store: &mut [u8] = &mut [0; 65536];
    let mut desk = records::opened(store);
    let mut reader = Reader::opened();
    to.write_all(b"publish bench\n")?;
    for _ in 0..u64::MAX {
        match input.read(chunk) {
            Ok(0) => break,
            Ok(got) => reader.take_all(to, &mut desk, part::part_of(chunk, 0, got), more)?,
            Err(e) if e.kind() == ErrorKind::Interrupted => {}
            Err(e) => return Err(e),
        }
    }
    if !reader.is_between() {
        reader.end_line(to, &mut desk, more)?;
    }
    Ok(())
}
