// What the witness prints besides: the message, the answer buffer past it, and the records in use with their store.
use page::output::Page;
use record::Record;
use std::io::{self, Write};
use text::part::part_of;
use view::records;
use view::sum::checksum;

// Prints the message of so many bytes, the sum of the answer buffer's bytes past it, and what is shown of the records.
pub fn print_detail<W: Write>(
    to: &mut W,
    rs: &[Record; 16],
    store: &[u8],
    answer: &[u8],
    length: usize,
) -> io::Result<()> {
    let mut page = Page {
        bytes: &mut [0; 32768],
        at: 0,
    };
    page.text(b"  answer ");
    page.hex_bytes(part_of(answer, 0, length));
    page.text(b"\n  past ");
    let past = checksum(part_of(answer, length, answer.len()));
    page.hex(8, u64::from(past));
    page.text(b"\n");
    records::put_records(&mut page, rs, store);
    to.write_all(page.front())
}
