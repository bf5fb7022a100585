// The lines of a record: its fields, its occupied slots, and its part of the store.
use crate::{slots, sum};
use page::output::Page;
use record::Record;
use text::class::Other;
use text::part::part_of;

// Puts the line of record k.
fn put_fields(page: &mut Page<'_>, k: usize, r: &Record) {
    let end = text::runs::past(&r.address, 0, Other(0));
    page.text(b"  record ");
    page.decimal(k as u64);
    page.text(b" ");
    page.hex_bytes(part_of(&r.address, 0, end));
    page.text(b" ");
    page.hex(8, u64::from(r.start));
    page.text(b" ");
    page.decimal(u64::from(r.spent));
    page.text(b" ");
    page.decimal(r.clock);
    page.text(b" ");
    page.hex(2, u64::from(r.map));
    page.text(b"\n");
}

// Puts the line of the part of record k.
fn put_part(page: &mut Page<'_>, k: usize, part: &[u8]) {
    page.text(b"  part ");
    page.decimal(k as u64);
    page.text(b" ");
    page.hex(8, u64::from(sum::checksum(part)));
    page.text(b"\n");
}

// Puts everything that is shown of record k and its part.
pub fn put_record(page: &mut Page<'_>, k: usize, r: &Record, part: &[u8]) {
    put_fields(page, k, r);
    slots::put_slots(page, k, r);
    put_part(page, k, part);
}

// Puts what is shown of the records that are in use.
pub fn put_records(page: &mut Page<'_>, rs: &[Record; 16], store: &[u8]) {
    for (k, r) in rs.iter().enumerate() {
        if r.used == 1 {
            put_record(page, k, r, part_of(store, 4096 * k, 4096 * k + 4096));
        }
    }
}
