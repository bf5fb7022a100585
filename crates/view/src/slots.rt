// The lines of a record's occupied slots.
use page::output::Page;
use record::{Record, Slot};

// Puts a number in decimal, with a space in front.
fn put_number(page: &mut Page<'_>, n: u64) {
    page.text(b" ");
    page.decimal(n);
}

// Puts the line of slot j of record k.
fn put_slot(page: &mut Page<'_>, k: usize, j: usize, s: &Slot) {
    page.text(b"  slot");
    put_number(page, k as u64);
    put_number(page, j as u64);
    put_number(page, u64::from(s.event));
    page.text(b" ");
    page.hex(8, u64::from(s.tag));
    put_number(page, s.end);
    put_number(page, u64::from(s.length));
    put_number(page, u64::from(s.edition));
    page.text(b"\n");
}

// Puts the lines of the occupied slots of record k.
pub fn put_slots(page: &mut Page<'_>, k: usize, r: &Record) {
    for (j, s) in r.slots.iter().enumerate() {
        if r.map >> j & 1 == 1 {
            put_slot(page, k, j, s);
        }
    }
}
