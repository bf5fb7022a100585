// What reading state comes back with, as the witness shows it.
ghost use Rattle.std.specs.Prelude.{◌+◌, ◌≤◌, length};
ghost use Rattle.laws.specs.Wrote.{Wrote};
ghost use Rattle.table.specs.declared.Shown.TheVariants.{Stored};
ghost use Rattle.listing.specs.Witness.{place_text, read_text};

use crate::words;
use table::{Shown, State};
use text::put;

// Puts a place and a length in the store.
#[tactic(auto, using(response::proofs::MessageLaws::in_a_row, text::proofs::DigitLaws::decimal_twenty), unfolding(listing::specs::Witness::place_text))]
fn put_stored(buf: &mut [u8], at: usize, n: usize, from: usize, size: usize) -> usize
    requires { at + 47 ≤ length buf.old }
    ensures { Wrote buf.old at (place_text n (Stored from size)) buf.new result }
{
    let p = words::put_word(buf, at, b"store ", from as u64);
    words::put_word(buf, p, b" ", size as u64)
}

// Puts where what is shown lies, where the default has n bytes.
#[tactic(auto, unfolding(listing::specs::Witness::place_text))]
fn put_place(buf: &mut [u8], at: usize, n: usize, s: Shown) -> usize
    requires { at + 47 ≤ length buf.old }
    ensures { Wrote buf.old at (place_text n s) buf.new result }
{
    match s {
        Shown::Stored(from, size) => put_stored(buf, at, n, from, size),
        Shown::Default => words::put_word(buf, at, b"default ", n as u64),
        Shown::Front => put::put(buf, at, b"front"),
    }
}

// Puts the result, and the line of what is shown.
#[tactic(auto, using(response::proofs::MessageLaws::in_a_row, text::proofs::DigitLaws::decimal_twenty), unfolding(listing::specs::Witness::read_text))]
pub fn put_read(buf: &mut [u8], at: usize, n: usize, s: State) -> usize
    requires { at + 81 ≤ length buf.old }
    ensures { Wrote buf.old at (read_text n s) buf.new result }
{
    let p = words::put_word(buf, at, b"read ", u64::from(s.result));
    let q = put::put(buf, p, b"\n  shown ");
    put_place(buf, q, n, s.shown)
}
