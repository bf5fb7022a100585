// A line's turn: what is printed for it.
ghost use Rattle.std.specs.Prelude.{◌≡◌, ◌≤◌, length};
ghost use Rattle.desk.specs.Seen.{seen};
ghost use Rattle.desk.specs.Turned.{Turned};

use crate::records::Desk;
use crate::{readout, step};
use frames::shown;

// The length of a line's message, and where what is printed ends.
#[derive(Clone, Copy)]
pub struct Turn {
    pub length: usize,
    pub end: usize,
}

// Puts what is printed for a line to the front of a page: the line of the listing, or the witness's in its place where more is asked for.
pub fn line_turn(
    page: &mut [u8],
    nth: u64,
    desk: &mut Desk<'_>,
    answer: &mut [u8],
    line: &[u8],
    more: bool,
) -> Turn
    requires { (103 ≤ length page.old) × (length answer.old ≡ 4608) }
    ensures turns { Turned more (seen desk.old) answer.old line.now page.old nth
        result (seen desk.new) answer.new page.new }
    ensures same_store { desk.new.store.ghost_name ≡ desk.old.store.ghost_name }
{
    let s = step::line_step(desk, answer, line);
    // As `&mut`, though it is only read: the borrow checker does not cover a shared loan of what lies behind a reference.
    let store = &mut *desk.store;
    let told = readout::line_told(&desk.records, store, line, s.shown, more);
    let end = shown::put_line(page, nth, told);
    Turn {
        length: s.length,
        end,
    }
}
