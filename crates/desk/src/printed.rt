// What is printed for a line.
ghost use Rattle.std.specs.Prelude.{◌≡◌};
ghost use Rattle.desk.specs.Seen.{seen};
ghost use Rattle.desk.specs.Turned.{table_behind};

use crate::records::Desk;
use crate::{detail, turn};
use std::io::{self, Write};
use text::part;

// Sets byte i to i modulo 251, so that a byte touched past the message shows.
fn mark(answer: &mut [u8]) {
    for (i, b) in answer.iter_mut().enumerate() {
        *b = (i % 251) as u8;
    }
}

// Runs a line and prints what comes of it, and more where that is asked for. Where that cannot be printed the line is run all the same.
pub fn run_line<W: Write>(
    to: &mut W,
    desk: &mut Desk<'_>,
    line: &[u8],
    nth: u64,
    more: bool,
) -> io::Result<()>
    ensures runs { seen desk.new ≡ table_behind (seen desk.old) line.now }
    ensures same_store { desk.new.store.ghost_name ≡ desk.old.store.ghost_name }
{
    let answer: &mut [u8] = &mut [0; 4608];
    mark(answer);
    let page: &mut [u8] = &mut [0; 103];
    let t = turn::line_turn(page, nth, desk, answer, line, more);
    to.write_all(part::part_of(page, 0, t.end))?;
    if more {
        // As `&mut`, though it is only read: the borrow checker does not cover a shared loan of what lies behind a reference.
        let store = &mut *desk.store;
        detail::print_detail(to, &desk.records, store, answer, t.length)?;
    }
    Ok(())
}
