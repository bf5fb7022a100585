// The bytes of the input, in chunks of any length: as much of a line is held as shows that it is too long, and LF runs it.
ghost use Rattle.std.specs.Prelude.{◌≡◌, true, ◌≤◌, eqb, length, IfOk, OnErr};
ghost use Rattle.laws.specs.Lists.{part};
ghost use Rattle.listing.specs.Lent.{open_table};
ghost use Rattle.desk.specs.Reading.{begun, hold_on, next_number, line_on, read_on};

use crate::printed;
use crate::records::Desk;
use page::lines;
use std::io::{self, Write};
use text::part;

// How far the input is read: the bytes of a line, how many of them are held, and the line's number.
#[derive(Clone, Copy)]
pub struct Reader {
    pub line: [u8; 8211],
    pub held: usize,
    pub nth: u64,
    pub ghost fits: { held ≤ 8211 },
}

// The number of the next line.
#[tactic(auto, using(std::proofs::lemmas::Bool::Decides::nat_tests), unfolding(crate::specs::Reading::next_number))]
fn next_number(n: u64) -> u64
    ensures { result ≡ next_number n }
{
    n.saturating_add(1)
}

impl Reader {
    ghost use Rattle.desk.specs.Seen.{seen};
    ghost use Rattle.desk.specs.ReadTo.{reading_of, RunIn, RunUpTo, piece_on};
    ghost use Rattle.desk.specs.declared.records.Desk.{Desk};

    // Before the first line of a desk that was opened.
    pub fn opened() -> Reader
        ensures { (d : Desk) → seen d ≡ open_table 16 → reading_of result d ≡ begun }
    {
        Reader {
            line: [0; 8211],
            held: 0,
            nth: 1,
        }
    }

    // Whether no byte of a line is held.
    pub fn is_between(&self) -> bool
        ensures { result ≡ eqb (length (part self.now.line 0 self.now.held)) 0 }
    {
        part::part_of(&self.line, 0, self.held).is_empty()
    }

    // Some bytes more of a line.
    fn hold(&mut self, bs: &[u8])
        ensures { (d : Desk) → reading_of self.new d ≡ hold_on (reading_of self.old d) bs.now }
    {
        let n = lines::hold_all(&mut self.line, self.held, bs);
        self.held = n;
    }

    // The line that is held is run, and the next begins; so too where it cannot be printed.
    pub fn end_line<W: Write>(
        &mut self,
        to: &mut W,
        desk: &mut Desk<'_>,
        more: bool,
    ) -> io::Result<()>
        ensures runs { reading_of self.new desk.new ≡ line_on (reading_of self.old desk.old) }
        ensures same_store { desk.new.store.ghost_name ≡ desk.old.store.ghost_name }
    {
        let line = part::part_of(&self.line, 0, self.held);
        let ran = printed::run_line(to, desk, line, self.nth, more);
        self.held = 0;
        self.nth = next_number(self.nth);
        ran
    }

    // A piece of a line; where that ends the line, it is run. Only there can it fail.
    #[tactic(auto, unfolding(crate::specs::ReadTo::piece_on))]
    fn take<W: Write>(
        &mut self,
        to: &mut W,
        desk: &mut Desk<'_>,
        bs: &[u8],
        ended: bool,
        more: bool,
    ) -> io::Result<()>
        ensures after { reading_of self.new desk.new ≡ piece_on (reading_of self.old desk.old) bs.now ended }
        ensures err { OnErr result (ended ≡ true) }
        ensures same_store { desk.new.store.ghost_name ≡ desk.old.store.ghost_name }
    {
        self.hold(bs);
        if ended {
            return self.end_line(to, desk, more);
        }
        Ok(())
    }

    // A chunk of the input. It fails only where a line cannot be printed, and is then run up to the end of that line.
    pub fn take_all<W: Write>(
        &mut self,
        to: &mut W,
        desk: &mut Desk<'_>,
        chunk: &[u8],
        more: bool,
    ) -> io::Result<()>
        ensures ok { IfOk result (λ _. reading_of self.new desk.new ≡ read_on (reading_of self.old desk.old) chunk.now) }
        ensures err { OnErr result (RunIn (reading_of self.old desk.old) chunk.now desk.new.store.now) }
        ensures stops { OnErr result (RunUpTo (reading_of self.old desk.old) chunk.now (reading_of self.new desk.new)) }
        ensures same_store { desk.new.store.ghost_name ≡ desk.old.store.ghost_name }
    {
        // By position: a piece says where the next begins.
        let mut at = 0;
        while at < chunk.len() {
            let piece = lines::piece_at(chunk, at);
            let bs = part::part_of(chunk, at, piece.end);
            self.take(to, desk, bs, piece.end < piece.next, more)?;
            at = piece.next;
        }
        Ok(())
    }
}
