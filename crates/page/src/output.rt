// What programs print: a page that is filled from its front and then written out, and bytes in hexadecimal.
ghost use Rattle.std.specs.Prelude.{◌≡◌, ◌+◌, leb, length};
ghost use Rattle.laws.specs.Lists.{part};
ghost use Rattle.text.specs.Digits.{decimal_of, hex_digits};
ghost use Rattle.page.specs.Page.{filled, put_on, put_within, hex_on};

use std::fmt;
use std::io::{self, Write};

// A page, and how far it is filled. What has no room is left out.
#[derive(Drop)]
pub struct Page<'a> {
    pub bytes: &'a mut [u8],
    pub at: usize,
}

impl Page<'_> {
    // Whether so many bytes more have room.
    fn has_room(&self, n: usize) -> bool
        ensures { result ≡ leb (self.now.at + n) (length self.now.bytes.now) }
    {
        self.at <= self.bytes.len() && n <= self.bytes.len() - self.at
    }

    // Puts bytes.
    pub fn text(&mut self, bs: &[u8])
        ensures puts { filled self.new ≡ put_on (filled self.old) bs.now }
        ensures same { self.new.bytes.ghost_name ≡ self.old.bytes.ghost_name }
    {
        if self.has_room(bs.len()) {
            self.at = text::put::put(self.bytes, self.at, bs);
        }
    }

    // Puts a number in decimal, where the longest has room.
    pub fn decimal(&mut self, n: u64)
        ensures puts { filled self.new ≡ put_within 20 (filled self.old) (decimal_of n) }
        ensures same { self.new.bytes.ghost_name ≡ self.old.bytes.ghost_name }
    {
        if self.has_room(20) {
            self.at = text::digits::put_decimal(self.bytes, self.at, n);
        }
    }

    // Puts the last k hex digits of a number.
    pub fn hex(&mut self, k: usize, n: u64)
        ensures puts { filled self.new ≡ put_within k (filled self.old) (hex_digits k n) }
        ensures same { self.new.bytes.ghost_name ≡ self.old.bytes.ghost_name }
    {
        if self.has_room(k) {
            self.at = text::digits::put_hex(self.bytes, self.at, k, n);
        }
    }

    // Puts bytes in hexadecimal, two digits each; a - where there is none.
    pub fn hex_bytes(&mut self, bs: &[u8])
        ensures puts { filled self.new ≡ hex_on (filled self.old) bs.now }
        ensures same { self.new.bytes.ghost_name ≡ self.old.bytes.ghost_name }
    {
        if bs.is_empty() {
            return self.text(b"-");
        }
        for b in bs {
            self.hex(2, u64::from(*b));
        }
    }

    // What it is filled with.
    pub fn front(&self) -> &[u8]
        ensures { result.now ≡ part self.now.bytes.now 0 self.now.at }
    {
        text::part::part_of(self.bytes, 0, self.at)
    }
}

// What is written to a page is put there where it has room, and nothing fails.
impl Write for Page<'_> {
    fn write(&mut self, buf: &[u8]) -> io::Result<usize> {
        self.text(buf);
        Ok(buf.len())
    }

    fn flush(&mut self) -> io::Result<()> {
        Ok(())
    }
}

// Bytes in hexadecimal, two digits each; a - where there is none.
#[derive(Clone, Copy)]
pub struct Hex<'a>(pub &'a [u8]);

impl<'a> fmt::Display for Hex<'a> {
    fn fmt<W: fmt::Write>(&self, f: &mut fmt::Formatter<W>) -> fmt::Result {
        if self.0.is_empty() {
            return f.write_str("-");
        }
        // So many bytes at a time, since each piece that is written costs more than its digits do. Digits are text, so the error never comes.
        for bs in self.0.chunks(64) {
            let mut digits = [0; 128];
            let mut page = Page {
                bytes: &mut digits,
                at: 0,
            };
            page.hex_bytes(bs);
            match std::str::from_utf8(page.front()) {
                Ok(s) => f.write_str(s)?,
                Err(_) => return Err(fmt::Error),
            }
        }
        Ok(())
    }
}
