// A line of the input, and the bytes that a line of hexadecimal says.
ghost use Rattle.std.specs.Prelude.{◌≤◌};

use text::digits::hex_value;

// The byte of two hex digits.
#[tactic(auto, using(laws::proofs::Some::told_below, laws::proofs::Some::told_is))]
fn byte_of(high: u8, low: u8) -> Option<u8> {
    let high = hex_value(high)?;
    let low = hex_value(low)?;
    Some(high * 16 + low)
}

// The bytes of a line of hex digits, put to the front of some room; nothing where it is no such line or is too long.
pub fn decode<'a>(line: &[u8], room: &'a mut [u8]) -> Option<&'a [u8]> {
    let n = line.len() / 2;
    if line.len() % 2 == 1 || room.len() < n {
        return None;
    }
    for (i, pair) in line.chunks_exact(2).enumerate() {
        room[i] = byte_of(pair[0], pair[1])?;
    }
    Some(&room[..n])
}

// The line that is read: the bytes of it that are held, how many those are, and its number.
// What a listing takes has at most 8,210 bytes, and one more shows that a line is longer.
#[derive(Drop)]
pub struct Line {
    bytes: [u8; 8211],
    length: usize,
    pub nth: u64,
    ghost in_room: { length ≤ 8211 },
}

impl Line {
    // The first line, before its first byte.
    pub fn first() -> Line {
        Line {
            bytes: [0; 8211],
            length: 0,
            nth: 1,
        }
    }

    // The bytes that are held.
    pub fn held(&self) -> &[u8] {
        &self.bytes[..self.length]
    }

    // A byte more; one that there is no room for is dropped.
    pub fn hold(&mut self, b: u8) {
        if self.length < self.bytes.len() {
            self.bytes[self.length] = b;
            self.length += 1;
        }
    }

    // The next line begins.
    pub fn next(&mut self) {
        self.length = 0;
        self.nth = self.nth.saturating_add(1);
    }
}
