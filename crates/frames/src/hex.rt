// The bytes of a line of hexadecimal, in either case.
ghost use Rattle.std.specs.Prelude.{◌≡◌, true, ◌+◌, ◌*◌, ◌≤◌, ◌<◌, length};
ghost use Rattle.std.specs.List.{list_all};
ghost use Rattle.laws.specs.Wrote.{Wrote};
ghost use Rattle.text.specs.Digits.{hex_value};
ghost use Rattle.listing.specs.Frames.{is_hex, hex_bytes};
ghost use Rattle.frames.specs.Lines.{is_hex_digit, line_bytes};

use text::digits;

// Whether a byte is a hex digit.
#[tactic(auto, using(laws::proofs::Some::below_some, laws::proofs::Some::below_none))]
fn is_digit(b: u8) -> bool
    ensures { result ≡ is_hex_digit b }
{
    digits::hex_value(b).is_some()
}

// Whether every byte of a text is one.
fn are_digits(line: &[u8]) -> bool
    ensures { result ≡ list_all is_hex_digit line.now }
{
    line.iter().all(|b| is_digit(*b))
}

// Whether a line is hex digits, two for each byte, at most 8,210 of them.
#[tactic(auto, using(crate::proofs::HexLaws::digits_all, std::proofs::lemmas::Bool::Decides::nat_tests), unfolding(listing::specs::Frames::is_hex))]
pub fn is_hex(line: &[u8]) -> bool
    ensures { result ≡ is_hex line.now }
{
    line.len() <= 8210 && line.len() % 2 == 0 && are_digits(line)
}

// The byte of two hex digits. There is always a value; `unwrap` was tried, and lines then take up to half as long again.
#[tactic(auto, using(laws::proofs::Some::below_some))]
fn pair(high: u8, low: u8) -> u8
    requires { (hex_value high < 16) × (hex_value low < 16) }
    ensures { result ≡ hex_value high * 16 + hex_value low }
{
    digits::hex_value(high).unwrap_or(0) * 16 + digits::hex_value(low).unwrap_or(0)
}

// Puts the bytes of a line of hex digits to the front of a buffer.
fn put_bytes(line: &[u8], out: &mut [u8]) -> usize
    requires { (is_hex line.now ≡ true) × (4105 ≤ length out.old) }
    ensures { Wrote out.old 0 (hex_bytes line.now) out.new result }
{
    // By index: no plainer over chunks_exact(2), whose pairs are indexed as well.
    let n = line.len() / 2;
    for i in 0..n {
        out[i] = pair(line[i * 2], line[i * 2 + 1]);
    }
    n
}

// Puts the bytes of a line to the front of a buffer: none where it is not hex digits.
#[tactic(auto, using(laws::proofs::Wrote::wrote_none), unfolding(crate::specs::Lines::line_bytes))]
pub fn decode(line: &[u8], out: &mut [u8]) -> usize
    requires { 4105 ≤ length out.old }
    ensures { Wrote out.old 0 (line_bytes line.now) out.new result }
{
    if is_hex(line) {
        put_bytes(line, out)
    } else {
        0
    }
}
