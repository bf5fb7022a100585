// The digits of a number, written into a lent buffer, and the value of a hex digit that is read.
ghost use Rattle.std.specs.Prelude.{◌≡◌, ◌+◌, ◌≤◌, ◌<◌, length};
ghost use Rattle.laws.specs.Choose.{below};
ghost use Rattle.laws.specs.Wrote.{Wrote};
ghost use Rattle.text.specs.Digits.{hex_value, hex_digit, hex_digits, eight_hex, decimal_digits, decimal_of};

use crate::put;

// The digit of a number below 16: 48 is 0, and 87 stands ten before a.
#[tactic(auto, unfolding(crate::specs::Digits::hex_digit))]
pub fn digit(n: u64) -> u8
    requires { n < 16 }
    ensures { result ≡ hex_digit n }
{
    let zero = if n < 10 { 48 } else { 87 };
    (zero + n) as u8
}

// The value of a hex digit in either case; nothing where the byte is none.
#[tactic(auto, unfolding(crate::specs::Digits::hex_value, crate::specs::Class::is_digit, laws::specs::Choose::below))]
pub fn hex_value(b: u8) -> Option<u8>
    ensures { result ≡ below 16 (hex_value b) }
{
    match b {
        b'0'..=b'9' => Some(b - b'0'),
        b'A'..=b'F' => Some(b - b'A' + 10),
        b'a'..=b'f' => Some(b - b'a' + 10),
        _ => None,
    }
}

// Puts the last k hex digits of a number, the last one first.
#[tactic(auto, using(crate::proofs::DigitLaws::hex_steps))]
pub fn put_hex(buf: &mut [u8], at: usize, k: usize, n: u64) -> usize
    requires { at + k ≤ length buf.old }
    ensures { Wrote buf.old at (hex_digits k n) buf.new result }
{
    let end = at + k;
    let mut rest = n;
    for p in (at..end).rev() {
        buf[p] = digit(rest % 16);
        rest /= 16;
    }
    end
}

// Puts eight hex digits of a 32-bit number.
#[tactic(auto, unfolding(crate::specs::Digits::eight_hex))]
pub fn put_eight(buf: &mut [u8], at: usize, n: u32) -> usize
    requires { at + 8 ≤ length buf.old }
    ensures { Wrote buf.old at (eight_hex n) buf.new result }
{
    put_hex(buf, at, 8, u64::from(n))
}

// Puts the last decimal digits of a number, at most k of them.
#[tactic(auto, using(crate::proofs::DigitLaws::decimal_steps))]
pub fn put_digits(buf: &mut [u8], at: usize, k: usize, n: u64) -> usize
    requires { at + k ≤ length buf.old }
    ensures { Wrote buf.old at (decimal_digits k n) buf.new result }
{
    if k == 0 {
        return at;
    }
    if n < 10 {
        return put::put_byte(buf, at, digit(n));
    }
    let p = put_digits(buf, at, k - 1, n / 10);
    put::put_byte(buf, p, digit(n % 10))
}

// Puts a number in decimal.
#[tactic(auto, unfolding(crate::specs::Digits::decimal_of))]
pub fn put_decimal(buf: &mut [u8], at: usize, n: u64) -> usize
    requires { at + 20 ≤ length buf.old }
    ensures { Wrote buf.old at (decimal_of n) buf.new result }
{
    put_digits(buf, at, 20, n)
}
