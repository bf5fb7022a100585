// A word and a number.
ghost use Rattle.std.specs.Prelude.{◌++◌, ◌+◌, ◌≤◌, length};
ghost use Rattle.laws.specs.Wrote.{Wrote};
ghost use Rattle.text.specs.Digits.{decimal_of};

use text::{digits, put};

// Puts a word with the space behind it, and a number.
#[tactic(auto, using(response::proofs::MessageLaws::in_a_row))]
pub fn put_word(buf: &mut [u8], at: usize, word: &[u8], n: u64) -> usize
    requires { at + (length word.now + 20) ≤ length buf.old }
    ensures { Wrote buf.old at (word.now ++ decimal_of n) buf.new result }
{
    let p = put::put(buf, at, word);
    digits::put_decimal(buf, p, n)
}
