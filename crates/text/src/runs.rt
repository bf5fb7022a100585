// Single bytes, runs of bytes of one kind, and the blanks round a text.
ghost use Rattle.std.specs.Prelude.{◌≡◌, ◌+◌, ◌≤◌, eqb, length, drop};
ghost use Rattle.laws.specs.Lists.{byte_at, same};
ghost use Rattle.text.specs.Class.{class_table, is_class, is_plain};
ghost use Rattle.text.specs.Runs.{run, past, front, trim_end, trim, is_one_token};

use crate::class;
use crate::class::{ByteSet, Class, Kind};

// Whether that byte stands at a position.
#[tactic(auto, using(crate::proofs::RunLaws::get_d_any), unfolding(laws::specs::Lists::byte_at))]
pub fn stands_at(s: &[u8], i: usize, b: u8) -> bool
    ensures { result ≡ eqb (byte_at s.now i) b }
{
    s.get(i) == Some(&b)
}

// How many bytes of a set a text begins with.
#[tactic(auto, using(crate::proofs::RunLaws::run_steps))]
fn run<T: ByteSet>(s: &[u8], set: T) -> usize
    ensures { result ≡ run (T.holds set) s.now }
{
    for (i, b) in s.iter().enumerate() {
        if !set.has(*b) {
            return i;
        }
    }
    s.len()
}

// Where the run of bytes of a set ends that begins at a position.
#[tactic(auto, using(crate::proofs::RunLaws::past_end, crate::proofs::RunLaws::run_length), unfolding(crate::specs::Runs::past))]
pub fn past<T: ByteSet>(s: &[u8], at: usize, set: T) -> usize
    ensures { result ≡ past (T.holds set) s.now at }
{
    if s.len() <= at {
        return at;
    }
    at + run(&s[at..], set)
}

// Where the run of bytes of a class ends that begins at a position.
#[tactic(auto, using(crate::proofs::RunLaws::past_on, crate::proofs::RunLaws::past_off, crate::proofs::RunLaws::past_end))]
pub fn past_class(s: &[u8], at: usize, class: Class, classes: &[u8; 256]) -> usize
    requires { classes.now ≡ class_table }
    ensures { result ≡ past (is_class class) s.now at }
{
    if s.len() <= at {
        return at;
    }
    for i in at..s.len() {
        if !class::is_class(class, s[i], classes) {
            return i;
        }
    }
    s.len()
}

// Where the text from a position ends, without the blanks at its end.
#[tactic(auto, using(crate::proofs::TrimLaws::end_steps))]
pub fn end_of_text(s: &[u8], from: usize) -> usize
    requires { from ≤ length s.now }
    ensures { result ≡ from + length (trim_end (drop from s.now)) }
{
    for e in (from..s.len()).rev() {
        if !class::is_blank(s[e]) {
            return e + 1;
        }
    }
    from
}

// The text without its outer blanks.
#[tactic(auto, using(crate::proofs::TrimLaws::trim_steps))]
pub fn trimmed(s: &[u8]) -> &[u8]
    ensures { result.now ≡ trim s.now }
{
    let a = past(s, 0, Kind::Blank);
    let e = end_of_text(s, a);
    &s[a..e]
}

// The text up to a ; or blank.
#[tactic(auto, using(crate::proofs::RunLaws::front_steps), unfolding(crate::specs::Runs::front))]
pub fn up_to_parameter(s: &[u8]) -> &[u8]
    ensures { result.now ≡ front is_plain s.now }
{
    let e = past(s, 0, Kind::Plain);
    &s[..e]
}

// Whether the text is one token.
#[tactic(auto, using(crate::proofs::RunLaws::token_none, crate::proofs::RunLaws::token_run))]
pub fn is_one_token(s: &[u8]) -> bool
    ensures { result ≡ is_one_token s.now }
{
    let classes = class::classes();
    !s.is_empty() && past_class(s, 0, Class::Token, &classes) == s.len()
}

// Whether two texts are the same, byte by byte. `==` was tried: the names that are compared are then more read-only data (docs/COST.md).
#[tactic(auto, using(crate::proofs::SameLaws::same_steps))]
pub fn are_same(s: &[u8], t: &[u8]) -> bool
    ensures { result ≡ same s.now t.now }
{
    if s.len() != t.len() {
        return false;
    }
    for (i, b) in s.iter().enumerate() {
        if *b != t[i] {
            return false;
        }
    }
    true
}
