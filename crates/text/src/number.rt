// Decimal numbers with a bound.
ghost use Rattle.std.specs.Prelude.{◌≡◌};
ghost use Rattle.text.specs.Number.{number_of};

use crate::class;

// What the whole text says as a number of at most so much; nothing where it is no such number.
#[tactic(auto, using(crate::proofs::NumberLaws::number_steps))]
pub fn decimal(s: &[u8], most: u64) -> Option<u64>
    ensures { result ≡ number_of most s.now }
{
    if s.is_empty() {
        return None;
    }
    let mut v: u64 = 0;
    for b in s {
        if !class::is_digit(*b) {
            return None;
        }
        let d = u64::from(*b - b'0');
        if most / 10 < v {
            return None;
        }
        if most - v * 10 < d {
            return None;
        }
        v = v * 10 + d;
    }
    Some(v)
}
