// Texts compared in either case.
ghost use Rattle.std.specs.Prelude.{◌≡◌};
ghost use Rattle.text.specs.Names.{lower, same_text};

// A capital as its small letter, any other byte as it is.
#[tactic(auto, unfolding(crate::specs::Names::lower))]
pub fn small(b: u8) -> u8
    ensures { result ≡ lower b }
{
    match b {
        b'A'..=b'Z' => b + 32,
        _ => b,
    }
}

// Whether two texts are the same in either case.
#[tactic(auto, using(crate::proofs::NameLaws::text_steps))]
pub fn same_text(s: &[u8], t: &[u8]) -> bool
    ensures { result ≡ same_text s.now t.now }
{
    if s.len() != t.len() {
        return false;
    }
    for (i, b) in s.iter().enumerate() {
        if small(*b) != small(t[i]) {
            return false;
        }
    }
    true
}
