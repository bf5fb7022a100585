// A part of a text, for any two positions.
ghost use Rattle.std.specs.Prelude.{◌≡◌};
ghost use Rattle.laws.specs.Lists.{part};

// What stands from one position up to another, as far as the text goes.
#[tactic(auto, using(laws::proofs::Parts::part_past, laws::proofs::Parts::part_none, laws::proofs::Parts::part_cut))]
pub fn part_of(s: &[u8], a: usize, e: usize) -> &[u8]
    ensures { result.now ≡ part s.now a e }
{
    s.get(a..e.min(s.len())).unwrap_or(&[])
}
