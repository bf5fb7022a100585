// Tags: the n-th tag of an address, the number of a tag, and the comparison of a presented token with a tag.
#![tactic(auto)]

ghost use Rattle.std.specs.Prelude.{◌≡◌, ◌+◌, ◌%◌};
ghost use Rattle.tag.specs.Tag.{tag_of};
ghost use Rattle.tag.specs.Given.{number_of_tag, is_given};
ghost use Rattle.tag.specs.Written.{is_tag_text};

const STEP: u32 = 2654435769;

// The tag after a tag: the sum may run over on purpose.
pub fn next_tag(tag: u32) -> u32
    ensures { result ≡ (tag + 2654435769) % 4294967296 }
{
    tag.wrapping_add(STEP)
}

// The tag of success number n.
#[tactic(auto, unfolding(crate::specs::Tag::tag_of))]
pub fn nth_tag(start: u32, n: u32) -> u32
    ensures { result ≡ tag_of start n }
{
    let far = u64::from(n) * 2654435769 % 4294967296;
    ((u64::from(start) + far) % 4294967296) as u32
}

// The tag of the next success: the last plus the step.
#[tactic(auto, using(crate::proofs::Tag::tag_next))]
pub fn given_tag(start: u32, spent: u32) -> u32
    ensures { result ≡ tag_of start (spent + 1) }
{
    next_tag(nth_tag(start, spent))
}

// The success number whose tag this is.
#[tactic(auto, unfolding(crate::specs::Given::number_of_tag))]
pub fn number_of_tag(start: u32, tag: u32) -> u64
    ensures { result ≡ number_of_tag start tag }
{
    let d = u64::from(tag) + 4294967296 - u64::from(start);
    d * 340573321 % 4294967296
}

// Whether some number from 1 to spent gives this tag.
#[tactic(auto, unfolding(crate::specs::Given::is_given))]
pub fn is_given(start: u32, spent: u32, tag: u32) -> bool
    ensures { result ≡ is_given start spent tag }
{
    let n = number_of_tag(start, tag);
    1 <= n && n <= u64::from(spent)
}

// Whether a presented token is this tag, in either case.
pub fn is_tag_text(token: &[u8], tag: u32) -> bool
    ensures { result ≡ is_tag_text token.now tag }
{
    let mut written = [0u8; 8];
    text::digits::put_eight(&mut written, 0, tag);
    text::names::same_text(token, &written)
}
