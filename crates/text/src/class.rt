// The kinds of bytes, and what asks a byte for its kind. Tokens and values are told by a table of the classes of all 256 bytes, whose rule is
// `class_of`: a caller makes it once and lends it, since a static one would be more read-only data (docs/COST.md). The other kinds are told by
// comparisons.
ghost use Rattle.std.specs.Prelude.{◌≡◌, ℕ, Bool};
ghost use Rattle.text.specs.Class.{class_table, is_digit, is_blank, is_visible, is_plain, is_kind, is_class, is_other};

const CLASS: [u8; 256] = [
    0, 0, 0, 0, 0, 0, 0, 0, 0, 2, 0, 0, 0, 0, 0, 0, 0, 0, 0, 0, 0, 0, 0, 0, 0, 0, 0, 0, 0, 0, 0, 0,
    2, 3, 1, 1, 1, 3, 1, 3, 1, 1, 3, 3, 1, 3, 3, 1, 4, 4, 4, 4, 4, 4, 4, 4, 4, 4, 1, 1, 1, 1, 1, 1,
    1, 3, 3, 3, 3, 3, 3, 3, 3, 3, 3, 3, 3, 3, 3, 3, 3, 3, 3, 3, 3, 3, 3, 3, 3, 3, 3, 1, 1, 1, 1, 3,
    3, 3, 3, 3, 3, 3, 3, 3, 3, 3, 3, 3, 3, 3, 3, 3, 3, 3, 3, 3, 3, 3, 3, 3, 3, 3, 3, 1, 1, 1, 3, 0,
    1, 1, 1, 1, 1, 1, 1, 1, 1, 1, 1, 1, 1, 1, 1, 1, 1, 1, 1, 1, 1, 1, 1, 1, 1, 1, 1, 1, 1, 1, 1, 1,
    1, 1, 1, 1, 1, 1, 1, 1, 1, 1, 1, 1, 1, 1, 1, 1, 1, 1, 1, 1, 1, 1, 1, 1, 1, 1, 1, 1, 1, 1, 1, 1,
    1, 1, 1, 1, 1, 1, 1, 1, 1, 1, 1, 1, 1, 1, 1, 1, 1, 1, 1, 1, 1, 1, 1, 1, 1, 1, 1, 1, 1, 1, 1, 1,
    1, 1, 1, 1, 1, 1, 1, 1, 1, 1, 1, 1, 1, 1, 1, 1, 1, 1, 1, 1, 1, 1, 1, 1, 1, 1, 1, 1, 1, 1, 1, 1,
];

// What tells some bytes from the others.
pub trait ByteSet: Copy {
    ghost holds: { Self → ℕ → Bool };

    fn has(self, b: u8) -> bool
        ensures { result ≡ holds self b };
}

// The kinds of bytes that are told by comparisons.
#[derive(Clone, Copy)]
pub enum Kind {
    Digit,
    Blank,
    Visible,
    Plain,
}

// The kinds of bytes that are told by the table.
#[derive(Clone, Copy)]
pub enum Class {
    Token,
    Value,
}

// Every byte but one.
#[derive(Clone, Copy)]
pub struct Other(pub u8);

// The classes of all bytes.
pub fn classes() -> [u8; 256]
    ensures { result ≡ class_table }
{
    CLASS
}

// Whether a byte is of a class.
pub fn is_class(class: Class, b: u8, classes: &[u8; 256]) -> bool
    requires { classes.now ≡ class_table }
    ensures { result ≡ is_class class b }
{
    let c = classes[usize::from(b)];
    match class {
        Class::Token => 3 <= c,
        Class::Value => 1 <= c,
    }
}

#[tactic(auto, unfolding(crate::specs::Class::is_digit))]
pub fn is_digit(b: u8) -> bool
    ensures { result ≡ is_digit b }
{
    matches!(b, b'0'..=b'9')
}

#[tactic(auto, unfolding(crate::specs::Class::is_blank))]
pub fn is_blank(b: u8) -> bool
    ensures { result ≡ is_blank b }
{
    matches!(b, b' ' | b'\t')
}

// A byte that addresses and Request-URIs are made of.
#[tactic(auto, unfolding(crate::specs::Class::is_visible))]
pub fn is_visible(b: u8) -> bool
    ensures { result ≡ is_visible b }
{
    matches!(b, b'!'..=b'~')
}

// A byte that is no ; and no blank.
#[tactic(auto, unfolding(crate::specs::Class::is_plain))]
pub fn is_plain(b: u8) -> bool
    ensures { result ≡ is_plain b }
{
    b != b';' && !is_blank(b)
}

impl ByteSet for Kind {
    ghost holds = { is_kind };

    fn has(self, b: u8) -> bool {
        match self {
            Kind::Digit => is_digit(b),
            Kind::Blank => is_blank(b),
            Kind::Visible => is_visible(b),
            Kind::Plain => is_plain(b),
        }
    }
}

impl ByteSet for Other {
    ghost holds = { λ o. is_other o.0 };

    fn has(self, b: u8) -> bool {
        b != self.0
    }
}
