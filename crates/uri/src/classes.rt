// The classes of bytes that URIs are made of. Each class is a set of numbers below 128, held in two numbers of 64 bits.
ghost use Rattle.std.specs.Prelude.{◌≡◌};
ghost use Rattle.uri.specs.Classes.{is_of};
ghost use Rattle.uri.specs.Sets.{is_in, set_of};

use text::class::ByteSet;

#[derive(Clone, Copy)]
pub enum Class {
    User,
    Password,
    Parameter,
    Header,
    Label,
    Name,
    Alphanum,
    Letter,
    Digit,
    Hex,
    Reserved,
}

// The numbers from 0 to 63 that are in a set, and those from 64 to 127, a bit for each.
#[derive(Clone, Copy)]
pub struct Set {
    pub low: u64,
    pub high: u64,
}

// The bytes of a class.
#[tactic(auto, unfolding(crate::specs::Sets::set_of))]
fn set_of(class: Class) -> Set
    ensures { result ≡ set_of class }
{
    match class {
        Class::User => Set {
            low: 0xabff_fff2_0000_0000,
            high: 0x47ff_fffe_87ff_fffe,
        },
        Class::Password => Set {
            low: 0x23ff_7ff2_0000_0000,
            high: 0x47ff_fffe_87ff_fffe,
        },
        Class::Parameter => Set {
            low: 0x07ff_eff2_0000_0000,
            high: 0x47ff_fffe_afff_fffe,
        },
        Class::Header => Set {
            low: 0x87ff_efb2_0000_0000,
            high: 0x47ff_fffe_afff_fffe,
        },
        Class::Label => Set {
            low: 0x03ff_2000_0000_0000,
            high: 0x07ff_fffe_07ff_fffe,
        },
        Class::Name => Set {
            low: 0x03ff_6000_0000_0000,
            high: 0x07ff_fffe_07ff_fffe,
        },
        Class::Alphanum => Set {
            low: 0x03ff_0000_0000_0000,
            high: 0x07ff_fffe_07ff_fffe,
        },
        Class::Letter => Set {
            low: 0,
            high: 0x07ff_fffe_07ff_fffe,
        },
        Class::Digit => Set {
            low: 0x03ff_0000_0000_0000,
            high: 0,
        },
        Class::Hex => Set {
            low: 0x03ff_0000_0000_0000,
            high: 0x0000_007e_0000_007e,
        },
        Class::Reserved => Set {
            low: 0xac00_9850_0000_0000,
            high: 1,
        },
    }
}

// Whether a byte is in a set.
#[tactic(auto, unfolding(crate::specs::Sets::is_in))]
fn is_in(s: Set, b: u8) -> bool
    ensures { result ≡ is_in s b }
{
    if b < 64 {
        return (s.low >> b) % 2 == 1;
    }
    if b < 128 {
        return (s.high >> (b - 64)) % 2 == 1;
    }
    false
}

impl ByteSet for Class {
    ghost holds = { is_of };

    fn has(self, b: u8) -> bool {
        is_in(set_of(self), b)
    }
}
