// The look at a record: what is asked of every lent record, whichever a call is for.
ghost use Rattle.std.specs.Prelude.{◌≡◌};
ghost use Rattle.record.specs.Places.{empty_record};
ghost use Rattle.lent.specs.Look.{look_of};

use record::Record;

// Whether a record is in use, whether it is sound by itself, and the 64 bytes of its address.
#[derive(Clone, Copy)]
pub struct Look {
    pub used: bool,
    pub sound: bool,
    pub address: [u8; 64],
}

// The look at a record.
#[tactic(auto, unfolding(crate::specs::Look::look_of, record::specs::Places::is_in_use))]
pub fn look_of(r: &Record) -> Look
    ensures { result ≡ look_of r.now }
{
    // In a variable first: a literal with another struct's array is not covered by the borrow checker.
    let address = r.address;
    Look {
        used: r.used == 1,
        sound: record::sound::is_sound(r),
        address,
    }
}

// The look at the all-zero record.
#[tactic(auto, unfolding(crate::specs::Look::look_of, record::specs::Sound::is_sound, record::specs::Places::is_in_use))]
pub fn no_look() -> Look
    ensures { result ≡ look_of empty_record }
{
    Look {
        used: false,
        sound: true,
        address: [0; 64],
    }
}
