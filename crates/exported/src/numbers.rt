// What a call comes back with, in the paper's numbers: an enum does not cross to C.
ghost use Rattle.std.specs.Prelude.{◌≡◌};
ghost use Rattle.exported.specs.Numbers.{field_seconds, handled_numbers, state_numbers};

use response::{Field, Outcome};
use table::{Handled, Shown, State};

// A handled request: the message's length, the seconds granted or those of its field, the tag given, the status, the result.
#[repr(C)]
#[derive(Clone, Copy)]
pub struct HandledNumbers {
    pub length: usize,
    pub seconds: u64,
    pub tag: u32,
    pub status: u16,
    pub result: u8,
}

// State that was read: where in the store what is shown begins, its length, which of the three is shown, the result.
#[repr(C)]
#[derive(Clone, Copy)]
pub struct StateNumbers {
    pub position: usize,
    pub length: usize,
    pub shown: u8,
    pub result: u8,
}

// The seconds that a field says.
#[tactic(auto, unfolding(crate::specs::Numbers::field_seconds))]
fn field_seconds(f: Field) -> u64
    ensures { result ≡ field_seconds f }
{
    match f {
        Field::Nothing | Field::Allow | Field::AllowEvents | Field::Accept(_) => 0,
        Field::MinExpires(least) => u64::from(least),
        Field::RetryAfter(seconds) => seconds,
    }
}

// A handled request in numbers.
#[tactic(auto, unfolding(crate::specs::Numbers::handled_numbers, crate::specs::Numbers::seconds_of, crate::specs::Numbers::tag_number, response::specs::Outcomes::status_of, response::specs::Outcomes::result_of))]
pub fn handled_numbers(h: Handled) -> HandledNumbers
    ensures { result ≡ handled_numbers h }
{
    let nothing = HandledNumbers {
        length: h.length,
        seconds: 0,
        tag: 0,
        status: 0,
        result: 0,
    };
    match h.outcome {
        Outcome::Silent(result) => HandledNumbers { result, ..nothing },
        Outcome::Refused(status, field) => HandledNumbers {
            seconds: field_seconds(field),
            status,
            ..nothing
        },
        Outcome::Granted(tag, granted) => HandledNumbers {
            seconds: u64::from(granted),
            tag,
            status: 200,
            ..nothing
        },
    }
}

// State that was read, in numbers.
#[tactic(auto, unfolding(crate::specs::Numbers::state_numbers, crate::specs::Numbers::shown_number, crate::specs::Numbers::position_of, crate::specs::Numbers::length_of))]
pub fn state_numbers(s: State) -> StateNumbers
    ensures { result ≡ state_numbers s }
{
    let (position, length, shown) = match s.shown {
        Shown::Stored(position, length) => (position, length, 1),
        Shown::Default => (0, 0, 2),
        Shown::Front => (0, 0, 0),
    };
    StateNumbers {
        position,
        length,
        shown,
        result: s.result,
    }
}
