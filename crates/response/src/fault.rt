// What refuses a call without a message, and its number: the result that a caller is told.
ghost use Rattle.std.specs.Prelude.{◌≡◌};
ghost use Rattle.response.specs.Faults.{number_of, told};

// The faults, each with its number.
#[derive(Clone, Copy, PartialEq, Eq)]
pub enum Fault {
    SmallBuffer = 1,
    BadSize = 2,
    LongRequest = 3,
    LateClock = 4,
    Unsound = 5,
    Unreadable = 6,
    Malformed = 7,
    AlreadyThere = 8,
    NoRoom = 9,
    Unknown = 10,
    BackInTime = 11,
}

// The number of a fault.
pub fn number(f: Fault) -> u8
    ensures { result ≡ number_of f }
{
    f as u8
}

// The result that a caller is told: 0 where there is no fault.
pub fn told(r: Result<(), Fault>) -> u8
    ensures { result ≡ told r }
{
    match r {
        Ok(()) => 0,
        Err(f) => number(f),
    }
}
