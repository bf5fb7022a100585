// The lent records and store: opening, adding and handling a request, and what reading state comes back with. The definitions stand in
// specs/; the code here is given the looks at the records and the one record that a call is for, by value, and what it keeps is put back
// by the functions that walk the lent slice.
#![tactic(auto)]

pub mod adding;
pub mod handling;
pub mod looks;
pub mod opening;

use record::Record;
use response::Outcome;

// What a handled request comes back with: its outcome, and the message's length (0 where there is none).
#[derive(Clone, Copy)]
pub struct Handled {
    pub outcome: Outcome,
    pub length: usize,
}

// What reading state shows: a part of the store, the whole default body, or the default's empty front.
#[derive(Clone, Copy)]
pub enum Shown {
    Stored(usize, usize),
    Default,
    Front,
}

// What reading state comes back with.
#[derive(Clone, Copy)]
pub struct State {
    pub result: u8,
    pub shown: Shown,
}

// A record that is kept, and its place among those lent.
#[derive(Clone, Copy)]
pub struct Kept {
    pub place: usize,
    pub record: Record,
}
