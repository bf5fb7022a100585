// One resource record: an address with its eight slots, and when it is sound.
#![tactic(auto)]

pub mod address;
pub mod map;
pub mod packages;
pub mod slots;
pub mod sound;

// A slot: package, tag, end clock, body length, and the edition of its body (its body number): the success number that last set it.
#[repr(C)]
#[derive(Clone, Copy)]
pub struct Slot {
    // A byte of the C record, in which any value may be lent: so a package is a number here and in `packages`, and no enum.
    pub event: u8,
    pub tag: u32,
    pub end: u64,
    pub length: u16,
    pub edition: u32,
}

// A record: whether it is in use (1, or 0 where it is not), address, start, count of tags spent, clock of the latest success, map of occupied slots.
#[repr(C)]
#[derive(Clone, Copy)]
pub struct Record {
    pub used: u8,
    pub address: [u8; 64],
    pub start: u32,
    pub spent: u32,
    pub clock: u64,
    pub map: u8,
    pub slots: [Slot; 8],
}
