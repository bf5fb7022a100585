// What a success leaves of its record and of its 4,096 bytes of the store.
#![tactic(auto)]

pub mod after;
pub mod freed;
pub mod store;

// What a success does: its clock and package, the slot matched (8 where no tag was presented), the time granted,
// and the length of the body given (0 where there is none). The slot is a number and no option, since the definitions and theorems of
// success/After, publish and runs speak of slot numbers with 8.
#[derive(Clone, Copy)]
pub struct Success {
    pub clock: u64,
    pub event: u8,
    pub slot: u8,
    pub granted: u32,
    pub length: u16,
}
