// One request for one address: what it asks for, the refusals in their order, and a success.
#![tactic(auto)]

pub mod asking;
pub mod refusals;
pub mod times;

use request::ToValue;

// What a request asks of a record at a clock: the number of its package (3 where it is not listed), the time requested and the time
// granted, the slot that it presents (8 where it presents none, or none that is live), the length of its body, and what its To says
// of its tag.
#[derive(Clone, Copy)]
pub struct Asked {
    pub event: u8,
    pub requested: u32,
    pub granted: u32,
    pub slot: u8,
    pub length: usize,
    pub to: ToValue,
}
