// Text as bytes: their classes, runs of them, numbers, names, digits, and writing into a buffer.
#![tactic(auto)]

pub mod class;
pub mod digits;
pub mod names;
pub mod number;
pub mod part;
pub mod put;
pub mod runs;
