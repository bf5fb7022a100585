// The bench's frames: from a line of hexadecimal to what it asks for, and from what came of it to a line of the listing.
#![tactic(auto)]

pub mod frame;
pub mod hex;
pub mod readout;
pub mod shown;
pub mod wanted;
pub mod words;
