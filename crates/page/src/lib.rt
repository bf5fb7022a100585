// What programs share: lines of their input, the bytes that a line of hexadecimal says, and listings, which are put into a page and written out.
#![tactic(auto)]

pub mod input;
pub mod lines;
pub mod listing;
pub mod output;
