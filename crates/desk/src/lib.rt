// The desk: sixteen records and their store, to which the lines of standard input are given one after the other.
#![tactic(auto)]

pub mod detail;
pub mod printed;
pub mod reading;
pub mod readout;
pub mod records;
pub mod run;
pub mod step;
pub mod turn;
