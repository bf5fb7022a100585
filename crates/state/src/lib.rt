// Reading state with the one record that it is about: what is asked of it, the state that comes back, and the bytes that it shows.
#![tactic(auto)]

pub mod asked;
pub mod reading;
pub mod shown;
