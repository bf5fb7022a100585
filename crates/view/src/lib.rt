// What is shown of records and their parts of the store.
#![tactic(auto)]

pub mod records;
pub mod slots;
pub mod sum;
