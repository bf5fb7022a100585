// SIP and SIPS URIs by RFC 3261: how they are read, and which two are the same address. Nothing here knows requests or records.
#![tactic(auto)]

pub mod address;
pub mod classes;
pub mod escapes;
pub mod groups;
pub mod host;
pub mod names;
pub mod pieces;
pub mod reading;
