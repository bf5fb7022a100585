// What comes back for a request, and the message that says it.
#![tactic(auto)]

pub mod echoed;
pub mod fault;
pub mod message;
pub mod own_fields;
pub mod status_line;

// The field that a refusal's message carries: none, or one of the table's with its value.
#[derive(Clone, Copy, PartialEq, Eq)]
pub enum Field {
    Nothing,
    Allow,
    AllowEvents,
    MinExpires(u32),
    Accept(u8),
    RetryAfter(u64),
}

// What comes back: a result without a message, a refusal with its status and field, or 200 with tag and time granted.
// A number, not a `Fault`: what takes an outcome takes any result, as response/Outcomes.result_of and the theorems of listing have it.
#[derive(Clone, Copy, PartialEq, Eq)]
pub enum Outcome {
    Silent(u8),
    Refused(u16, Field),
    Granted(u32, u32),
}
