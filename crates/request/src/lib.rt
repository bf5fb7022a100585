// Reading a request: its first line, its header lines, the fields we read, and its body.
#![tactic(auto)]

pub mod fields;
pub mod first_line;
pub mod header_line;
pub mod names;
pub mod reading;
pub mod to;

// The first line: where its method and its Request-URI end, and where the next line begins.
#[derive(Clone, Copy)]
pub struct FirstLine {
    pub method: usize,
    pub uri: usize,
    pub next: usize,
}

// A header line: where it starts, where its name ends, where its colon stands, and where its value ends.
#[derive(Clone, Copy, Default)]
pub struct Line {
    pub start: usize,
    pub name: usize,
    pub colon: usize,
    pub end: usize,
}

// Where a byte stands to quotes: outside, in them, or in them and covered by a backslash.
#[derive(Clone, Copy, PartialEq, Eq)]
pub enum Quote {
    Outside,
    Inside,
    Covered,
}

// What a To value says of its tag.
#[derive(Clone, Copy, PartialEq, Eq)]
pub enum ToValue {
    Tagged,
    Untagged,
    Unclosed,
}

// A name that we read: how often it stands (0, 1, or 2 for more than once), and its first line (all zero where there is none).
// A count and no Option: docs/READS.md prints it, and a name that does not stand has a line of zeros, which reads as an empty value.
#[derive(Clone, Copy, Default)]
pub struct Seen {
    pub times: u8,
    pub line: Line,
}

// What the first line and the header lines say: whether they are built as they must be, where the method and the
// Request-URI end, where what follows the empty line begins, and the names seen:
// ours by their numbers, and behind them any other.
// A flag and no Option: what a request asks is said also where its head is not built (publish/Asked.asked_of, the theorems of runs).
#[derive(Clone, Copy, Default)]
pub struct Head {
    pub built: bool,
    pub method: usize,
    pub uri: usize,
    pub rest: usize,
    pub seen: [Seen; 11],
}

// A request: its bytes, and what their head says.
#[derive(Clone, Copy)]
pub struct Request<'a> {
    pub text: &'a [u8],
    pub head: Head,
}
