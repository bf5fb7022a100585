// One line: its frame is put to the part.
ghost use Rattle.std.specs.Prelude.{◌≡◌, List, ℕ};
ghost use Rattle.listing.specs.Frames.{adds, handles, frame_of, line_frame};
ghost use Rattle.desk.specs.Seen.{seen};
ghost use Rattle.desk.specs.Left.{LeftAs};

use crate::records::Desk;
use frames::frame::Asked;
use frames::shown::Shown;
use frames::{frame, hex};
use response::fault;
use text::part;

// What came of a line: what is shown of it, and the length of the message.
#[derive(Clone, Copy)]
pub struct Step {
    pub shown: Shown,
    pub length: usize,
}

// A frame that adds.
#[tactic(auto, unfolding(crate::specs::Left::LeftAs, crate::specs::Left::left_by, windgusset::specs::Ensured::AddedAs))]
fn add_frame(desk: &mut Desk<'_>, address: &[u8], start: u32, spent: u32) -> Step
    ensures leaves { (b : List ℕ)
        → LeftAs (seen desk.old) b (adds (record { address = address.now; start = start; spent = spent })) result (seen desk.new) b }
    ensures same_store { desk.new.store.ghost_name ≡ desk.old.store.ghost_name }
{
    let added = windgusset::add(&mut desk.records, desk.store, address, start, spent);
    Step {
        shown: Shown::Added(fault::told(added)),
        length: 0,
    }
}

// A frame that handles, with To number 1.
fn handle_frame(desk: &mut Desk<'_>, clock: u64, request: &[u8], answer: &mut [u8]) -> Step
    ensures leaves { LeftAs (seen desk.old) answer.old (handles (record { clock = clock; number = 1; request = request.now }))
        result (seen desk.new) answer.new }
    ensures same_store { desk.new.store.ghost_name ≡ desk.old.store.ghost_name }
{
    let handled = windgusset::handle(&mut desk.records, desk.store, clock, 1, request, answer);
    Step {
        shown: Shown::Answered(handled.outcome),
        length: handled.length,
    }
}

// A frame. Nothing changes where it is not so built.
#[tactic(auto, unfolding(frames::specs::Asked::frame_with))]
fn frame_step(desk: &mut Desk<'_>, answer: &mut [u8], f: &[u8]) -> Step
    ensures leaves { LeftAs (seen desk.old) answer.old (frame_of f.now) result (seen desk.new) answer.new }
    ensures same_store { desk.new.store.ghost_name ≡ desk.old.store.ghost_name }
{
    match frame::read_frame(f) {
        Some(Asked::Adds { start, spent }) => add_frame(desk, frame::rest(f), start, spent),
        Some(Asked::Handles { clock }) => handle_frame(desk, clock, frame::rest(f), answer),
        None => Step {
            shown: Shown::Bad,
            length: 0,
        },
    }
}

// A line.
pub fn line_step(desk: &mut Desk<'_>, answer: &mut [u8], line: &[u8]) -> Step
    ensures leaves { LeftAs (seen desk.old) answer.old (line_frame line.now) result (seen desk.new) answer.new }
    ensures same_store { desk.new.store.ghost_name ≡ desk.old.store.ghost_name }
{
    let bytes: &mut [u8] = &mut [0; 4105];
    let n = hex::decode(line, bytes);
    frame_step(desk, answer, part::part_of(bytes, 0, n))
}
