// What is asked of one record.
ghost use Rattle.std.specs.Prelude.{◌≡◌, ◌≤◌, ◌<◌};
ghost use Rattle.laws.specs.First.{first_of};
ghost use Rattle.response.specs.Faults.{told};
ghost use Rattle.table.specs.Read.{asked_rows, body_at, newest_body};

use record::Record;
use response::fault::Fault;
use table::Shown;

// The refusal by what is asked: address or package not known, then a clock below the latest success.
#[tactic(auto, unfolding(table::specs::Read::asked_rows, laws::specs::First::first_of))]
pub fn asked_refusal(known: bool, own: Record, event: u8, clock: u64) -> Result<(), Fault>
    ensures { told result ≡ first_of (asked_rows known own event clock) 0 }
{
    if !known || !record::packages::is_listed(event) {
        return Err(Fault::Unknown);
    }
    if clock < own.clock {
        return Err(Fault::BackInTime);
    }
    Ok(())
}

// The body of slot k of a record at place i, as a part of the store.
#[tactic(auto, using(crate::proofs::ReadLaws::place_slot), unfolding(table::specs::Read::body_at, success::specs::Store::part_at, success::specs::Store::room_at, record::specs::Places::places))]
fn body_at(r: Record, i: usize, k: usize) -> Shown
    requires { (i ≤ 16) × (k < 8) }
    ensures { result ≡ body_at r i k }
{
    Shown::Stored(4096 * i + 512 * k, usize::from(r.slots[k].length))
}

// The body of that package's live publication with the highest body number; with none live, the default.
#[tactic(auto, unfolding(table::specs::Read::newest_body, laws::specs::Choose::below))]
pub fn newest_body(r: Record, i: usize, event: u8, clock: u64) -> Shown
    requires { i ≤ 16 }
    ensures { result ≡ newest_body r i event clock }
{
    match record::slots::newest_slot(r, clock, event) {
        Some(k) => body_at(r, i, k),
        None => Shown::Default,
    }
}
