// The public functions as C has them: under names with a prefix, their answers in the paper's numbers. `exported_c` exports them.
#![tactic(auto)]

pub mod numbers;

ghost use Rattle.windgusset.specs.Ensured.{OpenedAs, AddedAs};
ghost use Rattle.exported.specs.Ensured.{RepliedAs, ShownAs};

use numbers::{HandledNumbers, StateNumbers};
use record::Record;
use response::fault::told;

// All records emptied and the store zeroed.
pub fn windgusset_open(records: &mut [Record], store: &mut [u8]) -> u8
    ensures { OpenedAs records.old store.old
        result records.new store.new }
{
    told(windgusset::open(records, store))
}

// An address added.
pub fn windgusset_add(
    records: &mut [Record],
    store: &mut [u8],
    address: &[u8],
    start: u32,
    spent: u32,
) -> u8
    ensures { AddedAs records.old store.old address.now start spent
        result records.new store.new }
{
    told(windgusset::add(records, store, address, start, spent))
}

// One request handled.
#[tactic(auto, unfolding(windgusset::specs::Ensured::HandledAs, crate::specs::Ensured::RepliedAs, crate::specs::Ensured::replied))]
pub fn windgusset_handle(
    records: &mut [Record],
    store: &mut [u8],
    clock: u64,
    number: u32,
    request: &[u8],
    answer: &mut [u8],
) -> HandledNumbers
    ensures { RepliedAs records.old store.old clock number request.now answer.old
        result records.new store.new answer.new }
{
    let handled = windgusset::handle(records, store, clock, number, request, answer);
    numbers::handled_numbers(handled)
}

// State read.
#[tactic(auto, unfolding(windgusset::specs::Ensured::StateAs, crate::specs::Ensured::ShownAs))]
pub fn windgusset_read(
    records: &[Record],
    store: &[u8],
    address: &[u8],
    name: &[u8],
    clock: u64,
) -> StateNumbers
    ensures { ShownAs records.now store.now address.now name.now clock result }
{
    let state = windgusset::read_state(records, store, address, name, clock);
    numbers::state_numbers(state)
}
