// What C and Rust link: one export for each of the four functions of `exported`, under its name and with its contract.
#![tactic(auto)]

ghost use Rattle.windgusset.specs.Ensured.{OpenedAs, AddedAs};
ghost use Rattle.exported.specs.Ensured.{RepliedAs, ShownAs};

use exported::numbers::{HandledNumbers, StateNumbers};
use record::Record;

// All records emptied and the store zeroed.
#[unsafe(no_mangle)]
pub extern "C" fn windgusset_open(records: &mut [Record], store: &mut [u8]) -> u8
    ensures { OpenedAs records.old store.old
        result records.new store.new }
{
    exported::windgusset_open(records, store)
}

// An address added.
#[unsafe(no_mangle)]
pub extern "C" fn windgusset_add(
    records: &mut [Record],
    store: &mut [u8],
    address: &[u8],
    start: u32,
    spent: u32,
) -> u8
    ensures { AddedAs records.old store.old address.now start spent
        result records.new store.new }
{
    exported::windgusset_add(records, store, address, start, spent)
}

// One request handled.
#[unsafe(no_mangle)]
pub extern "C" fn windgusset_handle(
    records: &mut [Record],
    store: &mut [u8],
    clock: u64,
    number: u32,
    request: &[u8],
    answer: &mut [u8],
) -> HandledNumbers
    ensures { RepliedAs records.old store.old clock number request.now answer.old
        result records.new store.new answer.new }
{
    exported::windgusset_handle(records, store, clock, number, request, answer)
}

// State read.
#[unsafe(no_mangle)]
pub extern "C" fn windgusset_read(
    records: &[Record],
    store: &[u8],
    address: &[u8],
    name: &[u8],
    clock: u64,
) -> StateNumbers
    ensures { ShownAs records.now store.now address.now name.now clock result }
{
    exported::windgusset_read(records, store, address, name, clock)
}
