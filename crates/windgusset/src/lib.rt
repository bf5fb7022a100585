// The public functions: they walk the lent slice of records.
#![tactic(auto)]

ghost use Rattle.response.specs.Faults.{told};
ghost use Rattle.windgusset.specs.Ensured.{OpenedAs, AddedAs, HandledAs, StateAs, ReadAs};

use record::Record;
use response::fault::Fault;
use state::shown::Readout;
use table::{Handled, State};

// All records emptied and the store zeroed, where their sizes allow it; where not, nothing is put.
pub fn open(records: &mut [Record], store: &mut [u8]) -> Result<(), Fault>
    ensures { OpenedAs records.old store.old
        (told result) records.new store.new }
{
    table::opening::open_store(records.len(), store)?;
    records.fill(lent::empty());
    Ok(())
}

// An address added.
pub fn add(
    records: &mut [Record],
    store: &mut [u8],
    address: &[u8],
    start: u32,
    spent: u32,
) -> Result<(), Fault>
    ensures { AddedAs records.old store.old address.now start spent
        (told result) records.new store.new }
{
    let n = records.len();
    let ls = lent::looked(records);
    let new = table::adding::add_looked(&ls, n, store, address, start, spent)?;
    lent::put_if(records, new.place, new.record);
    Ok(())
}

// One request handled.
pub fn handle(
    records: &mut [Record],
    store: &mut [u8],
    clock: u64,
    number: u32,
    request: &[u8],
    answer: &mut [u8],
) -> Handled
    ensures { HandledAs records.old store.old clock number request.now answer.old
        result records.new store.new answer.new }
{
    let n = records.len();
    let ls = lent::looked(records);
    let b = table::handling::begin(&ls, n, request);
    let own = lent::record_or_empty(records, b.place);
    let settled = table::handling::finish(b, own, n, store, clock, number, request, answer);
    if let Some(kept) = settled.kept {
        lent::put_if(records, kept.place, kept.record);
    }
    settled.handled
}

// State read: the result, and where what is shown lies. Nothing is changed.
pub fn read_state(
    records: &[Record],
    store: &[u8],
    address: &[u8],
    name: &[u8],
    clock: u64,
) -> State
    ensures { StateAs records.now store.now address.now name.now clock result }
{
    let n = records.len();
    let ls = lent::looked(records);
    let k = table::looks::seek(address, &ls, n);
    let own = lent::record_or_empty(records, k.place);
    state::reading::state_at(k, own, n, store.len(), name, clock)
}

// State read: what is shown is handed back as a part of the store or of the default.
pub fn read<'a>(
    records: &[Record],
    store: &'a [u8],
    address: &[u8],
    name: &[u8],
    clock: u64,
    default: &'a [u8],
) -> Readout<'a>
    ensures { ReadAs records.now store.now address.now name.now clock
        default.now (told result.result) result.bytes.now }
{
    let n = records.len();
    let ls = lent::looked(records);
    let k = table::looks::seek(address, &ls, n);
    let own = lent::record_or_empty(records, k.place);
    state::shown::read_at(k, own, n, store, name, clock, default)
}
