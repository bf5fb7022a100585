// The state that is read, with what is found of the address and its record.
ghost use Rattle.std.specs.Prelude.{◌≡◌};
ghost use Rattle.state.specs.Looked.{state_at, state_in};

use crate::asked;
use record::Record;
use response::fault::Fault;
use table::looks::Sought;
use table::{Shown, State};

// What is shown, or why nothing is. Of the store only its length is asked.
#[tactic(auto, unfolding(crate::specs::Looked::state_at, crate::specs::Looked::read_rows, table::specs::Read::asked_rows, laws::specs::First::first_of, publish::specs::Refusals::is_bad_size))]
pub fn shown_at(
    k: Sought,
    own: Record,
    n: usize,
    store: usize,
    name: &[u8],
    clock: u64,
) -> Result<Shown, Fault>
    ensures { state_in result ≡ state_at k own n store name.now clock }
{
    if publish::refusals::is_bad_size(n, store) {
        return Err(Fault::BadSize);
    }
    if 1000000000000 < clock {
        return Err(Fault::LateClock);
    }
    if !k.sound {
        return Err(Fault::Unsound);
    }
    let event = record::packages::package_named(name);
    asked::asked_refusal(k.place < n, own, event, clock)?;
    Ok(asked::newest_body(own, k.place, event, clock))
}

// The same in the paper's number. A refusal shows the empty front of the default.
pub fn state_at(k: Sought, own: Record, n: usize, store: usize, name: &[u8], clock: u64) -> State
    ensures { result ≡ state_at k own n store name.now clock }
{
    match shown_at(k, own, n, store, name, clock) {
        Ok(shown) => State { result: 0, shown },
        Err(fault) => State {
            result: response::fault::number(fault),
            shown: Shown::Front,
        },
    }
}
