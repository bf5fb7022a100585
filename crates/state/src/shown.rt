// The bytes that are shown: a part of the store, the default, or its empty front.
ghost use Rattle.std.specs.Prelude.{◌≡◌, ◌+◌};
ghost use Rattle.laws.specs.Lists.{part};
ghost use Rattle.response.specs.Faults.{told};
ghost use Rattle.table.specs.Read.{shown_bytes};
ghost use Rattle.state.specs.Looked.{ReadAt};

use crate::reading;
use record::Record;
use response::fault::Fault;
use table::Shown;
use table::looks::Sought;

// n bytes of the store from a position on, as far as it goes.
#[tactic(auto, using(laws::proofs::Parts::part_front))]
fn stored(store: &[u8], from: usize, n: usize) -> &[u8]
    ensures { result.now ≡ part store.now from (from + n) }
{
    let rest = text::part::part_of(store, from, store.len());
    text::part::part_of(rest, 0, n)
}

// What is shown, as the slice that it is a part of has it. Any position and any length may be asked for.
#[tactic(auto, unfolding(table::specs::Read::shown_bytes))]
pub fn shown_part<'a>(store: &'a [u8], default: &'a [u8], shown: Shown) -> &'a [u8]
    ensures { result.now ≡ shown_bytes store.now default.now shown }
{
    match shown {
        Shown::Stored(from, n) => stored(store, from, n),
        Shown::Default => default,
        Shown::Front => &default[0..0],
    }
}

// What reading hands back: whether it is refused, and the bytes that are shown. A refusal shows bytes too: the empty front of the default.
#[derive(Clone, Copy)]
pub struct Readout<'a> {
    pub result: Result<(), Fault>,
    pub bytes: &'a [u8],
}

// Reads state: the bytes shown are a part of the store or of the default.
#[tactic(auto, unfolding(crate::specs::Looked::ReadAt, table::specs::Read::readout_of, table::specs::Read::shown_bytes))]
pub fn read_at<'a>(
    k: Sought,
    own: Record,
    n: usize,
    store: &'a [u8],
    name: &[u8],
    clock: u64,
    default: &'a [u8],
) -> Readout<'a>
    ensures { ReadAt k own n store.now name.now clock default.now
        (told result.result) result.bytes.now }
{
    match reading::shown_at(k, own, n, store.len(), name, clock) {
        Ok(shown) => Readout {
            result: Ok(()),
            bytes: shown_part(store, default, shown),
        },
        Err(fault) => Readout {
            result: Err(fault),
            bytes: &default[..0],
        },
    }
}
