// Adding an address, by the looks at the lent records.
ghost use Rattle.std.specs.Prelude.{◌≡◌, ◌≤◌, IfOk, length, not, take};
ghost use Rattle.laws.specs.First.{first_of};
ghost use Rattle.laws.specs.Lists.{place_of};
ghost use Rattle.response.specs.Faults.{told};
ghost use Rattle.table.specs.Add.{fresh_record};
ghost use Rattle.table.specs.Looked.{entry_of, add_rows, add_out, add_store, out_of};

use crate::{Kept, looks};
use lent::look::Look;
use record::Record;
use response::fault::Fault;

// The place of a new address, the lowest unused record's, or the first refusal that applies. The start and the count of tags spent have
// no part in it.
#[tactic(auto, using(crate::proofs::PlaceLaws::is_placed, crate::proofs::PlaceLaws::told_place), unfolding(crate::specs::Looked::add_rows, laws::specs::First::first_of, publish::specs::Refusals::is_bad_size))]
fn place_to_add(ls: &[Look; 16], n: usize, store: usize, address: &[u8]) -> Result<usize, Fault>
    ensures refusal { told result ≡ first_of (add_rows ls.now n store address.now) 0 }
    ensures place { IfOk result (λ i. i ≡ place_of (λ l. not l.used) (take n ls.now)) }
{
    if publish::refusals::is_bad_size(n, store) {
        return Err(Fault::BadSize);
    }
    let seen = &ls[..n];
    if !looks::all_sound(seen) {
        return Err(Fault::Unsound);
    }
    if !record::address::is_address(address) {
        return Err(Fault::Malformed);
    }
    if looks::place_for(address, seen).is_some() {
        return Err(Fault::AlreadyThere);
    }
    looks::lowest_unused(seen).ok_or(Fault::NoRoom)
}

// A record in use for an address, with its start and its count of tags spent; zero in its other fields.
#[tactic(auto, unfolding(crate::specs::Add::fresh_record, crate::specs::Looked::entry_of))]
fn fresh(address: &[u8], start: u32, spent: u32) -> Record
    requires { length address.now ≤ 64 }
    ensures { result ≡ fresh_record (entry_of address.now start spent) }
{
    Record {
        used: 1,
        address: record::address::padded_address(address),
        start,
        spent,
        ..lent::empty()
    }
}

// Adds an address: its part of the store is zeroed, and its record and place are given. A refusal touches nothing.
#[tactic(auto, using(record::proofs::AddressLaws::address_length), unfolding(crate::specs::Looked::add_out, crate::specs::Looked::add_store, crate::specs::Looked::add_rows, laws::specs::First::first_of, publish::specs::Refusals::is_bad_size))]
pub fn add_looked(
    ls: &[Look; 16],
    n: usize,
    store: &mut [u8],
    address: &[u8],
    start: u32,
    spent: u32,
) -> Result<Kept, Fault>
    ensures { (out_of n result ≡ add_out ls.now n store.old address.now start spent)
        × (store.new ≡ add_store ls.now n store.old address.now) }
{
    let place = place_to_add(ls, n, store.len(), address)?;
    success::store::zero_part(store, place);
    Ok(Kept {
        place,
        record: fresh(address, start, spent),
    })
}
