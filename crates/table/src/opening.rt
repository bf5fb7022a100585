// Opening: the sizes, and the zeroed store.
ghost use Rattle.std.specs.Prelude.{◌≡◌};
ghost use Rattle.response.specs.Faults.{told};
ghost use Rattle.table.specs.Looked.{open_result, open_store};

use response::fault::Fault;

// Zeroes the store where the sizes are good.
#[tactic(auto, unfolding(crate::specs::Looked::open_result, crate::specs::Looked::open_store))]
pub fn open_store(n: usize, store: &mut [u8]) -> Result<(), Fault>
    ensures { (told result ≡ open_result n store.old) × (store.new ≡ open_store n store.old) }
{
    if publish::refusals::is_bad_size(n, store.len()) {
        return Err(Fault::BadSize);
    }
    store.fill(0);
    Ok(())
}
