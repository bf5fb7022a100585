// The sixteen records and the store that is lent for them.
ghost use Rattle.std.specs.Prelude.{◌≡◌, length};
ghost use Rattle.listing.specs.Lent.{open_table};
ghost use Rattle.desk.specs.Seen.{seen};

use record::Record;

// Sixteen records, and a store of any length; `desk/Seen.seen` is the table that they are.
#[derive(Drop)]
pub struct Desk<'a> {
    pub records: [Record; 16],
    pub store: &'a mut [u8],
}

// Sixteen records and a store, opened.
pub fn opened(store: &mut [u8]) -> Desk<'_>
    ensures opens { length store.old ≡ 65536 → seen result ≡ open_table 16 }
    ensures same_store { result.store.ghost_name ≡ store.entry.ghost_name }
{
    let mut records = [lent::empty(); 16];
    let _ = windgusset::open(&mut records, store);
    Desk { records, store }
}
