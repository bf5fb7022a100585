// What the witness says of a line: it reads state where the line is its own frame.
ghost use Rattle.std.specs.Prelude.{◌≡◌, ◌+◌, ◌-◌, ◌≤◌, ◌<◌, length};
ghost use Rattle.laws.specs.Lists.{part};
ghost use Rattle.table.specs.Read.{state_of};
ghost use Rattle.listing.specs.Witness.{read_or};
ghost use Rattle.frames.specs.Shown.{shown_text};
ghost use Rattle.frames.specs.declared.shown.Shown.TheVariants.{Read};
ghost use Rattle.desk.specs.Told.{told_text};

use frames::shown::Shown;
use frames::wanted::Wanted;
use frames::{hex, wanted};
use record::Record;
use text::part;

// What is read for the address of a frame and the package behind it; the default body stands behind that.
#[tactic(auto, unfolding(windgusset::specs::Ensured::StateAs))]
fn frame_state(rs: &[Record; 16], store: &[u8], f: &[u8], w: Wanted) -> Shown
    requires { (w.name < w.default) × (w.default ≤ length f.now) }
    ensures { result ≡ Read
        (state_of (record { address = part f.now 10 w.name; name = part f.now (w.name + 1) w.default; clock = w.clock }) (record { records = rs.now; store = store.now }))
        (length f.now - w.default) }
{
    let address = part::part_of(f, 10, w.name);
    let event = part::part_of(f, w.name + 1, w.default);
    let state = windgusset::read_state(rs, store, address, event, w.clock);
    Shown::Read(state, f.len() - w.default)
}

// What is read where a frame reads state; otherwise what is shown already.
fn frame_told(rs: &[Record; 16], store: &[u8], f: &[u8], shown: Shown) -> Shown
    ensures { shown_text result ≡ read_or (record { records = rs.now; store = store.now }) f.now (shown_text shown) }
{
    match wanted::read_wanted(f) {
        Some(w) => frame_state(rs, store, f, w),
        None => shown,
    }
}

// What is said of a line, where more is asked for or not.
#[tactic(auto, unfolding(crate::specs::Told::told_text))]
pub fn line_told(rs: &[Record; 16], store: &[u8], line: &[u8], shown: Shown, more: bool) -> Shown
    ensures { shown_text result ≡ told_text more (record { records = rs.now; store = store.now }) line.now (shown_text shown) }
{
    if !more {
        return shown;
    }
    let bytes: &mut [u8] = &mut [0; 4105];
    let n = hex::decode(line, bytes);
    frame_told(rs, store, part::part_of(bytes, 0, n), shown)
}
