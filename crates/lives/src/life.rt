// The life of one record, step by step, and what is printed of each.
use crate::publication;
use crate::script::{self, Publication, Step};
use page::listing::Listing;
use page::output::Page;
use record::{Record, slots, sound};
use std::io::{self, Write};

// The record, where a life has begun, and its part of the store.
#[derive(Clone, Copy)]
pub struct Life {
    record: Option<Record>,
    store: [u8; 4096],
}

// The record of ann, added afresh.
fn fresh(start: u32, spent: u32) -> Record {
    let mut address = [0; 64];
    address[..3].copy_from_slice(b"ann");
    Record {
        used: 1,
        address,
        start,
        spent,
        clock: 0,
        map: 0,
        slots: [slots::zero_slot(); 8],
    }
}

impl Life {
    // No life has begun.
    pub fn none() -> Life {
        Life {
            record: None,
            store: [0; 4096],
        }
    }

    // A publication: gives the record after it.
    fn publish(
        &mut self,
        page: &mut Page<'_>,
        r: Record,
        p: Publication<'_>,
    ) -> io::Result<Record> {
        let x = publication::success_of(r, p);
        if let Some(why) = publication::refused(r, x, !p.token.is_empty()) {
            writeln!(page, " {why}")?;
            return Ok(r);
        }
        writeln!(
            page,
            " gives {:08x} {}",
            tag::given_tag(r.start, r.spent),
            x.slot
        )?;
        Ok(success::after::succeed(&mut self.store, 0, x, r, p.body))
    }

    // Puts everything that is shown of a record: whether it is sound, and then what the witness shows of record 0.
    fn put_state(&self, page: &mut Page<'_>, r: &Record) -> io::Result<()> {
        writeln!(page, "  sound {}", u8::from(sound::is_sound(r)))?;
        view::records::put_record(page, 0, r, &self.store);
        Ok(())
    }

    // A frame; "bad" where it asks for nothing, or no life has begun.
    fn run(&mut self, page: &mut Page<'_>, frame: &[u8]) -> io::Result<()> {
        let after = match (script::step_of(frame), self.record) {
            (Some(Step::Begins { start, spent }), _) => {
                success::store::zero_part(&mut self.store, 0);
                writeln!(page, " begins")?;
                fresh(start, spent)
            }
            (Some(Step::Publishes(p)), Some(r)) => self.publish(page, r, p)?,
            (Some(Step::Shows { clock, event }), Some(r)) => {
                let slot = slots::newest_slot(r, clock, event).unwrap_or(8);
                writeln!(page, " shows {slot}")?;
                r
            }
            _ => return writeln!(page, " bad"),
        };
        self.record = Some(after);
        self.put_state(page, &after)
    }
}

// The lives listing: a line shows less than 1,000 bytes.
impl Listing for Life {
    fn put(&mut self, page: &mut Page<'_>, line: &[u8]) -> io::Result<()> {
        let mut room = [0; 4105];
        match page::input::decode(line, &mut room) {
            Some(frame) => self.run(page, frame),
            None => writeln!(page, " bad"),
        }
    }
}
