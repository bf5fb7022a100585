// The lent slice of records: one taken out by value, sixteen looked at, one put back. These are the functions that walk it.
#![tactic(auto)]

pub mod look;

ghost use Rattle.std.specs.Prelude.{◌≡◌, set};
ghost use Rattle.record.specs.Places.{empty_record};
ghost use Rattle.lent.specs.Sixteen.{record_at};
ghost use Rattle.lent.specs.Look.{look_at, looks_of};

use look::Look;
use record::Record;

// The all-zero record.
pub fn empty() -> Record
    ensures { result ≡ empty_record }
{
    Record {
        used: 0,
        address: [0; 64],
        start: 0,
        spent: 0,
        clock: 0,
        map: 0,
        slots: [record::slots::zero_slot(); 8],
    }
}

// Record i, by value; the all-zero record past the end.
#[tactic(auto, unfolding(crate::specs::Sixteen::record_at))]
pub fn record_or_empty(t: &[Record], i: usize) -> Record
    ensures { result ≡ record_at t.now i }
{
    match t.get(i) {
        Some(r) => *r,
        None => empty(),
    }
}

// The look at record i; at the all-zero record past the end.
#[tactic(auto, unfolding(crate::specs::Look::look_at, crate::specs::Sixteen::record_at))]
pub fn look_or_none(t: &[Record], i: usize) -> Look
    ensures { result ≡ look_at t.now i }
{
    match t.get(i) {
        Some(r) => look::look_of(r),
        None => look::no_look(),
    }
}

// The looks at the first sixteen records, at the all-zero record past the end.
pub fn looked(t: &[Record]) -> [Look; 16]
    ensures { result ≡ looks_of t.now }
{
    let mut looks = [look::no_look(); 16];
    let front = &t[..t.len().min(16)];
    for (i, r) in front.iter().enumerate() {
        looks[i] = look::look_of(r);
    }
    looks
}

// Record r put at place i; past the end nothing is put.
pub fn put_if(t: &mut [Record], i: usize, r: Record)
    ensures { t.new ≡ set t.old i r }
{
    // By index: what `get_mut` of a slice writes is not known to a proof.
    if i < t.len() {
        t[i] = r;
    }
}
