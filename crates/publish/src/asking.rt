// A request tried at a record, and what it asks of it, worked out once.
ghost use Rattle.std.specs.Prelude.{◌≡◌};
ghost use Rattle.laws.specs.Choose.{pick};
ghost use Rattle.request.specs.Fields.{has_match};
ghost use Rattle.publish.specs.Refusals.{event_of, presented};
ghost use Rattle.publish.specs.Asked.{asked_of};

use crate::{Asked, times};
use record::Record;
use request::Request;
use request::names::Name;

// A request for one address at a clock, with the address's own record, and what it asks of that record.
#[derive(Clone, Copy)]
pub struct Trial<'a> {
    pub asked: Asked,
    pub own: Record,
    pub clock: u64,
    pub request: Request<'a>,
    pub ghost is_asked: { asked ≡ asked_of own clock request.text.now request.head },
}

// The slot that is presented; 8 where no tag is presented, or none that is live has it.
// A number and not an Option: a success has its slot so (success::Success).
#[tactic(auto, using(laws::proofs::Some::told_is, laws::proofs::Some::told_below, laws::proofs::Some::untold, crate::proofs::AskedLaws::matching_most), unfolding(crate::specs::Refusals::presented))]
fn slot_of(r: Record, clock: u64, event: u8, q: Request<'_>) -> u8
    requires { event ≡ event_of q.text.now q.head }
    ensures { result ≡ pick (has_match q.entry.head) (presented r clock q.entry.text.now q.entry.head) 8 }
{
    if !q.head.has_match() {
        return 8;
    }
    match record::slots::matching_slot(r, clock, event, q.match_text()) {
        Some(k) => k as u8,
        None => 8,
    }
}

impl<'a> Trial<'a> {
    // The trial of a request at a record and a clock.
    #[tactic(auto, unfolding(crate::specs::Refusals::granted, crate::specs::Asked::asked_of))]
    pub fn new(own: Record, clock: u64, request: Request<'a>) -> Trial<'a>
        ensures own { result.own ≡ own }
        ensures clock { result.clock ≡ clock }
        ensures request { result.request ≡ request.entry }
    {
        let event = times::event_of(request);
        let requested = times::requested_time(event, request);
        let asked = Asked {
            event,
            requested,
            granted: times::granted_time(event, requested),
            slot: slot_of(own, clock, event, request),
            length: request.body_length(),
            to: request::to::to_value(request.value(Name::To)),
        };
        Trial {
            asked,
            own,
            clock,
            request,
        }
    }
}
