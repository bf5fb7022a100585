// The refusals, in the order tried. Each function answers the first of its rows that applies, or that none does.
ghost use Rattle.std.specs.Prelude.{◌≡◌, ◌-◌};
ghost use Rattle.laws.specs.First.{first_of};
ghost use Rattle.request.specs.Fields.{has_type};
ghost use Rattle.record.specs.Packages.{package_at};
ghost use Rattle.record.specs.Places.{live, least_end};
ghost use Rattle.success.specs.After.{given_tag};
ghost use Rattle.response.specs.Outcomes.{is_success};
ghost use Rattle.response.specs.declared.Outcome.TheVariants.{Granted};
ghost use Rattle.publish.specs.Refusals.{is_bad_size, is_bad_event, is_unmatched, is_too_brief, is_other_type, is_nothing, is_full, event_of, granted, size_rows, reading_rows, address_rows, content_rows, room_rows, request_rows};
ghost use Rattle.publish.specs.Refusal.{refusal_in};

use crate::asking::Trial;
use record::Record;
use request::names::Name;
use response::fault::{Fault, number};
use response::{Field, Outcome};

// Whether the request succeeds.
#[tactic(auto, unfolding(response::specs::Outcomes::is_success))]
pub fn is_success(o: Outcome) -> bool
    ensures { result ≡ is_success o }
{
    matches!(o, Outcome::Granted(_, _))
}

// Whether there are 0 or above 16 records, or the store has another size.
#[tactic(auto, unfolding(crate::specs::Refusals::is_bad_size))]
pub fn is_bad_size(records: usize, store: usize) -> bool
    ensures { result ≡ is_bad_size records store }
{
    records == 0 || 16 < records || store != 4096 * records
}

// Before anything is read: the sizes of what is lent, and the clock.
#[tactic(auto, unfolding(crate::specs::Refusals::size_rows, crate::specs::Refusal::refusal_in))]
pub fn sizes_refusal(
    buffer: usize,
    records: usize,
    store: usize,
    request: usize,
    clock: u64,
) -> Result<(), Outcome>
    ensures { result ≡ refusal_in (size_rows buffer records store request clock) }
{
    if buffer < 4608 {
        return Err(Outcome::Silent(number(Fault::SmallBuffer)));
    }
    if is_bad_size(records, store) {
        return Err(Outcome::Silent(number(Fault::BadSize)));
    }
    if 4096 < request {
        return Err(Outcome::Silent(number(Fault::LongRequest)));
    }
    if 1000000000000 < clock {
        return Err(Outcome::Silent(number(Fault::LateClock)));
    }
    Ok(())
}

impl Trial<'_> {
    // What the request says by itself.
    #[tactic(auto, unfolding(crate::specs::Refusals::reading_rows, crate::specs::Refusal::refusal_in, crate::specs::Asked::asked_of, request::specs::Head::is_readable))]
    pub fn reading_refusal(&self) -> Result<(), Outcome>
        ensures { result ≡ refusal_in (reading_rows self.now.request.text.now self.now.request.head) }
    {
        let q = self.request;
        let method = q.method();
        if !q.head.is_readable(self.asked.to) || text::runs::are_same(method, b"ACK") {
            return Err(Outcome::Silent(number(Fault::Unreadable)));
        }
        if !text::runs::are_same(method, b"PUBLISH") {
            return Err(Outcome::Refused(405, Field::Allow));
        }
        if q.is_bad_request() {
            return Err(Outcome::Refused(400, Field::Nothing));
        }
        Ok(())
    }

    // Whether Event is absent or its package not listed.
    #[tactic(auto, unfolding(crate::specs::Refusals::is_bad_event, crate::specs::Asked::asked_of))]
    fn is_bad_event(&self) -> bool
        ensures { result ≡ is_bad_event self.now.request.text.now self.now.request.head }
    {
        self.request.head.lacks(Name::Event) || !record::packages::is_listed(self.asked.event)
    }

    // Whether a tag is presented that no live publication of the package has.
    #[tactic(auto, unfolding(crate::specs::Refusals::is_unmatched, crate::specs::Asked::asked_of))]
    fn is_unmatched(&self) -> bool
        ensures { result ≡ is_unmatched self.now.own self.now.clock self.now.request.text.now self.now.request.head }
    {
        self.request.head.has_match() && 8 <= self.asked.slot
    }

    // The address, its record, and the tag presented.
    #[tactic(auto, unfolding(crate::specs::Refusals::address_rows, crate::specs::Refusal::refusal_in))]
    pub fn address_refusal(&self, known: bool) -> Result<(), Outcome>
        ensures { result ≡ refusal_in (address_rows known self.now.own self.now.clock self.now.request.text.now self.now.request.head) }
    {
        if !known {
            return Err(Outcome::Refused(404, Field::Nothing));
        }
        if self.is_bad_event() {
            return Err(Outcome::Refused(489, Field::AllowEvents));
        }
        if self.clock < self.own.clock {
            return Err(Outcome::Refused(500, Field::Nothing));
        }
        if self.request.is_bad_match() {
            return Err(Outcome::Refused(400, Field::Nothing));
        }
        if self.is_unmatched() {
            return Err(Outcome::Refused(412, Field::Nothing));
        }
        Ok(())
    }

    // Whether the time requested is above 0 and below the least.
    #[tactic(auto, unfolding(crate::specs::Refusals::is_too_brief, crate::specs::Asked::asked_of))]
    fn is_too_brief(&self) -> bool
        ensures { result ≡ is_too_brief self.now.request.text.now self.now.request.head }
    {
        0 < self.asked.requested
            && self.asked.requested < record::packages::least_of(self.asked.event)
    }

    // Whether the content type is that of the package.
    #[tactic(auto, unfolding(request::specs::Fields::has_type, crate::specs::Asked::asked_of))]
    fn has_type(&self) -> bool
        ensures { result
            ≡ has_type (package_at (event_of self.now.request.text.now self.now.request.head)).type
            self.now.request.text.now self.now.request.head }
    {
        let q = self.request;
        !q.head.lacks(Name::ContentType)
            && record::packages::is_type_of(
                self.asked.event,
                text::runs::up_to_parameter(q.value(Name::ContentType)),
            )
    }

    // Whether there is a body and its content type is absent or another.
    #[tactic(auto, unfolding(crate::specs::Refusals::is_other_type, crate::specs::Asked::asked_of))]
    fn is_other_type(&self) -> bool
        ensures { result ≡ is_other_type self.now.request.text.now self.now.request.head }
    {
        0 < self.asked.length && !self.has_type()
    }

    // Whether there is no body and no SIP-If-Match.
    #[tactic(auto, unfolding(crate::specs::Refusals::is_nothing, crate::specs::Asked::asked_of))]
    fn is_nothing(&self) -> bool
        ensures { result ≡ is_nothing self.now.request.text.now self.now.request.head }
    {
        self.asked.length == 0 && !self.request.head.has_match()
    }

    // The time requested, and the body.
    #[tactic(auto, unfolding(crate::specs::Refusals::content_rows, crate::specs::Refusal::refusal_in, crate::specs::Asked::asked_of))]
    pub fn content_refusal(&self) -> Result<(), Outcome>
        ensures { result ≡ refusal_in (content_rows self.now.request.text.now self.now.request.head) }
    {
        let event = self.asked.event;
        if self.is_too_brief() {
            let least = record::packages::least_of(event);
            return Err(Outcome::Refused(423, Field::MinExpires(least)));
        }
        if 512 < self.asked.length {
            return Err(Outcome::Refused(413, Field::Nothing));
        }
        if self.is_other_type() {
            return Err(Outcome::Refused(415, Field::Accept(event)));
        }
        if self.is_nothing() {
            return Err(Outcome::Refused(400, Field::Nothing));
        }
        Ok(())
    }

    // Whether no tag is presented, time is granted, and eight are live.
    #[tactic(auto, unfolding(crate::specs::Refusals::is_full, crate::specs::Asked::asked_of))]
    fn is_full(&self) -> bool
        ensures { result ≡ is_full self.now.own self.now.clock self.now.request.text.now self.now.request.head }
    {
        !self.request.head.has_match()
            && 0 < self.asked.granted
            && success::freed::live_count(self.own, self.clock) == 8
    }

    // The seconds until the least end.
    fn retry_after(&self) -> u64
        ensures { result ≡ least_end (live self.now.clock self.now.own) - self.now.clock }
    {
        record::slots::least_end(self.own, self.clock).saturating_sub(self.clock)
    }

    // What the address has left.
    #[tactic(auto, unfolding(crate::specs::Refusals::room_rows, crate::specs::Refusal::refusal_in))]
    pub fn room_refusal(&self) -> Result<(), Outcome>
        ensures { result ≡ refusal_in (room_rows self.now.own self.now.clock self.now.request.text.now self.now.request.head) }
    {
        if self.own.spent == 4294967295 {
            return Err(Outcome::Refused(500, Field::Nothing));
        }
        if self.is_full() {
            return Err(Outcome::Refused(503, Field::RetryAfter(self.retry_after())));
        }
        Ok(())
    }

    // The refusals of a request for one address, once the sizes, the clock and the table are good.
    #[tactic(auto, using(crate::proofs::RefusedLaws::front_err, crate::proofs::RefusedLaws::front_ok), unfolding(crate::specs::Refusals::request_rows))]
    fn refusal(&self, known: bool) -> Result<(), Outcome>
        ensures { result ≡ refusal_in (request_rows known self.now.own self.now.clock self.now.request.text.now self.now.request.head) }
    {
        self.reading_refusal()?;
        self.address_refusal(known)?;
        self.content_refusal()?;
        self.room_refusal()
    }

    // What comes back for it.
    #[tactic(auto, using(crate::proofs::RefusedLaws::first_err, crate::proofs::RefusedLaws::first_ok), unfolding(success::specs::After::given_tag, success::specs::After::success_number, crate::specs::Asked::asked_of))]
    pub fn outcome(&self, known: bool) -> Outcome
        ensures { result
            ≡ first_of (request_rows known self.now.own self.now.clock self.now.request.text.now self.now.request.head)
            (Granted (given_tag self.now.own) (granted self.now.request.text.now self.now.request.head)) }
    {
        match self.refusal(known) {
            Err(refusal) => refusal,
            Ok(()) => Outcome::Granted(
                tag::given_tag(self.own.start, self.own.spent),
                self.asked.granted,
            ),
        }
    }
}
