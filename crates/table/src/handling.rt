// Handling a request: what is known of it before its record is taken out, and, with that record, the answer and what a success keeps.
ghost use Rattle.std.specs.Prelude.{◌≡◌, true, false, [], ◌++◌, ◌≤◌, IfSome, length, drop};
ghost use Rattle.laws.specs.Choose.{pick};
ghost use Rattle.request.specs.Names.{To};
ghost use Rattle.request.specs.To.{to_value};
ghost use Rattle.request.specs.Head.{head_of, value_named, is_readable};
ghost use Rattle.response.specs.Outcomes.{is_silent, is_success};
ghost use Rattle.publish.specs.Refusals.{outcome_of};
ghost use Rattle.publish.specs.Refusal.{refusal_in};
ghost use Rattle.response.specs.Message.{message};
ghost use Rattle.table.specs.Looked.{begun_of, case_with, early_rows, settled_of, handle_out, handle_store, handle_answer};

use crate::{Handled, Kept, looks};
use lent::look::Look;
use publish::asking::Trial;
use publish::{Asked, refusals};
use record::Record;
use request::{Head, Request, ToValue, reading};
use response::fault::{Fault, number};
use response::{Outcome, message};
use success::Success;

// What is known of a request before its record is taken out: whether all records are sound, the place of its address (past the end
// where it has none), and what its head says.
// A number, not an Option: table/Looked.begun_of and case_with, which may not change, say it so.
#[derive(Clone, Copy)]
pub struct Begun {
    pub sound: bool,
    pub place: usize,
    pub head: Head,
}

// What handling comes to: outcome and length, and, where the request succeeds, the record that is kept.
#[derive(Clone, Copy)]
pub struct Settled {
    pub handled: Handled,
    pub kept: Option<Kept>,
}

// Reads a request, no further than a request may go, and looks for its address.
#[tactic(auto, unfolding(crate::specs::Looked::begun_of))]
pub fn begin(ls: &[Look; 16], n: usize, request: &[u8]) -> Begun
    ensures { result ≡ begun_of ls.now n request.now }
{
    let q = reading::read(text::part::part_of(request, 0, 4096));
    let k = looks::seek(q.uri(), ls, n);
    Begun {
        sound: k.sound,
        place: k.place,
        head: q.head,
    }
}

// Before what the request says: the sizes, the clock, and the soundness of every record.
#[tactic(auto, using(publish::proofs::RefusedLaws::front_err, publish::proofs::RefusedLaws::front_ok), unfolding(crate::specs::Looked::early_rows, publish::specs::Refusal::refusal_in))]
fn early_refusal(
    sound: bool,
    n: usize,
    store: usize,
    request: usize,
    buffer: usize,
    clock: u64,
) -> Result<(), Outcome>
    ensures { result ≡ refusal_in (early_rows sound n store request buffer clock) }
{
    refusals::sizes_refusal(buffer, n, store, request, clock)?;
    if !sound {
        return Err(Outcome::Silent(number(Fault::Unsound)));
    }
    Ok(())
}

// What comes back for a request, tried with its record.
fn outcome_at(b: Begun, t: &Trial<'_>, n: usize, store: usize, buffer: usize) -> Outcome
    requires { t.now.request.head ≡ b.head }
    ensures { result ≡ outcome_of (case_with b t.now.own n store buffer t.now.clock t.now.request.text.now) }
{
    if let Err(early) = early_refusal(b.sound, n, store, t.request.text.len(), buffer, t.clock) {
        return early;
    }
    t.outcome(b.place < n)
}

// The success that a request is at a record, where no refusal applies.
fn success_for(a: Asked, clock: u64) -> Success
    requires { a.length ≤ 512 }
    ensures { result ≡ record { clock = clock; event = a.event; slot = a.slot; granted = a.granted; length = a.length } }
{
    Success {
        clock,
        event: a.event,
        slot: a.slot,
        granted: a.granted,
        length: a.length as u16,
    }
}

// Whether no message is due.
#[tactic(auto, unfolding(response::specs::Outcomes::is_silent))]
fn is_silent(o: Outcome) -> bool
    ensures { result ≡ is_silent o }
{
    matches!(o, Outcome::Silent(_))
}

// Writes the message that is due at the begin of the answer buffer, and gives its length; nothing where none is due.
fn put_answer(answer: &mut [u8], q: Request<'_>, to: ToValue, number: u32, o: Outcome) -> usize
    requires { is_silent o ≡ false
        → (4608 ≤ length answer.old) × (length q.text.now ≤ 4096) × (q.head ≡ head_of q.text.now) × (to ≡ to_value (value_named To q.text.now q.head))
        × (is_readable q.text.now q.head ≡ true) }
    ensures { (result ≡ length (pick (is_silent o) [] (message q.entry.text.now number o)))
        × (answer.new
        ≡ pick (is_silent o) [] (message q.entry.text.now number o)
        ++ drop (length (pick (is_silent o) [] (message q.entry.text.now number o))) answer.old) }
{
    if is_silent(o) {
        return 0;
    }
    message::write_message(answer, q, to, number, o)
}

// A request whose record is at hand is answered, and what a success does is done.
#[tactic(auto, using(crate::proofs::AskLaws::body_fits_there), unfolding(crate::specs::Looked::case_with, crate::specs::Looked::handle_out, crate::specs::Looked::handle_store, crate::specs::Looked::handle_answer, publish::specs::Step::answer_of, publish::specs::Step::success_of, publish::specs::Step::success_for, publish::specs::Step::part_afterwards, publish::specs::Asked::asked_of))]
pub fn finish(
    b: Begun,
    own: Record,
    n: usize,
    store: &mut [u8],
    clock: u64,
    number: u32,
    request: &[u8],
    answer: &mut [u8],
) -> Settled
    requires { length request.now ≤ 4096 → b.head ≡ head_of request.now }
    ensures leaves { (settled_of n own result ≡ handle_out b own n store.old clock number request.now answer.old)
        × ((store.new ≡ handle_store b own n store.old clock number request.now answer.old)
        × (answer.new ≡ handle_answer b own n store.old clock number request.now answer.old)) }
    ensures kept { IfSome result.kept (λ k. is_success result.handled.outcome ≡ true) }
{
    let q = Request {
        text: request,
        head: b.head,
    };
    let t = Trial::new(own, clock, q);
    let asked = t.asked;
    let outcome = outcome_at(b, &t, n, store.len(), answer.len());
    let length = put_answer(answer, q, asked.to, number, outcome);
    let handled = Handled { outcome, length };
    if !refusals::is_success(outcome) {
        return Settled {
            handled,
            kept: None,
        };
    }
    let body = q.body(asked.length);
    let record = success::after::succeed(store, b.place, success_for(asked, clock), own, body);
    Settled {
        handled,
        kept: Some(Kept {
            place: b.place,
            record,
        }),
    }
}
