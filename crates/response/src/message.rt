// The message that goes back for an outcome.
ghost use Rattle.std.specs.Prelude.{◌≡◌, true, ◌++◌, ◌≤◌, length, drop};
ghost use Rattle.request.specs.Names.{To};
ghost use Rattle.request.specs.To.{to_value};
ghost use Rattle.request.specs.Head.{head_of, value_named, is_readable};
ghost use Rattle.response.specs.Message.{message};

use crate::{Outcome, echoed, own_fields, status_line};
use request::{Request, ToValue};

// Writes the message at the begin of the answer buffer, and gives its length.
#[tactic(auto, using(crate::proofs::MessageLaws::in_a_row, crate::proofs::MessageLaws::put_front, crate::proofs::FitsLaws::status_fits, crate::proofs::FitsLaws::echoed_fits, crate::proofs::FitsLaws::fields_fit), unfolding(crate::specs::Message::message, crate::specs::Outcomes::our_field))]
pub fn write_message(
    answer: &mut [u8],
    q: Request<'_>,
    to: ToValue,
    number: u32,
    o: Outcome,
) -> usize
    requires { (4608 ≤ length answer.old) × (length q.text.now ≤ 4096) × (q.head ≡ head_of q.text.now)
        × (to ≡ to_value (value_named To q.text.now q.head)) × (is_readable q.text.now q.head ≡ true) }
    ensures { (result ≡ length (message q.entry.text.now number o))
        × (answer.new
        ≡ message q.entry.text.now number o ++ drop (length (message q.entry.text.now number o)) answer.old) }
{
    let p = status_line::put_status_line(answer, 0, status_line::status_of(o));
    let e = echoed::put_echoed(answer, p, q, to, number);
    let f = own_fields::put_field_lines(answer, e, o);
    text::put::put(answer, f, b"Content-Length: 0\r\n\r\n")
}
