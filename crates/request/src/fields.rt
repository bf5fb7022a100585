// What the fields of a request say, as the refusals ask.
#![tactic(auto, using(crate::proofs::FieldLaws::field_parts), unfolding(text::specs::Number::is_fit, text::specs::Number::value_or, crate::specs::All::all_request))]

ghost use Rattle.std.specs.Prelude.{◌≡◌, ◌&&◌};
ghost use Rattle.request.specs.Names.{number_of};
ghost use Rattle.request.specs.Head.{method_of, uri_of, seen_at, absent, once, repeated, value_named, is_closed, stand_as_they_must};
ghost use Rattle.request.specs.Fields.{is_cSeq, cseq_fits, there, content_length, content_length_fits, expires, expires_fits, is_bad_request, body_length, body, event_text, has_match, match_text, is_bad_match};

use crate::names::Name;
use crate::{Head, Request, Seen, ToValue, header_line, names};
use text::class::Kind;
use text::number::decimal;
use text::part::part_of;
use text::runs;

impl Head {
    // How often a name stands, and its first line.
    pub fn seen(self, name: Name) -> Seen
        ensures { result ≡ seen_at (number_of name) self }
    {
        self.seen[names::number(name)]
    }

    // Whether a name stands nowhere.
    pub fn lacks(self, name: Name) -> bool
        ensures { result ≡ absent (number_of name) self }
    {
        self.seen(name).times == 0
    }

    // Whether a name stands exactly once.
    pub fn has_one(self, name: Name) -> bool
        ensures { result ≡ once (number_of name) self }
    {
        self.seen(name).times == 1
    }

    // Whether a name stands more than once.
    pub fn repeats(self, name: Name) -> bool
        ensures { result ≡ repeated (number_of name) self }
    {
        1 < self.seen(name).times
    }

    // Whether Via stands at least once, From, To, Call-ID and CSeq exactly once.
    pub fn stands_as_it_must(self) -> bool
        ensures { result ≡ stand_as_they_must self }
    {
        !self.lacks(Name::Via)
            && self.has_one(Name::From)
            && self.has_one(Name::To)
            && self.has_one(Name::CallId)
            && self.has_one(Name::CSeq)
    }

    // Whether the request is readable, where its To value says so much of its tag.
    pub fn is_readable(self, to: ToValue) -> bool
        ensures { result ≡ (self.built && (stand_as_they_must self && is_closed to)) }
    {
        self.built && self.stands_as_it_must() && !matches!(to, ToValue::Unclosed)
    }

    // Whether SIP-If-Match is given.
    pub fn has_match(self) -> bool
        ensures { result ≡ has_match self }
    {
        !self.lacks(Name::SipIfMatch)
    }
}

// Whether a CSeq value is digits, blanks, the method.
fn is_cseq(method: &[u8], v: &[u8]) -> bool
    ensures { result ≡ is_cSeq method.now v.now }
{
    let d = runs::past(v, 0, Kind::Digit);
    let b = runs::past(v, d, Kind::Blank);
    decimal(&v[..d], 2147483647).is_some() && d < b && runs::are_same(&v[b..], method)
}

impl<'a> Request<'a> {
    // The method.
    pub fn method(self) -> &'a [u8]
        ensures { result.now ≡ method_of self.entry.text.now self.entry.head }
    {
        part_of(self.text, 0, self.head.method)
    }

    // The Request-URI.
    pub fn uri(self) -> &'a [u8]
        ensures { result.now ≡ uri_of self.entry.text.now self.entry.head }
    {
        part_of(self.text, self.head.method.saturating_add(1), self.head.uri)
    }

    // The value of the first line of a name.
    pub fn value(self, name: Name) -> &'a [u8]
        ensures { result.now ≡ value_named (number_of name) self.entry.text.now self.entry.head }
    {
        header_line::value_of(self.text, self.head.seen(name).line)
    }

    // Whether CSeq fits the method.
    pub fn cseq_fits(self) -> bool
        ensures { result ≡ cseq_fits self.entry.text.now self.entry.head }
    {
        is_cseq(self.method(), self.value(Name::CSeq))
    }

    // How many bytes are there behind the empty line.
    pub fn bytes_there(self) -> usize
        ensures { result ≡ there self.entry.text.now self.entry.head }
    {
        self.text.len().saturating_sub(self.head.rest)
    }

    // What Content-Length says, at most what is there.
    pub fn content_length(self) -> Option<u64>
        ensures { result ≡ content_length self.entry.text.now self.entry.head }
    {
        decimal(self.value(Name::ContentLength), self.bytes_there() as u64)
    }

    // Whether Content-Length is absent, or stands once and fits.
    pub fn content_length_fits(self) -> bool
        ensures { result ≡ content_length_fits self.entry.text.now self.entry.head }
    {
        !self.head.repeats(Name::ContentLength)
            && (self.head.lacks(Name::ContentLength) || self.content_length().is_some())
    }

    // What Expires says.
    pub fn expires(self) -> Option<u64>
        ensures { result ≡ expires self.entry.text.now self.entry.head }
    {
        decimal(self.value(Name::Expires), 4294967295)
    }

    // Whether Expires is absent, or stands once and fits.
    pub fn expires_fits(self) -> bool
        ensures { result ≡ expires_fits self.entry.text.now self.entry.head }
    {
        !self.head.repeats(Name::Expires)
            && (self.head.lacks(Name::Expires) || self.expires().is_some())
    }

    // The first 400 of the list.
    pub fn is_bad_request(self) -> bool
        ensures { result ≡ is_bad_request self.entry.text.now self.entry.head }
    {
        !self.cseq_fits()
            || !self.content_length_fits()
            || !self.expires_fits()
            || self.head.repeats(Name::Event)
            || self.head.repeats(Name::ContentType)
    }

    // How long the body is.
    pub fn body_length(self) -> usize
        ensures { result ≡ body_length self.entry.text.now self.entry.head }
    {
        if self.head.lacks(Name::ContentLength) {
            self.bytes_there()
        } else {
            self.content_length().unwrap_or(0) as usize
        }
    }

    // The body, of so many bytes: that part of the request.
    pub fn body(self, n: usize) -> &'a [u8]
        requires { n ≡ body_length self.text.now self.head }
        ensures { result.now ≡ body self.entry.text.now self.entry.head }
    {
        part_of(self.text, self.head.rest, self.head.rest + n)
    }

    // The package's bytes.
    pub fn event_text(self) -> &'a [u8]
        ensures { result.now ≡ event_text self.entry.text.now self.entry.head }
    {
        runs::up_to_parameter(self.value(Name::Event))
    }

    // The tag presented.
    pub fn match_text(self) -> &'a [u8]
        ensures { result.now ≡ match_text self.entry.text.now self.entry.head }
    {
        self.value(Name::SipIfMatch)
    }

    // Whether SIP-If-Match is repeated or not one token.
    pub fn is_bad_match(self) -> bool
        ensures { result ≡ is_bad_match self.entry.text.now self.entry.head }
    {
        self.head.has_match()
            && (self.head.repeats(Name::SipIfMatch) || !runs::is_one_token(self.match_text()))
    }
}
