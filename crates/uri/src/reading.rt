// The parts of a URI, by the positions where they end, and whether a text is one.
ghost use Rattle.std.specs.Prelude.{◌≡◌, ◌&&◌, ◌+◌, eqb};
ghost use Rattle.laws.specs.Choose.{pick};
ghost use Rattle.laws.specs.Lists.{byte_at, part, every};
ghost use Rattle.uri.specs.Classes.{is_of};
ghost use Rattle.uri.specs.Host.{is_host};
ghost use Rattle.uri.specs.Read.{scheme_end, ends_of, behind_colon, parameters_end, has_user, pieces_behind, user_fits, port_fits, end_fits, parameters_of, headers_of, is_parameter, is_header, is_built, is_uri};
ghost use Rattle.uri.specs.Parts.{is_piece, reading_of};

use crate::classes::Class;
use crate::pieces::Piece;
use crate::{escapes, host, pieces};
use text::class::Other;
use text::names::same_text;
use text::part::part_of;
use text::runs::{past, stands_at};

// Where the parts of a URI end, in their order; the host begins at `start`.
#[derive(Clone, Copy)]
pub struct Ends {
    pub scheme: usize,
    pub user: usize,
    pub password: usize,
    pub start: usize,
    pub host: usize,
    pub port: usize,
    pub parameters: usize,
}

// A text with the ends of its parts.
#[derive(Clone, Copy)]
pub struct Split<'a> {
    pub text: &'a [u8],
    pub ends: Ends,
}

// Where the scheme and its colon end; 0 where it is neither sip nor sips.
#[tactic(auto, unfolding(crate::specs::Read::scheme_end))]
pub fn scheme_end(s: &[u8]) -> usize
    ensures { result ≡ scheme_end s.now }
{
    if same_text(part_of(s, 0, 4), b"sip:") {
        return 4;
    }
    if same_text(part_of(s, 0, 5), b"sips:") {
        return 5;
    }
    0
}

// Where a colon and the bytes of a class behind it end; the position itself where no colon stands there.
#[tactic(auto, using(crate::proofs::StandLaws::stood), unfolding(crate::specs::Read::behind_colon))]
pub fn behind_colon(s: &[u8], at: usize, class: Class) -> usize
    ensures { result ≡ behind_colon (is_of class) s.now at }
{
    if stands_at(s, at, b':') {
        return past(s, at + 1, class);
    }
    at
}

#[tactic(auto, unfolding(crate::specs::Read::parameters_end, crate::specs::Classes::is_other))]
fn parameters_end(s: &[u8], at: usize) -> usize
    ensures { result ≡ parameters_end s.now at }
{
    if stands_at(s, at, b';') {
        return past(s, at, Other(b'?'));
    }
    at
}

// Whether each piece is what is asked, from behind a mark on: where the mark does not stand there is none.
#[tactic(auto, using(crate::proofs::StandLaws::stood), unfolding(crate::specs::Read::pieces_behind, laws::specs::Lists::every))]
pub fn pieces_fit(s: &[u8], at: usize, mark: u8, to: usize, c: u8, kind: Piece) -> bool
    ensures { result ≡ every (is_piece kind) (pieces_behind s.now at mark to c) }
{
    !stands_at(s, at, mark) || pieces::every_piece(part_of(s, at + 1, to), c, kind)
}

// Where the host begins: behind the @ of a userinfo, or behind the scheme.
#[tactic(auto, using(crate::proofs::StandLaws::stood))]
fn host_start(s: &[u8], scheme: usize, password: usize) -> usize
    ensures { result ≡ pick (eqb (byte_at s.now password) 64) (password + 1) scheme }
{
    if stands_at(s, password, b'@') {
        return password + 1;
    }
    scheme
}

impl Split<'_> {
    // Whether there is a userinfo.
    #[tactic(auto, unfolding(crate::specs::Read::has_user))]
    pub fn has_user(self) -> bool
        ensures { result ≡ has_user self.entry.text.now self.entry.ends }
    {
        stands_at(self.text, self.ends.password, b'@')
    }

    // Whether the user is not empty, and every % in user and password begins an escape.
    #[tactic(auto, unfolding(crate::specs::Read::user_fits))]
    fn user_fits(self) -> bool
        ensures { result ≡ user_fits self.entry.text.now self.entry.ends }
    {
        let e = self.ends;
        !self.has_user()
            || e.scheme < e.user
                && escapes::escapes_whole(part_of(self.text, e.scheme, e.user))
                && escapes::escapes_whole(part_of(self.text, e.user, e.password))
    }

    // Whether a port that is there is not empty.
    #[tactic(auto, using(crate::proofs::StandLaws::stood), unfolding(crate::specs::Read::port_fits))]
    fn port_fits(self) -> bool
        ensures { result ≡ port_fits self.entry.text.now self.entry.ends }
    {
        let at = self.ends.host;
        !stands_at(self.text, at, b':') || at + 1 < self.ends.port
    }

    // Whether the text ends behind the parameters, or ? and headers follow.
    #[tactic(auto, unfolding(crate::specs::Read::end_fits))]
    fn end_fits(self) -> bool
        ensures { result ≡ end_fits self.entry.text.now self.entry.ends }
    {
        let at = self.ends.parameters;
        at == self.text.len() || stands_at(self.text, at, b'?')
    }

    // Whether a text with these ends, whose host is told, is a URI.
    #[tactic(auto, unfolding(crate::specs::Read::is_built))]
    fn is_built(self, host: bool) -> bool
        requires { host ≡ is_host (part self.text.now self.ends.start self.ends.host) }
        ensures { result ≡ is_built self.entry.text.now self.entry.ends }
    {
        self.ends.scheme != 0 && self.user_fits() && host && self.port_fits() && self.is_closed()
    }

    // Whether what stands behind the port is built.
    #[tactic(auto, unfolding(crate::specs::Read::parameters_of, crate::specs::Read::headers_of))]
    fn is_closed(self) -> bool
        ensures { result ≡ (end_fits self.entry.text.now self.entry.ends && (every is_parameter (parameters_of self.entry.text.now self.entry.ends) && every is_header (headers_of self.entry.text.now self.entry.ends))) }
    {
        let (s, e) = (self.text, self.ends);
        self.end_fits()
            && pieces_fit(s, e.port, b';', e.parameters, b';', Piece::Parameter)
            && pieces_fit(s, e.parameters, b'?', s.len(), b'&', Piece::Header)
    }
}

// Where the parts of a text end, and whether its host is one.
fn found_in(s: &[u8]) -> (Ends, bool)
    ensures { (result.0 ≡ ends_of s.now) × (result.1 ≡ is_host (part s.now result.0.start result.0.host)) }
{
    let scheme = scheme_end(s);
    let user = past(s, scheme, Class::User);
    let password = behind_colon(s, user, Class::Password);
    let start = host_start(s, scheme, password);
    let h = host::host_at(s, start);
    let port = behind_colon(s, h.end, Class::Digit);
    let ends = Ends {
        scheme,
        user,
        password,
        start,
        host: h.end,
        port,
        parameters: parameters_end(s, port),
    };
    (ends, h.fits)
}

// Where the parts of a text end, a URI or not.
pub fn ends_of(s: &[u8]) -> Ends
    ensures { result ≡ ends_of s.now }
{
    found_in(s).0
}

// Reads a text: where its parts end, be it a URI (`Ok`) or not (`Err`).
#[tactic(auto, unfolding(crate::specs::Parts::reading_of, crate::specs::Read::is_uri))]
pub fn read(s: &[u8]) -> Result<Ends, Ends>
    ensures { result ≡ reading_of s.now }
{
    let (ends, host) = found_in(s);
    if (Split { text: s, ends }).is_built(host) {
        return Ok(ends);
    }
    Err(ends)
}

// Whether a text is a SIP or SIPS URI.
#[tactic(auto, unfolding(crate::specs::Parts::reading_of))]
pub fn is_uri(s: &[u8]) -> bool
    ensures { result ≡ is_uri s.now }
{
    read(s).is_ok()
}
