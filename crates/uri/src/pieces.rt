// A text taken apart at a byte, and something asked of each piece.
ghost use Rattle.std.specs.Prelude.{◌≡◌};
ghost use Rattle.laws.specs.Lists.{every};
ghost use Rattle.uri.specs.Pieces.{pieces};
ghost use Rattle.uri.specs.Read.{is_parameter, is_header};
ghost use Rattle.uri.specs.Parts.{is_piece};

use crate::classes::Class;
use crate::{escapes, names};
use text::runs;

// What is asked: whether it is a parameter, a header, or a parameter that may stand in one URI alone.
#[derive(Clone, Copy)]
pub enum Piece {
    Parameter,
    Header,
    Loose,
}

// Whether a text is a name of one or more bytes, and perhaps = and a value of one or more.
#[tactic(auto, using(crate::proofs::StandLaws::stood), unfolding(crate::specs::Read::is_parameter))]
fn is_parameter(p: &[u8]) -> bool
    ensures { result ≡ is_parameter p.now }
{
    if !escapes::escapes_whole(p) {
        return false;
    }
    let n = runs::past(p, 0, Class::Parameter);
    if n == 0 {
        return false;
    }
    if !runs::stands_at(p, n, b'=') {
        return n == p.len();
    }
    let m = runs::past(p, n + 1, Class::Parameter);
    n + 1 < m && m == p.len()
}

// Whether a text is a name of one or more bytes, = and a value.
#[tactic(auto, using(crate::proofs::StandLaws::stood), unfolding(crate::specs::Read::is_header))]
fn is_header(h: &[u8]) -> bool
    ensures { result ≡ is_header h.now }
{
    if !escapes::escapes_whole(h) {
        return false;
    }
    let n = runs::past(h, 0, Class::Header);
    n != 0 && runs::stands_at(h, n, b'=') && runs::past(h, n + 1, Class::Header) == h.len()
}

fn is_piece(kind: Piece, p: &[u8]) -> bool
    ensures { result ≡ is_piece kind p.now }
{
    match kind {
        Piece::Parameter => is_parameter(p),
        Piece::Header => is_header(p),
        Piece::Loose => names::is_loose(p),
    }
}

// Whether every piece between the bytes c is what is asked.
pub fn every_piece(s: &[u8], c: u8, kind: Piece) -> bool
    ensures { result ≡ every (is_piece kind) (pieces c s.now) }
{
    s.split(|b| *b == c).all(|p| is_piece(kind, p))
}
