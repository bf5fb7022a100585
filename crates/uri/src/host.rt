// The host of a URI: a hostname, an IPv4 address or an IPv6 reference. Its end and whether it is one are told in one pass over a name.
ghost use Rattle.std.specs.Prelude.{◌≡◌};
ghost use Rattle.laws.specs.Lists.{part};
ghost use Rattle.text.specs.Runs.{past};
ghost use Rattle.uri.specs.Classes.{is_label_byte, is_name_byte};
ghost use Rattle.uri.specs.Host.{is_hostname};
ghost use Rattle.uri.specs.Read.{behind_bracket};
ghost use Rattle.uri.specs.Parts.{label_of, host_of};

use crate::classes::Class;
use crate::groups;
use text::class::{ByteSet, Other};
use text::{part, runs};

// Whether a text is a label, and a toplabel: where a dot follows the first is asked, and otherwise the second.
#[derive(Clone, Copy)]
pub struct Label {
    pub fits: bool,
    pub top: bool,
}

// Where a host ends, and whether it is one. Its end is used in any case: a name that is no hostname may be an IPv4 address.
#[derive(Clone, Copy)]
pub struct Host {
    pub end: usize,
    pub fits: bool,
}

// What a run of label bytes is.
#[tactic(auto, using(crate::proofs::LabelLaws::run_begins, crate::proofs::LabelLaws::run_ends, crate::proofs::LabelLaws::no_label, crate::proofs::LabelLaws::label_told))]
fn label_of(s: &[u8], i: usize, e: usize) -> Label
    requires { e ≡ past is_label_byte s.now i }
    ensures { result ≡ label_of (part s.now i e) }
{
    if e <= i || !Class::Alphanum.has(s[i]) || !Class::Alphanum.has(s[e - 1]) {
        return Label {
            fits: false,
            top: false,
        };
    }
    Label {
        fits: true,
        top: Class::Letter.has(s[i]),
    }
}

// The bytes of names from a position on: where they end, and whether they are a hostname.
fn hostname(s: &[u8], at: usize) -> Host
    ensures { result ≡ record { end = past is_name_byte s.now at; fits = is_hostname (part s.now at (past is_name_byte s.now at)) } }
{
    let mut i = at;
    let mut top = false;
    // By position, from label to label: `split` would have to be told first where the name ends, which is one pass more.
    while i < s.len() {
        let e = runs::past(s, i, Class::Label);
        let l = label_of(s, i, e);
        if !runs::stands_at(s, e, b'.') {
            return Host {
                end: e,
                fits: if e == i { top } else { l.top },
            };
        }
        if !l.fits {
            return Host {
                end: runs::past(s, e, Class::Name),
                fits: false,
            };
        }
        top = l.top;
        i = e + 1;
    }
    Host { end: i, fits: top }
}

// Behind the ] that stands next; the end of the text where none does.
#[tactic(auto, using(crate::proofs::StandLaws::stood), unfolding(crate::specs::Read::behind_bracket, crate::specs::Classes::is_other))]
fn behind_bracket(s: &[u8], at: usize) -> usize
    ensures { result ≡ behind_bracket s.now at }
{
    let e = runs::past(s, at, Other(b']'));
    if runs::stands_at(s, e, b']') {
        return e + 1;
    }
    e
}

// The host that begins at a position.
#[tactic(auto, using(crate::proofs::HostLaws::host_bracket, crate::proofs::HostLaws::host_name, crate::proofs::HostLaws::host_numbers))]
pub fn host_at(s: &[u8], at: usize) -> Host
    ensures { result ≡ host_of s.now at }
{
    if runs::stands_at(s, at, b'[') {
        let e = behind_bracket(s, at);
        return Host {
            end: e,
            fits: groups::is_reference(part::part_of(s, at, e)),
        };
    }
    let h = hostname(s, at);
    if h.fits {
        return h;
    }
    Host {
        end: h.end,
        fits: groups::is_ipv4(part::part_of(s, at, h.end)),
    }
}
