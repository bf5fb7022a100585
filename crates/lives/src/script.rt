// What a frame of a script asks for. Numbers are high first.
ghost use Rattle.std.specs.Prelude.{◌≤◌, length};

// A publication: the tag presented and the body, both empty where there is none.
#[derive(Clone, Copy)]
pub struct Publication<'a> {
    pub clock: u64,
    pub event: u8,
    pub granted: u32,
    pub token: &'a [u8],
    pub body: &'a [u8],
    ghost in_range: { clock ≤ 1000000000000 },
    ghost fits: { length body.now ≤ 512 },
}

// What is asked for: a life begins, a publication, or state is read.
#[derive(Clone, Copy)]
pub enum Step<'a> {
    Begins { start: u32, spent: u32 },
    Publishes(Publication<'a>),
    Shows { clock: u64, event: u8 },
}

// A life that begins.
fn begins(f: &[u8]) -> Option<Step<'_>> {
    let (start, f) = f.split_first_chunk()?;
    let spent = f.as_array()?;
    Some(Step::Begins {
        start: u32::from_be_bytes(*start),
        spent: u32::from_be_bytes(*spent),
    })
}

// A publication, as the listing takes it.
fn publishes(f: &[u8]) -> Option<Step<'_>> {
    let (clock, f) = f.split_first_chunk()?;
    let (event, f) = f.split_first()?;
    let (granted, f) = f.split_first_chunk()?;
    let (length, f) = f.split_first()?;
    let clock = u64::from_be_bytes(*clock);
    let granted = u32::from_be_bytes(*granted);
    let length = usize::from(*length);
    if f.len() < length {
        return None;
    }
    let (token, body) = f.split_at(length);
    if 1000000000000 < clock || 512 < body.len() {
        return None;
    }
    if !record::packages::is_listed(*event) || record::packages::most_of(*event) < granted {
        return None;
    }
    Some(Step::Publishes(Publication {
        clock,
        event: *event,
        granted,
        token,
        body,
    }))
}

// State that is read.
fn shows(f: &[u8]) -> Option<Step<'_>> {
    let (clock, f) = f.split_first_chunk()?;
    let [event] = f else {
        return None;
    };
    Some(Step::Shows {
        clock: u64::from_be_bytes(*clock),
        event: *event,
    })
}

// What a frame asks for; nothing where it is none.
pub fn step_of(frame: &[u8]) -> Option<Step<'_>> {
    match frame {
        [0, f @ ..] => begins(f),
        [1, f @ ..] => publishes(f),
        [2, f @ ..] => shows(f),
        _ => None,
    }
}
