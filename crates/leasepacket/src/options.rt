// The options of a packet, a query's or a reply's.
ghost use Rattle.std.specs.Prelude.{◌≡◌, [], ◌∷◌, MatchOption};
ghost use Rattle.std.proofs.Math.Option.{none};
ghost use Rattle.leasepacket.specs.Options.{has_options, only_of, values_in};
ghost use Rattle.leasepacket.specs.Occurrence.{occurrence};
ghost use Rattle.leasepacket.specs.Places.{noted_of, step_of, Tells};

use crate::layout;

// Where the value of an option lies in a packet: a place and a length.
#[derive(Clone, Copy, PartialEq, Eq, Debug)]
pub struct Place {
    pub at: usize,
    pub len: usize,
}

// Why a packet does not tell the value of an option: its options can't be read, or this one is repeated.
#[derive(Clone, Copy, PartialEq, Eq, Debug)]
pub enum Fault {
    Broken,
    Repeated,
}

// How often the options have one of a code: not at all, or once, at a place; or the fault.
pub type Occurrence = Result<Option<Place>, Fault>;

// An option of the code is noted.
fn noted(seen: Occurrence, place: Place) -> Occurrence
    ensures { result ≡ noted_of seen place }
{
    match seen? {
        None => Ok(Some(place)),
        Some(_) => Err(Fault::Repeated),
    }
}

// What stands at a place: the place behind it, with what was seen up to there; or the end.
#[tactic(auto, unfolding(crate::specs::Places::step_of))]
fn option_at(
    s: &[u8],
    code: u8,
    at: usize,
    seen: Occurrence,
) -> Result<Option<(usize, Occurrence)>, Fault>
    ensures { result ≡ step_of s.now code at seen }
{
    let n = s.len();
    if n <= at {
        return Err(Fault::Broken);
    }
    let here = s[at];
    if here == layout::END {
        return Ok(None);
    }
    if here == layout::PAD {
        return Ok(Some((at + 1, seen)));
    }
    if n - at < 2 {
        return Err(Fault::Broken);
    }
    let len = s[at + 1] as usize;
    if n - at - 2 < len {
        return Err(Fault::Broken);
    }
    let next = at + 2 + len;
    if here != code {
        return Ok(Some((next, seen)));
    }
    Ok(Some((next, noted(seen, Place { at: at + 2, len }))))
}

// How often a packet has an option. The options are walked to their end.
pub fn find(s: &[u8], code: u8) -> Occurrence
    ensures { result ≡ occurrence code s.now }
{
    let mut at = layout::OPTIONS;
    let mut seen = Ok(None);
    while let Some((next, more)) = option_at(s, code, at, seen)? {
        at = next;
        seen = more;
    }
    seen
}

// The value of an option that a packet has just once.
pub fn only_value(s: &[u8], code: u8) -> Option<&[u8]>
    ensures { MatchOption result (only_of (values_in code s.now) ≡ none) (λ v. values_in code s.now ≡ v.now ∷ []) }
{
    match find(s, code) {
        Ok(Some(place)) => Some(&s[place.at..place.at + place.len]),
        Ok(None) => None,
        Err(_) => None,
    }
}

// The two options that a query is read by: message type and client id.
#[derive(Clone, Copy, PartialEq, Eq, Debug)]
pub struct Places {
    pub kind: Option<Place>,
    pub id: Option<Place>,
}

// The options that a query is read by, each at most once.
pub(crate) fn read_all(s: &[u8]) -> Result<Places, Fault>
    ensures { Tells s.now result }
{
    let kind = find(s, layout::MESSAGE_TYPE)?;
    let id = find(s, layout::CLIENT_ID)?;
    Ok(Places { kind, id })
}

// Whether the options of a packet can be read, with message type and client id at most once each.
pub fn has_options(s: &[u8]) -> bool
    ensures { result ≡ has_options s.now }
{
    read_all(s).is_ok()
}
