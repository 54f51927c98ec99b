// Domain names as they stand in a field of octets: labels, each under its length, to an end.

#![tactic(auto)]

ghost use Rattle.std.specs.Prelude.{◌≡◌, MatchOption};
ghost use Rattle.dname.specs.Name.{labels_of, limited, shape_of, same_name};
ghost use Rattle.dname.specs.Reading.{Passed, ending};

mod letters;
pub mod name;

// What a field holds.
#[derive(Clone, Copy, PartialEq, Eq, Debug)]
pub enum Shape {
    // No octets.
    Empty,
    // Labels, and the octet 0 at the end of the field.
    Full,
    // Labels to the end of the field.
    Partial,
    // Anything else.
    Malformed,
}

// The most octets of a label.
const LONGEST_LABEL: u8 = 63;

// What stands behind the label at the front; none where no whole label stands there.
fn behind_label(field: &[u8]) -> Option<&[u8]>
    ensures { MatchOption result (labels_of 0 field.now ≡ ending field.now) (λ rest. Passed field.now rest.now) }
{
    let (octets, rest) = field.split_first()?;
    match *octets {
        1..=LONGEST_LABEL => rest.get(usize::from(*octets)..),
        _ => None,
    }
}

// What stands where no whole label does: the end of the field, the octet 0 at it, or anything else.
#[tactic(auto, unfolding(crate::specs::Reading::ending))]
fn end_of(rest: &[u8]) -> Shape
    ensures { result ≡ ending rest.now }
{
    match rest {
        [] => Shape::Partial,
        [0] => Shape::Full,
        _ => Shape::Malformed,
    }
}

// The rest of a field where a label or the end is due: one label and a shorter rest, or the end. The
// octets left fall at each call.
fn labels(rest: &[u8]) -> Shape
    ensures { result ≡ labels_of 0 rest.now }
{
    match behind_label(rest) {
        Some(behind) => labels(behind),
        None => end_of(rest),
    }
}

// What labels come to in a field of so many octets: a full name has at most 255, a partial one at
// most 254.
#[tactic(auto, unfolding(crate::specs::Name::limited))]
fn limited(shape: Shape, octets: usize) -> Shape
    ensures { result ≡ limited shape octets }
{
    match shape {
        Shape::Full if octets <= 255 => Shape::Full,
        Shape::Partial if octets <= 254 => Shape::Partial,
        _ => Shape::Malformed,
    }
}

// What a whole field holds. Its length is tested first: at most 255 octets are read, so at most 128
// labels.
pub fn shape_of(field: &[u8]) -> Shape
    ensures { result ≡ shape_of field.now }
{
    match field {
        [] => Shape::Empty,
        [0, ..] => Shape::Malformed,
        _ if 255 < field.len() => Shape::Malformed,
        _ => limited(labels(field), field.len()),
    }
}

// Whether two names are equal. Most that are have the same octets; letters are folded only where they
// have not.
pub fn same_name(a: &[u8], b: &[u8]) -> bool
    ensures { result ≡ same_name a.now b.now }
{
    octets::compare::same(a, b) || letters::same_folded(a, b)
}
