// The places of a zone in lent octets, each as an array.
ghost use Rattle.std.specs.Prelude.{◌≡◌, length, replicate, MatchOption};
ghost use Rattle.lentzone.specs.Decode.{rows};
ghost use Rattle.lentzone.specs.Inner.{row_at};

use crate::layout::{PLACE_SIZE, ZONE_SIZE};

// The octets of one place.
pub(crate) type Row = [u8; PLACE_SIZE];

static FREE: Row = [0; PLACE_SIZE];

// The 64 places, where the octets are as many as a zone has.
pub(crate) fn rows(z: &[u8]) -> Option<&[Row]>
    ensures { MatchOption result (length z.now ≡ 23936 → ⊥) (λ r. (length z.now ≡ 23936) × (length r.now ≡ 64) × (r.now ≡ rows 374 64 z.now)) }
{
    if z.len() != ZONE_SIZE {
        return None;
    }
    Some(z.as_chunks().0)
}

// One place, if there is such a place.
pub(crate) fn row_in(z: &[u8], place: usize) -> Option<&Row>
    ensures { MatchOption result (row_at z.now place ≡ replicate 374 0) (λ r. r.now ≡ row_at z.now place) }
{
    let rows = rows(z)?;
    if place >= 64 {
        return None;
    }
    Some(&rows[place])
}

// The same; zeros where there is no such place.
pub(crate) fn row_at(z: &[u8], place: usize) -> &Row
    ensures { result.now ≡ row_at z.now place }
{
    row_in(z, place).unwrap_or(&FREE)
}
