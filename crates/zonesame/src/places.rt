// The places of a zone in lent octets, and what stands at two of them compared where it lies.
ghost use Rattle.std.specs.Prelude.{◌≡◌, ◌<◌, length};
ghost use Rattle.lentzone.specs.Decode.{rows};
ghost use Rattle.lentzone.specs.Inner.{row_at, records_at};
ghost use Rattle.zonesame.specs.Inner.{same_host, same_place};

use crate::host;
use lentzone::layout::{DHCID, PLACE_SIZE};
use lentzone::place;
use octets::compare;

// The octets of one place.
pub(crate) type Place = [u8; PLACE_SIZE];

// The 64 places of a zone.
pub(crate) fn places_of(z: &[u8]) -> &[Place]
    requires { length z.now ≡ 23936 }
    ensures are { result.now ≡ rows 374 64 z.now }
    ensures all { length result.now ≡ 64 }
{
    z.as_chunks().0
}

// One of them.
pub(crate) fn place_of(z: &[u8], place: usize) -> &Place
    requires { (length z.now ≡ 23936) × (place < 64) }
    ensures { result.now ≡ row_at z.now place }
{
    &places_of(z)[place]
}

// Whether two places hold the same octets but for those of the name.
fn is_same_place(a: &Place, b: &Place) -> bool
    ensures { result ≡ same_place a.now b.now }
{
    a[0] == b[0] && compare::same(&a[DHCID..], &b[DHCID..])
}

// Whether the same stands at a place of one zone as at a place of another. Where the octets are the
// same it does, and nothing is decoded.
pub(crate) fn is_same_at(left: &[u8], place: usize, right: &[u8], there: usize) -> bool
    requires { (length left.now ≡ 23936) × (length right.now ≡ 23936) × (place < 64) × (there < 64) }
    ensures { result ≡ same_host (records_at left.now place) (records_at right.now there) }
{
    is_same_place(place_of(left, place), place_of(right, there))
        || host::is_same_host(
            place::records_at(left, place),
            place::records_at(right, there),
        )
}
