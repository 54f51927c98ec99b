// Whether no two names are equal.
ghost use Rattle.std.specs.Prelude.{◌≡◌, map};
ghost use Rattle.dname.specs.Name.{key};
ghost use Rattle.octets.specs.Count.{distinct, member};
ghost use Rattle.zone.specs.Meaning.{keys};
ghost use Rattle.lentzone.specs.Decode.{entry_in};

use crate::look;
use crate::rows::Row;

// Whether the name stands at one of the places.
fn is_among(places: &[Row], n: &[u8]) -> bool
    ensures { result ≡ member (key n.now) (keys (map entry_in places.now)) }
{
    places.iter().any(|e| look::is_named(e, n))
}

// Whether no two names are equal, name by name.
pub(crate) fn are_distinct(places: &[Row]) -> bool
    ensures { result ≡ distinct (keys (map entry_in places.now)) }
{
    let mut rest = places;
    while let Some((e, behind)) = rest.split_first() {
        if e[0] != 0 && is_among(behind, look::name_in(e)) {
            return false;
        }
        rest = behind;
    }
    true
}
