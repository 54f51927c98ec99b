// Whether all that stands in one zone stands in another.
ghost use Rattle.std.specs.Prelude.{◌≡◌, true, ◌<◌, length};
ghost use Rattle.lentzone.specs.Decode.{entry_in, zone_in, is_zone};
ghost use Rattle.lentzone.specs.Inner.{row_at};
ghost use Rattle.zonesame.specs.Inner.{stands_in, all_stand};

use crate::directory::{Directory, name_at};
use crate::places;

// Whether what stands at a place of one zone stands at its name in another.
fn stands(left: &[u8], place: usize, right: &Directory) -> bool
    requires { (length left.now ≡ 23936) × (place < 64) }
    ensures { result ≡ stands_in right.now.zone.now (entry_in (row_at left.now place)) }
{
    let Some(there) = right.place_of(name_at(places::place_of(left, place)), place) else {
        return false;
    };
    places::is_same_at(left, place, right.zone, there)
}

// Whether that is so at every used place.
pub(crate) fn all_stand(left: &[u8], right: &[u8]) -> bool
    requires { (length left.now ≡ 23936) × (is_zone right.now ≡ true) }
    ensures { result ≡ all_stand right.now (zone_in left.now).entries }
{
    let right = Directory::of(right);
    for (i, place) in places::places_of(left).iter().enumerate() {
        if place[0] != 0 && !stands(left, i, &right) {
            return false;
        }
    }
    true
}
