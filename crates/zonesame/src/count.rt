// The names of a zone counted.
ghost use Rattle.std.specs.Prelude.{◌≡◌, ◌==◌, not, length, slice_index, count_by};
ghost use Rattle.zone.specs.Meaning.{keys};
ghost use Rattle.lentzone.specs.Decode.{zone_in};

use crate::places;
use crate::places::Place;

// At how many places a name stands.
fn used_in(places: &[Place]) -> usize
    ensures { result ≡ count_by (λ place. not (slice_index place 0 == 0)) places.now }
{
    places.iter().filter(|place| place[0] != 0).count()
}

// How many names stand in a zone.
pub(crate) fn names_in(z: &[u8]) -> usize
    requires { length z.now ≡ 23936 }
    ensures { result ≡ length (keys (zone_in z.now).entries) }
{
    used_in(places::places_of(z))
}
