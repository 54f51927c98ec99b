// A zone in which names are looked for, by the fingerprints of those that stand there: a name is
// compared only where the fingerprints are equal.
ghost use Rattle.std.specs.Prelude.{◌≡◌, true, ◌<◌, length};
ghost use Rattle.dname.specs.Name.{name_of};
ghost use Rattle.zone.specs.Survey.{fingerprint_words};
ghost use Rattle.lentzone.specs.Decode.{entry_in, is_zone};
ghost use Rattle.lentzone.specs.Inner.{place_in};
ghost use Rattle.zonesame.specs.Inner.{Fingerprints, spelled_so};

use crate::places;
use crate::places::Place;
use lentzone::layout::{NAME, NAME_LENGTH};
use lentzone::named;
use octets::compare;
use zone::fingerprint;

// The name that stands at a place.
pub(crate) fn name_at(place: &Place) -> &[u8]
    ensures { result.now ≡ name_of (entry_in place.now).name }
{
    &place[NAME..NAME + usize::from(place[NAME_LENGTH])]
}

// The fingerprints of the names of a zone, each at its place; 0 at a free place.
fn fingerprints_in(z: &[u8]) -> [u32; 64]
    requires { length z.now ≡ 23936 }
    ensures { Fingerprints z.now result 64 }
{
    let mut fingerprints = [0; 64];
    for (i, place) in places::places_of(z).iter().enumerate() {
        if place[0] != 0 {
            fingerprints[i] = fingerprint::fingerprint(name_at(place));
        }
    }
    fingerprints
}

// Whether a name of these very octets stands at a place. That is quicker to tell than whether two names
// are equal, and most names of two zones that are compared are spelled alike.
fn is_spelled(place: &Place, n: &[u8]) -> bool
    ensures { result ≡ spelled_so n.now (entry_in place.now) }
{
    place[0] != 0 && compare::same(name_at(place), n)
}

#[derive(Drop)]
pub(crate) struct Directory<'a> {
    pub zone: &'a [u8],
    fingerprints: [u32; 64],
    ghost has_form: { is_zone zone.now ≡ true },
    ghost has_names: { Fingerprints zone.now fingerprints 64 },
}

impl<'a> Directory<'a> {
    pub(crate) fn of(zone: &'a [u8]) -> Self
        requires { is_zone zone.now ≡ true }
        ensures { result.zone.now ≡ zone.now }
    {
        Directory {
            zone,
            fingerprints: fingerprints_in(zone),
        }
    }

    // The place of a name; none where it is absent.
    fn search(&self, n: &[u8]) -> Option<usize>
        ensures { result ≡ place_in self.now.zone.now n.now }
    {
        let own = fingerprint::fingerprint(n);
        for place in (0..64).rev() {
            if self.fingerprints[place] == own && named::is_at(self.zone, n, place) {
                return Some(place);
            }
        }
        None
    }

    // The place of a name that stands at this place of another zone. It is looked for at the place of
    // that number first: no name stands in a zone twice.
    pub(crate) fn place_of(&self, n: &[u8], place: usize) -> Option<usize>
        requires { place < 64 }
        ensures { result ≡ place_in self.now.zone.now n.now }
    {
        if is_spelled(places::place_of(self.zone, place), n) {
            return Some(place);
        }
        self.search(n)
    }
}
