// The 64 places of a zone, summed up.
ghost use Rattle.std.specs.Prelude.{◌≡◌, ◌<◌, ◌≤◌, true, ◌&&◌, drop, if◌then◌else◌};
ghost use Rattle.dname.specs.Name.{key, name_of};
ghost use Rattle.octets.specs.Count.{distinct, member};
ghost use Rattle.zone.specs.Meaning.{keys};
ghost use Rattle.zone.specs.Survey.{Visited};

use crate::entry::Entry;
use crate::{Zone, entry, fingerprint, name};
use dname::name::Name;

// inorder: every place is in order. distinct: no two names are equal. found: the place of the name
// asked for. free: a free place.
#[derive(Clone, Copy)]
pub struct Survey {
    pub inorder: bool,
    pub distinct: bool,
    pub found: Option<usize>,
    pub free: Option<usize>,
}

// A survey, with what stands at the place found; where none is, any place.
#[derive(Clone, Copy)]
pub struct Visit {
    pub survey: Survey,
    pub entry: Entry,
}

pub fn both(a: bool, b: bool) -> bool
    ensures { result ≡ (a && b) }
{
    if a { b } else { false }
}

pub fn choose<T: Copy>(b: bool, x: T, y: T) -> T
    ensures { result ≡ (if b then x else y) }
{
    if b { x } else { y }
}

// Whether the name stands at one of the places.
fn is_among(places: &[Entry], n: &Name) -> bool
    ensures { result ≡ member (key (name_of n.now)) (keys places.now) }
{
    places.iter().any(|e| entry::is_named(e, n))
}

// Whether no two names are equal, name by name.
fn distinct_names(places: &[Entry]) -> bool
    ensures { result ≡ distinct (keys places.now) }
{
    let mut rest = places;
    while let Some((e, behind)) = rest.split_first() {
        if e.kind != 0 && is_among(behind, &e.name) {
            return false;
        }
        rest = behind;
    }
    true
}

// The one walk over all places. It tells names apart by their fingerprints: where two of those are
// equal, the names are compared.
pub fn survey_of(z: &Zone, n: &Name) -> Visit
    ensures { Visited z.now (name_of n.now) result }
{
    let places = &z.entries;
    let fingerprint = name::fingerprint_of(n);
    let mut fingerprints = [0u32; 64];
    let mut used: usize = 0;
    let mut inorder = true;
    let mut found = None;
    let mut free = None;
    for (i, e) in places.iter().enumerate() {
        if e.kind == 0 {
            free = Some(i);
            continue;
        }
        let own = name::fingerprint_of(&e.name);
        fingerprints[used] = own;
        used += 1;
        let full = dname::name::are_full(&e.name.octets, e.name.len);
        let sets = entry::are_sets_sound(&e.v4, &e.v6);
        let fine = entry::is_in_order(e.kind, full, sets);
        inorder = both(inorder, fine);
        let named = name::is_same(own, &e.name, fingerprint, n);
        found = choose(named, Some(i), found);
    }
    let repeats = fingerprint::repeats(&fingerprints[..used]);
    let distinct = !repeats || distinct_names(places);
    Visit {
        survey: Survey {
            inorder,
            distinct,
            found,
            free,
        },
        entry: places[found.unwrap_or(0)],
    }
}
