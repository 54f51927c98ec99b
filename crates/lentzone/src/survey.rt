// The places of a zone in lent octets, summed up.
ghost use Rattle.std.specs.Prelude.{◌≡◌, length, map, not, None};
ghost use Rattle.zone.specs.Meaning.{used};
ghost use Rattle.zone.specs.Survey.{Surveyed, place_from};
ghost use Rattle.lentzone.specs.Decode.{entry_in};
ghost use Rattle.lentzone.specs.Inner.{SurveyedIn};

use crate::rows::Row;
use crate::{look, names, rows};
use zone::survey::Survey;
use zone::{fingerprint, survey};

// The last free place, looked for from the last place on, so that few places are read where few are
// used.
fn free_in(places: &[Row]) -> Option<usize>
    ensures { result ≡ place_from (λ e. not (used e)) 0 None (map entry_in places.now) }
{
    places.iter().rposition(|e| e[0] == 0)
}

// The one walk over all places. It tells names apart by their fingerprints: where two of those are
// equal, the names are compared. The free place is looked for apart, so that a turn over a free place
// has nothing to keep.
fn survey_of(places: &[Row], n: &[u8]) -> Survey
    requires { length places.now ≡ 64 }
    ensures { Surveyed (record { entries = map entry_in places.now }) n.now result }
{
    let fingerprint = fingerprint::fingerprint(n);
    let mut fingerprints = [0u32; 64];
    let mut used: usize = 0;
    let mut inorder = true;
    let mut found = None;
    for (i, e) in places.iter().enumerate() {
        if e[0] == 0 {
            continue;
        }
        let l = look::look_at(e, fingerprint, n);
        fingerprints[used] = l.fingerprint;
        used += 1;
        inorder = survey::both(inorder, l.fine);
        found = survey::choose(l.named, Some(i), found);
    }
    let free = free_in(places);
    let repeats = fingerprint::repeats(&fingerprints[..used]);
    let distinct = !repeats || names::are_distinct(places);
    Survey {
        inorder,
        distinct,
        found,
        free,
    }
}

// The survey of a zone for a name; other than 23,936 octets hold no zone, and nothing is found.
pub fn survey_in(z: &[u8], n: &[u8]) -> Survey
    ensures { SurveyedIn z.now n.now result }
{
    match rows::rows(z) {
        Some(places) => survey_of(places, n),
        None => Survey {
            inorder: false,
            distinct: false,
            found: None,
            free: None,
        },
    }
}
