// What the walk over the places needs to know of one of them.
ghost use Rattle.std.specs.Prelude.{◌≡◌, get_or};
ghost use Rattle.dname.specs.Name.{name_of, same_name};
ghost use Rattle.zone.specs.Survey.{fingerprint_words, named};
ghost use Rattle.lentzone.specs.Decode.{entry_in};
ghost use Rattle.lentzone.specs.Inner.{Looked};

use crate::decode;
use crate::layout::{NAME, NAME_LENGTH};
use crate::rows::Row;
use dname::name;
use zone::{entry, fingerprint};

// What a used place comes to: the fingerprint of its name, whether it is in order, and whether it has
// the name asked for.
#[derive(Clone, Copy)]
pub(crate) struct Look {
    pub fingerprint: u32,
    pub fine: bool,
    pub named: bool,
}

// The octets of the name.
pub(crate) fn name_in(e: &Row) -> &[u8]
    ensures { result.now ≡ name_of (entry_in e.now).name }
{
    let end = NAME + usize::from(e[NAME_LENGTH]);
    &e[NAME..end]
}

// Whether two names are equal; they are compared only where their fingerprints are equal.
fn is_same(own: u32, a: &[u8], fingerprint: u32, b: &[u8]) -> bool
    requires { (own ≡ fingerprint_words a.now) × (fingerprint ≡ fingerprint_words b.now) }
    ensures { result ≡ same_name a.now b.now }
{
    own == fingerprint && dname::same_name(a, b)
}

// A used place.
pub(crate) fn look_at(e: &Row, fingerprint: u32, n: &[u8]) -> Look
    requires { (fingerprint ≡ fingerprint_words n.now) × (get_or e.now 0 0 ≡ 0 → ⊥) }
    ensures { Looked n.now (entry_in e.now) result }
{
    let octets = name_in(e);
    let own = fingerprint::fingerprint(octets);
    let full = name::is_full_name(octets);
    let sets = decode::are_sets_sound(e);
    Look {
        fingerprint: own,
        fine: entry::is_in_order(e[0], full, sets),
        named: is_same(own, octets, fingerprint, n),
    }
}

// Whether the name stands at a place.
pub(crate) fn is_named(e: &Row, n: &[u8]) -> bool
    ensures { result ≡ named n.now (entry_in e.now) }
{
    e[0] != 0 && dname::same_name(name_in(e), n)
}
