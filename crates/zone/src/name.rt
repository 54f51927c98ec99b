// Names as the walk over a zone compares them: lent, since a name by value would be copied at each call.
ghost use Rattle.std.specs.Prelude.{◌≡◌};
ghost use Rattle.dname.specs.Name.{name_of, same_name};
ghost use Rattle.zone.specs.Survey.{fingerprint_of};

use crate::fingerprint;
use dname::name::Name;

// The octets that count.
pub(crate) fn octets(n: &Name) -> &[u8]
    ensures { result.now ≡ name_of n.now }
{
    &n.octets[..usize::from(n.len)]
}

// The fingerprint of a name.
pub(crate) fn fingerprint_of(n: &Name) -> u32
    ensures { result ≡ fingerprint_of (name_of n.now) }
{
    fingerprint::fingerprint(octets(n))
}

// Whether two names are equal; they are compared only where their fingerprints are equal.
pub(crate) fn is_same(own: u32, a: &Name, fingerprint: u32, b: &Name) -> bool
    requires { (own ≡ fingerprint_of (name_of a.now)) × (fingerprint ≡ fingerprint_of (name_of b.now)) }
    ensures { result ≡ same_name (name_of a.now) (name_of b.now) }
{
    own == fingerprint && dname::same_name(octets(a), octets(b))
}
