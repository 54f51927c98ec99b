// The tests that requests make at a name before they write: RFC 2136 calls them prerequisites.
ghost use Rattle.std.specs.Prelude.{◌≡◌, cond, eqb};
ghost use Rattle.std.proofs.Math.Option.{none, some};
ghost use Rattle.dname.specs.declared.name.Name.{Name};
ghost use Rattle.zone.specs.Survey.{place_of};
ghost use Rattle.update.specs.Rules.{held_by, empty};
ghost use Rattle.update.specs.Meaning.{host_of};

use addresses::set;
use zone::entry::Records;

// Whether the DHCID holds a name of this kind, at which the other DHCID stands.
pub fn is_held(kind: u8, held: &[u8], dhcid: &[u8]) -> bool
    ensures { result ≡ held_by dhcid.now (cond (eqb kind 1) none (some held.now)) }
{
    kind != 1 && octets::compare::same(held, dhcid)
}

// Whether a name at which this stands has no address.
pub fn is_empty(e: Records) -> bool
    ensures { (n : Name) → result ≡ empty (host_of (place_of n e)) }
{
    set::is_empty(&e.v4) && set::is_empty(&e.v6)
}
