// What stands at two names compared: the owner, and the addresses of each family.
ghost use Rattle.std.specs.Prelude.{◌≡◌};
ghost use Rattle.addresses.specs.Addresses.{listed};
ghost use Rattle.zonesame.specs.Inner.{same_owner, same_lists, same_host};

use addresses::family::Set;
use addresses::set;
use octets::compare;
use zone::entry::Records;

// Both are static, or both are held by one DHCID. A static name's DHCID does not matter.
fn is_same_owner(a: &Records, b: &Records) -> bool
    ensures { result ≡ same_owner a.now b.now }
{
    if a.kind == 1 {
        return b.kind == 1;
    }
    b.kind != 1 && compare::same(&a.dhcid.octets, &b.dhcid.octets)
}

// Whether two sets have the same addresses.
#[tactic(auto, unfolding(crate::specs::Inner::same_lists))]
fn is_same_set<S: Set>(s: &S, t: &S) -> bool
    ensures { result ≡ same_lists (listed S.Addr.octets_of (S.counted s.now)) (listed S.Addr.octets_of (S.counted t.now)) }
{
    set::is_within(s, t) && set::is_within(t, s)
}

// Whether the owner and both address sets are the same.
pub(crate) fn is_same_host(a: Records, b: Records) -> bool
    ensures { result ≡ same_host a b }
{
    is_same_owner(&a, &b) && is_same_set(&a.v4, &b.v4) && is_same_set(&a.v6, &b.v6)
}
