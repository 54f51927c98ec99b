// What the requests write at one name: what stands there, without the name.
ghost use Rattle.std.specs.Prelude.{◌≡◌, ◌≤◌, take};
ghost use Rattle.addresses.specs.Addresses.{nothing};
ghost use Rattle.dname.specs.declared.name.Name.{Name};
ghost use Rattle.update.specs.Rules.{with, left};
ghost use Rattle.update.specs.Meaning.{family_of, policy_of};
ghost use Rattle.request.specs.Inner.{host_at, Makes, Fresh, HasRoom, HasAddress, AlreadyAdded, Joined, Parted, alone, emptied};

use addresses::set;
use addresses::set4::{Addr4, Set4};
use addresses::set6::{Addr6, Set6};
use zone::entry::{Address, Dhcid, Records};

// The address as one of family 4, and as one of family 6.
fn addr4(a: &Address) -> Addr4
    ensures { result.octets ≡ take 4 a.now.octets }
{
    let [a, b, c, d, ..] = a.octets;
    Addr4 {
        octets: [a, b, c, d],
    }
}

fn addr6(a: &Address) -> Addr6
    ensures { result.octets ≡ a.now.octets }
{
    Addr6 { octets: a.octets }
}

// Without addresses of one family.
fn clear_family(e: Records, family: u8) -> Records
    ensures { Makes (with (family_of family) nothing) e result }
{
    if family == 4 {
        Records {
            v4: Set4::default(),
            ..e
        }
    } else {
        Records {
            v6: Set6::default(),
            ..e
        }
    }
}

// Without addresses.
fn clear_all(e: Records) -> Records
    ensures { Makes emptied e result }
{
    Records {
        v4: Set4::default(),
        v6: Set6::default(),
        ..e
    }
}

// As the deletes by policy leave it.
pub(crate) fn leave(e: Records, family: u8, policy: u8) -> Records
    ensures { Makes (left (family_of family) (policy_of policy)) e result }
{
    match policy {
        0 => e,
        1 => clear_family(e, family),
        _ => clear_all(e),
    }
}

// Whether the address is there, or its family has room for it.
pub(crate) fn has_room(e: Records, family: u8, a: Address) -> bool
    ensures { HasRoom family a e result }
{
    if family == 4 {
        set::has_room(&e.v4, &addr4(&a))
    } else {
        set::has_room(&e.v6, &addr6(&a))
    }
}

// Whether the address is there.
pub(crate) fn has_address(e: Records, family: u8, a: Address) -> bool
    ensures { HasAddress family a e result }
{
    if family == 4 {
        set::has(&e.v4, &addr4(&a))
    } else {
        set::has(&e.v6, &addr6(&a))
    }
}

// How many addresses of one family there are.
fn count_of(e: &Records, family: u8) -> usize
    ensures { ((n : Name) → result ≡ ((host_at n e.now).addresses (family_of family)).count) × (result ≤ 4) }
{
    if family == 4 {
        set::count(&e.v4)
    } else {
        set::count(&e.v6)
    }
}

// Whether there are as many addresses as an add by the policy leaves: any number under policy 0, one of
// the family under 1, one in all under 2.
fn is_alone(e: &Records, family: u8, policy: u8) -> bool
    ensures { (n : Name) → result ≡ alone (policy_of policy) (family_of family) (host_at n e.now) }
{
    match policy {
        0 => true,
        1 => count_of(e, family) == 1,
        _ => count_of(e, 4) + count_of(e, 6) == 1,
    }
}

// Whether the addresses are already as an add by this policy leaves them.
pub(crate) fn already_added(e: Records, family: u8, a: Address, policy: u8) -> bool
    ensures { AlreadyAdded family policy a e result }
{
    is_alone(&e, family, policy) && has_address(e, family, a)
}

// With the address, if there is room for it.
pub(crate) fn join(e: Records, family: u8, a: Address) -> Records
    ensures { Joined family a e result }
{
    if family == 4 {
        Records {
            v4: set::join(&e.v4, &addr4(&a)),
            ..e
        }
    } else {
        Records {
            v6: set::join(&e.v6, &addr6(&a)),
            ..e
        }
    }
}

// Without the address.
pub(crate) fn part(e: Records, family: u8, a: Address) -> Records
    ensures { Parted family a e result }
{
    if family == 4 {
        Records {
            v4: set::without(&e.v4, &addr4(&a)),
            ..e
        }
    } else {
        Records {
            v6: set::without(&e.v6, &addr6(&a)),
            ..e
        }
    }
}

// What stands at a new name: the DHCID and the one address.
pub(crate) fn fresh(d: Dhcid, family: u8, a: Address) -> Records
    ensures { Fresh d family a result }
{
    let bare = Records {
        kind: 2,
        dhcid: d,
        v4: Set4::default(),
        v6: Set6::default(),
    };
    join(bare, family, a)
}
