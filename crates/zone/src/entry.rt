// One place of a zone by value.
ghost use Rattle.std.specs.Prelude.{◌≡◌, ◌&&◌, nat_le};
ghost use Rattle.zone.specs.Meaning.{sound_sets};
ghost use Rattle.dname.specs.Name.{name_of};
ghost use Rattle.zone.specs.Survey.{named};

use crate::name;
use addresses::set;
use addresses::set4::Set4;
use addresses::set6::Set6;
use dname::name::Name;

#[repr(C)]
#[derive(Clone, Copy)]
pub struct Dhcid {
    pub octets: [u8; 35],
}

// An address of family 4 is the first 4 octets, one of family 6 all 16.
#[repr(C)]
#[derive(Clone, Copy)]
pub struct Address {
    pub octets: [u8; 16],
}

// kind: 0 is a free place, 1 a static name, 2 a name held by the DHCID; any other number breaks the
// form. What a free place holds besides, and a static name's DHCID, is ignored.
#[repr(C)]
#[derive(Clone, Copy)]
pub struct Entry {
    pub kind: u8,
    pub name: Name,
    pub dhcid: Dhcid,
    pub v4: Set4,
    pub v6: Set6,
}

// What stands at a name: a place but for the name.
#[derive(Clone, Copy)]
pub struct Records {
    pub kind: u8,
    pub dhcid: Dhcid,
    pub v4: Set4,
    pub v6: Set6,
}

// Whether the address sets of a place have their form.
pub(crate) fn are_sets_sound(v4: &Set4, v6: &Set6) -> bool
    ensures { result ≡ sound_sets v4.now v6.now }
{
    set::is_sound(v4) && set::is_sound(v6)
}

// Whether a used place is in order: its kind, whether its name is full, and whether its sets have
// their form.
pub fn is_in_order(kind: u8, full: bool, sets: bool) -> bool
    ensures { result ≡ (nat_le kind 2 && (full && sets)) }
{
    kind <= 2 && full && sets
}

// Whether the name stands there.
pub(crate) fn is_named(e: &Entry, n: &Name) -> bool
    ensures { result ≡ named (name_of n.now) e.now }
{
    e.kind != 0 && dname::same_name(name::octets(&e.name), name::octets(n))
}
