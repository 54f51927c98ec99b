// Whether two zones are the same: the same names, owners and address sets, at whichever places. Both
// are lent, 23,936 octets each in the layout of the C struct, and only read.

#![tactic(auto)]

mod count;
mod directory;
mod host;
mod places;
mod stand;

ghost use Rattle.std.specs.Prelude.{◌≡◌, true, ◌&&◌};
ghost use Rattle.update.specs.Meaning.{zone_of};
ghost use Rattle.lentzone.specs.Decode.{zone_in, is_zone};
ghost use Rattle.zonesame.specs.Same.{SamePromise};
ghost use Rattle.zonesame.specs.Inner.{Tells};

use lentzone::survey;

// A refusal of document 01.
const BROKEN_ZONE: u32 = 17;

// refusal: 17 where the octets of either are not 23,936 or its zone breaks its form, else 0. same: 1
// or 0; beside a refusal 0.
#[repr(C)]
#[derive(Clone, Copy)]
pub struct SameAnswer {
    pub refusal: u32,
    pub same: u32,
}

// Whether the octets are 23,936 and their zone has its form. The survey is for no name.
fn is_zone(z: &[u8]) -> bool
    ensures { result ≡ is_zone z.now }
{
    let s = survey::survey_in(z, &[]);
    s.inorder && s.distinct
}

// Whether both hold a zone.
fn are_zones(left: &[u8], right: &[u8]) -> bool
    ensures { result ≡ (is_zone left.now && is_zone right.now) }
{
    is_zone(left) && is_zone(right)
}

// Whether there are as many names in one zone as in the other, and all that stands in the first stands
// in the second. No name stands in a zone twice, so the second has then nothing else.
fn is_same(left: &[u8], right: &[u8]) -> bool
    requires { (is_zone left.now && is_zone right.now) ≡ true }
    ensures { Tells (zone_of (zone_in left.now) ≡ zone_of (zone_in right.now)) result }
{
    count::names_in(left) == count::names_in(right) && stand::all_stand(left, right)
}

// Whether two zones are the same.
pub fn jespurla_zone_same(left: &[u8], right: &[u8]) -> SameAnswer
    ensures { SamePromise left.now right.now result }
{
    if !are_zones(left, right) {
        return SameAnswer {
            refusal: BROKEN_ZONE,
            same: 0,
        };
    }
    SameAnswer {
        refusal: 0,
        same: u32::from(is_same(left, right)),
    }
}
