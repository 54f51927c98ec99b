// What a zone that is lent says: what stands at a name, and whether two zones mean the same.
ghost use Rattle.std.specs.Prelude.{◌≡◌};
ghost use Rattle.zonefind.specs.Find.{find_answer};
ghost use Rattle.zonesame.specs.Same.{SamePromise};

use dname::name::Name;
use zonefind::FindAnswer;
use zonesame::SameAnswer;

// What stands at a name.
#[unsafe(no_mangle)]
pub extern "C" fn jespurla_zone_find(octets: &[u8], name: Name) -> FindAnswer
    ensures { result ≡ find_answer octets.now name }
{
    zonefind::jespurla_zone_find(octets, name)
}

// Whether two zones are the same.
#[unsafe(no_mangle)]
pub extern "C" fn jespurla_zone_same(left: &[u8], right: &[u8]) -> SameAnswer
    ensures { SamePromise left.now right.now result }
{
    zonesame::jespurla_zone_same(left, right)
}
