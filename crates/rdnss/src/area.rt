// The option area of a router: tested whole first, and then applied.
ghost use Rattle.std.specs.Prelude.{◌≡◌, true, MatchOption};
ghost use Rattle.entries.specs.Places.{InPlaces};
ghost use Rattle.serverlist.specs.Places.{server_places};
ghost use Rattle.rdnss.specs.Area.{is_whole, is_area};
ghost use Rattle.rdnss.specs.Places.{Applies, Splits, Ends};

use crate::option;
use crate::option::Arrival;
use serverlist::ServerList;

// The most octets that an area may have.
pub const MOST: usize = 1500;

// The option that an area begins with, and the area behind it; none where the area is empty, or the
// option has Length 0 or runs past the end.
fn split_option(area: &[u8]) -> Option<(&[u8], &[u8])>
    ensures { MatchOption result (Ends area.now) (λ p. Splits area.now p.0.now p.1.now) }
{
    let size = usize::from(*area.get(1)?) * 8;
    if size == 0 {
        return None;
    }
    area.split_at_checked(size)
}

// Whether no option of an area has Length 0 or runs past the end.
fn is_whole(area: &[u8]) -> bool
    ensures { result ≡ is_whole 0 area.now }
{
    let mut rest = area;
    while let Some((_, behind)) = split_option(rest) {
        rest = behind;
    }
    rest.is_empty()
}

// Whether an area is no longer than an area may be, and whole: refusal 16 is for those that are not.
#[tactic(auto, unfolding(crate::specs::Area::is_area))]
pub(crate) fn is_area(area: &[u8]) -> bool
    ensures { result ≡ is_area area.now }
{
    area.len() <= MOST && is_whole(area)
}

// Each option of a whole area applied, from the first to the last.
pub(crate) fn apply_all(l: &mut ServerList, area: &[u8], arrival: Arrival)
    requires { InPlaces server_places l.old × (is_whole 0 area.now ≡ true) }
    ensures { Applies l.old arrival.clock arrival.router area.now l.new }
{
    let mut rest = area;
    while let Some((option, behind)) = split_option(rest) {
        option::apply(l, option, arrival);
        rest = behind;
    }
}
