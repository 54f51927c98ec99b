// What a list and a clock must be for a call not to be refused.
ghost use Rattle.std.specs.Prelude.{◌≡◌};
ghost use Rattle.entries.specs.Entries.{is_orderly};
ghost use Rattle.serverlist.specs.Servers.{servers, is_sound, is_timely};

use crate::{PLACES, Server, ServerList, entry, search};
use clock::Moment;

// Whether no address stands twice and each entry has moments.
fn is_orderly(entries: &[Server]) -> bool
    ensures { result ≡ is_orderly servers entries.now }
{
    let mut rest = entries;
    while let Some((e, behind)) = rest.split_first() {
        if search::is_held(behind, e.address) || !entries::are_moments(entry::moments_of(*e)) {
            return false;
        }
        rest = behind;
    }
    true
}

// Whether a list is sound: refusal 31 is for those that are not.
#[tactic(auto, unfolding(crate::specs::Servers::is_sound))]
pub fn is_sound(l: &ServerList) -> bool
    ensures { result ≡ is_sound l.now }
{
    l.count <= PLACES && clock::is_moment(l.clock) && is_orderly(l.held())
}

// Whether a clock is a moment and not behind the list's: refusal 15 is for those that are not.
#[tactic(auto, unfolding(crate::specs::Servers::is_timely))]
pub fn is_timely(l: &ServerList, clock: Moment) -> bool
    ensures { result ≡ is_timely l.now clock }
{
    clock::is_moment(clock) && l.clock <= clock
}
