// Which entry of a full list is evicted.
ghost use Rattle.std.specs.Prelude.{◌≡◌};
ghost use Rattle.entries.specs.Places.{evict_place};
ghost use Rattle.serverlist.specs.Servers.{servers};

use crate::{PLACES, ServerList, entry};
use entries::eviction::{Candidate, earlier_of};

// The place of the entry of a full list that expires first, of several such the one furthest back. All
// eight places are looked at, from the last one on.
pub fn evict_place(l: &ServerList) -> usize
    ensures { result ≡ evict_place servers l.now.entries }
{
    let mut c = Candidate {
        at: PLACES - 1,
        expires: entry::expires(l.entries[PLACES - 1]),
    };
    for at in (0..PLACES - 1).rev() {
        c = earlier_of(c, entry::expires(l.entries[at]), at);
    }
    c.at
}
