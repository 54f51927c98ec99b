// The DNS server list of RFC 5006 by itself: the servers that routers name, in order of preference,
// each until it expires; its form, its expiry, the search of it, and what changes it.

#![tactic(auto)]

pub mod entry;
pub mod eviction;
pub mod expiry;
pub mod form;
pub mod search;
pub mod shift;

ghost use Rattle.std.specs.Prelude.{◌≡◌, []};
ghost use Rattle.serverlist.specs.Servers.{held, packed};

use clock::Moment;

// How many places a list has.
pub const PLACES: usize = 8;

// An IPv6 address.
#[repr(C)]
#[derive(Clone, Copy, PartialEq, Eq, Debug)]
pub struct Address6 {
    pub octets: [u8; 16],
}

// A DNS server and its moments: its expiry, a moment or clock::NEVER, and the router moment. It expires
// at the earlier of the two.
#[repr(C)]
#[derive(Clone, Copy, PartialEq, Eq, Debug)]
pub struct Server {
    pub address: Address6,
    pub expiry: Moment,
    pub router: Moment,
}

// The servers, the preferred one first, and the last accepted clock. Places past the count are not
// looked at, and are zero in a list that a call made.
#[repr(C)]
#[derive(Clone, Copy, PartialEq, Eq, Debug)]
pub struct ServerList {
    pub entries: [Server; PLACES],
    pub count: usize,
    pub clock: Moment,
}

impl ServerList {
    // The entries that the list holds; all eight where the count is above that.
    pub fn held(&self) -> &[Server]
        ensures { result.now ≡ held self.now }
    {
        &self.entries[..self.count.min(PLACES)]
    }
}

// A list without servers.
pub fn empty(clock: Moment) -> ServerList
    ensures { result ≡ packed clock [] }
{
    ServerList {
        entries: [entry::blank(); PLACES],
        count: 0,
        clock,
    }
}
