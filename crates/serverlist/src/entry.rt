// One entry of the list: what it is about, and its moments. No other file builds an entry or reads
// its moments.
ghost use Rattle.std.specs.Prelude.{◌≡◌};
ghost use Rattle.entries.specs.Entries.{is_about, expires, is_expired};
ghost use Rattle.serverlist.specs.Servers.{servers, blank};

use crate::{Address6, Server};
use clock::Moment;
use entries::Moments;

// What stands in a place behind the entries.
pub fn blank() -> Server
    ensures { result ≡ blank }
{
    Server {
        address: Address6 { octets: [0; 16] },
        expiry: Moment(0),
        router: Moment(0),
    }
}

// The entry about an address, with its moments.
pub fn about(a: Address6, m: Moments) -> Server
    ensures { result ≡ servers.entry a m }
{
    Server {
        address: a,
        expiry: m.expiry,
        router: m.router,
    }
}

// An entry with other moments.
pub fn renew(e: Server, m: Moments) -> Server
    ensures { result ≡ servers.renew m e }
{
    about(e.address, m)
}

// Whether an entry is about an address.
pub fn is_about(e: Server, a: Address6) -> bool
    ensures { result ≡ is_about servers a e }
{
    octets::compare::same(&a.octets, &e.address.octets)
}

// The moments of an entry.
pub fn moments_of(e: Server) -> Moments
    ensures { result ≡ servers.moments e }
{
    Moments {
        expiry: e.expiry,
        router: e.router,
    }
}

// When an entry expires.
pub fn expires(e: Server) -> Moment
    ensures { result ≡ expires servers e }
{
    entries::earlier(moments_of(e))
}

// Whether an entry has expired at a clock: at the moment at which it expires it has not.
pub(crate) fn is_expired(e: Server, clock: Moment) -> bool
    ensures { result ≡ is_expired servers clock e }
{
    entries::is_expired(moments_of(e), clock)
}
