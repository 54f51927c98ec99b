// The list at a new clock: entries that expired before it go.
ghost use Rattle.std.specs.Prelude.{◌≡◌, ◌≤◌};
ghost use Rattle.std.specs.List.{list_any};
ghost use Rattle.entries.specs.Entries.{places, is_expired, unexpired};
ghost use Rattle.serverlist.specs.Servers.{servers, held, packed};
ghost use Rattle.serverlist.specs.Places.{at_clock};

use crate::{PLACES, ServerList, entry};
use clock::Moment;

// The entries that have not expired before a new clock, each put behind those found before it.
fn filtered(l: &ServerList, clock: Moment) -> ServerList
    ensures { result ≡ packed clock (unexpired servers clock (held l.now)) }
{
    let mut out = crate::empty(clock);
    for e in l.held() {
        if !entry::is_expired(*e, clock) {
            out.entries[out.count] = *e;
            out.count += 1;
        }
    }
    out
}

// Whether one of the entries has expired at a clock.
fn is_any_expired(l: &ServerList, clock: Moment) -> bool
    ensures { result ≡ list_any (is_expired servers clock) (held l.now) }
{
    l.held().iter().any(|e| entry::is_expired(*e, clock))
}

// A new clock, with all entries.
fn set_clock(l: &mut ServerList, clock: Moment)
    requires { l.old.count ≤ places }
    ensures { l.new ≡ packed clock (held l.old) }
{
    l.entries[l.count..].fill(entry::blank());
    l.clock = clock;
}

// The list at a new clock, without the entries that expired before it. Mostly none did, and then no
// entry moves. A count above eight is none of a list, and what has it stays as it is.
pub fn without_expired(l: &mut ServerList, clock: Moment)
    ensures { l.new ≡ at_clock clock l.old }
{
    if PLACES < l.count {
        return;
    }
    if is_any_expired(l, clock) {
        *l = filtered(l, clock);
    } else {
        set_clock(l, clock);
    }
}
