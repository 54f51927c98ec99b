// Which place of the list holds the entry about an address.
ghost use Rattle.std.specs.Prelude.{◌≡◌, position};
ghost use Rattle.std.specs.List.{list_any};
ghost use Rattle.entries.specs.Entries.{is_about};
ghost use Rattle.serverlist.specs.Servers.{servers, held};

use crate::{Address6, Server, ServerList, entry};

// Whether one of some entries is about an address.
pub(crate) fn is_held(entries: &[Server], a: Address6) -> bool
    ensures { result ≡ list_any (is_about servers a) entries.now }
{
    entries.iter().any(|e| entry::is_about(*e, a))
}

// The place of the first entry about an address, if the list holds one.
pub fn find(l: &ServerList, a: Address6) -> Option<usize>
    ensures { result ≡ position (is_about servers a) (held l.now) }
{
    l.held().iter().position(|e| entry::is_about(*e, a))
}
