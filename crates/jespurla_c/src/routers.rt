// The DNS servers that routers announce.
ghost use Rattle.std.specs.Prelude.{◌≡◌};
ghost use Rattle.rdnss.specs.ServerList.{server_list};

use clock::{Moment, Span};
use rdnss::ServerListAnswer;
use serverlist::ServerList;

// The list after a router's option area has come in at a clock. Refused are, in this order: a list
// that is not sound (31), a clock above clock::LATEST or behind the list's (15), a router lifetime
// above 65,535 (15), and an area of more than 1,500 octets, or with an option of Length 0 or past the
// end (16).
#[unsafe(no_mangle)]
pub extern "C" fn jespurla_server_list(
    list: ServerList,
    clock: Moment,
    router: Span,
    area: &[u8],
) -> ServerListAnswer
    ensures { result ≡ server_list list clock router area.now }
{
    rdnss::jespurla_server_list(list, clock, router, area)
}
