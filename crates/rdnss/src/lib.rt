// The server list call: the options of a router's area, applied to the DNS server list of RFC 5006.

#![tactic(auto)]

pub mod area;
pub mod option;

ghost use Rattle.std.specs.Prelude.{◌≡◌};
ghost use Rattle.rdnss.specs.Options.{is_router_lifetime};
ghost use Rattle.rdnss.specs.ServerList.{server_list};
ghost use Rattle.rdnss.specs.Refusals.{number, Checked, Updated};

use crate::option::Arrival;
use clock::{Moment, Span};
use serverlist::{ServerList, expiry, form};

// The most seconds that a router's lifetime may have.
pub const MOST_LIFETIME: u32 = 65535;

// The refusal number, 0 for none, and the new list; with a refusal, the list as it was handed in.
#[repr(C)]
#[derive(Drop)]
pub struct ServerListAnswer {
    pub refusal: u32,
    pub list: ServerList,
}

// Why a call is refused.
#[derive(Clone, Copy, PartialEq, Eq, Debug)]
pub(crate) enum Refusal {
    NotSound,
    NotTimely,
    NoLifetime,
    NotWhole,
}

impl From<Refusal> for u32 {
    ghost from_gives = { λ r n. n ≡ number r };

    // The number that stands for it in an answer.
    fn from(refusal: Refusal) -> u32 {
        match refusal {
            Refusal::NotSound => 31,
            Refusal::NotTimely | Refusal::NoLifetime => 15,
            Refusal::NotWhole => 16,
        }
    }
}

// Whether a span is the lifetime of a router: refusal 15 is for those that are not.
fn is_router_lifetime(router: Span) -> bool
    ensures { result ≡ is_router_lifetime router }
{
    router.0 <= MOST_LIFETIME
}

// Whether a call is refused, and by which of the refusals in their order.
fn check(list: &ServerList, arrival: Arrival, area: &[u8]) -> Result<(), Refusal>
    ensures { Checked list.now arrival.clock arrival.router area.now result }
{
    if !form::is_sound(list) {
        return Err(Refusal::NotSound);
    }
    if !form::is_timely(list, arrival.clock) {
        return Err(Refusal::NotTimely);
    }
    if !is_router_lifetime(arrival.router) {
        return Err(Refusal::NoLifetime);
    }
    if !area::is_area(area) {
        return Err(Refusal::NotWhole);
    }
    Ok(())
}

// The list brought up to date by an area. With a refusal it stays as it is.
fn update(list: &mut ServerList, arrival: Arrival, area: &[u8]) -> Result<(), Refusal>
    ensures { Updated list.old arrival.clock arrival.router area.now list.new result }
{
    check(list, arrival, area)?;
    expiry::without_expired(list, arrival.clock);
    area::apply_all(list, area, arrival);
    Ok(())
}

// The list after a router's option area has come in at a clock. Refused are, in this order: a list
// that is not sound (31), a clock above clock::LATEST or behind the list's (15), a router lifetime
// above 65,535 (15), and an area of more than 1,500 octets, or with an option of Length 0 or past the
// end (16): the area is tested whole before anything is applied.
pub fn jespurla_server_list(
    list: ServerList,
    clock: Moment,
    router: Span,
    area: &[u8],
) -> ServerListAnswer
    ensures { result ≡ server_list list clock router area.now }
{
    let mut answer = ServerListAnswer { refusal: 0, list };
    if let Err(refusal) = update(&mut answer.list, Arrival { clock, router }, area) {
        answer.refusal = refusal.into();
    }
    answer
}
