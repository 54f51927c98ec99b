// One option of the area, and what it does to the list.
ghost use Rattle.std.specs.Prelude.{◌≡◌, false, ◌-◌, ◌/◌, ◌≤◌, min, map};
ghost use mathlib.Core.List.{foldl};
ghost use Rattle.entries.specs.Entries.{marking, roomed, inserted, named_all, removed};
ghost use Rattle.entries.specs.Places.{InPlaces, Ready, Holds, marks};
ghost use Rattle.serverlist.specs.Servers.{servers, held, packed};
ghost use Rattle.serverlist.specs.Places.{server_places};
ghost use Rattle.rdnss.specs.Area.{is_acting, counted, lifetime_of, named_by};
ghost use Rattle.rdnss.specs.Options.{is_withdrawing, moments_of, option_applied};
ghost use Rattle.rdnss.specs.Places.{OptionFits, address};

use clock::{Moment, Span};
use entries::Moments;
use serverlist::{Address6, PLACES, ServerList, entry, eviction, search, shift};

// The Type of an option that names DNS servers.
const TYPE: u8 = 25;

// How many of its addresses count.
const COUNTED: usize = 3;

// When an area comes in, and the lifetime of the router that it comes from.
#[derive(Clone, Copy, PartialEq, Eq, Debug)]
pub(crate) struct Arrival {
    pub clock: Moment,
    pub router: Span,
}

// The Lifetime of an option.
fn lifetime_of(option: &[u8]) -> Span
    ensures { result ≡ lifetime_of option.now }
{
    Span(octets::number::u32_at(option, 4))
}

impl Arrival {
    // Whether an option withdraws what it names.
    fn withdraws(self, option: &[u8]) -> bool
        ensures { result ≡ is_withdrawing self.router option.now }
    {
        entries::withdraws(lifetime_of(option), self.router)
    }

    // The moments that an option gives what it names.
    fn moments(self, option: &[u8]) -> Moments
        ensures { result ≡ moments_of self.clock self.router option.now }
    {
        entries::moments_after(self.clock, lifetime_of(option), self.router)
    }
}

// A new entry about an address, behind the option's own, which are so many of the first; how many are
// then its own is answered. A full list gives one up for it, which may be one of these.
fn insert(l: &mut ServerList, own: usize, a: Address6, x: Moments) -> usize
    requires { Ready server_places l.old own }
    ensures { Holds server_places l.old.clock (inserted ((marking servers).entry a x) (roomed (marking servers) (marks server_places l.old own))) l.new result }
{
    let e = entry::about(a, x);
    if l.count < PLACES {
        shift::insert(l, own, e);
        return own + 1;
    }
    let k = eviction::evict_place(l);
    if k < own {
        shift::exchange(l, k, own - 1, e);
        return own;
    }
    shift::exchange(l, k, own, e);
    own + 1
}

// Whether an option acts: Type 25 with odd Length of at least 3.
#[tactic(auto, unfolding(crate::specs::Area::is_acting))]
fn is_acting(option: &[u8]) -> bool
    ensures { result ≡ is_acting option.now }
{
    let units = octets::number::octet_at(option, 1);
    octets::number::octet_at(option, 0) == TYPE && 3 <= units && units % 2 == 1
}

// How many addresses of an option of this Length count: the first three.
fn address_count(units: usize) -> usize
    requires { 3 ≤ units }
    ensures { result ≡ min ((units - 1) / 2) counted }
{
    ((units - 1) / 2).min(COUNTED)
}

// The addresses that an option names: those that count, if it acts.
fn named_by(option: &[u8]) -> &[[u8; 16]]
    requires { OptionFits option.now }
    ensures { map address result.now ≡ named_by option.now }
{
    if !is_acting(option) {
        return &[];
    }
    let (addresses, _) = option[8..].as_chunks::<16>();
    &addresses[..address_count(usize::from(option[1]))]
}

// Addresses withdrawn.
fn withdraw(l: &mut ServerList, addresses: &[[u8; 16]])
    requires { InPlaces server_places l.old }
    ensures { l.new ≡ packed l.old.clock (foldl (λ h a. removed servers a h) (held l.old) (map address addresses.now)) }
{
    for octets in addresses {
        let a = Address6 { octets: *octets };
        if let Some(k) = search::find(l, a) {
            shift::remove(l, k);
        }
    }
}

// Addresses renewed where they stand or inserted.
fn name(l: &mut ServerList, addresses: &[[u8; 16]], x: Moments)
    requires { InPlaces server_places l.old }
    ensures { l.new ≡ packed l.old.clock (named_all servers false x (map address addresses.now) (held l.old)) }
{
    let mut own = 0;
    for octets in addresses {
        let a = Address6 { octets: *octets };
        if let Some(k) = search::find(l, a) {
            l.entries[k] = entry::renew(l.entries[k], x);
        } else {
            own = insert(l, own, a, x);
        }
    }
}

// One option of an area that comes in: it withdraws what it names, or else names it.
pub(crate) fn apply(l: &mut ServerList, option: &[u8], arrival: Arrival)
    requires { InPlaces server_places l.old × OptionFits option.now }
    ensures { l.new ≡ packed l.old.clock (option_applied arrival.clock arrival.router servers named_by (held l.old) option.now) }
{
    let addresses = named_by(option);
    if arrival.withdraws(option) {
        withdraw(l, addresses);
    } else {
        name(l, addresses, arrival.moments(option));
    }
}
