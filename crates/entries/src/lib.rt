// What the lists that routers keep filled have in common, whatever their entries are about: the two
// moments of an entry, and which entry of a full list goes. The rules of such a list are in
// specs/Entries.antt, and their laws in proofs.

#![tactic(auto)]

pub mod eviction;

ghost use Rattle.std.specs.Prelude.{◌≡◌};
ghost use Rattle.clock.specs.Clock.{is_past};
ghost use Rattle.entries.specs.Entries.{earlier, are_moments, moments_after, withdraws};

use clock::{Moment, Span};

// The moments of an entry: its expiry, by the Lifetime of the option that named it last, a moment or
// clock::NEVER; and the moment at which that router's lifetime ends.
#[derive(Clone, Copy, PartialEq, Eq, Debug)]
pub struct Moments {
    pub expiry: Moment,
    pub router: Moment,
}

// When an entry expires: at the earlier of its moments.
#[tactic(auto, unfolding(crate::specs::Entries::earlier))]
pub fn earlier(m: Moments) -> Moment
    ensures { result ≡ earlier m }
{
    m.expiry.min(m.router)
}

// Whether the expiry is a moment or never, and the router moment a moment.
#[tactic(auto, unfolding(crate::specs::Entries::are_moments))]
pub fn are_moments(m: Moments) -> bool
    ensures { result ≡ are_moments m }
{
    clock::is_expiry(m.expiry) && clock::is_moment(m.router)
}

// Whether an entry with these moments has expired at a clock: at the earlier of them it has not.
pub fn is_expired(m: Moments, clock: Moment) -> bool
    ensures { result ≡ is_past (earlier m) clock }
{
    clock::is_past(earlier(m), clock)
}

// The moments that an option with a Lifetime gives, in an area of a router with a lifetime.
#[tactic(auto, unfolding(crate::specs::Entries::moments_after))]
pub fn moments_after(clock: Moment, lifetime: Span, router: Span) -> Moments
    ensures { result ≡ moments_after clock lifetime router }
{
    Moments {
        expiry: clock::expiry_after(clock, lifetime),
        router: clock::moment_after(clock, router),
    }
}

// Whether an option withdraws what it names: its Lifetime is 0, or the router's lifetime is.
#[tactic(auto, unfolding(crate::specs::Entries::withdraws))]
pub fn withdraws(lifetime: Span, router: Span) -> bool
    ensures { result ≡ withdraws lifetime router }
{
    lifetime == Span(0) || router == Span(0)
}
