// Moments on the clock and spans of seconds, kept apart by their types.

#![tactic(auto)]

ghost use Rattle.std.specs.Prelude.{◌≡◌, ◌-◌, min};
ghost use Rattle.clock.specs.Clock.{span, is_moment, is_expiry, is_past, is_ahead, moment_after, expiry_after, seconds_left, seconds_since};

// A moment on the clock, in seconds: 0 to LATEST. As an expiry it may also be NEVER.
#[repr(C)]
#[derive(Clone, Copy, PartialEq, Eq, PartialOrd, Ord, Debug)]
pub struct Moment(pub u64);

// A span of seconds.
#[repr(C)]
#[derive(Clone, Copy, PartialEq, Eq, PartialOrd, Ord, Debug)]
pub struct Span(pub u32);

// The latest moment, 2^48 - 1.
pub const LATEST: u64 = 281474976710655;

// The number that says never where a moment is an expiry: all ones.
pub const NEVER: u64 = 18446744073709551615;

// The span that says without end: all ones.
pub const ENDLESS: u32 = 4294967295;

// Whether this is a moment on the clock.
pub fn is_moment(m: Moment) -> bool
    ensures { result ≡ is_moment m }
{
    m.0 <= LATEST
}

// Whether this is a moment on the clock or never.
#[tactic(auto, unfolding(crate::specs::Clock::is_expiry))]
pub fn is_expiry(m: Moment) -> bool
    ensures { result ≡ is_expiry m }
{
    m == Moment(NEVER) || is_moment(m)
}

// Whether what ends at a moment is past: that moment is before now.
pub fn is_past(end: Moment, clock: Moment) -> bool
    ensures { result ≡ is_past end clock }
{
    end < clock
}

// Whether an expiry is never or later than now.
#[tactic(auto, unfolding(crate::specs::Clock::is_ahead))]
pub fn is_ahead(expiry: Moment, clock: Moment) -> bool
    ensures { result ≡ is_ahead expiry clock }
{
    expiry == Moment(NEVER) || clock < expiry
}

// The moment a span from now: at most LATEST.
#[tactic(auto, unfolding(crate::specs::Clock::moment_after))]
pub fn moment_after(clock: Moment, after: Span) -> Moment
    ensures { result ≡ moment_after clock after }
{
    let sum = clock.0.saturating_add(u64::from(after.0));
    Moment(sum.min(LATEST))
}

// The expiry of a lifetime that starts now: at most LATEST, and never for a lifetime without end.
#[tactic(auto, unfolding(crate::specs::Clock::expiry_after))]
pub fn expiry_after(clock: Moment, lifetime: Span) -> Moment
    ensures { result ≡ expiry_after clock lifetime }
{
    if lifetime == Span(ENDLESS) {
        return Moment(NEVER);
    }
    moment_after(clock, lifetime)
}

// The seconds from one moment to a later one, none where it is not later, as a span of at most a limit.
fn seconds_between(from: Moment, to: Moment, limit: u32) -> Span
    ensures { result ≡ span (min (to.0 - from.0) limit) }
{
    let seconds = to.0.saturating_sub(from.0);
    Span(seconds.min(u64::from(limit)) as u32)
}

// The seconds from now to an expiry: 4,294,967,294 at most, and without end for never.
#[tactic(auto, unfolding(crate::specs::Clock::seconds_left))]
pub fn seconds_left(expiry: Moment, clock: Moment) -> Span
    ensures { result ≡ seconds_left expiry clock }
{
    if expiry == Moment(NEVER) {
        return Span(ENDLESS);
    }
    seconds_between(clock, expiry, ENDLESS - 1)
}

// The seconds from a moment to now: 4,294,967,295 at most, and 0 where the moment is later.
#[tactic(auto, unfolding(crate::specs::Clock::seconds_since))]
pub fn seconds_since(last: Moment, clock: Moment) -> Span
    ensures { result ≡ seconds_since last clock }
{
    seconds_between(last, clock, u32::MAX)
}
