// Whether a lease is active.
ghost use Rattle.std.specs.Prelude.{◌≡◌};
ghost use Rattle.lease.specs.Lease.{active_at};

use crate::Lease;
use clock::Moment;

// The state of a record that is leased.
const LEASED: u8 = 1;

// Whether a lease is active at a moment.
#[inline]
#[tactic(auto, unfolding(crate::specs::Lease::active_at))]
pub fn is_active(x: Lease, clock: Moment) -> bool
    ensures { result ≡ active_at clock x }
{
    x.state == LEASED && clock::is_ahead(x.expiry, clock)
}
