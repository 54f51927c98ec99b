// The order in which the leases of a client are given.
ghost use Rattle.std.specs.Prelude.{◌≡◌};
ghost use Rattle.std.proofs.Common.{rules};
ghost use Rattle.std.specs.Cmp.{partial_order_from_own_ties};
ghost use Rattle.std.specs.Cmp.Rules.{comparing};
ghost use Rattle.std.specs.Ordering.{nat_cmp, on, flip_args, then_cmp, as_partial_cmp};
ghost use Rattle.lease.specs.Lease.{rank_of, ranks_before};

use crate::{Lease, Rank};
use std::cmp::Ordering;

// What a lease is ranked by.
#[inline]
pub fn rank_of(x: Lease) -> Rank
    ensures { result ≡ rank_of x }
{
    Rank {
        last: x.last,
        address: x.address as u64,
    }
}

// The later transaction comes first, and of equal ones the lower address.
impl Ord for Rank {
    ghost cmp = { then_cmp (flip_args (on (λ r. r.last.0) nat_cmp)) (on (λ r. r.address) nat_cmp) };

    ghost total = { Prim.search (comparing, rules) };

    ghost matches_partial_cmp = { Prim.search (comparing, rules) };

    ghost matches_eq = { Prim.search (comparing, rules) };

    fn cmp(&self, other: &Rank) -> Ordering {
        other
            .last
            .cmp(&self.last)
            .then(self.address.cmp(&other.address))
    }
}

impl PartialOrd for Rank {
    ghost partial_cmp = { as_partial_cmp (then_cmp (flip_args (on (λ r. r.last.0) nat_cmp)) (on (λ r. r.address) nat_cmp)) };

    ghost laws = { partial_order_from_own_ties (Prim.search (comparing, rules)) (Prim.search (comparing, rules)) };

    fn partial_cmp(&self, other: &Rank) -> Option<Ordering> {
        Some(self.cmp(other))
    }
}

// Whether one rank comes before another.
#[tactic(auto, unfolding(crate::specs::Lease::ranks_before))]
pub fn is_before(x: Rank, y: Rank) -> bool
    ensures { result ≡ ranks_before x y }
{
    x < y
}
