// What a query looks for, and the leases of a client: the ranks of its first active ones.
ghost use Rattle.std.specs.Prelude.{◌≡◌, ◌≤◌};
ghost use Rattle.lease.specs.Lease.{ranks_before};
ghost use Rattle.leasetable.specs.Folds.{client_has, wanted, inserted, client_start, client_off, client_wants, client_add};

use crate::scanning::Carried;
use clock::Moment;
use lease::{Lease, Rank, activity, key, order};
use std::mem;

// An address is looked for, or a client by its hardware address or its client id. The octets of a key
// stand at the front of its array.
#[derive(Clone, Copy)]
pub enum Key {
    Address(u32),
    Hardware {
        htype: u8,
        hlen: u8,
        octets: [u8; 64],
    },
    ClientId {
        len: u8,
        octets: [u8; 64],
    },
}

impl Key {
    // Whether a lease has the client's key.
    #[inline(always)]
    #[tactic(auto, unfolding(crate::specs::Folds::client_has))]
    fn is_of(&self, x: Lease) -> bool
        ensures { result ≡ client_has self.now x }
    {
        match self {
            Key::Address(_) => false,
            Key::Hardware {
                htype,
                hlen,
                octets,
            } => key::has_hardware(x, *htype, *hlen, octets),
            Key::ClientId { len, octets } => key::has_client_id(x, *len, octets),
        }
    }

    // Whether a record is an active lease of the client. Few have the key, so that is asked first. A
    // call for every record would cost more than the test.
    #[inline(always)]
    fn wants(&self, clock: Moment, x: Lease) -> bool
        ensures { result ≡ wanted clock self.now x }
    {
        self.is_of(x) && activity::is_active(x, clock)
    }
}

// The ranks of the first N active leases of the client among the records passed.
#[derive(Clone, Copy)]
pub struct Client<const N: usize> {
    pub clock: Moment,
    pub key: Key,
    pub kept: usize,
    pub ranks: [Rank; N],
}

// The candidates for the answer to a query by client, and those of its leases whose addresses go into
// the option associated-ip (RFC 4388).
pub type Candidates = Client<4>;

pub type Associated = Client<63>;

// No record is passed yet.
pub fn start<const N: usize>(clock: Moment, key: Key) -> Client<N>
    ensures { result ≡ client_start N clock key }
{
    let blank = Rank {
        last: Moment(0),
        address: 0,
    };
    Client {
        clock,
        key,
        kept: 0,
        ranks: [blank; N],
    }
}

impl<const N: usize> Carried for Client<N> {
    ghost off = { client_off };

    ghost wants = { client_wants };

    ghost add = { client_add N };

    fn is_off(&self) -> bool {
        false
    }

    #[inline]
    fn does_want(&self, x: Lease) -> bool {
        self.key.wants(self.clock, x)
    }

    #[inline]
    #[tactic(auto, unfolding(crate::specs::Folds::noted))]
    fn note(&mut self, x: Lease) {
        if self.kept <= N {
            insert(&mut self.ranks, self.kept, order::rank_of(x));
            self.kept = (self.kept + 1).min(N);
        }
    }
}

// Whether a rank goes before one that is kept among N.
fn goes_before<const N: usize>(x: Rank, y: Rank) -> bool
    ensures { result ≡ ranks_before x y }
{
    order::is_before(x, y)
}

// A rank is put in its place among the first that are kept; where all places are taken the last is
// dropped.
fn insert<const N: usize>(ranks: &mut [Rank; N], kept: usize, e: Rank)
    requires { kept ≤ N }
    ensures { ranks.new ≡ inserted N kept e ranks.old }
{
    let mut left = e;
    for place in ranks[..kept].iter_mut() {
        if goes_before::<N>(left, *place) {
            mem::swap(place, &mut left);
        }
    }
    if kept < N {
        ranks[kept] = left;
    }
}
