// The leases of a table that a query is about, in up to three scans.
ghost use Rattle.std.specs.Prelude.{◌≡◌};
ghost use Rattle.leasetable.specs.Folds.{no_ranks, widened, associated, first_record, found_at, found_from, looked_from, looked};

use crate::client::{self, Associated, Candidates, Client, Key};
use crate::record;
use crate::scanning::scan;
use clock::Moment;
use lease::{Lease, Rank};

// What was found, by what was looked for. Of an address, `best` is its record, and the count and the
// ranks are those of the candidates that were passed before. Of a client, `best` is the active lease that
// ranks first, and `ranks` has the ranks of the first 63.
#[derive(Clone, Copy)]
pub enum Found {
    OfAddress {
        best: Option<Lease>,
        kept: usize,
        ranks: [Rank; 4],
    },
    OfClient {
        best: Option<Lease>,
        kept: usize,
        ranks: [Rank; 63],
    },
}

// No ranks.
fn no_ranks() -> [Rank; 63]
    ensures { result ≡ no_ranks }
{
    [Rank {
        last: Moment(0),
        address: 0,
    }; 63]
}

// Of a client with fewer than four leases all ranks are known.
fn widened(four: &Candidates) -> Associated
    ensures { result ≡ widened four.now }
{
    let mut ranks = no_ranks();
    ranks[..3].copy_from_slice(&four.ranks[..3]);
    Client {
        clock: four.clock,
        key: four.key,
        kept: four.kept,
        ranks,
    }
}

// The ranks of the client's first 63 leases. With four, the table is gone through again.
fn associated(t: &[Lease], four: &Candidates) -> Associated
    ensures { result ≡ associated four.now t.now }
{
    if four.kept == 4 {
        scan(t, client::start(four.clock, four.key))
    } else {
        widened(four)
    }
}

// The record of the client's first lease.
fn first_record(t: &[Lease], four: &Candidates) -> Option<Lease>
    ensures { result ≡ first_record four.now t.now }
{
    if four.kept == 0 {
        return None;
    }
    scan(t, record::start(four.ranks[0].address)).best
}

// The record of an address, with the candidates that were passed before.
fn by_address(t: &[Lease], address: u32, a: &Candidates) -> Found
    ensures { result ≡ found_at address a.now t.now }
{
    Found::OfAddress {
        best: scan(t, record::start(address as u64)).best,
        kept: a.kept,
        ranks: a.ranks,
    }
}

// The ranks of a client, from its first four, and the record of the first.
fn by_client(t: &[Lease], four: Candidates) -> Found
    ensures { result ≡ found_from four t.now }
{
    let all = associated(t, &four);
    let ranks = all.ranks;
    Found::OfClient {
        best: first_record(t, &four),
        kept: all.kept,
        ranks,
    }
}

// What is looked for is found in a table, by a scan that goes on from what it is given: the candidates
// among records that were passed before.
#[tactic(auto, unfolding(crate::specs::Folds::looked_from))]
pub fn look_from(t: &[Lease], a: Candidates) -> Found
    ensures { result ≡ looked_from a t.now }
{
    match a.key {
        Key::Address(address) => by_address(t, address, &a),
        Key::Hardware { .. } | Key::ClientId { .. } => by_client(t, scan(t, a)),
    }
}

// What is looked for is found in a table.
#[tactic(auto, unfolding(crate::specs::Folds::looked))]
pub fn look(t: &[Lease], clock: Moment, key: Key) -> Found
    ensures { result ≡ looked clock key t.now }
{
    look_from(t, client::start(clock, key))
}
