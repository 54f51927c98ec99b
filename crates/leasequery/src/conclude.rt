// The answer from what was found, and the reply.
ghost use Rattle.std.specs.Prelude.{◌≡◌, ◌≤◌};
ghost use Rattle.leasequery.specs.Promise.{Gives};
ghost use Rattle.leasequery.specs.Stages.{other_of, active_of, of_record, concluded};

use crate::LeaseAnswer;
use clock::Moment;
use lease::{Lease, Rank, activity};
use leasepacket::layout;
use leasereply::reply::{self, Active};
use leasetable::look::Found;

// A reply of a kind and a length was written.
fn replied(kind: u8, n: usize) -> LeaseAnswer
    requires { n ≤ 648 }
    ensures { result ≡ record { refusal = 0; kind = kind; length = n } }
{
    LeaseAnswer {
        refusal: 0,
        kind: kind as u32,
        length: n as u32,
    }
}

// LEASEUNASSIGNED or LEASEUNKNOWN.
fn other(kind: u8, server: u32, query: &[u8], buf: &mut [u8]) -> LeaseAnswer
    ensures { Gives (other_of kind server query.now buf.old) buf.old result buf.new }
{
    replied(kind, reply::write_other(buf, kind, server, query))
}

// LEASEACTIVE about a lease, with the addresses of its client where there are two or more.
fn active(told: Active, server: u32, query: &[u8], buf: &mut [u8]) -> LeaseAnswer
    ensures { Gives (active_of told.entry.clock told.entry.lease told.entry.n told.entry.ranks.now server query.now buf.old) buf.old result buf.new }
{
    let len = reply::write_active(buf, server, query, told);
    replied(layout::DHCPLEASEACTIVE, len)
}

// The reply about the record of an address, which may be free. It lists no addresses.
fn of_record(lease: &Lease, clock: Moment, server: u32, query: &[u8], buf: &mut [u8]) -> LeaseAnswer
    ensures { Gives (of_record lease.now clock server query.now buf.old) buf.old result buf.new }
{
    if !activity::is_active(*lease, clock) {
        return other(layout::DHCPLEASEUNASSIGNED, server, query, buf);
    }
    let none = Rank {
        last: Moment(0),
        address: 0,
    };
    let told = Active {
        clock,
        lease: *lease,
        ranks: &[none; 63],
        n: 0,
    };
    active(told, server, query, buf)
}

// The reply. What is found of a client is active.
#[tactic(auto, unfolding(crate::specs::Stages::concluded))]
pub fn conclude(f: &Found, clock: Moment, server: u32, query: &[u8], buf: &mut [u8]) -> LeaseAnswer
    ensures { Gives (concluded clock f.now server query.now buf.old) buf.old result buf.new }
{
    match f {
        Found::OfAddress {
            best: Some(lease),
            ..
        } => of_record(lease, clock, server, query, buf),
        Found::OfClient {
            best: Some(lease),
            kept,
            ranks,
        } => {
            let told = Active {
                clock,
                lease: *lease,
                ranks,
                n: *kept,
            };
            active(told, server, query, buf)
        }
        Found::OfAddress { best: None, .. } | Found::OfClient { best: None, .. } => {
            other(layout::DHCPLEASEUNKNOWN, server, query, buf)
        }
    }
}
