// The lease query: a packet, the lease table, and the reply. The one call that others make.

#![tactic(auto)]

ghost use Rattle.leasequery.specs.Promise.{LeasePromise};

use clock::Moment;
use lease::Lease;
use leasetable::{form, look};

pub mod ask;
pub mod conclude;

// The answer: a refusal, or 0 and the reply's kind (11, 12 or 13) and length. Beside a refusal the
// others are 0.
#[repr(C)]
#[derive(Drop)]
pub struct LeaseAnswer {
    pub refusal: u32,
    pub kind: u32,
    pub length: u32,
}

// Answers a lease query at a moment, over a lent table, for the server of an address. The reply is
// written to the front of the buffer.
pub fn jespurla_lease_query(
    clock: Moment,
    table: &[Lease],
    server: u32,
    query: &[u8],
    reply: &mut [u8],
) -> LeaseAnswer
    ensures { LeasePromise clock table.now server query.now reply.old result reply.new }
{
    let shape = form::scan(table, form::start(table.len()));
    match ask::ask(clock, shape, query, reply.len()) {
        Ok(asked) => {
            let found = look::look(table, clock, ask::key_for(query, asked));
            conclude::conclude(&found, clock, server, query, reply)
        }
        Err(refusal) => LeaseAnswer {
            refusal: u32::from(refusal),
            kind: 0,
            length: 0,
        },
    }
}
