// Lease queries, as the box answers them.
ghost use Rattle.leasequery.specs.Promise.{LeasePromise};

use clock::Moment;
use lease::Lease;
use leasequery::LeaseAnswer;

// Answers a lease query at a moment, over a lent table, for the server of an address. The reply is
// written to the front of the buffer.
#[unsafe(no_mangle)]
pub extern "C" fn jespurla_lease_query(
    clock: Moment,
    table: &[Lease],
    server: u32,
    query: &[u8],
    reply: &mut [u8],
) -> LeaseAnswer
    ensures { LeasePromise clock table.now server query.now reply.old result reply.new }
{
    leasequery::jespurla_lease_query(clock, table, server, query, reply)
}
