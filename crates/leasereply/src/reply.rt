// The replies of each kind. Each answers its length.
ghost use Rattle.std.specs.Prelude.{◌≡◌, [], ◌∷◌, ◌++◌, ◌||◌, true, false, ltb, length, MatchOption};
ghost use Rattle.octets.specs.Number.{big_endian};
ghost use Rattle.octets.specs.Write.{WroteIf};
ghost use Rattle.leasepacket.specs.Layout.{option};
ghost use Rattle.leasereply.specs.Reply.{fixed, other_reply, active_reply, listed, Wrote};

use crate::fixed::{Fixed, Query};
use crate::options;
use clock::Moment;
use lease::{Lease, Rank};
use leasepacket::{layout, requested};
use octets::{number, write};

// The octets that the longest reply has, and that a buffer must have for any.
pub const ROOM: usize = 648;

// What a reply about an active lease tells: the record, as it is at a moment, and the addresses of the
// first n ranks where they are two or more.
#[derive(Clone, Copy)]
pub struct Active<'a> {
    pub clock: Moment,
    pub lease: Lease,
    pub ranks: &'a [Rank; 63],
    pub n: usize,
}

// What every reply begins with: the fixed fields, its kind and the server.
fn put_head(buf: &mut [u8], front: &Fixed, kind: u8, server: u32) -> usize
    ensures { WroteIf buf.old 0 (fixed front.now.query.octets.now front.now.htype front.now.hlen front.now.ciaddr.now front.now.chaddr.now ++ option 53 (kind ∷ []) ++ option 54 (big_endian 4 server)) buf.new result }
{
    let a = front.put(buf);
    let b = options::put_kind(buf, a, kind);
    options::put_number(buf, b, layout::SERVER_ID, server)
}

// LEASEUNASSIGNED (11) or LEASEUNKNOWN (12), with the query's own fields of a client.
fn put_other(buf: &mut [u8], kind: u8, server: u32, query: Query) -> usize
    ensures { WroteIf buf.old 0 (other_reply kind server query.entry.octets.now) buf.new result }
{
    let p = query.octets;
    let front = Fixed {
        query,
        htype: p[layout::HTYPE],
        hlen: p[layout::HLEN],
        ciaddr: &p[layout::CIADDR..layout::YIADDR],
        chaddr: &p[layout::CHADDR..layout::SNAME],
    };
    let a = put_head(buf, &front, kind, server);
    write::put_octet(buf, a, layout::END)
}

// LEASEACTIVE (13), with the fields of the record.
fn put_active(buf: &mut [u8], server: u32, query: Query, told: &Active) -> usize
    ensures { WroteIf buf.old 0 (active_reply told.now.clock server query.entry.octets.now told.now.lease (listed told.now.n told.now.ranks.now)) buf.new result }
{
    let x = &told.lease;
    let front = Fixed {
        query,
        htype: x.htype,
        hlen: x.hlen,
        ciaddr: &number::u32_octets(x.address),
        chaddr: &x.chaddr,
    };
    let a = put_head(buf, &front, layout::DHCPLEASEACTIVE, server);
    let b = options::put_lease(buf, a, told.clock, x, requested::read(query.octets));
    let c = options::put_listed(buf, b, told.ranks, told.n);
    write::put_octet(buf, c, layout::END)
}

// A query with all its fixed fields, if the buffer has room for any reply.
fn answered(query: &[u8], room: usize) -> Option<Query<'_>>
    ensures { MatchOption result ((ltb (length query.now) 240 || ltb room 648) ≡ true) (λ q. ((ltb (length query.now) 240 || ltb room 648) ≡ false) × (q.octets.now ≡ query.now)) }
{
    if query.len() < layout::OPTIONS || room < ROOM {
        return None;
    }
    Some(Query { octets: query })
}

// The reply to a query that is not about an active lease, if query and buffer are long enough.
pub fn write_other(buf: &mut [u8], kind: u8, server: u32, query: &[u8]) -> usize
    ensures { Wrote query.now buf.old (other_reply kind server query.now) result buf.new }
{
    let Some(query) = answered(query, buf.len()) else {
        return 0;
    };
    put_other(buf, kind, server, query)
}

// The reply that tells of an active lease, if query and buffer are long enough.
pub fn write_active(buf: &mut [u8], server: u32, query: &[u8], told: Active) -> usize
    ensures { Wrote query.now buf.old (active_reply told.entry.clock server query.now told.entry.lease (listed told.entry.n told.entry.ranks.now)) result buf.new }
{
    let Some(query) = answered(query, buf.len()) else {
        return 0;
    };
    put_active(buf, server, query, &told)
}
