// The options of a reply.
ghost use Rattle.std.specs.Prelude.{◌≡◌, [], ◌∷◌, take};
ghost use Rattle.octets.specs.Number.{big_endian};
ghost use Rattle.octets.specs.Write.{WroteIf};
ghost use Rattle.leasepacket.specs.Layout.{option, encoded};
ghost use Rattle.leasepacket.specs.ReplyOptions.{held};
ghost use Rattle.leasereply.specs.Reply.{flat, addresses_of, listed, asked, about_lease};

use clock::Moment;
use lease::{Lease, Rank};
use leasepacket::layout;
use leasepacket::requested::Requested;
use octets::write;

// The fewest addresses of a client that are listed.
const FEWEST: usize = 2;

// The message type (53).
#[tactic(auto, using(octets::proofs::WriteLaws::written))]
pub(crate) fn put_kind(buf: &mut [u8], at: usize, kind: u8) -> usize
    ensures { WroteIf buf.old at (option 53 (kind ∷ [])) buf.new result }
{
    write::put_octets(buf, at, &[layout::MESSAGE_TYPE, 1, kind])
}

// An option whose value is a number of four octets.
pub(crate) fn put_number(buf: &mut [u8], at: usize, code: u8, v: u32) -> usize
    ensures { WroteIf buf.old at (option code (big_endian 4 v)) buf.new result }
{
    let a = write::put_octets(buf, at, &[code, 4]);
    write::put_u32(buf, a, v)
}

// A time of four octets, if it is asked for.
#[tactic(auto, using(crate::proofs::ReplyLaws::asked_number, crate::proofs::ReplyLaws::asked_not))]
fn put_time(buf: &mut [u8], at: usize, wanted: bool, code: u8, v: u32) -> usize
    ensures { WroteIf buf.old at (asked wanted code (big_endian 4 v)) buf.new result }
{
    if wanted {
        put_number(buf, at, code, v)
    } else {
        at
    }
}

// The first n octets of an array, if they are asked for and there are any.
fn put_held(buf: &mut [u8], at: usize, wanted: bool, code: u8, v: &[u8; 64], n: u8) -> usize
    ensures { WroteIf buf.old at (asked wanted code (take n v.now)) buf.new result }
{
    let m = n.min(64);
    if !wanted || m == 0 {
        return at;
    }
    let a = write::put_octets(buf, at, &[code, m]);
    write::put_octets(buf, a, &v[..m as usize])
}

// The options that tell of a lease: seconds left (51), client id (61), relay information (82), seconds
// since the last transaction (91), each if it is asked for.
pub(crate) fn put_lease(buf: &mut [u8], at: usize, clock: Moment, x: &Lease, r: Requested) -> usize
    ensures { WroteIf buf.old at (about_lease clock x.now r) buf.new result }
{
    let left = clock::seconds_left(x.expiry, clock);
    let since = clock::seconds_since(x.last, clock);
    let a = put_time(buf, at, r.seconds_left, layout::LEASE_TIME, left.0);
    let b = put_held(buf, a, r.client_id, layout::CLIENT_ID, &x.id, x.idlen);
    let c = put_held(
        buf,
        b,
        r.relay_information,
        layout::RELAY_INFORMATION,
        &x.relay,
        x.relaylen,
    );
    put_time(
        buf,
        c,
        r.seconds_since,
        layout::LAST_TRANSACTION_TIME,
        since.0,
    )
}

// The lower four octets of a number, which are all of an address.
#[tactic(auto, using(crate::proofs::ReplyLaws::low_octets))]
fn low_32(v: u64) -> u32
    ensures { big_endian 4 result ≡ big_endian 4 v }
{
    (v % 4294967296) as u32
}

// The addresses of ranks.
fn put_addresses(buf: &mut [u8], at: usize, ranks: &[Rank]) -> usize
    ensures { WroteIf buf.old at (flat (addresses_of ranks.now)) buf.new result }
{
    let mut a = at;
    for rank in ranks {
        a = write::put_u32(buf, a, low_32(rank.address));
    }
    a
}

// The addresses of a client (92), where there are two or more.
pub(crate) fn put_listed(buf: &mut [u8], at: usize, ranks: &[Rank; 63], n: usize) -> usize
    ensures { WroteIf buf.old at (encoded (held 92 (flat (listed n ranks.now)))) buf.new result }
{
    if n < FEWEST || 63 < n {
        return at;
    }
    let a = write::put_octets(buf, at, &[layout::ASSOCIATED_IP, (4 * n) as u8]);
    put_addresses(buf, a, &ranks[..n])
}
