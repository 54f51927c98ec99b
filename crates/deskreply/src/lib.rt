// A reply to a lease query, as a desk reads it.

#![tactic(auto)]

ghost use Rattle.deskreply.specs.Promise.{ReadPromise};

use clock::Span;
use leasepacket::layout;
use octets::number;

pub mod fields;
pub mod form;
pub mod read;

// What a reply tells: a refusal, or 0 and its fields. A time is there where the number before it is 1.
// The list of addresses has a count, and zeros behind it. Beside a refusal all is 0.
#[repr(C)]
#[derive(Drop)]
pub struct LeaseReading {
    pub refusal: u32,
    // 11 unassigned, 12 unknown, 13 active.
    pub kind: u32,
    // The address as a number, its first octet the most significant.
    pub address: u32,
    // The seconds that the lease has left; all ones say that it has no end.
    pub has_left: u32,
    pub left: Span,
    // The seconds since the client's last transaction.
    pub has_since: u32,
    pub since: Span,
    // The addresses of the client, if it has two or more.
    pub count: u32,
    pub addresses: [u32; 63],
    // The hardware address.
    pub chaddr: [u8; 16],
    pub htype: u8,
    pub hlen: u8,
}

// Why a packet is not read as the reply to a query.
#[derive(Clone, Copy, PartialEq, Eq, Debug)]
pub enum Refusal {
    NotReply = 20,
    OtherXid = 21,
}

// Reads a reply to the query that had an xid.
pub fn jespurla_lease_reply_read(xid: u32, reply: &[u8]) -> LeaseReading
    ensures { ReadPromise xid reply.now result }
{
    if !form::is_reply(reply) {
        return read::refused(Refusal::NotReply);
    }
    if number::u32_at(reply, layout::XID) != xid {
        return read::refused(Refusal::OtherXid);
    }
    read::tell(reply)
}
