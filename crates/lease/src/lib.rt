// One record of the lease table, by value: its form, whether it is active, the keys it has, its rank.

#![tactic(auto)]

use clock::Moment;

pub mod activity;
pub mod form;
pub mod key;
pub mod leading;
pub mod order;

// A lease. The octets of `id` and `relay` past their lengths are not looked at.
#[repr(C)]
#[derive(Clone, Copy)]
pub struct Lease {
    // The moment of the last transaction.
    pub last: Moment,
    // A moment, or clock::NEVER.
    pub expiry: Moment,
    // The hardware address: `hlen` octets, and zeros behind them.
    pub chaddr: [u8; 16],
    // The client id: `idlen` octets.
    pub id: [u8; 64],
    // The relay agent information: `relaylen` octets.
    pub relay: [u8; 64],
    // The leased address as a number, its first octet the most significant.
    pub address: u32,
    // 0 free, 1 leased.
    pub state: u8,
    pub htype: u8,
    pub hlen: u8,
    pub idlen: u8,
    pub relaylen: u8,
}

// What a lease is ranked by. The address has eight octets, so that an array of ranks has no gaps and
// is copied in one piece.
#[derive(Clone, Copy, PartialEq, Eq)]
pub struct Rank {
    pub last: Moment,
    pub address: u64,
}
