// The lease queries that a desk sends, one call for each key. A query is written to the front of a
// lent buffer; the octets behind it keep their values.

#![tactic(auto)]

ghost use Rattle.std.specs.Prelude.{◌≡◌, ◌≤◌};
ghost use Rattle.leasepacket.specs.Query.{by_address, by_client_id};
ghost use Rattle.deskquery.specs.Query.{hardware_key};
ghost use Rattle.deskquery.specs.Promise.{QueryPromise, number_of, key_of};

use key::Key;
use refuse::Refusal;
use write::Query;

pub mod fixed;
pub mod key;
pub mod refuse;
pub mod write;

// The answer: a refusal, or 0 and the query's length. Beside a refusal the length is 0.
#[repr(C)]
#[derive(Drop)]
pub struct QueryAnswer {
    pub refusal: u32,
    pub length: u32,
}

// The answer to a query that is not written.
fn refused(refusal: Refusal) -> QueryAnswer
    ensures { result ≡ record { refusal = number_of refusal; length = 0 } }
{
    QueryAnswer {
        refusal: u32::from(refusal),
        length: 0,
    }
}

// The answer to a query that was written, of a length.
fn written(n: usize) -> QueryAnswer
    requires { n ≤ 501 }
    ensures { result ≡ record { refusal = 0; length = n } }
{
    QueryAnswer {
        refusal: 0,
        length: n as u32,
    }
}

// Writes the query by a key, or says why none is written.
fn ask(xid: u32, giaddr: u32, key: Key, query: &mut [u8]) -> QueryAnswer
    ensures { QueryPromise xid giaddr (key_of key.entry) query.old result query.new }
{
    match refuse::first_refusal(giaddr, key.is_taken(), query.len()) {
        Ok(()) => written(Query { xid, giaddr, key }.put(query)),
        Err(refusal) => refused(refusal),
    }
}

// Writes a query by address.
pub fn jespurla_query_by_address(
    xid: u32,
    giaddr: u32,
    address: u32,
    query: &mut [u8],
) -> QueryAnswer
    ensures { QueryPromise xid giaddr (by_address address) query.old result query.new }
{
    ask(xid, giaddr, Key::Address(address), query)
}

// Writes a query by hardware address: its type, and its octets, whose number is hlen.
pub fn jespurla_query_by_hardware(
    xid: u32,
    giaddr: u32,
    htype: u8,
    chaddr: &[u8],
    query: &mut [u8],
) -> QueryAnswer
    ensures { QueryPromise xid giaddr (hardware_key htype chaddr.now) query.old result query.new }
{
    ask(xid, giaddr, Key::Hardware(htype, chaddr), query)
}

// Writes a query by client id.
pub fn jespurla_query_by_client_id(
    xid: u32,
    giaddr: u32,
    id: &[u8],
    query: &mut [u8],
) -> QueryAnswer
    ensures { QueryPromise xid giaddr (by_client_id id.now) query.old result query.new }
{
    ask(xid, giaddr, Key::ClientId(id), query)
}
