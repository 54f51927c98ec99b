// Lease queries, as the desk writes them, and the replies that it reads.
ghost use Rattle.leasepacket.specs.Query.{by_address, by_client_id};
ghost use Rattle.deskquery.specs.Query.{hardware_key};
ghost use Rattle.deskquery.specs.Promise.{QueryPromise};
ghost use Rattle.deskreply.specs.Promise.{ReadPromise};

use deskquery::QueryAnswer;
use deskreply::LeaseReading;

// Writes a query by address.
#[unsafe(no_mangle)]
pub extern "C" fn jespurla_query_by_address(
    xid: u32,
    giaddr: u32,
    address: u32,
    query: &mut [u8],
) -> QueryAnswer
    ensures { QueryPromise xid giaddr (by_address address) query.old result query.new }
{
    deskquery::jespurla_query_by_address(xid, giaddr, address, query)
}

// Writes a query by hardware address: its type, and its octets, whose number is hlen.
#[unsafe(no_mangle)]
pub extern "C" fn jespurla_query_by_hardware(
    xid: u32,
    giaddr: u32,
    htype: u8,
    chaddr: &[u8],
    query: &mut [u8],
) -> QueryAnswer
    ensures { QueryPromise xid giaddr (hardware_key htype chaddr.now) query.old result query.new }
{
    deskquery::jespurla_query_by_hardware(xid, giaddr, htype, chaddr, query)
}

// Writes a query by client id.
#[unsafe(no_mangle)]
pub extern "C" fn jespurla_query_by_client_id(
    xid: u32,
    giaddr: u32,
    id: &[u8],
    query: &mut [u8],
) -> QueryAnswer
    ensures { QueryPromise xid giaddr (by_client_id id.now) query.old result query.new }
{
    deskquery::jespurla_query_by_client_id(xid, giaddr, id, query)
}

// Reads a reply to the query that had an xid.
#[unsafe(no_mangle)]
pub extern "C" fn jespurla_lease_reply_read(xid: u32, reply: &[u8]) -> LeaseReading
    ensures { ReadPromise xid reply.now result }
{
    deskreply::jespurla_lease_reply_read(xid, reply)
}
