// What a lease query asks for, or the first of the refusals 1 to 7 that applies.
ghost use Rattle.std.specs.Prelude.{◌≡◌, true, not, eqb, length, ◌≤◌};
ghost use Rattle.std.specs.List.{list_any};
ghost use Rattle.leasepacket.specs.declared.query.Refusal.TheVariants.{BadOptions};
ghost use Rattle.leasepacket.specs.Packet.{is_packet, message_type};
ghost use Rattle.leasepacket.specs.Options.{values_in};
ghost use Rattle.leasepacket.specs.Query.{has_hardware_key, is_lease_query};
ghost use Rattle.leasepacket.specs.Reading.{reading, number_of};
ghost use Rattle.leasepacket.specs.Places.{ReadAs, Passed, key_count};

use crate::options::{Fault, Place, Places};
use crate::{layout, options, requested};
use octets::number;

// What is asked for. A hardware address, of a type and a length, is that of the packet; a client id is
// told by its place in the packet.
#[derive(Clone, Copy, PartialEq, Eq, Debug)]
pub enum Query {
    ByAddress(u32),
    ByHardware(u8, u8),
    ByClientId(Place),
}

// Why a packet asks for nothing, in the order of the refusals.
#[derive(Clone, Copy, PartialEq, Eq, Debug)]
pub enum Refusal {
    NotPacket = 1,
    NotRequest = 2,
    BadOptions = 3,
    NotQuery = 4,
    NoRelay = 5,
    NotOneKey = 6,
    BadLength = 7,
}

impl From<Fault> for Refusal {
    ghost from_gives = { λ _ r. r ≡ BadOptions };

    fn from(_fault: Fault) -> Refusal {
        Refusal::BadOptions
    }
}

impl From<Refusal> for u32 {
    ghost from_gives = { λ r n. n ≡ number_of r };

    fn from(refusal: Refusal) -> u32 {
        refusal as u32
    }
}

// Whether some octet is not zero.
fn is_any_set(s: &[u8]) -> bool
    ensures { result ≡ list_any (λ x. not (eqb x 0)) s.now }
{
    s.iter().any(|x| *x != 0)
}

// Whether the packet has a hardware key: in htype and hlen, or in chaddr.
#[tactic(auto, using(crate::proofs::QueryLaws::set_any), unfolding(crate::specs::Query::has_hardware_key))]
fn has_hardware_key(p: &[u8]) -> bool
    requires { 240 ≤ length p.now }
    ensures { result ≡ has_hardware_key p.now }
{
    is_any_set(&p[layout::HTYPE..layout::HOPS]) || is_any_set(&p[layout::CHADDR..layout::SNAME])
}

// The hardware key, the only one.
fn by_hardware(p: &[u8]) -> Result<Query, Refusal>
    requires { Passed 6 p.now None × (has_hardware_key p.now ≡ true) }
    ensures { result ≡ reading p.now }
{
    let hlen = p[layout::HLEN];
    if hlen == 0 || layout::LONGEST_HARDWARE < hlen {
        return Err(Refusal::BadLength);
    }
    Ok(Query::ByHardware(p[layout::HTYPE], hlen))
}

// How many keys there are.
fn count_keys(address: u32, hardware: bool, id: Option<Place>) -> u8
    ensures { result ≡ key_count address hardware id }
{
    u8::from(address != 0) + u8::from(hardware) + u8::from(id.is_some())
}

// The key: there must be exactly one, and of a length that a key may have.
fn by_key(p: &[u8], id: Option<Place>) -> Result<Query, Refusal>
    requires { Passed 5 p.now id }
    ensures { result ≡ reading p.now }
{
    let address = number::u32_at(p, layout::CIADDR);
    let hardware = has_hardware_key(p);
    if count_keys(address, hardware, id) != 1 {
        return Err(Refusal::NotOneKey);
    }
    if hardware {
        return by_hardware(p);
    }
    let Some(id) = id else {
        return Ok(Query::ByAddress(address));
    };
    if id.len < layout::SHORTEST_CLIENT_ID {
        return Err(Refusal::BadLength);
    }
    Ok(Query::ByClientId(id))
}

// Whether the message type is that of a lease query.
fn is_lease_query(p: &[u8], kind: Option<Place>) -> bool
    requires { ReadAs message_type p.now kind }
    ensures { result ≡ is_lease_query (values_in message_type p.now) }
{
    match kind {
        Some(kind) => kind.len == 1 && p[kind.at] == layout::DHCPLEASEQUERY,
        None => false,
    }
}

// Whether octets are a packet: as many as a packet has, with the cookie.
#[tactic(auto, unfolding(crate::specs::Packet::is_packet, octets::specs::Number::number_at))]
pub fn is_packet(p: &[u8]) -> bool
    ensures { result ≡ is_packet p.now }
{
    layout::OPTIONS <= p.len()
        && p.len() <= layout::LONGEST
        && number::u32_at(p, layout::MAGIC_COOKIE) == layout::COOKIE
}

// A packet as a lease query.
pub fn read(p: &[u8]) -> Result<Query, Refusal>
    ensures { result ≡ reading p.now }
{
    if !is_packet(p) {
        return Err(Refusal::NotPacket);
    }
    if number::octet_at(p, layout::OP) != layout::BOOTREQUEST {
        return Err(Refusal::NotRequest);
    }
    let Places { kind, id } = options::read_all(p)?;
    if !requested::does_list_fit(p) {
        return Err(Refusal::BadOptions);
    }
    if !is_lease_query(p, kind) {
        return Err(Refusal::NotQuery);
    }
    if number::u32_at(p, layout::GIADDR) == 0 {
        return Err(Refusal::NoRelay);
    }
    by_key(p, id)
}
