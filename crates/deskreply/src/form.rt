// Whether a packet is a well-formed reply.
ghost use Rattle.std.specs.Prelude.{◌≡◌};
ghost use Rattle.leasepacket.specs.Options.{values_in};
ghost use Rattle.leasepacket.specs.ReplyOptions.{in_every, in_active, in_kind};
ghost use Rattle.deskreply.specs.Reply.{keeps, keeps_all, kind_of, is_reply};
ghost use Rattle.deskreply.specs.Stages.{fits_in, has_fields};

use leasepacket::options::Fault;
use leasepacket::{layout, options, query};
use octets::number;

// Whether a length is a multiple of a unit, from the least to the most.
fn does_fit(n: usize, least: usize, most: usize, unit: usize) -> bool
    ensures { result ≡ fits_in n least most unit }
{
    least <= n && n <= most && n.is_multiple_of(unit)
}

// Whether an option keeps the rule of servers.
fn does_keep(p: &[u8], code: u8, always: bool, least: usize, most: usize, unit: usize) -> bool
    ensures { result ≡ keeps always (record { least = least; most = most; unit = unit }) (values_in code p.now) }
{
    match options::find(p, code) {
        Ok(Some(value)) => does_fit(value.len, least, most, unit),
        Ok(None) => !always,
        Err(Fault::Broken) => !always,
        Err(Fault::Repeated) => false,
    }
}

// Whether the options of every reply keep their rules: the kind and the server's address.
#[tactic(auto, unfolding(crate::specs::Reply::keeps_all))]
fn has_every(p: &[u8]) -> bool
    ensures { result ≡ keeps_all in_every p.now }
{
    does_keep(p, layout::MESSAGE_TYPE, true, 1, 1, 1)
        && does_keep(p, layout::SERVER_ID, true, 4, 4, 1)
}

// Whether the options that tell of an active lease keep theirs: seconds left, client id, relay
// information, seconds since the last transaction, addresses. A reply may lack any of them.
#[tactic(auto, unfolding(crate::specs::Reply::keeps_all))]
fn has_active(p: &[u8]) -> bool
    ensures { result ≡ keeps_all in_active p.now }
{
    does_keep(p, layout::LEASE_TIME, false, 4, 4, 1)
        && does_keep(p, layout::CLIENT_ID, false, 2, 64, 1)
        && does_keep(p, layout::RELAY_INFORMATION, false, 1, 64, 1)
        && does_keep(p, layout::LAST_TRANSACTION_TIME, false, 4, 4, 1)
        && does_keep(p, layout::ASSOCIATED_IP, false, 8, 252, 4)
}

// Whether the options of a reply of a kind keep theirs.
#[tactic(auto, using(crate::proofs::ReplyLaws::keeps_both), unfolding(crate::specs::Reply::keeps_all))]
fn has_all(p: &[u8], kind: u8) -> bool
    ensures { result ≡ keeps_all (in_kind kind) p.now }
{
    has_every(p) && (kind != layout::DHCPLEASEACTIVE || has_active(p))
}

// The kind of a reply; 0 where the packet does not have the message type just once.
pub fn kind_of(p: &[u8]) -> u8
    ensures { result ≡ kind_of p.now }
{
    match options::only_value(p, layout::MESSAGE_TYPE) {
        Some([kind, ..]) => *kind,
        _ => 0,
    }
}

// Whether a packet comes from a server, with a hardware address that fits.
fn has_fields(p: &[u8]) -> bool
    ensures { result ≡ has_fields p.now }
{
    query::is_packet(p)
        && options::has_options(p)
        && number::octet_at(p, layout::OP) == layout::BOOTREPLY
        && number::octet_at(p, layout::HLEN) <= layout::LONGEST_HARDWARE
}

// Whether a packet is a well-formed reply. The fixed fields and the length are tested first, so that no
// option is looked for in what is too long for a packet.
#[tactic(auto, unfolding(crate::specs::Reply::is_reply))]
pub fn is_reply(p: &[u8]) -> bool
    ensures { result ≡ is_reply p.now }
{
    if !has_fields(p) {
        return false;
    }
    let kind = kind_of(p);
    layout::DHCPLEASEUNASSIGNED <= kind && kind <= layout::DHCPLEASEACTIVE && has_all(p, kind)
}
