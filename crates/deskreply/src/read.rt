// What the call answers.
ghost use Rattle.std.specs.Prelude.{◌≡◌, true, length, ◌≤◌};
ghost use Rattle.deskreply.specs.Reply.{is_reply};
ghost use Rattle.deskreply.specs.Reading.{refusal, told, tells};
ghost use Rattle.deskreply.specs.Promise.{answered};
ghost use Rattle.deskreply.specs.Stages.{number_of, filled};

use crate::fields::Addresses;
use crate::{LeaseReading, Refusal, fields, form};
use clock::Span;
use leasepacket::layout;
use octets::number;

// A refusal.
pub(crate) fn refused(why: Refusal) -> LeaseReading
    ensures { result ≡ answered (refusal (number_of why)) }
{
    LeaseReading {
        refusal: why as u32,
        kind: 0,
        address: 0,
        has_left: 0,
        left: Span(0),
        has_since: 0,
        since: Span(0),
        count: 0,
        addresses: [0; 63],
        chaddr: [0; 16],
        htype: 0,
        hlen: 0,
    }
}

// The fixed fields, with a kind, times and addresses.
fn fill(
    p: &[u8],
    kind: u8,
    left: Option<Span>,
    since: Option<Span>,
    listed: &Addresses,
) -> LeaseReading
    requires { 240 ≤ length p.now }
    ensures { result ≡ filled p.now kind left since listed.now }
{
    LeaseReading {
        refusal: 0,
        kind: kind as u32,
        address: number::u32_at(p, layout::CIADDR),
        has_left: u32::from(left.is_some()),
        left: left.unwrap_or(Span(0)),
        has_since: u32::from(since.is_some()),
        since: since.unwrap_or(Span(0)),
        count: listed.count,
        addresses: listed.list,
        chaddr: fields::hardware_of(p),
        htype: p[layout::HTYPE],
        hlen: p[layout::HLEN],
    }
}

// What a well-formed reply tells.
pub(crate) fn tell(p: &[u8]) -> LeaseReading
    requires { is_reply p.now ≡ true }
    ensures { result ≡ answered (told (tells p.now)) }
{
    let kind = form::kind_of(p);
    if kind == layout::DHCPLEASEACTIVE {
        let left = fields::time_in(p, layout::LEASE_TIME);
        let since = fields::time_in(p, layout::LAST_TRANSACTION_TIME);
        let listed = fields::addresses_in(p);
        return fill(p, kind, left, since, &listed);
    }
    let listed = fields::no_addresses();
    fill(p, kind, None, None, &listed)
}
