// The fields of a reply.
ghost use Rattle.std.specs.Prelude.{◌≡◌, [], length, replicate, ◌/◌, ◌≤◌};
ghost use Rattle.octets.specs.Write.{laid};
ghost use Rattle.leasepacket.specs.Packet.{chaddr};
ghost use Rattle.leasepacket.specs.Options.{values_in};
ghost use Rattle.deskreply.specs.Reading.{numbers, time_by, addresses_by};
ghost use Rattle.deskreply.specs.Stages.{time_of, addresses_of, Short};

use clock::Span;
use leasepacket::{layout, options};
use octets::number;

// A list of addresses: how many, and zeros behind them.
#[derive(Clone, Copy, PartialEq, Eq, Debug)]
pub struct Addresses {
    pub count: u32,
    pub list: [u32; 63],
}

// The time in an option.
pub(crate) fn time_in(p: &[u8], code: u8) -> Option<Span>
    ensures { time_of result ≡ time_by (values_in code p.now) }
{
    let value = options::only_value(p, code)?;
    Some(Span(number::u32_at(value, 0)))
}

// The numbers of four octets each that a value holds.
fn numbers_in(v: &[u8]) -> [u32; 63]
    requires { length v.now ≤ 252 }
    ensures { result ≡ laid (numbers (length v.now / 4) v.now) (replicate 63 0) }
{
    let mut list = [0; 63];
    for i in 0..v.len() / 4 {
        list[i] = number::u32_at(v, 4 * i);
    }
    list
}

// The addresses of a client.
pub(crate) fn addresses_in(p: &[u8]) -> Addresses
    requires { Short (values_in 92 p.now) }
    ensures { result ≡ addresses_of (addresses_by (values_in 92 p.now)) }
{
    match options::only_value(p, layout::ASSOCIATED_IP) {
        Some(v) => Addresses {
            count: (v.len() / 4) as u32,
            list: numbers_in(v),
        },
        None => no_addresses(),
    }
}

// No addresses.
#[tactic(auto, unfolding(octets::specs::Write::laid))]
pub(crate) fn no_addresses() -> Addresses
    ensures { result ≡ addresses_of [] }
{
    Addresses {
        count: 0,
        list: [0; 63],
    }
}

// The 16 octets of the hardware address.
pub(crate) fn hardware_of(p: &[u8]) -> [u8; 16]
    requires { 240 ≤ length p.now }
    ensures { result ≡ chaddr p.now }
{
    let mut octets = [0; 16];
    octets.copy_from_slice(&p[layout::CHADDR..layout::SNAME]);
    octets
}
