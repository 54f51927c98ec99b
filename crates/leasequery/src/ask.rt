// What a query has looked for in the table, or the refusal because of which nothing is looked for.
ghost use Rattle.std.specs.Prelude.{◌≡◌};
ghost use Rattle.leasepacket.specs.Packet.{part};
ghost use Rattle.leasequery.specs.declared.ask.Refusal.TheVariants.{Packet};
ghost use Rattle.leasequery.specs.Stages.{padded, key_for, id_key, asked_at, number_of, asked_or_refused};

use clock::Moment;
use leasepacket::query::Query;
use leasepacket::{layout, query};
use leasereply::reply;
use leasetable::client::Key;
use leasetable::form::Form;

// Why nothing is looked for, in the order of the refusals.
#[derive(Clone, Copy, PartialEq, Eq, Debug)]
pub enum Refusal {
    NotMoment,
    BadTable,
    NoRoom,
    Packet(query::Refusal),
}

impl From<query::Refusal> for Refusal {
    ghost from_gives = { λ r s. s ≡ Packet r };

    fn from(refusal: query::Refusal) -> Refusal {
        Refusal::Packet(refusal)
    }
}

impl From<Refusal> for u32 {
    ghost from_gives = { λ r n. n ≡ number_of r };

    fn from(refusal: Refusal) -> u32 {
        match refusal {
            Refusal::NotMoment => 15,
            Refusal::BadTable => 9,
            Refusal::NoRoom => 8,
            Refusal::Packet(refusal) => u32::from(refusal),
        }
    }
}

// The octets of a packet from a place on, n of them or as many as there are.
fn part(p: &[u8], at: usize, n: usize) -> &[u8]
    ensures { result.now ≡ part p.now at n }
{
    let rest = &p[at.min(p.len())..];
    &rest[..n.min(rest.len())]
}

// Octets with zeros behind them. Of more than 64 none are given.
fn padded(octets: &[u8]) -> [u8; 64]
    ensures { result ≡ padded octets.now }
{
    let mut out = [0; 64];
    if octets.len() <= 64 {
        out[..octets.len()].copy_from_slice(octets);
    }
    out
}

// The key of a client id.
#[tactic(auto, unfolding(crate::specs::Stages::id_key))]
fn id_key(octets: &[u8]) -> Key
    ensures { result ≡ id_key octets.now }
{
    Key::ClientId {
        len: octets.len().min(65) as u8,
        octets: padded(octets),
    }
}

// What a query that was read of a packet looks for.
pub fn key_for(p: &[u8], query: Query) -> Key
    ensures { result ≡ key_for p.now query }
{
    match query {
        Query::ByAddress(address) => Key::Address(address),
        Query::ByHardware(htype, hlen) => Key::Hardware {
            htype,
            hlen,
            octets: padded(part(p, layout::CHADDR, 16)),
        },
        Query::ByClientId(id) => id_key(part(p, id.at, id.len)),
    }
}

// What is asked for, or the first refusal that applies: 15, 9, 8, then those of the packet.
#[tactic(auto, unfolding(crate::specs::Stages::asked_at, leasepacket::specs::Query::first_of))]
pub fn ask(clock: Moment, table: Form, p: &[u8], room: usize) -> Result<Query, Refusal>
    ensures { asked_or_refused p.now result ≡ asked_at clock table.ok p.now room }
{
    if !clock::is_moment(clock) {
        return Err(Refusal::NotMoment);
    }
    if !table.ok {
        return Err(Refusal::BadTable);
    }
    if room < reply::ROOM {
        return Err(Refusal::NoRoom);
    }
    Ok(query::read(p)?)
}
