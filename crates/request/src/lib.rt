// The exported calls by value. Each request makes one survey of the zone, refuses on it, or decides on
// it and writes at most one place.

#![tactic(auto)]

pub mod answer;
mod decide;
mod host;
pub mod in_place;
pub mod lent;
pub mod refusal;

ghost use Rattle.std.specs.Prelude.{◌≡◌};
ghost use Rattle.update.specs.Rules.{request_a, request_b, remove_address, remove_name};
ghost use Rattle.dname.specs.Name.{name_of};
ghost use Rattle.update.specs.Meaning.{policy_of};
ghost use Rattle.request.specs.Promise.{refusal_of, RequestPromise};
ghost use Rattle.request.specs.Inner.{with_zone};

use crate::lent::RequestAnswer;
use dname::name::Name;
use zone::Zone;
use zone::entry::{Address, Dhcid};

// What the check answers. refusal: the number of document 01's table, 0 where there is none.
#[repr(C)]
#[derive(Clone, Copy)]
pub struct CheckAnswer {
    pub refusal: u32,
}

// refusal: the number of document 01's table, 0 where there is none. answer: 0 success, 3 NXDOMAIN,
// 6 YXDOMAIN, 7 YXRRSET, 8 NXRRSET, 256 no room, as in crate::answer.
#[repr(C)]
#[derive(Clone, Copy)]
pub struct Answered {
    pub refusal: u32,
    pub answer: u32,
    pub zone: Zone,
}

// The octets that count of a name.
fn spelled(name: &Name) -> &[u8]
    ensures { result.now ≡ name_of name.now }
{
    &name.octets[..name.len as usize]
}

// What a request by value hands out.
fn reply(zone: Zone, sent: RequestAnswer) -> Answered
    ensures { result ≡ with_zone zone sent }
{
    Answered {
        refusal: sent.refusal,
        answer: sent.answer,
        zone,
    }
}

// The check alone, for what sends no request: the refusal that any request with these would get, 0
// where there is none. Where there is no policy, 0 stands for it.
pub fn jespurla_zone_check(zone: Zone, name: Name, family: u8, policy: u8) -> CheckAnswer
    ensures { result.refusal ≡ refusal_of zone (name_of name) family policy }
{
    CheckAnswer {
        refusal: in_place::check(&zone, &name, family, policy),
    }
}

// Request A: adds an absent name with the DHCID and the address.
pub fn jespurla_request_a(
    mut zone: Zone,
    name: Name,
    dhcid: Dhcid,
    family: u8,
    address: Address,
) -> Answered
    ensures { RequestPromise request_a zone name dhcid family address 0 result }
{
    let sent = in_place::send_a(&mut zone, &name, dhcid, family, address);
    reply(zone, sent)
}

// Request B: at a name that the DHCID holds, deletes by policy, then adds the address.
pub fn jespurla_request_b(
    mut zone: Zone,
    name: Name,
    dhcid: Dhcid,
    family: u8,
    address: Address,
    policy: u8,
) -> Answered
    ensures { RequestPromise (request_b (policy_of policy)) zone name dhcid family address policy result }
{
    let sent = in_place::send_b(&mut zone, &name, dhcid, family, address, policy);
    reply(zone, sent)
}

// The first remove request: at a name that the DHCID holds, deletes the address.
pub fn jespurla_request_remove_address(
    mut zone: Zone,
    name: Name,
    dhcid: Dhcid,
    family: u8,
    address: Address,
) -> Answered
    ensures { RequestPromise remove_address zone name dhcid family address 0 result }
{
    let sent = in_place::send_remove_address(&mut zone, &name, dhcid, family, address);
    reply(zone, sent)
}

// The second remove request: deletes a name that the DHCID holds and that has no address.
pub fn jespurla_request_remove_name(
    mut zone: Zone,
    name: Name,
    dhcid: Dhcid,
    family: u8,
    address: Address,
) -> Answered
    ensures { RequestPromise remove_name zone name dhcid family address 0 result }
{
    let sent = in_place::send_remove_name(&mut zone, &name, dhcid, family, address);
    reply(zone, sent)
}
