// The requests on a zone by value.
ghost use Rattle.std.specs.Prelude.{◌≡◌};
ghost use Rattle.update.specs.Rules.{request_a, request_b, remove_address, remove_name};
ghost use Rattle.dname.specs.Name.{name_of};
ghost use Rattle.update.specs.Meaning.{policy_of};
ghost use Rattle.request.specs.Promise.{refusal_of, RequestPromise};

use dname::name::Name;
use request::{Answered, CheckAnswer};
use zone::Zone;
use zone::entry::{Address, Dhcid};

// The check alone, for what sends no request: the refusal that any request with these would get, 0
// where there is none. Where there is no policy, 0 stands for it.
#[unsafe(no_mangle)]
pub extern "C" fn jespurla_zone_check(zone: Zone, name: Name, family: u8, policy: u8) -> CheckAnswer
    ensures { result.refusal ≡ refusal_of zone (name_of name) family policy }
{
    request::jespurla_zone_check(zone, name, family, policy)
}

// Request A: adds an absent name with the DHCID and the address.
#[unsafe(no_mangle)]
pub extern "C" fn jespurla_request_a(
    zone: Zone,
    name: Name,
    dhcid: Dhcid,
    family: u8,
    address: Address,
) -> Answered
    ensures { RequestPromise request_a zone name dhcid family address 0 result }
{
    request::jespurla_request_a(zone, name, dhcid, family, address)
}

// Request B: at a name that the DHCID holds, deletes by policy, then adds the address.
#[unsafe(no_mangle)]
pub extern "C" fn jespurla_request_b(
    zone: Zone,
    name: Name,
    dhcid: Dhcid,
    family: u8,
    address: Address,
    policy: u8,
) -> Answered
    ensures { RequestPromise (request_b (policy_of policy)) zone name dhcid family address policy result }
{
    request::jespurla_request_b(zone, name, dhcid, family, address, policy)
}

// The first remove request: at a name that the DHCID holds, deletes the address.
#[unsafe(no_mangle)]
pub extern "C" fn jespurla_request_remove_address(
    zone: Zone,
    name: Name,
    dhcid: Dhcid,
    family: u8,
    address: Address,
) -> Answered
    ensures { RequestPromise remove_address zone name dhcid family address 0 result }
{
    request::jespurla_request_remove_address(zone, name, dhcid, family, address)
}

// The second remove request: deletes a name that the DHCID holds and that has no address.
#[unsafe(no_mangle)]
pub extern "C" fn jespurla_request_remove_name(
    zone: Zone,
    name: Name,
    dhcid: Dhcid,
    family: u8,
    address: Address,
) -> Answered
    ensures { RequestPromise remove_name zone name dhcid family address 0 result }
{
    request::jespurla_request_remove_name(zone, name, dhcid, family, address)
}
