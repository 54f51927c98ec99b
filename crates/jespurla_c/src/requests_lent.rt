// The requests on a zone that is lent: 23,936 octets in the layout of the C struct.
ghost use Rattle.std.specs.Prelude.{◌≡◌};
ghost use Rattle.update.specs.Rules.{request_a, request_b, remove_address, remove_name};
ghost use Rattle.dname.specs.Name.{name_of};
ghost use Rattle.update.specs.Meaning.{policy_of};
ghost use Rattle.request.specs.Lent.{refusal_in, RequestPromiseIn};

use dname::name::Name;
use request::lent::RequestAnswer;
use request::{CheckAnswer, lent};
use zone::entry::{Address, Dhcid};

// The check alone.
#[unsafe(no_mangle)]
pub extern "C" fn jespurla_zone_check_lent(
    octets: &[u8],
    name: Name,
    family: u8,
    policy: u8,
) -> CheckAnswer
    ensures { result.refusal ≡ refusal_in octets.now (name_of name) family policy }
{
    lent::jespurla_zone_check_lent(octets, name, family, policy)
}

// Request A: adds an absent name with the DHCID and the address.
#[unsafe(no_mangle)]
pub extern "C" fn jespurla_request_a_lent(
    octets: &mut [u8],
    name: Name,
    dhcid: Dhcid,
    family: u8,
    address: Address,
) -> RequestAnswer
    ensures { RequestPromiseIn request_a octets.old name dhcid family address 0 octets.new result }
{
    lent::jespurla_request_a_lent(octets, name, dhcid, family, address)
}

// Request B: at a name that the DHCID holds, deletes by policy, then adds the address.
#[unsafe(no_mangle)]
pub extern "C" fn jespurla_request_b_lent(
    octets: &mut [u8],
    name: Name,
    dhcid: Dhcid,
    family: u8,
    address: Address,
    policy: u8,
) -> RequestAnswer
    ensures { RequestPromiseIn (request_b (policy_of policy)) octets.old name dhcid family address policy octets.new result }
{
    lent::jespurla_request_b_lent(octets, name, dhcid, family, address, policy)
}

// The first remove request: at a name that the DHCID holds, deletes the address.
#[unsafe(no_mangle)]
pub extern "C" fn jespurla_request_remove_address_lent(
    octets: &mut [u8],
    name: Name,
    dhcid: Dhcid,
    family: u8,
    address: Address,
) -> RequestAnswer
    ensures { RequestPromiseIn remove_address octets.old name dhcid family address 0 octets.new result }
{
    lent::jespurla_request_remove_address_lent(octets, name, dhcid, family, address)
}

// The second remove request: deletes a name that the DHCID holds and that has no address.
#[unsafe(no_mangle)]
pub extern "C" fn jespurla_request_remove_name_lent(
    octets: &mut [u8],
    name: Name,
    dhcid: Dhcid,
    family: u8,
    address: Address,
) -> RequestAnswer
    ensures { RequestPromiseIn remove_name octets.old name dhcid family address 0 octets.new result }
{
    lent::jespurla_request_remove_name_lent(octets, name, dhcid, family, address)
}
