// The options that a query asks for, by its parameter request list.
ghost use Rattle.std.specs.Prelude.{◌≡◌};
ghost use Rattle.std.proofs.Math.Option.{none, some};
ghost use Rattle.leasepacket.specs.Options.{values_in};
ghost use Rattle.leasepacket.specs.Requested.{list_fits, request_list, is_listed};
ghost use Rattle.leasepacket.specs.Reading.{requested_in};

use crate::options::Fault;
use crate::{layout, options};

// Which of the options that go out only if they are asked for a query asks for.
#[derive(Clone, Copy, PartialEq, Eq, Debug)]
pub struct Requested {
    pub seconds_left: bool,
    pub client_id: bool,
    pub relay_information: bool,
    pub seconds_since: bool,
}

// Whether a query has at most one list, and none that is empty.
pub fn does_list_fit(p: &[u8]) -> bool
    ensures { result ≡ list_fits (values_in 55 p.now) }
{
    match options::find(p, layout::PARAMETER_REQUEST_LIST) {
        Ok(Some(list)) => list.len != 0,
        Ok(None) => true,
        Err(Fault::Broken) => true,
        Err(Fault::Repeated) => false,
    }
}

// Whether a code stands in a list.
#[tactic(auto, using(crate::proofs::RequestedLaws::listed_any))]
fn is_listed(codes: &[u8], code: u8) -> bool
    ensures { result ≡ is_listed code codes.now }
{
    codes.contains(&code)
}

// What a list asks for.
fn listed(codes: &[u8]) -> Requested
    ensures { result ≡ requested_in (some codes.now) }
{
    Requested {
        seconds_left: is_listed(codes, layout::LEASE_TIME),
        client_id: is_listed(codes, layout::CLIENT_ID),
        relay_information: is_listed(codes, layout::RELAY_INFORMATION),
        seconds_since: is_listed(codes, layout::LAST_TRANSACTION_TIME),
    }
}

// What is asked for without a list.
fn all() -> Requested
    ensures { result ≡ requested_in none }
{
    Requested {
        seconds_left: true,
        client_id: true,
        relay_information: true,
        seconds_since: true,
    }
}

// What a query asks for.
pub fn read(p: &[u8]) -> Requested
    ensures { result ≡ requested_in (request_list p.now) }
{
    match options::only_value(p, layout::PARAMETER_REQUEST_LIST) {
        Some(codes) => listed(codes),
        None => all(),
    }
}
