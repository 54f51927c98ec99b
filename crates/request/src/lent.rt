// The exported calls on a zone that is lent: 23,936 octets in the layout of the C struct, read and
// written where they lie. Refusals and decisions are those of the calls by value.
ghost use Rattle.std.specs.Prelude.{◌≡◌};
ghost use Rattle.update.specs.Rules.{Zone as RuledZone, Outcome, request_a, request_b, remove_address, remove_name};
ghost use Rattle.dname.specs.declared.name.Name.{Name};
ghost use Rattle.dname.specs.Name.{name_of};
ghost use Rattle.update.specs.Meaning.{policy_of};
ghost use Rattle.request.specs.Lent.{refusal_in, PromisedIn, RequestPromiseIn};
ghost use Rattle.request.specs.Inner.{Follows, StandingIn, Surveys, refused_by, answered_by};

use crate::answer::Answer;
use crate::decide::{Change, Standing, Update};
use crate::refusal::Refusal;
use crate::{CheckAnswer, refusal, spelled};
use dname::name::Name;
use lentzone::{place, survey};
use zone::entry::{Address, Dhcid};
use zone::survey::Survey;

// refusal: the number of document 01's table, 0 where there is none; 17 too where the octets are not
// 23,936. answer: as that of a request by value.
#[repr(C)]
#[derive(Clone, Copy)]
pub struct RequestAnswer {
    pub refusal: u32,
    pub answer: u32,
}

// The survey for a name, unless a request about it is refused. Other than 23,936 octets are not in
// order.
#[tactic(auto, using(crate::proofs::LentLaws::refused_in))]
fn look(octets: &[u8], name: &Name, family: u8, policy: u8) -> Result<Survey, Refusal>
    ensures { Surveys octets.now (name_of name.now) family policy result }
{
    let s = survey::survey_in(octets, spelled(name));
    refusal::check(s, name, family, policy)?;
    Ok(s)
}

// What stands at a place, if there is one.
fn standing(octets: &[u8], place: Option<usize>) -> Option<Standing>
    ensures { StandingIn octets.now place result }
{
    let place = place?;
    Some(Standing {
        place,
        records: place::records_at(octets, place),
    })
}

// A request that is refused.
pub(crate) fn refuse(refusal: Refusal) -> RequestAnswer
    ensures { result ≡ refused_by refusal }
{
    RequestAnswer {
        refusal: u32::from(refusal),
        answer: 0,
    }
}

// A request that is answered.
pub(crate) fn says(answer: Answer) -> RequestAnswer
    ensures { result ≡ answered_by answer }
{
    RequestAnswer {
        refusal: 0,
        answer: u32::from(answer),
    }
}

// A request other than A: the name stays that stands at the place found.
fn send<F: FnOnce(Option<Standing>) -> Change>(
    octets: &mut [u8],
    name: &Name,
    family: u8,
    policy: u8,
    decide: F,
) -> RequestAnswer
    requires { F.IsAlwaysCallable decide }
    ensures { (rule : Name → RuledZone → Outcome) → Follows (F.post decide) rule → PromisedIn octets.old (name_of name.now) (refusal_in octets.old (name_of name.now) family policy) (rule name.now) octets.new result }
{
    match look(octets, name, family, policy) {
        Err(refusal) => refuse(refusal),
        Ok(s) => match decide(standing(octets, s.found)) {
            Change::Stays(answer) => says(answer),
            Change::Writes(place, r) => {
                place::write_records(octets, place, r);
                says(Answer::Success)
            }
        },
    }
}

// The check alone.
pub fn jespurla_zone_check_lent(octets: &[u8], name: Name, family: u8, policy: u8) -> CheckAnswer
    ensures { result.refusal ≡ refusal_in octets.now (name_of name) family policy }
{
    let refusal = match look(octets, &name, family, policy) {
        Err(refusal) => u32::from(refusal),
        Ok(_) => 0,
    };
    CheckAnswer { refusal }
}

// Request A: adds an absent name with the DHCID and the address.
pub fn jespurla_request_a_lent(
    octets: &mut [u8],
    name: Name,
    dhcid: Dhcid,
    family: u8,
    address: Address,
) -> RequestAnswer
    ensures { RequestPromiseIn request_a octets.old name dhcid family address 0 octets.new result }
{
    let update = Update {
        dhcid,
        family,
        address,
    };
    match look(octets, &name, family, 0) {
        Err(refusal) => refuse(refusal),
        Ok(s) => match update.add_name(s) {
            Change::Stays(answer) => says(answer),
            Change::Writes(place, r) => {
                place::write_entry(octets, place, name, r);
                says(Answer::Success)
            }
        },
    }
}

// Request B: at a name that the DHCID holds, deletes by policy, then adds the address.
pub fn jespurla_request_b_lent(
    octets: &mut [u8],
    name: Name,
    dhcid: Dhcid,
    family: u8,
    address: Address,
    policy: u8,
) -> RequestAnswer
    ensures { RequestPromiseIn (request_b (policy_of policy)) octets.old name dhcid family address policy octets.new result }
{
    let update = Update {
        dhcid,
        family,
        address,
    };
    send(octets, &name, family, policy, |found| {
        update.add_address(found, policy)
    })
}

// The first remove request: at a name that the DHCID holds, deletes the address.
pub fn jespurla_request_remove_address_lent(
    octets: &mut [u8],
    name: Name,
    dhcid: Dhcid,
    family: u8,
    address: Address,
) -> RequestAnswer
    ensures { RequestPromiseIn remove_address octets.old name dhcid family address 0 octets.new result }
{
    let update = Update {
        dhcid,
        family,
        address,
    };
    send(
        octets,
        &name,
        family,
        0,
        |found| update.remove_address(found),
    )
}

// The second remove request: deletes a name that the DHCID holds and that has no address.
pub fn jespurla_request_remove_name_lent(
    octets: &mut [u8],
    name: Name,
    dhcid: Dhcid,
    family: u8,
    address: Address,
) -> RequestAnswer
    ensures { RequestPromiseIn remove_name octets.old name dhcid family address 0 octets.new result }
{
    let update = Update {
        dhcid,
        family,
        address,
    };
    send(octets, &name, family, 0, |found| update.remove_name(found))
}
