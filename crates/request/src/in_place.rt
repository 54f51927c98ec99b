// The requests on a zone that is changed where it lies, so that no copy of it is made on the way. The
// calls by value, here and for a step, are made of these.
ghost use Rattle.std.specs.Prelude.{◌≡◌, set};
ghost use Rattle.update.specs.Rules.{Zone as RuledZone, Outcome, request_a, request_b, remove_address, remove_name};
ghost use Rattle.dname.specs.declared.name.Name.{Name};
ghost use Rattle.dname.specs.Name.{name_of};
ghost use Rattle.zone.specs.Survey.{place_of, records_of};
ghost use Rattle.update.specs.Meaning.{policy_of};
ghost use Rattle.request.specs.Promise.{refusal_of, RequestPromise};
ghost use Rattle.request.specs.Inner.{with_zone, settled, standing as standingAt, Visits, Settles, Follows};

use crate::answer::Answer;
use crate::decide::{Change, Standing, Update};
use crate::lent::{RequestAnswer, refuse, says};
use crate::refusal;
use crate::refusal::Refusal;
use dname::name::Name;
use zone::entry::{Address, Dhcid, Entry, Records};
use zone::survey::Visit;
use zone::{Zone, survey};

// What stands at a place.
fn records_of(e: Entry) -> Records
    ensures { result ≡ records_of e }
{
    Records {
        kind: e.kind,
        dhcid: e.dhcid,
        v4: e.v4,
        v6: e.v6,
    }
}

// These records at their place, if there is one.
fn standing(place: Option<usize>, records: Records) -> Option<Standing>
    ensures { result ≡ standingAt place records }
{
    Some(Standing {
        place: place?,
        records,
    })
}

// What stands at a name as a place.
fn place_of(name: &Name, r: Records) -> Entry
    ensures { result ≡ place_of name.now r }
{
    Entry {
        kind: r.kind,
        name: *name,
        dhcid: r.dhcid,
        v4: r.v4,
        v6: r.v6,
    }
}

// Writes one of the places, if there is such a place.
fn write(places: &mut [Entry], place: usize, entry: Entry)
    ensures { places.new ≡ set places.old place entry }
{
    if place < places.len() {
        places[place] = entry;
    }
}

// The survey of a zone for a name, with what stands there, unless a request about it is refused.
fn visit(zone: &Zone, name: &Name, family: u8, policy: u8) -> Result<Visit, Refusal>
    ensures { Visits zone.now (name_of name.now) family policy result }
{
    let v = survey::survey_of(zone, name);
    refusal::check(v.survey, name, family, policy)?;
    Ok(v)
}

// Makes a change under a name, and answers.
#[tactic(auto, unfolding(crate::specs::Promise::number_of))]
fn settle(zone: &mut Zone, name: &Name, change: Change) -> RequestAnswer
    ensures { with_zone zone.new result ≡ settled zone.old name.now change }
{
    match change {
        Change::Stays(answer) => says(answer),
        Change::Writes(place, r) => {
            write(&mut zone.entries, place, place_of(name, r));
            says(Answer::Success)
        }
    }
}

// A request other than A: the name stays that stands at the place found.
fn send<F: FnOnce(Option<Standing>) -> Change>(
    zone: &mut Zone,
    name: &Name,
    family: u8,
    policy: u8,
    decide: F,
) -> RequestAnswer
    requires { F.IsAlwaysCallable decide }
    ensures { (rule : Name → RuledZone → Outcome) → Follows (F.post decide) rule → Settles (rule name.now) zone.old (name_of name.now) family policy (with_zone zone.new result) }
{
    match visit(zone, name, family, policy) {
        Err(refusal) => refuse(refusal),
        Ok(v) => {
            let found = standing(v.survey.found, records_of(v.entry));
            settle(zone, &v.entry.name, decide(found))
        }
    }
}

// The check alone: the refusal that any request with these would get, 0 where there is none.
pub fn check(zone: &Zone, name: &Name, family: u8, policy: u8) -> u32
    ensures { result ≡ refusal_of zone.now (name_of name.now) family policy }
{
    match visit(zone, name, family, policy) {
        Err(refusal) => u32::from(refusal),
        Ok(_) => 0,
    }
}

// Request A: adds an absent name with the DHCID and the address.
pub fn send_a(
    zone: &mut Zone,
    name: &Name,
    dhcid: Dhcid,
    family: u8,
    address: Address,
) -> RequestAnswer
    ensures { RequestPromise request_a zone.old name.now dhcid family address 0 (with_zone zone.new result) }
{
    let update = Update {
        dhcid,
        family,
        address,
    };
    match visit(zone, name, family, 0) {
        Err(refusal) => refuse(refusal),
        Ok(v) => settle(zone, name, update.add_name(v.survey)),
    }
}

// Request B: at a name that the DHCID holds, deletes by policy, then adds the address.
pub fn send_b(
    zone: &mut Zone,
    name: &Name,
    dhcid: Dhcid,
    family: u8,
    address: Address,
    policy: u8,
) -> RequestAnswer
    ensures { RequestPromise (request_b (policy_of policy)) zone.old name.now dhcid family address policy (with_zone zone.new result) }
{
    let update = Update {
        dhcid,
        family,
        address,
    };
    send(zone, name, family, policy, |found| {
        update.add_address(found, policy)
    })
}

// The first remove request: at a name that the DHCID holds, deletes the address.
pub fn send_remove_address(
    zone: &mut Zone,
    name: &Name,
    dhcid: Dhcid,
    family: u8,
    address: Address,
) -> RequestAnswer
    ensures { RequestPromise remove_address zone.old name.now dhcid family address 0 (with_zone zone.new result) }
{
    let update = Update {
        dhcid,
        family,
        address,
    };
    send(zone, name, family, 0, |found| update.remove_address(found))
}

// The second remove request: deletes a name that the DHCID holds and that has no address.
pub fn send_remove_name(
    zone: &mut Zone,
    name: &Name,
    dhcid: Dhcid,
    family: u8,
    address: Address,
) -> RequestAnswer
    ensures { RequestPromise remove_name zone.old name.now dhcid family address 0 (with_zone zone.new result) }
{
    let update = Update {
        dhcid,
        family,
        address,
    };
    send(zone, name, family, 0, |found| update.remove_name(found))
}
