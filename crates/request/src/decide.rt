// What a request comes to, decided on the survey of a zone or on what stands at the name. No name goes
// in: the caller writes a new one, and the one that stands at a place stays.
ghost use Rattle.update.specs.Rules.{request_a, request_b, remove_address, remove_name};
ghost use Rattle.update.specs.Meaning.{policy_of};
ghost use Rattle.request.specs.Inner.{update_at, Adds, Decides};

use crate::answer::Answer;
use crate::host;
use update::prerequisite;
use zone::entry::{Address, Dhcid, Records};
use zone::survey::Survey;

#[derive(Clone, Copy)]
pub(crate) enum Change {
    // an answer, and nothing is written
    Stays(Answer),
    // success, and what is to stand at a place
    Writes(usize, Records),
}

// What stands at a name, and at which place.
#[derive(Clone, Copy)]
pub(crate) struct Standing {
    pub place: usize,
    pub records: Records,
}

// What a request is about, but for its name: the owner, and one address.
#[derive(Clone, Copy)]
pub(crate) struct Update {
    pub dhcid: Dhcid,
    pub family: u8,
    pub address: Address,
}

impl Update {
    // Request A: adds an absent name, at the free place.
    pub(crate) fn add_name(&self, s: Survey) -> Change
        ensures { Adds (λ n. request_a (update_at self.now n)) s result }
    {
        if s.found.is_some() {
            return Change::Stays(Answer::YxDomain);
        }
        let Some(place) = s.free else {
            return Change::Stays(Answer::NoRoom);
        };
        Change::Writes(place, host::fresh(self.dhcid, self.family, self.address))
    }

    // Request B: deletes by policy at a name that the DHCID holds, and adds the address. It writes, as
    // the two below do, where the name stands.
    pub(crate) fn add_address(&self, found: Option<Standing>, policy: u8) -> Change
        ensures { Decides (λ n. request_b (policy_of policy) (update_at self.now n)) found result }
    {
        let Some(Standing { place, records: e }) = found else {
            return Change::Stays(Answer::NxDomain);
        };
        if !prerequisite::is_held(e.kind, &e.dhcid.octets, &self.dhcid.octets) {
            return Change::Stays(Answer::NxRrset);
        }
        if host::already_added(e, self.family, self.address, policy) {
            return Change::Stays(Answer::Success);
        }
        let left = host::leave(e, self.family, policy);
        if !host::has_room(left, self.family, self.address) {
            return Change::Stays(Answer::NoRoom);
        }
        Change::Writes(place, host::join(left, self.family, self.address))
    }

    // The first remove request: deletes the address at a name that the DHCID holds.
    pub(crate) fn remove_address(&self, found: Option<Standing>) -> Change
        ensures { Decides (λ n. remove_address (update_at self.now n)) found result }
    {
        let Some(Standing { place, records: e }) = found else {
            return Change::Stays(Answer::NxRrset);
        };
        if !prerequisite::is_held(e.kind, &e.dhcid.octets, &self.dhcid.octets) {
            return Change::Stays(Answer::NxRrset);
        }
        if !host::has_address(e, self.family, self.address) {
            return Change::Stays(Answer::Success);
        }
        Change::Writes(place, host::part(e, self.family, self.address))
    }

    // The second remove request: deletes a name that the DHCID holds and that has no address.
    pub(crate) fn remove_name(&self, found: Option<Standing>) -> Change
        ensures { Decides (λ n. remove_name (update_at self.now n)) found result }
    {
        let Some(Standing { place, records: e }) = found else {
            return Change::Stays(Answer::NxRrset);
        };
        if !prerequisite::is_held(e.kind, &e.dhcid.octets, &self.dhcid.octets) {
            return Change::Stays(Answer::NxRrset);
        }
        if !prerequisite::is_empty(e) {
            return Change::Stays(Answer::YxRrset);
        }
        Change::Writes(place, Records { kind: 0, ..e })
    }
}
