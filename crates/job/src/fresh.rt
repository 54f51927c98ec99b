// New jobs.
ghost use Rattle.std.specs.Prelude.{◌≡◌};
ghost use Rattle.dname.specs.Name.{name_of};
ghost use Rattle.job.specs.Meaning.{blank};
ghost use Rattle.job.specs.Inner.{refusal_number};
ghost use Rattle.job.specs.Promise.{new_refusal, new_job, AddPromise, RemovePromise};

use crate::job::Job;
use crate::stage::Stage;
use dname::name;
use dname::name::Name;
use update::numbers;
use zone::entry::{Address, Dhcid};

// refusal: the number of document 01's table, 0 where there is none.
#[repr(C)]
#[derive(Clone, Copy)]
pub struct NewJob {
    pub refusal: u32,
    pub job: Job,
}

// Why a new job is refused, with the number of document 01's table.
#[derive(Clone, Copy, Debug, PartialEq, Eq)]
enum Refusal {
    NameNotFull = 11,
    UnlistedNumber = 18,
}

#[tactic(auto, unfolding(crate::specs::Promise::new_refusal))]
fn check(name: &Name, family: u8, policy: u8) -> Result<(), Refusal>
    ensures { refusal_number result ≡ new_refusal (name_of name.now) family policy }
{
    if !numbers::is_listed(family, policy) {
        return Err(Refusal::UnlistedNumber);
    }
    if !name::are_full(&name.octets, name.len) {
        return Err(Refusal::NameNotFull);
    }
    Ok(())
}

fn blank_job() -> Job
    ensures { result ≡ blank }
{
    Job {
        stage: 0,
        count: 0,
        family: 0,
        policy: 0,
        name: Name {
            octets: [0; 255],
            len: 0,
        },
        dhcid: Dhcid { octets: [0; 35] },
        address: Address { octets: [0; 16] },
    }
}

// The job, unless there is a refusal.
#[tactic(auto, unfolding(crate::specs::Promise::new_job))]
fn new_job(checked: Result<(), Refusal>, job: Job) -> NewJob
    ensures { result ≡ new_job (refusal_number checked) job }
{
    match checked {
        Ok(_) => NewJob { refusal: 0, job },
        Err(refusal) => NewJob {
            refusal: refusal as u32,
            job: blank_job(),
        },
    }
}

// An add job, that has sent nothing yet.
pub fn jespurla_new_add(
    name: Name,
    dhcid: Dhcid,
    family: u8,
    address: Address,
    policy: u8,
) -> NewJob
    ensures { AddPromise name dhcid family address policy result }
{
    let checked = check(&name, family, policy);
    let job = Job {
        stage: Stage::BeforeA.number(),
        count: 0,
        family,
        policy,
        name,
        dhcid,
        address,
    };
    new_job(checked, job)
}

// A remove job, that has sent nothing yet.
pub fn jespurla_new_remove(name: Name, dhcid: Dhcid, family: u8, address: Address) -> NewJob
    ensures { RemovePromise name dhcid family address result }
{
    let checked = check(&name, family, 0);
    let job = Job {
        stage: Stage::BeforeFirst.number(),
        count: 0,
        family,
        policy: 0,
        name,
        dhcid,
        address,
    };
    new_job(checked, job)
}
