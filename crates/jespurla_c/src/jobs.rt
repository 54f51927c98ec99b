// Jobs: new ones, their steps on a zone by value and on one that is lent, and whether one has ended.
ghost use Rattle.std.specs.Prelude.{◌≡◌};
ghost use Rattle.job.specs.Meaning.{has_ended};
ghost use Rattle.job.specs.Promise.{AddPromise, RemovePromise};
ghost use Rattle.step.specs.Promise.{StepPromise};
ghost use Rattle.step.specs.Lent.{StepPromiseIn};

use dname::name::Name;
use job::fresh::NewJob;
use job::job::Job;
use job::{ended, fresh};
use step::lent::StepAnswer;
use step::{Stepped, lent};
use zone::Zone;
use zone::entry::{Address, Dhcid};

// An add job, that has sent nothing yet.
#[unsafe(no_mangle)]
pub extern "C" fn jespurla_new_add(
    name: Name,
    dhcid: Dhcid,
    family: u8,
    address: Address,
    policy: u8,
) -> NewJob
    ensures { AddPromise name dhcid family address policy result }
{
    fresh::jespurla_new_add(name, dhcid, family, address, policy)
}

// A remove job, that has sent nothing yet.
#[unsafe(no_mangle)]
pub extern "C" fn jespurla_new_remove(
    name: Name,
    dhcid: Dhcid,
    family: u8,
    address: Address,
) -> NewJob
    ensures { RemovePromise name dhcid family address result }
{
    fresh::jespurla_new_remove(name, dhcid, family, address)
}

// 1 where the job's stage is an end, else 0. The stage alone decides, whatever else stands in the job.
#[unsafe(no_mangle)]
pub extern "C" fn jespurla_job_has_ended(job: Job) -> u8
    ensures { result ≡ has_ended job }
{
    ended::jespurla_job_has_ended(job)
}

// One step.
#[unsafe(no_mangle)]
pub extern "C" fn jespurla_job_step_lent(octets: &mut [u8], job: Job) -> StepAnswer
    ensures { StepPromiseIn octets.old job octets.new result }
{
    lent::jespurla_job_step_lent(octets, job)
}

// One step. The zone's form is checked once, by the request or by the check alone.
#[unsafe(no_mangle)]
pub extern "C" fn jespurla_job_step(zone: Zone, job: Job) -> Stepped
    ensures { StepPromise zone job result }
{
    step::jespurla_job_step(zone, job)
}
