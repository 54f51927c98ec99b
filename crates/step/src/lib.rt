// The step of a job: the one request that its stage asks for, and where the answer leads. The zone is
// known by the promises of its requests alone.

#![tactic(auto)]

pub mod lent;
mod onward;

ghost use Rattle.std.specs.Prelude.{◌≡◌, false};
ghost use Rattle.job.specs.Meaning.{numbers_listed};
ghost use Rattle.step.specs.Promise.{StepPromise};
ghost use Rattle.request.specs.Inner.{with_zone};
ghost use Rattle.step.specs.Inner.{SentPromise};

use crate::onward::onward;
use job::job::Job;
use job::stage;
use job::stage::Stage;
use request::lent::RequestAnswer;
use request::{answer, in_place};
use zone::Zone;

// Refusals of document 01.
const BROKEN_ZONE: u32 = 17;

const UNLISTED_NUMBER: u32 = 18;

// refusal: the number of document 01's table, 0 where there is none.
#[repr(C)]
#[derive(Clone, Copy)]
pub struct Stepped {
    pub refusal: u32,
    pub zone: Zone,
    pub job: Job,
}

// The request that a stage asks for. A job that has ended sends none, and its zone is only checked.
fn send(zone: &mut Zone, job: &Job, stage: Stage) -> RequestAnswer
    ensures { SentPromise zone.old job.now stage (with_zone zone.new result) }
{
    match stage {
        Stage::BeforeA => in_place::send_a(zone, &job.name, job.dhcid, job.family, job.address),
        Stage::BeforeB => in_place::send_b(
            zone,
            &job.name,
            job.dhcid,
            job.family,
            job.address,
            job.policy,
        ),
        Stage::BeforeFirst => {
            in_place::send_remove_address(zone, &job.name, job.dhcid, job.family, job.address)
        }
        Stage::BeforeSecond => {
            in_place::send_remove_name(zone, &job.name, job.dhcid, job.family, job.address)
        }
        _ => RequestAnswer {
            refusal: in_place::check(zone, &job.name, job.family, 0),
            answer: answer::SUCCESS,
        },
    }
}

// A job whose numbers are not listed: only a zone that breaks its form is refused before it.
fn refuse(zone: Zone, job: Job) -> Stepped
    requires { numbers_listed job ≡ false }
    ensures { StepPromise zone job result }
{
    let checked = request::jespurla_zone_check(zone, job.name, job.family, 0);
    let refusal = if checked.refusal == BROKEN_ZONE {
        BROKEN_ZONE
    } else {
        UNLISTED_NUMBER
    };
    Stepped { refusal, zone, job }
}

// One step. The zone's form is checked once, by the request or by the check alone.
pub fn jespurla_job_step(mut zone: Zone, mut job: Job) -> Stepped
    ensures { StepPromise zone job result }
{
    let Ok(stage) = stage::listed_stage(&job) else {
        return refuse(zone, job);
    };
    let sent = send(&mut zone, &job, stage);
    onward(&mut job, stage, sent.refusal, sent.answer);
    Stepped {
        refusal: sent.refusal,
        zone,
        job,
    }
}
