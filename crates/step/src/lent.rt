// The step of a job on a zone that is lent: 23,936 octets in the layout of the C struct, read and
// written where they stand.
ghost use Rattle.std.specs.Prelude.{◌≡◌, false};
ghost use Rattle.job.specs.Meaning.{numbers_listed};
ghost use Rattle.step.specs.Lent.{StepPromiseIn};
ghost use Rattle.step.specs.Inner.{SentPromiseIn};

use crate::onward::onward;
use crate::{BROKEN_ZONE, UNLISTED_NUMBER};
use job::job::Job;
use job::stage;
use job::stage::Stage;
use request::lent::RequestAnswer;
use request::{answer, lent};

// refusal: the number of document 01's table, 0 where there is none; 17 too where the octets are not
// 23,936.
#[repr(C)]
#[derive(Clone, Copy)]
pub struct StepAnswer {
    pub refusal: u32,
    pub job: Job,
}

// The request that a stage asks for. A job that has ended sends none, and its zone is only checked.
fn send(octets: &mut [u8], job: &Job, stage: Stage) -> RequestAnswer
    ensures { SentPromiseIn octets.old job.now stage octets.new result }
{
    match stage {
        Stage::BeforeA => {
            lent::jespurla_request_a_lent(octets, job.name, job.dhcid, job.family, job.address)
        }
        Stage::BeforeB => lent::jespurla_request_b_lent(
            octets,
            job.name,
            job.dhcid,
            job.family,
            job.address,
            job.policy,
        ),
        Stage::BeforeFirst => lent::jespurla_request_remove_address_lent(
            octets,
            job.name,
            job.dhcid,
            job.family,
            job.address,
        ),
        Stage::BeforeSecond => lent::jespurla_request_remove_name_lent(
            octets,
            job.name,
            job.dhcid,
            job.family,
            job.address,
        ),
        _ => {
            let checked = lent::jespurla_zone_check_lent(octets, job.name, job.family, 0);
            RequestAnswer {
                refusal: checked.refusal,
                answer: answer::SUCCESS,
            }
        }
    }
}

// A job whose numbers are not listed: only a zone that breaks its form is refused before it.
fn refuse(octets: &mut [u8], job: Job) -> StepAnswer
    requires { numbers_listed job ≡ false }
    ensures { StepPromiseIn octets.old job octets.new result }
{
    let checked = lent::jespurla_zone_check_lent(octets, job.name, job.family, 0);
    let refusal = if checked.refusal == BROKEN_ZONE {
        BROKEN_ZONE
    } else {
        UNLISTED_NUMBER
    };
    StepAnswer { refusal, job }
}

// One step.
pub fn jespurla_job_step_lent(octets: &mut [u8], mut job: Job) -> StepAnswer
    ensures { StepPromiseIn octets.old job octets.new result }
{
    let Ok(stage) = stage::listed_stage(&job) else {
        return refuse(octets, job);
    };
    let sent = send(octets, &job, stage);
    onward(&mut job, stage, sent.refusal, sent.answer);
    StepAnswer {
        refusal: sent.refusal,
        job,
    }
}
