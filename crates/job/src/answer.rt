// Where an answer leads a job.
ghost use Rattle.std.specs.Prelude.{◌≡◌};
ghost use Rattle.job.specs.Jobs.{after, after_first, after_second};
ghost use Rattle.job.specs.Meaning.{at_stage};
ghost use Rattle.job.specs.Inner.{staged, answer_of, led};

use crate::job::Job;
use crate::stage::{MOST_REQUESTS, Stage};
use request::answer;

// The same job at another stage, an add with the count.
#[tactic(auto, unfolding(crate::specs::Meaning::at_stage, crate::specs::Meaning::is_add, crate::specs::Meaning::stage_number, crate::specs::Meaning::stage_count))]
fn moved(job: Job, stage: Stage, count: u8) -> Job
    ensures { result ≡ at_stage job (staged stage count) }
{
    let count = if stage.is_add() { count } else { job.count };
    Job {
        stage: stage.number(),
        count,
        ..job
    }
}

// The stage of an add whose request got the answer. sent: its requests, the one just answered among
// them.
#[tactic(auto, unfolding(crate::specs::Jobs::after, crate::specs::Inner::answer_of))]
fn add_after(sent: u8, answer: u32) -> Stage
    ensures { staged result sent ≡ after sent (answer_of answer) }
{
    match answer {
        answer::SUCCESS => Stage::Done,
        answer::YXDOMAIN => Stage::BeforeB,
        answer::YXRRSET | answer::NXRRSET => Stage::Conflict,
        answer::NO_ROOM => Stage::NoRoom,
        _ if sent == MOST_REQUESTS => Stage::GaveUp,
        _ => Stage::BeforeA,
    }
}

// An add, after request A or B. sent: its requests, the one just answered among them.
pub fn after_add(job: Job, sent: u8, answer: u32) -> Job
    ensures { result ≡ led job (after sent) answer }
{
    moved(job, add_after(sent, answer), sent)
}

// A remove, after its first request.
pub fn after_first(job: Job, answer: u32) -> Job
    ensures { result ≡ led job after_first answer }
{
    if answer == answer::SUCCESS {
        moved(job, Stage::BeforeSecond, 0)
    } else {
        moved(job, Stage::NotOurs, 0)
    }
}

// A remove, after its second request.
pub fn after_second(job: Job, answer: u32) -> Job
    ensures { result ≡ led job after_second answer }
{
    if answer == answer::SUCCESS {
        moved(job, Stage::Gone, 0)
    } else {
        moved(job, Stage::Kept, 0)
    }
}
