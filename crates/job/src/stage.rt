// The stages of a job with their numbers, and whether a job has numbers that a job may have.
ghost use Rattle.std.specs.Prelude.{◌≡◌, false, cond, MatchResult};
ghost use Rattle.job.specs.Jobs.{possible};
ghost use Rattle.job.specs.Meaning.{stage_number, is_add, numbers_listed};
ghost use Rattle.job.specs.Inner.{staged, is_over, Decodes, Stands};

use crate::job::Job;
use update::numbers;

// Where a job stands: an add at the first six, a remove at the others.
#[derive(Clone, Copy, Debug, PartialEq, Eq)]
pub enum Stage {
    BeforeA = 1,
    BeforeB = 2,
    Done = 3,
    Conflict = 4,
    NoRoom = 5,
    GaveUp = 6,
    BeforeFirst = 11,
    BeforeSecond = 12,
    NotOurs = 13,
    Gone = 14,
    Kept = 15,
}

// A number that is not listed.
#[derive(Clone, Copy, Debug, PartialEq, Eq)]
pub struct Unlisted;

impl TryFrom<u8> for Stage {
    type Error = Unlisted;

    ghost try_from_gives = { Decodes };

    #[tactic(auto, unfolding(crate::specs::Meaning::stage_at, crate::specs::Meaning::numbered, crate::specs::Meaning::stage_number))]
    fn try_from(number: u8) -> Result<Self, Unlisted> {
        match number {
            1 => Ok(Stage::BeforeA),
            2 => Ok(Stage::BeforeB),
            3 => Ok(Stage::Done),
            4 => Ok(Stage::Conflict),
            5 => Ok(Stage::NoRoom),
            6 => Ok(Stage::GaveUp),
            11 => Ok(Stage::BeforeFirst),
            12 => Ok(Stage::BeforeSecond),
            13 => Ok(Stage::NotOurs),
            14 => Ok(Stage::Gone),
            15 => Ok(Stage::Kept),
            _ => Err(Unlisted),
        }
    }
}

// The most requests that an add sends.
pub const MOST_REQUESTS: u8 = 6;

impl Stage {
    // The number that stands in a job.
    #[tactic(auto, unfolding(crate::specs::Meaning::stage_number))]
    pub fn number(self) -> u8
        ensures { result ≡ stage_number (staged self 0) }
    {
        self as u8
    }

    // Whether it is an add's.
    #[tactic(auto, unfolding(crate::specs::Meaning::is_add, crate::specs::Meaning::stage_number))]
    pub fn is_add(self) -> bool
        ensures { result ≡ is_add (stage_number (staged self 0)) }
    {
        matches!(
            self,
            Stage::BeforeA
                | Stage::BeforeB
                | Stage::Done
                | Stage::Conflict
                | Stage::NoRoom
                | Stage::GaveUp
        )
    }

    // Whether it is an end.
    pub fn is_end(self) -> bool
        ensures { result ≡ is_over (staged self 0) }
    {
        !matches!(
            self,
            Stage::BeforeA | Stage::BeforeB | Stage::BeforeFirst | Stage::BeforeSecond
        )
    }

    // Whether it can have the count. A remove has none, and whatever stands there will do.
    #[tactic(auto, unfolding(crate::specs::Jobs::possible, crate::specs::Jobs::among))]
    pub fn can_have(self, count: u8) -> bool
        ensures { result ≡ possible (staged self count) }
    {
        match self {
            Stage::BeforeA => matches!(count, 0 | 2 | 4),
            Stage::BeforeB => matches!(count, 1 | 3 | 5),
            Stage::Done | Stage::NoRoom => matches!(count, 1..=MOST_REQUESTS),
            Stage::Conflict => matches!(count, 2 | 4 | 6),
            Stage::GaveUp => count == MOST_REQUESTS,
            _ => true,
        }
    }
}

// The policy that is read: a remove has none.
fn policy_at(job: &Job, stage: Stage) -> u8
    ensures { result ≡ cond (is_add (stage_number (staged stage 0))) job.now.policy 0 }
{
    if stage.is_add() { job.policy } else { 0 }
}

// The stage of a job whose numbers are listed, and whose stage can have its count.
pub fn listed_stage(job: &Job) -> Result<Stage, Unlisted>
    ensures { MatchResult result (Stands job.now) (λ e. numbers_listed job.now ≡ false) }
{
    let stage = Stage::try_from(job.stage)?;
    let policy = policy_at(job, stage);
    if numbers::is_listed(job.family, policy) && stage.can_have(job.count) {
        Ok(stage)
    } else {
        Err(Unlisted)
    }
}
