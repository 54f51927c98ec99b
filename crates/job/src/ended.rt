// Whether a job has ended.
ghost use Rattle.std.specs.Prelude.{◌≡◌};
ghost use Rattle.job.specs.Meaning.{has_ended};

use crate::job::Job;
use crate::stage::Stage;

// 1 where the job's stage is an end, else 0. The stage alone decides, whatever else stands in the job.
pub fn jespurla_job_has_ended(job: Job) -> u8
    ensures { result ≡ has_ended job }
{
    match Stage::try_from(job.stage) {
        Ok(stage) => u8::from(stage.is_end()),
        Err(_) => 0,
    }
}
