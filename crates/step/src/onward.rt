// Where the answer to a step's request leads its job.
ghost use Rattle.std.specs.Prelude.{◌≡◌, cond, eqb};
ghost use Rattle.job.specs.Inner.{Stands, led};
ghost use Rattle.step.specs.Inner.{rule_of};

use job::answer;
use job::job::Job;
use job::stage::Stage;

// The job goes on from its stage; it stays as it is where the request was refused, and where it has
// ended.
pub(crate) fn onward(job: &mut Job, stage: Stage, refusal: u32, answer: u32)
    requires { Stands job.old stage }
    ensures { job.new ≡ cond (eqb refusal 0) (led job.old (rule_of stage job.old.count) answer) job.old }
{
    if refusal != 0 {
        return;
    }
    match stage {
        Stage::BeforeA | Stage::BeforeB => *job = answer::after_add(*job, job.count + 1, answer),
        Stage::BeforeFirst => *job = answer::after_first(*job, answer),
        Stage::BeforeSecond => *job = answer::after_second(*job, answer),
        _ => {}
    }
}
