// Whatever answers the calls of modules, and the answers to the calls of a job.
ghost use Rattle.std.specs.Prelude.{◌+◌, ◌<◌, ◌^◌, ◌≡◌, IfOk, OnOk, false, length};
ghost use Rattle.std.specs.Prelude.{ℕ};
ghost use Rattle.pb_runner.specs.Answered.{AreAnswered};

use pb_finish::Answer;
use pb_jobs::Call;
use std::alloc::{AllocError, Global};

/// Whatever answers the calls of modules.
pub trait Runner {
    ghost use Rattle.pb_finish.specs.declared.answer.Answer.{Answer};
    ghost use Rattle.pb_jobs.specs.declared.job.Call.{Call};
    ghost use Rattle.std.specs.Prelude.{Bool};

    /// How many calls were made.
    ghost calls: { Self → ℕ };

    /// Asked this call, the runner gives this answer, and is that runner then.
    ghost answers: { Self → Call → Answer → Self → Type 0 };

    /// Whether there was no memory to give an answer out.
    ghost short: { Self → Bool };

    /// The module's answer on the host. Each call counts.
    fn call(&mut self, call: &Call) -> Answer
        requires { calls self.old + 1 < 2 ^ 64 }
        ensures made { calls self.new ≡ calls self.old + 1 }
        ensures answered { answers self.old call.now result self.new };

    /// How many calls were made.
    fn made(&self) -> u64
        ensures { result ≡ calls self.now };

    /// Whether there was no memory to give an answer out; another was given in its place then.
    fn is_short(&self) -> bool
        ensures { result ≡ short self.now };
}

/// Makes the calls in order, each once, and gives their answers in that order. For want of memory,
/// the runner's too, there are none, and some of the calls may have been made.
pub fn answers_of<R: Runner>(
    alloc: Global,
    runner: &mut R,
    calls: &[Call],
) -> Result<Vec<Answer>, AllocError>
    requires { R.calls runner.old + length calls.now < 2 ^ 64 }
    ensures made { OnOk result (R.calls runner.new ≡ R.calls runner.old + length calls.now) }
    ensures answered { IfOk result
        (λ answers. AreAnswered R.answers runner.old calls.now answers.items runner.new) }
    ensures fine { OnOk result (R.short runner.new ≡ false) }
{
    let answers = call_all(alloc, runner, calls)?;
    if runner.is_short() {
        return Err(AllocError);
    }
    Ok(answers)
}

fn call_all<R: Runner>(
    alloc: Global,
    runner: &mut R,
    calls: &[Call],
) -> Result<Vec<Answer>, AllocError>
    requires { R.calls runner.old + length calls.now < 2 ^ 64 }
    ensures made { OnOk result (R.calls runner.new ≡ R.calls runner.old + length calls.now) }
    ensures answered { IfOk result
        (λ answers. AreAnswered R.answers runner.old calls.now answers.items runner.new) }
{
    let mut answers = Vec::with_capacity(alloc, calls.len())?;
    for call in calls {
        answers.push(runner.call(call))?;
    }
    Ok(answers)
}
