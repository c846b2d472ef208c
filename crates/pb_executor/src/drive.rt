// A run on one thread, from where it stands to its end.
ghost use Rattle.std.specs.Prelude.{◌+◌, ◌-◌, ◌<◌, ◌^◌, ◌≡◌, ◌≤◌, OnOk, length, true};
ghost use Rattle.pb_run.specs.Recorded.{is_over};
ghost use Rattle.pb_executor.specs.Drives.{Drives, Ends, GoesOn, HasEnded};
ghost use Rattle.pb_executor.specs.Sound.{IsSound};
ghost use Rattle.pb_executor.specs.States.{state_of};

use crate::run::Run;
use pb_jobs::Job;
use pb_run::{Given, Taken};
use pb_runner::{Runner, answers_of};
use std::alloc::AllocError;

/// Runs to the end, or until nothing can be started while somebody else's job is out. For want of
/// memory the run is stopped, and what has happened so far stays. Where all goes well, each call
/// that is handed out is made once, and each host is given what the runner answered to the calls of
/// its job.
///
/// # Errors
///
/// Want of memory.
pub fn drive<R: Runner>(run: &mut Run<'_>, runner: &mut R) -> Result<(), AllocError>
    requires { R.calls runner.old + run.old.accepted.budget < 2 ^ 64 }
    ensures driven { OnOk result (Drives R.answers run.old runner.old run.new runner.new) }
    ensures ends { HasEnded result (state_of run.new) }
    ensures book { GoesOn run.old run.new }
    ensures sound { IsSound run.new }
    ensures made { OnOk result (R.calls runner.new + (state_of run.old).handed
        ≡ R.calls runner.old + (state_of run.new).handed) }
{
    for _turn in 0..u64::MAX {
        let taken = match run.take() {
            Ok(taken) => taken,
            Err(refused) => {
                give_up(run);
                return Err(refused);
            }
        };
        let Taken::Job(job) = taken else {
            return Ok(());
        };
        if let Err(refused) = end(run, runner, job) {
            give_up(run);
            return Err(refused);
        }
    }
    // Each turn made the history longer.
    unreachable!()
}

// Stops the run, for want of memory.
fn give_up(run: &mut Run<'_>)
    ensures over { is_over (state_of run.new) ≡ true }
    ensures book { GoesOn run.old run.new }
    ensures sound { IsSound run.new }
{
    run.stop();
    // Its contract says that the run is sound.
    let _events = run.history().len();
}

// Makes the calls of the job and gives the answers, once more as long as the calls are made again.
fn end<R: Runner>(run: &mut Run<'_>, runner: &mut R, job: Job) -> Result<(), AllocError>
    requires within { (state_of run.old).handed ≤ run.old.accepted.budget }
    requires few { R.calls runner.old + length job.calls.items
        + (run.old.accepted.budget - (state_of run.old).handed) < 2 ^ 64 }
    ensures ends { OnOk result (Ends R.answers run.old runner.old job run.new runner.new) }
    ensures book { GoesOn run.old run.new }
    ensures longer { OnOk result (length run.old.history < length run.new.history) }
    ensures made { OnOk result (R.calls runner.new + (state_of run.old).handed
        ≡ R.calls runner.old + length job.calls.items + (state_of run.new).handed) }
{
    let mut job = job;
    for _attempt in 0..u64::MAX {
        let answers = answers_of(*job.calls.allocator(), runner, &job.calls)?;
        match run.give(job, answers) {
            Ok(Given::Done) => return Ok(()),
            Ok(Given::Again(next)) => job = next,
            Err(_) => return Err(AllocError),
        }
    }
    // Each attempt made the history longer.
    unreachable!()
}
