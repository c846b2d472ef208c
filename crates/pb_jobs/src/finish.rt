// What the answers to a host's job make of it.
ghost use Rattle.std.specs.Prelude.{◌&&◌, ◌≡◌, IfErr, IfOk, not};
ghost use Rattle.pb_jobs.specs.HostTasks.{IsHostTask, IsNotOut};
ghost use Rattle.pb_jobs.specs.Tasks.{ComesAs, FinishesAs, IsEndedOf, NotifiesAs};

use crate::host_task::HostTask;
use crate::scene::RunScene;
use pb_core::{CoreFault, Stage, TaskOutcome, TaskStatus};
use pb_finish::{Answer, Ending, Given, Outcome, finish};
use pb_value::Value;
use std::alloc::{AllocError, Global};

/// What the answers to a host's job make of it.
#[derive(Drop)]
pub enum Finished {
    /// The host leaves: an answer isn't what its module may give, or the host wasn't reached.
    Left {
        is_reached: bool,
    },
    /// The same calls are made again.
    Again,
    /// The task ended so, and sets these variables, one after the other.
    Ended {
        outcome: TaskOutcome,
        writes: Vec<(String, Value)>,
    },
}

impl RunScene<'_> {
    /// What these answers make of the host's job that is out.
    ///
    /// # Errors
    ///
    /// Want of memory; `NotThere` where no job of the host is out.
    pub fn finish(
        &self,
        alloc: Global,
        host: usize,
        answers: &[Answer],
    ) -> Result<Finished, CoreFault>
        ensures finishes { IfOk result (λ f. FinishesAs self.now host answers.now f) }
        ensures there { IfErr result (λ e. e ≡ CoreFault.NotThere → IsNotOut self.now host) }
        ensures full { IfErr result (λ e. e ≡ CoreFault.Full → ⊥) }
    {
        let Some(task) = self.task_at(host) else {
            return Err(CoreFault::NotThere);
        };
        let ending = self.ending(alloc, host, &task, answers)?;
        match ending {
            Ending::Unreached => Ok(Finished::Left { is_reached: false }),
            Ending::Breached(_) => Ok(Finished::Left { is_reached: true }),
            Ending::Again => Ok(Finished::Again),
            Ending::Ended(outcome) => {
                let finished = self.ended(alloc, host, &task, outcome)?;
                Ok(finished)
            }
        }
    }

    // What comes of the answers to the host's task.
    fn ending(
        &self,
        alloc: Global,
        host: usize,
        task: &HostTask<'_>,
        answers: &[Answer],
    ) -> Result<Ending, CoreFault>
        requires task { IsHostTask self.now host task.now }
        ensures comes { IfOk result (λ e. ComesAs self.now host answers.now e) }
        ensures there { IfErr result (λ e. e ≡ CoreFault.NotThere → IsNotOut self.now host) }
        ensures full { IfErr result (λ e. e ≡ CoreFault.Full → ⊥) }
    {
        let Stage::Runs {
            attempts,
            passes,
            ..
        } = &task.state.stage
        else {
            return Err(CoreFault::NotThere);
        };
        let failure = self.failure_at(alloc, host, task)?;
        let world = self.world.of_host(host, failure.as_ref());
        let given = Given {
            passes,
            answers,
            tried: *attempts,
        };
        let ending = finish(alloc, task.task, self.fixed, &given, &world)?;
        Ok(ending)
    }

    // What a task that ended so is for the core, and the variables that it sets.
    fn ended(
        &self,
        alloc: Global,
        host: usize,
        task: &HostTask<'_>,
        outcome: Outcome,
    ) -> Result<Finished, AllocError>
        requires task { IsHostTask self.now host task.now }
        ensures { IfOk result (λ f. IsEndedOf self.now host outcome f) }
    {
        let status = TaskStatus {
            is_skipped: outcome.skipped,
            is_changed: outcome.changed,
            has_failed: outcome.failed,
            is_ignored: task.task.ignores,
            is_rescued: task.task.rescued,
        };
        let notified = self.notified(alloc, host, task, notifies(&outcome))?;
        let Outcome {
            writes,
            failure,
            ..
        } = outcome;
        let outcome = TaskOutcome {
            status,
            text: failure,
            notified,
        };
        Ok(Finished::Ended { outcome, writes })
    }

    // The handlers that the host's task notifies, where it does.
    fn notified(
        &self,
        alloc: Global,
        host: usize,
        task: &HostTask<'_>,
        notifies: bool,
    ) -> Result<Vec<usize>, AllocError>
        requires task { IsHostTask self.now host task.now }
        ensures { IfOk result (λ ms. NotifiesAs self.now host notifies ms.items) }
    {
        let mut handlers = Vec::new(alloc);
        if !notifies {
            return Ok(handlers);
        }
        handlers.extend_from_slice(&task.step.notifies)?;
        Ok(handlers)
    }
}

// A task that changed something and didn't fail notifies handlers.
fn notifies(outcome: &Outcome) -> bool
    ensures { result ≡ (outcome.now.changed && not outcome.now.failed) }
{
    outcome.changed && !outcome.failed
}
