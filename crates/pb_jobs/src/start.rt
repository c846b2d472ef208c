// What a host's task does as it starts, and the calls that it hands out.
ghost use Rattle.std.specs.Prelude.{◌<◌, ◌≡◌, IfErr, IfOk, OnOk, length};
ghost use Rattle.pb_jobs.specs.HostTasks.{HasNoTask, IsNotOut};
ghost use Rattle.pb_jobs.specs.Tasks.{RepeatsAs, RepeatsPast, StartsAs, StartsPast};

use crate::job::Call;
use crate::scene::RunScene;
use pb_core::{CoreFault, Stage};
use pb_start::{Pass, start};
use std::alloc::Global;

/// What a host's task does as it starts.
#[derive(Drop)]
pub struct Begun {
    /// Item by item.
    pub passes: Vec<Pass>,
    /// The calls that these make.
    pub calls: Vec<Call>,
}

impl RunScene<'_> {
    /// What the task before which the host stands does as it starts.
    ///
    /// # Errors
    ///
    /// Want of memory; `NotThere` where the host is at no task; `Full` where more calls would be
    /// handed out to it than a count has room for.
    pub fn start(&self, alloc: Global, host: usize) -> Result<Begun, CoreFault>
        ensures starts { IfOk result (λ b. StartsAs self.now host b) }
        ensures within { OnOk result (host < length self.now.calls.now) }
        ensures there { IfErr result (λ e. e ≡ CoreFault.NotThere → HasNoTask self.now host) }
        ensures full { IfErr result (λ e. e ≡ CoreFault.Full → StartsPast self.now host) }
    {
        let Some(task) = self.task_at(host) else {
            return Err(CoreFault::NotThere);
        };
        let failure = self.failure_at(alloc, host, &task)?;
        let world = self.world.of_host(host, failure.as_ref());
        let passes = start(alloc, task.task, &world)?;
        let calls = self.calls_at(alloc, host, &task, &passes)?;
        Ok(Begun { passes, calls })
    }

    /// The calls of the host's job that is out, once more.
    ///
    /// # Errors
    ///
    /// Want of memory; `NotThere` where no job of the host is out; `Full` where more calls would be
    /// handed out to it than a count has room for.
    pub fn calls_again(&self, alloc: Global, host: usize) -> Result<Vec<Call>, CoreFault>
        ensures repeats { IfOk result (λ cs. RepeatsAs self.now host cs.items) }
        ensures within { OnOk result (host < length self.now.calls.now) }
        ensures there { IfErr result (λ e. e ≡ CoreFault.NotThere → IsNotOut self.now host) }
        ensures full { IfErr result (λ e. e ≡ CoreFault.Full → RepeatsPast self.now host) }
    {
        let Some(task) = self.task_at(host) else {
            return Err(CoreFault::NotThere);
        };
        let Stage::Runs { passes, .. } = &task.state.stage else {
            return Err(CoreFault::NotThere);
        };
        self.calls_at(alloc, host, &task, passes)
    }
}
