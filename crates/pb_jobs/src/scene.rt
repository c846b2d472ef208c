// What a host's task sees of the run, and which task that is.
ghost use Rattle.std.specs.Prelude.{◌≡◌, length};
ghost use Rattle.pb_inventory.specs.Words.{inventory_view};

use crate::calls::calls_of;
use crate::host_task::HostTask;
use crate::job::Call;
use pb_core::{CoreFault, RunCore};
use pb_finish::Fixed;
use pb_position::Location;
use pb_start::Pass;
use pb_value::Value;
use pb_world::{RunWorld, failure_of};
use std::alloc::{AllocError, Global};

/// What a host's task sees of the run, by references to what the run keeps.
#[derive(Drop)]
pub struct RunScene<'r> {
    pub world: RunWorld<'r>,
    pub fixed: &'r Fixed,
    pub core: &'r RunCore<Vec<Pass>>,
    /// Of each host how many calls were handed out to it.
    pub calls: &'r [u64],
    /// The core has a place for each host.
    ghost each_place: { length core.now.hosts.items
        ≡ length (inventory_view world.variables.inventory.now).hosts },
    /// The calls of each host are counted.
    ghost each_count: { length calls.now
        ≡ length (inventory_view world.variables.inventory.now).hosts },
}

impl<'r> RunScene<'r> {
    ghost use Rattle.std.specs.Prelude.{◌+◌, ◌<◌, ◌≤◌, ◌^◌, IfErr, IfOk, IfSome, None, map};
    ghost use Rattle.pb_language.specs.Start.{call_count};
    ghost use Rattle.pb_start.specs.Words.{pass_view};
    ghost use Rattle.pb_jobs.specs.HostTasks.{HasNoTask, IsHostTask};
    ghost use Rattle.pb_jobs.specs.Scenes.{CallsAs, HasFailure, IsNodeOf};

    // The task where the host stands, unless it is at none.
    pub(crate) fn task_at(&self, host: usize) -> Option<HostTask<'r>>
        ensures task { IfSome result (λ t. IsHostTask self.now host t) }
        ensures none { result ≡ None → HasNoTask self.now host }
        ensures within { IfSome result (λ t. host < length self.now.calls.now) }
    {
        let Some(index) = self.node_of(host) else {
            return None;
        };
        let Some(play) = self.core.play() else {
            return None;
        };
        if index >= play.tasks.len() {
            return None;
        }
        if index >= play.plan.steps.len() {
            return None;
        }
        let Some(name) = self.world.constants.host_name(host) else {
            return None;
        };
        Some(HostTask {
            name,
            state: &self.core.hosts()[host],
            task: &play.tasks[index],
            step: &play.plan.steps[index],
            before: self.calls[host],
        })
    }

    // The place of the host's task among the steps of the play.
    fn node_of(&self, host: usize) -> Option<usize>
        ensures node { IfSome result (λ index. IsNodeOf self.now host index) }
        ensures none { result ≡ None → HasNoTask self.now host }
        ensures within { IfSome result (λ index. host < length self.now.core.now.hosts.items) }
    {
        let hosts = self.core.hosts();
        if host >= hosts.len() {
            return None;
        }
        match hosts[host].position.location() {
            Location::Node(node) => Some((node as usize).saturating_sub(1)),
            Location::End => None,
            Location::Left => None,
        }
    }

    // The text of the failure as the task sees it, inside a `rescue` part.
    pub(crate) fn failure_at(
        &self,
        alloc: Global,
        host: usize,
        task: &HostTask<'_>,
    ) -> Result<Option<Value>, AllocError>
        requires { IsHostTask self.now host task.now }
        ensures { IfOk result
            (λ v. HasFailure self.now host task.now.task.now.depth v) }
    {
        let depth = task.task.depth;
        failure_of(alloc, depth, task.state.position.rescued_text(depth))
    }

    // The calls that the passes of the task make.
    pub(crate) fn calls_at(
        &self,
        alloc: Global,
        host: usize,
        task: &HostTask<'_>,
        passes: &[Pass],
    ) -> Result<Vec<Call>, CoreFault>
        requires { IsHostTask self.now host task.now }
        ensures calls { IfOk result
            (λ cs. CallsAs self.now host task.now.task.now passes.now cs.items) }
        ensures there { IfErr result (λ e. e ≡ CoreFault.NotThere → ⊥) }
        ensures full { IfErr result (λ e. e ≡ CoreFault.Full
            → 2 ^ 64 ≤ task.now.before + call_count (map pass_view passes.now)) }
    {
        calls_of(alloc, host, task, passes)
    }
}
