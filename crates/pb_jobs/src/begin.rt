// How the machine of a run begins a host's task.
ghost use Rattle.std.specs.Prelude.{◌+◌, ◌<◌, ◌≡◌, ◌≤◌, ◌^◌, IfErr, IfOk, IfSome, None, OnErr};
ghost use Rattle.std.specs.Prelude.{OnOk, Some, get_or, length, slice_set};
ghost use Rattle.pb_core.specs.Words.{tickets_of};
ghost use Rattle.pb_inventory.specs.Words.{inventory_view};
ghost use Rattle.pb_jobs.specs.Faults.{BeginsPast, CannotBegin};
ghost use Rattle.pb_jobs.specs.Machines.{BeginsAs, CountsMore, IsSameBut, IsSceneOf, Looks};

use crate::active::ActiveBatch;
use crate::job::Call;
use crate::machine::Machine;
use crate::scene::RunScene;
use crate::start::Begun;
use pb_core::{CoreFault, RunCore};
use pb_start::Pass;
use pb_world::{RunWorld, Variables};
use std::alloc::{AllocError, Global};

impl Machine<'_> {
    // Looks for the active hosts of the batch, where they changed since.
    pub(crate) fn look(&mut self, alloc: Global) -> Result<(), AllocError>
        ensures { Looks self.old self.new result }
    {
        if self.batch.is_some() {
            return Ok(());
        }
        let batch = ActiveBatch::of(alloc, &self.core, &self.constants)?;
        know(&mut self.batch, Some(batch));
        Ok(())
    }

    // What a host's task sees.
    pub(crate) fn scene<'r>(
        &'r self,
        core: &'r RunCore<Vec<Pass>>,
        batch: &'r ActiveBatch,
    ) -> RunScene<'r>
        requires active { batch.now.hosts.hosts
            ≡ length (inventory_view self.now.inventory.now).hosts }
        requires hosts { length core.now.hosts.items
            ≡ length (inventory_view self.now.inventory.now).hosts }
        ensures { IsSceneOf self.now core.now batch.now result }
    {
        let variables = Variables {
            inventory: self.inventory,
            slots: &self.slots,
            facts: &self.facts,
        };
        let world = RunWorld {
            variables,
            constants: &self.constants,
            active: &batch.hosts,
            play_batch: &batch.names,
        };
        RunScene {
            world,
            fixed: &self.fixed,
            core,
            calls: &self.calls,
        }
    }

    // How many calls were handed out to the host, with so many more.
    pub(crate) fn total(&self, host: usize, more: usize) -> Option<u64>
        requires { host < length self.now.calls.items }
        ensures sum { IfSome result (λ n. n ≡ get_or self.now.calls.items host 0 + more) }
        ensures full { result ≡ None → 2 ^ 64 ≤ get_or self.now.calls.items host 0 + more }
    {
        self.calls[host].checked_add(more as u64)
    }

    /// The host's task begins: these calls are handed out, under that ticket.
    ///
    /// # Errors
    ///
    /// Want of memory; `NotThere` where the host can't start; `Full` where more calls would be
    /// handed out than a count has room for. Nothing has happened then.
    pub fn begin(
        &mut self,
        alloc: Global,
        host: usize,
        ticket: usize,
    ) -> Result<Vec<Call>, CoreFault>
        ensures begins { IfOk result (λ cs. BeginsAs host cs.items self.old self.new) }
        ensures tickets { OnOk result (tickets_of self.new.core
            ≡ slice_set (tickets_of self.old.core) host (Some ticket)) }
        ensures counts { IfOk result (λ cs. CountsMore host (length cs.items) self.old self.new) }
        ensures err { OnErr result (IsSameBut self.old self.new) }
        ensures there { IfErr result (λ e. e ≡ CoreFault.NotThere → CannotBegin host self.old) }
        ensures full { IfErr result (λ e. e ≡ CoreFault.Full → BeginsPast host self.old) }
    {
        self.look(alloc)?;
        let Some(batch) = &self.batch else {
            unreachable!()
        };
        let Begun { passes, calls } = self.scene(&self.core, batch).start(alloc, host)?;
        let Some(total) = self.total(host, calls.len()) else {
            return Err(CoreFault::Full);
        };
        self.core.begin(host, passes, ticket, calls.len() as u64)?;
        self.calls[host] = total;
        Ok(calls)
    }
}

// From now on these are the active hosts that are known, or none are.
pub(crate) fn know(batch: &mut Option<ActiveBatch>, found: Option<ActiveBatch>)
    ensures { batch.new ≡ found }
{
    *batch = found;
}
