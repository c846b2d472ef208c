// The active hosts of the batch that runs, as tasks see them.
ghost use Rattle.std.specs.List.{list_all};
ghost use Rattle.std.specs.Prelude.{◌≡◌, nat_lt, true};

use pb_core::RunCore;
use pb_start::Pass;
use pb_value::Value;
use pb_world::{ActiveHosts, Constants, play_batch_of};
use std::alloc::{AllocError, Global};

/// The active hosts of the batch that runs, as tasks see them.
#[derive(Drop)]
pub struct ActiveBatch {
    pub hosts: ActiveHosts,
    /// `ansible_play_batch`
    pub names: Value,
    /// They are hosts.
    ghost within: { list_all (λ k. nat_lt k hosts.hosts) hosts.members ≡ true },
}

impl ActiveBatch {
    ghost use Rattle.std.specs.Prelude.{IfOk, length};
    ghost use Rattle.pb_jobs.specs.Active.{AreActiveIn};

    /// Those of the batch that runs; none where the run has ended.
    ///
    /// # Errors
    ///
    /// Want of memory.
    pub fn of(
        alloc: Global,
        core: &RunCore<Vec<Pass>>,
        constants: &Constants,
    ) -> Result<ActiveBatch, AllocError>
        requires { length constants.now.hosts.items ≡ length core.now.hosts.items }
        ensures active { IfOk result (λ b. AreActiveIn core.now constants.now b) }
        ensures hosts { IfOk result (λ b. b.hosts.hosts ≡ length core.now.hosts.items) }
    {
        let members = core.active(alloc)?;
        let names = play_batch_of(alloc, constants, &members)?;
        let hosts = ActiveHosts::of(alloc, core.hosts().len(), members)?;
        hosts.members();
        Ok(ActiveBatch { hosts, names })
    }
}
