// How the machine of a run is opened.
ghost use Rattle.std.specs.Prelude.{◌≡◌, IfErr, IfOk, None, length, replicate};
ghost use Rattle.pb_core.specs.Words.{tickets_of};
ghost use Rattle.pb_inventory.specs.Words.{inventory_view};
ghost use Rattle.pb_jobs.specs.Faults.{OpensNot};
ghost use Rattle.pb_jobs.specs.Machines.{OpensAs};

use crate::machine::Machine;
use pb_core::{CoreFault, RunCore, Schedule};
use pb_facts::Facts;
use pb_finish::Fixed;
use pb_inventory::Inventory;
use pb_slots::Slots;
use pb_world::Constants;
use std::alloc::Global;

impl<'c> Machine<'c> {
    /// The machine of a run of that schedule over the hosts of the inventory, in which nothing has
    /// happened yet.
    ///
    /// # Errors
    ///
    /// Want of memory; `NotThere` where the first batch is of no play.
    pub fn open(
        alloc: Global,
        inventory: &'c Inventory,
        slots: Slots,
        schedule: Schedule,
        forks: usize,
    ) -> Result<Machine<'c>, CoreFault>
        ensures opens { IfOk result (OpensAs schedule forks) }
        ensures inventory { IfOk result (λ m. m.inventory.now ≡ inventory.now) }
        ensures slots { IfOk result (λ m. m.slots ≡ slots) }
        ensures tickets { IfOk result (λ m. tickets_of m.core
            ≡ replicate (length (inventory_view inventory.now).hosts) None) }
        ensures calls { IfOk result (λ m. m.calls.items
            ≡ replicate (length (inventory_view inventory.now).hosts) 0) }
        ensures err { IfErr result (OpensNot schedule) }
    {
        let hosts = inventory.hosts();
        let constants = Constants::of(alloc, inventory)?;
        let fixed = Fixed::new(alloc)?;
        let facts = Facts::new(alloc, hosts, slots.count())?;
        let calls = vec![in alloc; 0u64; hosts]?;
        let Schedule { plays, batches } = schedule;
        let core = RunCore::open(alloc, plays, batches, hosts, forks)?;
        Ok(Machine {
            inventory,
            slots,
            constants,
            fixed,
            facts,
            core,
            batch: None,
            calls,
        })
    }
}
