// How a run is opened and stopped.
ghost use Rattle.std.specs.Prelude.{[], ◌≡◌, IfErr, IfOk};
ghost use Rattle.pb_jobs.specs.Faults.{OpensNot};
ghost use Rattle.pb_run.specs.Recorded.{Opens, Stops};

use crate::event::Event;
use crate::recorded::RecordedMachine;
use pb_core::{CoreFault, Schedule};
use pb_inventory::Inventory;
use pb_jobs::Machine;
use pb_slots::Slots;
use std::alloc::Global;

impl<'c> RecordedMachine<'c> {
    /// A run of that schedule over the hosts of the inventory, in which nothing has happened yet.
    /// At most `forks` hosts have a job out at one time.
    ///
    /// # Errors
    ///
    /// Want of memory; `NotThere` where the first batch is of no play.
    pub fn open(
        alloc: Global,
        inventory: &'c Inventory,
        slots: Slots,
        schedule: Schedule,
        forks: usize,
    ) -> Result<RecordedMachine<'c>, CoreFault>
        ensures opens { IfOk result (Opens inventory.now slots schedule forks) }
        ensures none { IfOk result (λ m. m.history.items ≡ []) }
        ensures err { IfErr result (OpensNot schedule) }
    {
        let history = Vec::with_capacity(alloc, 1)?;
        let machine = Machine::open(alloc, inventory, slots, schedule, forks)?;
        Ok(RecordedMachine {
            machine,
            history,
            is_stopped: false,
        })
    }

    /// Stops the run; nothing where it is stopped or has ended. There is always room for this
    /// event.
    pub fn stop(&mut self)
        ensures { Stops self.old self.new }
    {
        if self.is_stopped {
            return;
        }
        if self.machine.core.has_ended() {
            return;
        }
        self.machine.stop();
        self.history.push_reserved(Event::Stop);
        self.is_stopped = true;
    }
}
