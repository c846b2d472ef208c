// The machine of a run: where each host stands, and what it holds.
ghost use Rattle.std.proofs.Props.{props};
ghost use Rattle.std.specs.Prelude.{◌≡◌, IfSome, length};
ghost use Rattle.pb_inventory.specs.Words.{inventory_view};
ghost use Rattle.pb_slots.specs.Words.{names_of_slots};

use crate::active::ActiveBatch;
use crate::job::Call;
use pb_core::RunCore;
use pb_facts::Facts;
use pb_finish::Fixed;
use pb_inventory::Inventory;
use pb_slots::Slots;
use pb_start::Pass;
use pb_world::Constants;

/// Where each host of a run stands, what it holds, and how many calls were handed out to it.
/// Contracts say of which states of pb_machine's machine that holds.
#[derive(Drop)]
pub struct Machine<'c> {
    pub inventory: &'c Inventory,
    pub slots: Slots,
    pub constants: Constants,
    pub fixed: Fixed,
    pub facts: Facts,
    pub core: RunCore<Vec<Pass>>,
    /// The active hosts of the batch that runs, unless they changed since they were looked for.
    pub batch: Option<ActiveBatch>,
    /// Of each host how many calls were handed out to it.
    pub calls: Vec<u64>,
    /// There is a row of slots for each host.
    ghost each_host: { facts.hosts ≡ length (inventory_view inventory.now).hosts },
    /// There is an entry for each slot.
    ghost each_slot: { facts.slots ≡ length (names_of_slots slots) },
    /// Each host has its constants.
    ghost each_constant: { length constants.hosts.items
        ≡ length (inventory_view inventory.now).hosts },
    /// Of each active host is known whether it is.
    ghost each_active: { IfSome batch (λ b.
        b.hosts.hosts ≡ length (inventory_view inventory.now).hosts) } by { Prim.hlevel props },
    /// The core has a place for each host.
    ghost each_place: { length core.hosts.items ≡ length (inventory_view inventory.now).hosts },
    /// The calls of each host are counted.
    ghost each_count: { length calls.items ≡ length (inventory_view inventory.now).hosts },
}

/// What becomes of a host's job by its answers.
#[derive(Drop)]
pub enum Answered {
    /// The task has ended.
    Done,
    /// These calls are made once more.
    Again(Vec<Call>),
}
