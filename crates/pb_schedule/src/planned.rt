// What a run of a book that was accepted goes through: its plays with their plans, and its batches.
ghost use Rattle.std.specs.Prelude.{ℕ, ◌<◌, ◌≡◌, All, IfOk, length, map};
ghost use Rattle.pb_language.specs.Book.{Registry};
ghost use Rattle.pb_language.specs.Plays.{program_of};
ghost use Rattle.pb_language.specs.Program.{all_batches};
ghost use Rattle.pb_inventory.specs.Words.{inventory_view};
ghost use Rattle.pb_book.specs.Books.{book_view, plays_of};
ghost use Rattle.pb_play.specs.Words.{is_linear};
ghost use Rattle.pb_batches.specs.Batches.{AreBatchesOf, batch_view};

use pb_batches::{PlayBatch, batches_of};
use pb_core::{Batch, RunPlay, Schedule};
use pb_inventory::PatternFault;
use pb_plan::Plan;
use pb_play::{Play, Strategy};
use pb_slots::Slots;
use pb_start::Prepared;
use pb_steps::PlaySteps;
use pb_verify::Checked;
use std::alloc::{AllocError, Global};

/// What a run of a book that was accepted goes through: its plays with their plans and tasks, its
/// batches, and the slots of its variables.
#[derive(Drop)]
pub struct Planned {
    pub slots: Slots,
    pub schedule: Schedule,
}

impl Planned {
    ghost use Rattle.pb_language.specs.Expression.{Name};
    ghost use Rattle.pb_sig.specs.Modules.{modules_of};
    ghost use Rattle.pb_slots.specs.Words.{names_of_slots};
    ghost use Rattle.pb_steps.specs.Uses.{Among};
    ghost use Rattle.pb_plan.specs.Words.{SomePlayUses};
    ghost use Rattle.pb_core.specs.Words.{AreBatches};
    ghost use Rattle.pb_world.specs.Words.{AreNamed};
    ghost use Rattle.pb_schedule.specs.Schedules.{program_for};

    /// That of a book that was accepted, for its inventory: the plays in the order of the book, and
    /// the batches of each, whose members are places in host order. A variable has a slot where
    /// some step reads, registers or sets it, of whatever host.
    ///
    /// # Errors
    ///
    /// Want of memory.
    pub fn of(alloc: Global, checked: &Checked) -> Result<Planned, AllocError>
        ensures batches { IfOk result (λ p. (name : ℕ → Name)
            → AreNamed name (inventory_view checked.now.inventory).hosts
            → AreBatches name p.schedule.plays.items p.schedule.batches.items
            (all_batches (program_for checked.now))) }
        ensures whole { IfOk result (λ p. (n : Name)
            → SomePlayUses (modules_of checked.now.registry) (book_view checked.now.book) n
            → Among (names_of_slots p.slots) n) }
        ensures sound { IfOk result (λ p. (n : Name) → Among (names_of_slots p.slots) n
            → SomePlayUses (modules_of checked.now.registry) (book_view checked.now.book) n) }
    {
        let plays = checked.book().plays();
        let batches = run_batches(alloc, batches_in(alloc, checked)?)?;
        let plan = Plan::of(alloc, checked)?;
        let plays = run_plays(alloc, plays, plan.plays, plan.tasks)?;
        let schedule = Schedule { plays, batches };
        Ok(Planned {
            slots: plan.slots,
            schedule,
        })
    }
}

// The batches of what was accepted: each word of its patterns names a group or a host (V06).
fn batches_in(alloc: Global, checked: &Checked) -> Result<Vec<PlayBatch>, AllocError>
    ensures batches { IfOk result (λ bs. (ms : Registry)
        → AreBatchesOf ms (inventory_view checked.now.inventory) (plays_of checked.now.book)
        bs.items (all_batches (program_of ms (inventory_view checked.now.inventory)
        (book_view checked.now.book)))) }
    ensures hosts { IfOk result (λ bs. All (λ b. All
        (λ h. h < length (inventory_view checked.now.inventory).hosts) b.members.items)
        bs.items) }
{
    // Its contract says that what is `checked` was accepted.
    let _budget = checked.budget();
    let plays = checked.book().plays();
    match batches_of(alloc, checked.inventory(), plays) {
        Ok(batches) => Ok(batches),
        Err(PatternFault::NoMemory) => Err(AllocError),
        Err(PatternFault::Unknown) => unreachable!(),
    }
}

// The plays as they run, each with its plan and the tasks of its steps.
fn run_plays(
    alloc: Global,
    plays: &[Play],
    plans: Vec<PlaySteps>,
    tasks: Vec<Vec<Prepared>>,
) -> Result<Vec<RunPlay>, AllocError>
    requires plans { length plans.items ≡ length plays.now }
    requires tasks { length tasks.items ≡ length plays.now }
    ensures plans { IfOk result (λ rs. map (λ r. r.plan) rs.items ≡ plans.items) }
    ensures tasks { IfOk result (λ rs. map (λ r. r.tasks) rs.items ≡ tasks.items) }
    ensures linear { IfOk result (λ rs. map (λ r. r.is_linear) rs.items
        ≡ map (λ p. is_linear p.strategy) plays.now) }
{
    let mut run = Vec::with_capacity(alloc, plays.len())?;
    for ((play, plan), tasks) in plays.iter().zip(plans).zip(tasks) {
        run.push(RunPlay {
            plan,
            tasks,
            is_linear: play.strategy == Strategy::Linear,
        })?;
    }
    Ok(run)
}

fn run_batches(alloc: Global, batches: Vec<PlayBatch>) -> Result<Vec<Batch>, AllocError>
    ensures { IfOk result (λ bs. map (λ b. (b.play, b.members.items)) bs.items
        ≡ map batch_view batches.items) }
{
    let mut run = Vec::with_capacity(alloc, batches.len())?;
    for batch in batches {
        let PlayBatch { play, members } = batch;
        run.push(Batch { play, members })?;
    }
    Ok(run)
}
