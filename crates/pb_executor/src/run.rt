// The run of a book that was accepted.
ghost use Rattle.std.specs.Prelude.{◌++◌, ◌<◌, ◌^◌, ◌≡◌, IfErr, IfOk, OnErr, OnOk, Some};
ghost use Rattle.std.specs.Prelude.{get_or, length, option_map, slice_get, true, false, ℕ};
ghost use Rattle.pb_core.specs.Words.{recap_view};
ghost use Rattle.pb_history.specs.Jobs.{is_out_at};
ghost use Rattle.pb_language.specs.Machine.{empty_recap};
ghost use Rattle.pb_inventory.specs.Words.{inventory_view};
ghost use Rattle.pb_run.specs.Follows.{event_view};
ghost use Rattle.pb_run.specs.Recorded.{recaps_in, stop_events};
ghost use Rattle.pb_executor.specs.Drives.{GivesRun, TakesRun};
ghost use Rattle.pb_executor.specs.Sound.{IsSound};
ghost use Rattle.pb_executor.specs.States.{opened, opening_of, state_of};
ghost use Rattle.pb_executor.specs.Refusals.{IsRefusedRun, TakesSomeRun};
ghost use Rattle.pb_executor.specs.Replays.{FollowsRun};

use crate::fault::{GiveError, error_of, refused_by};
use pb_core::Recap;
use pb_finish::Answer;
use pb_jobs::Job;
use pb_run::{Event, Given, RecordedMachine, Taken};
use pb_schedule::Planned;
use pb_verify::Checked;
use std::alloc::{AllocError, Global};
use std::marker::Model;

/// A run of a book that was accepted. Contracts see what was accepted, the fork count and what has
/// happened.
#[derive(Drop)]
pub struct Run<'c> {
    checked: &'c Checked,
    forks: usize,
    recorded: RecordedMachine<'c>,
}

impl<'c> Model for Run<'c> {
    ghost use Rattle.pb_executor.specs.Inside.{IsRun, run_state};
    ghost use Rattle.pb_executor.specs.States.{RunState};
    ghost use Rattle.pb_inventory.specs.contracts.inventory.Inventory as inventory;
    ghost use Rattle.pb_value.specs.contracts.value.Value as value;
    ghost use Rattle.pb_kind.specs.contracts.kind.Kind as kind;
    ghost use Rattle.pb_syntax.specs.contracts.expr.Expr as expr;
    ghost use Rattle.pb_play.specs.contracts.play.Step as step;
    ghost use Rattle.std.specs.Coded.{codes};
    ghost use Rattle.std_collections.specs.Layout.BTreeMap.{btree_map_code};
    ghost use Rattle.std_collections.specs.Layout.HashMap.{hash_map_code};

    ghost Value = { RunState };

    ghost coded = { Prim.hlevel (
      codes,
      btree_map_code,
      hash_map_code,
      inventory.the_row.coded,
      value.the_row.coded,
      kind.the_row.coded,
      expr.the_row.coded,
      step.the_row.coded,
    ) };

    ghost view = { run_state };

    ghost invariant = { IsRun };
}

impl<'c> Run<'c> {
    /// A run in which nothing has happened yet. At most `forks` hosts have a job out at one time.
    ///
    /// # Errors
    ///
    /// Want of memory.
    pub fn open(alloc: Global, checked: &'c Checked, forks: usize) -> Result<Run<'c>, AllocError>
        requires { 0 < forks }
        ensures opened { IfOk result (λ r. r ≡ opened checked.now forks) }
        ensures none_out { IfOk result (λ r. (k : ℕ) → is_out_at k (state_of r) ≡ false) }
    {
        let Planned { slots, schedule } = Planned::of(alloc, checked)?;
        // Its contract says that what is `checked` was accepted.
        let _budget = checked.budget();
        let inventory = checked.inventory();
        match RecordedMachine::open(alloc, inventory, slots, schedule, forks) {
            Ok(recorded) => Ok(Run {
                checked,
                forks,
                recorded,
            }),
            Err(fault) => Err(refused_by(fault)),
        }
    }

    /// What there is to do, once the Turns that are due have happened: the job of the ready host
    /// with the lowest place, ties by host order, or why there is none.
    ///
    /// # Errors
    ///
    /// Want of memory, where a Turn or a Start is to be recorded: nothing has happened then, no
    /// Turn either.
    pub fn take(&mut self) -> Result<Taken, AllocError>
        ensures taken { IfOk result (λ t. TakesRun t self.old self.new) }
        ensures idle { IfOk result (λ t. t ≡ Taken.Idle
            → (k : ℕ) × (is_out_at k (state_of self.new) ≡ true)) }
        ensures err { OnErr result (self.new ≡ self.old) }
        ensures memory { OnErr result (TakesSomeRun self.old) }
        ensures sound { IsSound self.new }
        ensures few { length self.new.history < 2 ^ 63 }
    {
        // What is handed out is within the budget, which fits 64 bits.
        let _budget = self.checked.budget();
        match self.recorded.take() {
            Ok(taken) => Ok(taken),
            Err(fault) => Err(refused_by(fault)),
        }
    }

    /// The answers to a job, in the order of its calls; what stands in the job beside its ticket
    /// and host isn't looked at. The job is done, or its calls are made again.
    ///
    /// # Errors
    ///
    /// `Stopped` where the run is stopped, then `Stranger` where no job of that ticket and host is
    /// out, then want of memory: job and answers come back then, and nothing has happened.
    pub fn give(
        &mut self,
        job: Job,
        answers: Vec<Answer>,
    ) -> Result<Given, (GiveError, Job, Vec<Answer>)>
        ensures given { IfOk result
            (λ g. GivesRun job.host job.ticket answers g self.old self.new) }
        ensures err { OnErr result (self.new ≡ self.old) }
        ensures back { IfErr result (λ e. (e.1 ≡ job) × (e.2 ≡ answers)) }
        ensures refused { IfErr result (λ e. IsRefusedRun e.0 job.host job.ticket self.old) }
        ensures sound { IsSound self.new }
        ensures few { length self.new.history < 2 ^ 63 }
    {
        // What is handed out is within the budget, which fits 64 bits.
        let _budget = self.checked.budget();
        match self.recorded.give(job, answers) {
            Ok(given) => Ok(given),
            Err((fault, job, answers)) => Err((error_of(fault), job, answers)),
        }
    }

    /// Stops the run; nothing where it is stopped or has ended. There is always room for this
    /// event.
    pub fn stop(&mut self)
        ensures { self.new ≡ record self.old {
          history = self.old.history ++ stop_events (state_of self.old);
        } }
    {
        self.recorded.stop();
    }

    // The event happens, where it can; else nothing does.
    pub(crate) fn follow(&mut self, event: &Event) -> Result<(), AllocError>
        ensures { OnOk result (FollowsRun (event_view event.now) self.old self.new) }
    {
        // What is handed out is within the budget, which fits 64 bits.
        let _budget = self.checked.budget();
        match self.recorded.follow(event) {
            Ok(()) => Ok(()),
            Err(fault) => Err(refused_by(fault)),
        }
    }

    /// What has happened, in order. The run is the definitions' run of these events, never stuck
    /// and within the budget.
    pub fn history(&self) -> &[Event]
        ensures value { result.now ≡ self.now.history }
        ensures sound { IsSound self.now }
    {
        self.recorded.history()
    }

    /// The most module calls that it hands out.
    pub fn budget(&self) -> u64
        ensures { result ≡ self.now.accepted.budget }
    {
        self.checked.budget()
    }

    /// Whether it was stopped.
    pub fn is_stopped(&self) -> bool
        ensures { result ≡ (state_of self.now).is_stopped }
    {
        self.recorded.is_stopped()
    }

    /// How many hosts the inventory has.
    pub fn hosts(&self) -> usize
        ensures inventory { result
            ≡ length (inventory_view self.now.accepted.inventory).hosts }
        ensures recaps { result ≡ length (recaps_in (state_of self.now)) }
    {
        self.recorded.hosts()
    }

    /// The name of the host.
    pub fn host_name(&self, host: usize) -> &str
        requires { host < length (inventory_view self.now.accepted.inventory).hosts }
        ensures { option_map (λ h. h.name)
            (slice_get (inventory_view self.now.accepted.inventory).hosts host)
            ≡ Some result.now }
    {
        self.checked.inventory().host_name(host)
    }

    /// What the host's tasks came to so far; zeros past the last host.
    pub fn recap(&self, host: usize) -> Recap
        ensures { recap_view result
            ≡ get_or (recaps_in (state_of self.now)) host empty_recap }
    {
        self.recorded.recap(host)
    }
}
