// The run behind a board's lock.
ghost use Rattle.std.specs.Prelude.{◌++◌, ◌≡◌, IfErr, IfOk, OnErr, OnOk};
ghost use Rattle.pb_run.specs.Recorded.{stop_events};
ghost use Rattle.pb_executor.specs.Words.{GivesRun, TakesRun, state_of};
ghost use Rattle.pb_pool.specs.Jobs.{IsRuledGive, IsRuledTake, IsWithinBudget};
ghost use Rattle.pb_pool.specs.Kept.{AllTold, IsKept};
ghost use Rattle.pb_pool.specs.Seats.{calls_of_given as again_calls};
ghost use Rattle.pb_pool.specs.Seats.{calls_of_taken as taken_calls, given_more, taken_more};

use crate::rule::Rule;
use crate::seat::Seat;
use pb_executor::{GiveError, Run};
use pb_finish::Answer;
use pb_jobs::Job;
use pb_run::{Given, Taken};
use std::alloc::AllocError;
use std::marker::{Model, PhantomData};
use std::sync::ledger::{Book, Ledger, Share};

// The run, of which contracts see what they see of a run; how many events it was opened with; and
// the books of the calls that were handed out, and of the jobs that were answered, since then.
#[derive(Drop)]
pub(crate) struct SharedRun<'c, C: Ledger, G: Ledger, P: Rule> {
    run: Run<'c>,
    opened: usize,
    calls: Book<C>,
    gives: Book<G>,
    rule: PhantomData<P>,
}

impl<'c, C: Ledger, G: Ledger, P: Rule> Model for SharedRun<'c, C, G, P> {
    ghost use Rattle.pb_executor.specs.States.{RunState};
    ghost use Rattle.pb_pool.specs.Kept.{IsKept};
    ghost use Rattle.pb_inventory.specs.contracts.inventory.Inventory as inventory;
    ghost use Rattle.pb_value.specs.contracts.value.Value as value;
    ghost use Rattle.pb_kind.specs.contracts.kind.Kind as kind;
    ghost use Rattle.pb_syntax.specs.contracts.expr.Expr as expr;
    ghost use Rattle.pb_play.specs.contracts.play.Step as step;
    ghost use Rattle.std.specs.Coded.{codes};
    ghost use Rattle.std_collections.specs.Layout.BTreeMap.{btree_map_code};
    ghost use Rattle.std_collections.specs.Layout.HashMap.{hash_map_code};

    ghost Value = { RunState };

    ghost coded = { Prim.hlevel (
      codes,
      btree_map_code,
      hash_map_code,
      inventory.the_row.coded,
      value.the_row.coded,
      kind.the_row.coded,
      expr.the_row.coded,
      step.the_row.coded,
    ) };

    ghost view = { λ a. a.run };

    ghost invariant = { λ a. IsKept P.of P.told a.opened a.calls.total a.gives.total a.run };
}

impl<'c, C: Ledger, G: Ledger, P: Rule> SharedRun<'c, C, G, P> {
    // Opened with all that has happened in the run.
    pub(crate) fn open(run: Run<'c>, calls: Book<C>, gives: Book<G>) -> SharedRun<'c, C, G, P>
        requires books { (calls.total ≡ 0) × (gives.total ≡ 0) }
        requires of { P.of run.accepted run.forks run.history }
        requires told { AllTold P.told run.history }
        ensures { result ≡ run.entry }
    {
        let opened = run.history().len();
        SharedRun {
            run,
            opened,
            calls,
            gives,
            rule: PhantomData,
        }
    }

    // The run, to whoever has every part of both ledgers.
    pub(crate) fn close(self, calls: &mut Share<C>, gives: &mut Share<G>) -> Run<'c>
        requires { (calls.old.parts ≡ C.parts) × (gives.old.parts ≡ G.parts) }
        ensures run { result ≡ self.entry }
        ensures kept { (opened : _)
            × IsKept P.of P.told opened calls.old.amount gives.old.amount result }
    {
        let mut shared = self;
        shared.calls.audit(calls);
        shared.gives.audit(gives);
        let SharedRun {
            run,
            opened: _,
            calls: _,
            gives: _,
            rule: _,
        } = shared;
        run
    }

    // What there is to do. The calls that are handed out count for the seat.
    pub(crate) fn take(&mut self, seat: &mut Seat<C, G>) -> Result<Taken, AllocError>
        ensures takes { IfOk result (λ t. TakesRun t self.old self.new) }
        ensures ruled { IfOk result (λ t. IsRuledTake P.of t) }
        ensures seat { IfOk result (λ t. seat.new ≡ taken_more t seat.old) }
        ensures few { OnOk result (IsWithinBudget P.of seat.new.handed) }
        ensures err { OnErr result ((self.new ≡ self.old) × (seat.new ≡ seat.old)) }
    {
        // What is handed out is within the budget, which fits 64 bits.
        let _budget = self.run.budget();
        let taken = self.run.take()?;
        seat.count_calls(&mut self.calls, calls_of_taken(&taken));
        Ok(taken)
    }

    // The answers to a job. Where the run takes them the job counts for the seat, and the calls
    // that are handed out once more do.
    pub(crate) fn give(
        &mut self,
        seat: &mut Seat<C, G>,
        job: Job,
        answers: Vec<Answer>,
    ) -> Result<Given, (GiveError, Job, Vec<Answer>)>
        requires { P.told job.ticket job.host answers.items }
        ensures gives { IfOk result
            (λ g. GivesRun job.host job.ticket answers g self.old self.new) }
        ensures ruled { IfOk result (λ g. IsRuledGive P.of g) }
        ensures seat { IfOk result (λ g. seat.new ≡ given_more g seat.old) }
        ensures few { OnOk result (IsWithinBudget P.of seat.new.handed) }
        ensures err { OnErr result ((self.new ≡ self.old) × (seat.new ≡ seat.old)) }
        ensures back { IfErr result (λ e. (e.1 ≡ job) × (e.2 ≡ answers)) }
    {
        // What is handed out is within the budget, which fits 64 bits.
        let _budget = self.run.budget();
        let answered = self.run.give(job, answers)?;
        seat.count_give(&mut self.gives);
        seat.count_calls(&mut self.calls, calls_of_given(&answered));
        Ok(answered)
    }

    // Stops the run; nothing where it is stopped or has ended.
    pub(crate) fn stop(&mut self)
        ensures { self.new ≡ record self.old {
          history = self.old.history ++ stop_events (state_of self.old);
        } }
    {
        self.run.stop();
        // Its contract says that the run is sound.
        let _events = self.run.history().len();
    }
}

// How many calls are handed out with it.
fn calls_of_taken(taken: &Taken) -> u64
    ensures { result ≡ taken_calls taken.now }
{
    match taken {
        Taken::Job(job) => job.calls.len() as u64,
        Taken::Idle | Taken::Finished | Taken::Stopped => 0,
    }
}

// How many calls are handed out once more.
fn calls_of_given(given: &Given) -> u64
    ensures { result ≡ again_calls given.now }
{
    match given {
        Given::Done => 0,
        Given::Again(job) => job.calls.len() as u64,
    }
}
