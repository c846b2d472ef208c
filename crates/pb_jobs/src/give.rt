// What the answers to a host's job make of the machine of a run.
ghost use Rattle.std.specs.Prelude.{◌≡◌, IfErr, IfOk, IsSome, None, OnErr, OnOk, Some, cond};
ghost use Rattle.std.specs.Prelude.{length, map, not, slice_set};
ghost use Rattle.pb_core.specs.Entries.{IsHere};
ghost use Rattle.pb_core.specs.Words.{tickets_of};
ghost use Rattle.pb_finish.specs.Words.{answer_data};
ghost use Rattle.pb_jobs.specs.Faults.{AgainPast, CannotAgain, CannotGive, CannotLeave};
ghost use Rattle.pb_jobs.specs.Faults.{CannotSettle, GivesPast, IsCounted};
ghost use Rattle.pb_jobs.specs.Machines.{AgainAs, CountsMore, CountsNone, GivesAs, IsSameBut};
ghost use Rattle.pb_jobs.specs.Machines.{LeavesAs, SettlesAs, calls_after, ticket_after};

use crate::active::ActiveBatch;
use crate::finish::Finished;
use crate::job::Call;
use crate::machine::{Answered, Machine};
use crate::share::shared_values;
use pb_core::{CoreFault, RunCore, TaskOutcome};
use pb_finish::Answer;
use pb_position::Location;
use pb_start::Pass;
use pb_value::Value;
use pb_world::{slots_of_writes, write_all};
use std::alloc::Global;

impl Machine<'_> {
    /// The host's job is answered: its task ends, or the calls are made once more, under that
    /// ticket.
    ///
    /// # Errors
    ///
    /// Want of memory; `NotThere` where no job of the host is out, or where the task sets a
    /// variable that has no slot; `Full` where a count has no room. Nothing has happened then.
    pub fn give(
        &mut self,
        alloc: Global,
        host: usize,
        answers: &[Answer],
        ticket: usize,
    ) -> Result<Answered, CoreFault>
        ensures gives { IfOk result
            (λ a. GivesAs host (map answer_data answers.now) a self.old self.new) }
        ensures tickets { IfOk result (λ a. tickets_of self.new.core
            ≡ slice_set (tickets_of self.old.core) host (ticket_after ticket a)) }
        ensures counts { IfOk result (λ a. CountsMore host (calls_after a) self.old self.new) }
        ensures err { OnErr result (IsSameBut self.old self.new) }
        ensures there { IfErr result (λ e. e ≡ CoreFault.NotThere
            → CannotGive host (map answer_data answers.now) self.old) }
        ensures full { IfErr result (λ e. e ≡ CoreFault.Full
            → GivesPast host (map answer_data answers.now) self.old) }
    {
        self.look(alloc)?;
        let Some(batch) = &self.batch else {
            unreachable!()
        };
        let finished = self.scene(&self.core, batch).finish(alloc, host, answers)?;
        match finished {
            Finished::Left { is_reached } => {
                self.leave(host, is_reached)?;
                Ok(Answered::Done)
            }
            Finished::Again => {
                let calls = self.again(alloc, host, ticket)?;
                Ok(Answered::Again(calls))
            }
            Finished::Ended { outcome, writes } => {
                self.settle(alloc, host, outcome, writes)?;
                Ok(Answered::Done)
            }
        }
    }

    // The host leaves its play.
    fn leave(&mut self, host: usize, is_reached: bool) -> Result<(), CoreFault>
        ensures leaves { OnOk result (LeavesAs host is_reached self.old self.new) }
        ensures tickets { OnOk result (tickets_of self.new.core
            ≡ slice_set (tickets_of self.old.core) host None) }
        ensures counts { CountsNone self.old self.new }
        ensures err { OnErr result (IsSameBut self.old self.new) }
        ensures there { IfErr result (λ e. e ≡ CoreFault.NotThere → CannotLeave host self.old) }
        ensures full { IfErr result (λ e. e ≡ CoreFault.Full → IsCounted host self.old) }
    {
        self.core.leave(host, is_reached)?;
        self.batch = None;
        Ok(())
    }

    // The calls of the host's job are made once more.
    fn again(&mut self, alloc: Global, host: usize, ticket: usize) -> Result<Vec<Call>, CoreFault>
        requires { IsSome self.old.batch }
        ensures repeats { IfOk result (λ cs. AgainAs host cs.items self.old self.new) }
        ensures tickets { OnOk result (tickets_of self.new.core
            ≡ slice_set (tickets_of self.old.core) host (Some ticket)) }
        ensures counts { IfOk result (λ cs. CountsMore host (length cs.items) self.old self.new) }
        ensures err { OnErr result (IsSameBut self.old self.new) }
        ensures there { IfErr result (λ e. e ≡ CoreFault.NotThere → CannotAgain host self.old) }
        ensures full { IfErr result (λ e. e ≡ CoreFault.Full → AgainPast host self.old) }
    {
        let Some(batch) = &self.batch else {
            unreachable!()
        };
        let calls = self.scene(&self.core, batch).calls_again(alloc, host)?;
        let Some(total) = self.total(host, calls.len()) else {
            return Err(CoreFault::Full);
        };
        self.core.again(host, ticket)?;
        self.calls[host] = total;
        Ok(calls)
    }

    // The host's task ended so, and the host goes on.
    fn settle(
        &mut self,
        alloc: Global,
        host: usize,
        outcome: TaskOutcome,
        writes: Vec<(String, Value)>,
    ) -> Result<(), CoreFault>
        ensures settles { OnOk result (SettlesAs host outcome writes.items self.old self.new) }
        ensures tickets { OnOk result (tickets_of self.new.core
            ≡ slice_set (tickets_of self.old.core) host None) }
        ensures counts { CountsNone self.old self.new }
        ensures err { OnErr result (IsSameBut self.old self.new) }
        ensures there { IfErr result (λ e. e ≡ CoreFault.NotThere
            → CannotSettle host outcome writes.items self.old) }
        ensures full { IfErr result (λ e. e ≡ CoreFault.Full → IsCounted host self.old) }
    {
        if host >= self.inventory.hosts() {
            return Err(CoreFault::NotThere);
        }
        let Some(placed) = slots_of_writes(alloc, &self.slots, writes)? else {
            return Err(CoreFault::NotThere);
        };
        let placed = shared_values(&self.facts, host, placed)?;
        self.core.settle(host, outcome)?;
        forget(&mut self.batch, has_left(&self.core, host));
        write_all(&mut self.facts, host, placed);
        Ok(())
    }
}

// Whether the host has left its play.
fn has_left(core: &RunCore<Vec<Pass>>, host: usize) -> bool
    ensures { IsHere core.now.hosts.items host (not result) }
{
    let hosts = core.hosts();
    if host >= hosts.len() {
        return true;
    }
    match hosts[host].position.location() {
        Location::End => false,
        Location::Left => true,
        Location::Node(_) => false,
    }
}

// The active hosts aren't known any more where one of them left.
fn forget(batch: &mut Option<ActiveBatch>, has_left: bool)
    ensures { batch.new ≡ cond has_left None batch.old }
{
    if has_left {
        *batch = None;
    }
}
