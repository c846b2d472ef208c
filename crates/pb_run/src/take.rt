// What there is to do in a run, and the jobs that it hands out.
ghost use Rattle.std.specs.Prelude.{◌+◌, ◌++◌, ◌≡◌, ◌≤◌, IfErr, IfOk, OnErr, OnOk, cond, false};
ghost use Rattle.std.specs.Prelude.{length, replicate, true, vec_capacity};
ghost use Rattle.pb_core.specs.Words.{CanStart, CanTurn};
ghost use Rattle.pb_run.specs.Calls.{StaysRecorded, Takes, TakesSome};
ghost use Rattle.pb_run.specs.Faults.{Faults};
ghost use Rattle.pb_run.specs.Starts.{StartsJob};
ghost use Rattle.pb_run.specs.Turned.{FaultsBehind, GoesOnBehind, IsNotRecorded, StartsBehind};
ghost use Rattle.pb_run.specs.Turned.{TakesBehind};

use crate::event::{Event, Taken};
use crate::recorded::RecordedMachine;
use pb_core::CoreFault;
use pb_jobs::Job;
use std::alloc::AllocError;

impl RecordedMachine<'_> {
    /// What there is to do, once the Turns that are due have happened: the job of the ready host
    /// with the lowest place, ties by host order, or why there is none.
    ///
    /// # Errors
    ///
    /// Want of memory, where a Turn or a Start is to be recorded; `Full` where a count has no room.
    /// Nothing has happened then, no Turn either.
    pub fn take(&mut self) -> Result<Taken, CoreFault>
        ensures takes { IfOk result (λ t. Takes t self.old self.new) }
        ensures err { OnErr result (StaysRecorded self.old self.new) }
        ensures memory { OnErr result (TakesSome self.old) }
        ensures faults { IfErr result (λ e. Faults e self.old) }
    {
        if self.is_stopped {
            return Ok(Taken::Stopped);
        }
        if self.machine.core.can_turn() {
            return self.take_turned();
        }
        match self.machine.core.ready() {
            Some(host) => {
                let job = self.begin(host)?;
                Ok(Taken::Job(job))
            }
            None => Ok(resting(self.machine.core.has_ended())),
        }
    }

    // The Turns that are due happen, and then a task starts where one can.
    fn take_turned(&mut self) -> Result<Taken, CoreFault>
        requires going { self.old.is_stopped ≡ false }
        requires due { CanTurn self.old.machine.core true }
        ensures takes { IfOk result (λ t. Takes t self.old self.new) }
        ensures err { OnErr result (StaysRecorded self.old self.new) }
        ensures faults { IfErr result (λ e. Faults e self.old) }
    {
        let turned = self.machine.turn_all()?;
        match self.take_behind(turned.turns) {
            Ok(taken) => Ok(taken),
            Err(fault) => {
                self.machine.turn_back(turned);
                Err(fault)
            }
        }
    }

    // So many Turns have happened: they are recorded, and then a task starts where one can.
    fn take_behind(&mut self, turns: usize) -> Result<Taken, CoreFault>
        requires { self.old.is_stopped ≡ false }
        ensures takes { IfOk result (λ t. TakesBehind turns t self.old self.new) }
        ensures err { OnErr result (IsNotRecorded self.old self.new) }
        ensures faults { IfErr result (λ e. FaultsBehind turns e self.old) }
    {
        match self.machine.core.ready() {
            Some(host) => {
                let job = self.begin_behind(turns, host)?;
                Ok(Taken::Job(job))
            }
            None => {
                let has_ended = self.machine.core.has_ended();
                self.record_turns(turns)?;
                Ok(resting(has_ended))
            }
        }
    }

    // The host's task begins, which may.
    pub(crate) fn begin(&mut self, host: usize) -> Result<Job, CoreFault>
        requires going { self.old.is_stopped ≡ false }
        requires ready { CanStart host self.old.machine.core true }
        ensures starts { IfOk result (λ j. StartsJob 0 host j self.old self.new) }
        ensures err { OnErr result (StaysRecorded self.old self.new) }
        ensures faults { IfErr result (λ e. Faults e self.old) }
    {
        let alloc = *self.history.allocator();
        let ticket = self.history.len();
        self.history.reserve(2)?;
        let calls = self.machine.begin(alloc, host, ticket)?;
        self.history.push_reserved(Event::Start(host));
        Ok(Job {
            ticket,
            host,
            calls,
        })
    }

    // So many Turns have happened: they are recorded, and the host's task begins, which may.
    fn begin_behind(&mut self, turns: usize, host: usize) -> Result<Job, CoreFault>
        requires going { self.old.is_stopped ≡ false }
        requires ready { CanStart host self.old.machine.core true }
        ensures starts { IfOk result (λ j. StartsBehind turns host j self.old self.new) }
        ensures err { OnErr result (IsNotRecorded self.old self.new) }
        ensures faults { IfErr result (λ e. FaultsBehind turns e self.old) }
    {
        let alloc = *self.history.allocator();
        make_room(&mut self.history, turns)?;
        let ticket = self.history.len() + turns;
        let calls = self.machine.begin(alloc, host, ticket)?;
        push_turns(&mut self.history, turns);
        self.history.push_reserved(Event::Start(host));
        Ok(Job {
            ticket,
            host,
            calls,
        })
    }

    // So many Turns have happened: they are recorded.
    fn record_turns(&mut self, turns: usize) -> Result<(), AllocError>
        requires { self.old.is_stopped ≡ false }
        ensures goes { OnOk result (GoesOnBehind turns self.old self.new) }
        ensures err { OnErr result (IsNotRecorded self.old self.new) }
    {
        make_room(&mut self.history, turns)?;
        push_turns(&mut self.history, turns);
        Ok(())
    }
}

// Why nothing can be started.
fn resting(has_ended: bool) -> Taken
    ensures { result ≡ cond has_ended Taken.Finished Taken.Idle }
{
    if has_ended {
        Taken::Finished
    } else {
        Taken::Idle
    }
}

// Makes room for so many events, for one more, and for a Stop.
fn make_room(history: &mut Vec<Event>, events: usize) -> Result<(), AllocError>
    ensures items { history.new.items ≡ history.old.items }
    ensures ok { OnOk result (length history.old.items + events + 2 ≤ vec_capacity history.new) }
    ensures kept { vec_capacity history.old ≤ vec_capacity history.new }
{
    history.reserve(events.saturating_add(2))?;
    Ok(())
}

// So many Turns happened.
fn push_turns(history: &mut Vec<Event>, turns: usize)
    requires { length history.old.items + turns ≤ vec_capacity history.old }
    ensures items { history.new.items ≡ history.old.items ++ replicate turns Event.Turn }
    ensures capacity { vec_capacity history.new ≡ vec_capacity history.old }
{
    for _turn in 0..turns {
        history.push_reserved(Event::Turn);
    }
}
