// Events of a run that happen again, where they can.
ghost use Rattle.std.specs.Prelude.{[], ◌≡◌, IfErr, IfOk, OnErr, OnOk, map};
ghost use Rattle.pb_language.specs.Machine as machine;
ghost use Rattle.pb_finish.specs.Words.{answer_data};
ghost use Rattle.pb_run.specs.Calls.{StaysRecorded};
ghost use Rattle.pb_run.specs.Faults.{Faults};
ghost use Rattle.pb_run.specs.Follows.{Follows, event_view, why_of};

use crate::event::Event;
use crate::recorded::RecordedMachine;
use pb_core::CoreFault;
use pb_finish::Answer;
use std::alloc::{AllocError, Global};

impl RecordedMachine<'_> {
    /// The event happens, where it can; else nothing does.
    ///
    /// # Errors
    ///
    /// Want of memory; `NotThere` where a task sets a variable that has no slot; `Full` where a
    /// count has no room. Nothing has happened then.
    pub fn follow(&mut self, event: &Event) -> Result<(), CoreFault>
        ensures follows { OnOk result (Follows (event_view event.now) self.old self.new) }
        ensures err { OnErr result (StaysRecorded self.old self.new) }
        ensures faults { IfErr result (λ e. Faults e self.old) }
    {
        match event {
            Event::Start(host) => self.follow_start(*host),
            Event::Give(host, answers) => self.follow_give(*host, answers),
            Event::Turn => self.follow_turn(),
            Event::Stop => {
                self.stop();
                Ok(())
            }
        }
    }

    fn follow_start(&mut self, host: usize) -> Result<(), CoreFault>
        ensures follows { OnOk result (Follows (machine.start host, []) self.old self.new) }
        ensures err { OnErr result (StaysRecorded self.old self.new) }
        ensures faults { IfErr result (λ e. Faults e self.old) }
    {
        if self.is_stopped {
            return Ok(());
        }
        if !self.machine.core.can_start(host) {
            return Ok(());
        }
        let _job = self.begin(host)?;
        Ok(())
    }

    fn follow_give(&mut self, host: usize, answers: &[Answer]) -> Result<(), CoreFault>
        ensures follows { OnOk result (Follows
            (machine.give host (map answer_data answers.now), map why_of answers.now)
            self.old self.new) }
        ensures err { OnErr result (StaysRecorded self.old self.new) }
        ensures faults { IfErr result (λ e. Faults e self.old) }
    {
        if self.is_stopped {
            return Ok(());
        }
        let Some(ticket) = self.ticket_of(host) else {
            return Ok(());
        };
        let copies = copies_of(*self.history.allocator(), answers)?;
        match self.record(host, ticket, copies) {
            Ok(_given) => Ok(()),
            Err((fault, _copies)) => Err(fault),
        }
    }

    fn follow_turn(&mut self) -> Result<(), CoreFault>
        ensures follows { OnOk result (Follows (machine.turn, []) self.old self.new) }
        ensures err { OnErr result (StaysRecorded self.old self.new) }
        ensures faults { IfErr result (λ e. Faults e self.old) }
    {
        if !self.machine.core.can_turn() {
            return Ok(());
        }
        self.history.reserve(2)?;
        self.machine.turn()?;
        self.history.push_reserved(Event::Turn);
        Ok(())
    }
}

fn copies_of(alloc: Global, answers: &[Answer]) -> Result<Vec<Answer>, AllocError>
    ensures same { IfOk result (λ copies. map answer_data copies.items
        ≡ map answer_data answers.now) }
    ensures whys { IfOk result (λ copies. map why_of copies.items ≡ map why_of answers.now) }
{
    let mut copies = Vec::with_capacity(alloc, answers.len())?;
    for answer in answers {
        copies.push(match answer {
            Answer::Object(value) => Answer::Object(value.clone()?),
            Answer::Unreachable => Answer::Unreachable,
            Answer::Broken(why) => Answer::Broken(*why),
        })?;
    }
    Ok(copies)
}
