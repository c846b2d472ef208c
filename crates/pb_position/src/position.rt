// Where a host is on its play's plan, and how it goes on.
ghost use Rattle.std.specs.Prelude.{◌≡◌, ◌<◌, ◌==◌, ◌&&◌, ◌||◌, ◌∷◌, [], ℕ, suc, not, true, false};
ghost use Rattle.std.specs.Prelude.{All, IfOk, OnOk, get_or, length, option_map};
ghost use Rattle.pb_language.specs.Machine.{innermost, is_marked, outermost};
ghost use Rattle.pb_machine.specs.Hosts.{FlatHost, left_play, stands};
ghost use Rattle.pb_flow.specs.Ahead.{is_ahead};
ghost use Rattle.pb_steps.specs.Words.{all_lead_on, lead_on, leads_on};
ghost use Rattle.pb_position.specs.Texts.{text_of, texts_of};
ghost use Rattle.pb_position.specs.Positions.{IsAs, IsAt, handlers_of, location_view};
ghost use Rattle.pb_position.specs.Calls.{Arrives, BeginsPlay, BeginsTask, GoesOn, Moves, Reaches};
ghost use Rattle.pb_position.specs.Calls.{before_plays, emptied_at_end};

use crate::texts::{all_copied, copied, innermost_of};
use pb_flow::{Move, Target};
use pb_steps::Step;
use std::alloc::{AllocError, Global};
use std::sync::Arc;

/// Where a host is on its play's plan.
#[derive(Clone, Copy, PartialEq, Eq, Debug)]
pub enum Location {
    /// Past the play's last task.
    End,
    /// It left the play as failed.
    Left,
    /// At that node, the first of which is 1.
    Node(u32),
}

/// Where a host is on its play's plan, which handlers are notified for it, and the texts of
/// failures that it keeps. Contracts say of which hosts of pb_machine's machine that holds.
#[derive(Drop)]
pub struct Position {
    location: Location,
    // handler by handler whether it is notified
    marks: Vec<bool>,
    failure: Option<Arc<String>>,
    // those that `rescue` parts keep and `always` parts hold, the innermost last
    rescues: Vec<Option<Arc<String>>>,
    holds: Vec<Option<Arc<String>>>,
}

/// What a task came to.
#[derive(Drop)]
pub struct TaskEnd {
    /// It failed, and the failure isn't ignored.
    pub has_failed: bool,
    /// The text of that failure.
    pub text: Option<Arc<String>>,
    /// The handlers that are notified.
    pub notified: Vec<usize>,
}

impl Position {
    /// A host before its first play, of so many handlers: it is past the end, with nothing
    /// notified and no text of a failure.
    ///
    /// # Errors
    ///
    /// Want of memory.
    pub fn new(alloc: Global, handlers: usize) -> Result<Position, AllocError>
        ensures host { IfOk result (λ p. (h : FlatHost) → IsAt p (before_plays h)) }
        ensures handlers { IfOk result (λ p. handlers_of p ≡ handlers) }
    {
        let position = Position::empty(alloc, handlers, None)?;
        Ok(position)
    }

    /// Where the host is.
    pub fn location(&self) -> Location
        ensures { (h : FlatHost) → IsAt self.now h → h.stage ≡ stands (location_view result) }
    {
        self.location
    }

    /// The text of the last failure; none stands for the empty one.
    pub fn failure(&self) -> Option<&Arc<String>>
        ensures { (h : FlatHost) → IsAs self.now h
            → text_of (option_map (λ t. t.now) result) ≡ h.failure }
    {
        self.failure.as_ref()
    }

    /// The text that the innermost of so many open `rescue` parts keeps; none stands for the empty
    /// one, which is also that of no part.
    pub fn rescued_text(&self, depth: usize) -> Option<&Arc<String>>
        ensures { (h : FlatHost) → IsAs self.now h → text_of (option_map (λ t. t.now) result)
            ≡ innermost (outermost depth h.rescues) }
    {
        innermost_of(&self.rescues, depth)
    }

    /// Where the host is once a play of so many handlers begins for it, at that target: nothing is
    /// notified, and of the texts the last failure's stays.
    ///
    /// # Errors
    ///
    /// Want of memory.
    pub fn begin(
        &self,
        alloc: Global,
        steps: &[Step],
        begin: &Target,
        handlers: usize,
    ) -> Result<Position, AllocError>
        requires leads { all_lead_on begin.now steps.now ≡ true }
        ensures host { IfOk result (λ p. BeginsPlay steps.now begin.now self.now p) }
        ensures handlers { IfOk result (λ p. handlers_of p ≡ handlers) }
    {
        let failure = copied(self.failure.as_ref())?;
        let mut position = Position::empty(alloc, handlers, failure)?;
        position.arrive(steps, begin)?;
        Ok(position)
    }

    /// Where the host is after the task of the step, which came to that end: the handlers are
    /// notified, and a failure's text is the last one; the host goes where the step leads, past
    /// the handlers that aren't notified. This position stays as it was.
    ///
    /// # Errors
    ///
    /// Want of memory.
    pub fn go_on(&self, steps: &[Step], step: &Step, end: TaskEnd) -> Result<Position, AllocError>
        requires step { leads_on (suc (length steps.now)) 0 step.now ≡ true }
        requires leads { lead_on (suc (length steps.now)) 1 steps.now ≡ true }
        requires marks { All (λ n. n < handlers_of self.now) end.notified.items }
        ensures host { IfOk result (λ p. GoesOn steps.now step.now end self.now p) }
        ensures handlers { IfOk result (λ p. handlers_of p ≡ handlers_of self.now) }
    {
        let TaskEnd {
            has_failed,
            text,
            notified,
        } = end;
        let mut position = self.copy()?;
        position.mark(&notified);
        if has_failed {
            position.failure = text;
            position.arrive(steps, &step.failed)?;
            Ok(position)
        } else {
            position.arrive(steps, &step.ok)?;
            Ok(position)
        }
    }

    /// The host leaves the play, as after an answer that breaks its module's word, or none.
    pub fn leave(&mut self)
        ensures host { (h : FlatHost) → IsAs self.old h
            → IsAt self.new (record h { stage = stands left_play }) }
        ensures handlers { handlers_of self.new ≡ handlers_of self.old }
    {
        self.location = Location::Left;
    }

    /// Another position that is the same, with the same texts.
    ///
    /// # Errors
    ///
    /// Want of memory.
    pub fn copy(&self) -> Result<Position, AllocError>
        ensures same { IfOk result (λ p. (h : FlatHost) → IsAs self.now h → IsAs p h) }
        ensures stands { IfOk result (λ p. (h : FlatHost) → IsAt self.now h → IsAt p h) }
        ensures handlers { IfOk result (λ p. handlers_of p ≡ handlers_of self.now) }
    {
        let marks = self.marks.clone()?;
        let failure = copied(self.failure.as_ref())?;
        let rescues = all_copied(&self.rescues)?;
        let holds = all_copied(&self.holds)?;
        Ok(Position {
            location: self.location,
            marks,
            failure,
            rescues,
            holds,
        })
    }

    // Past the end, with nothing notified, nothing kept or held, and that text of the last failure.
    fn empty(
        alloc: Global,
        handlers: usize,
        failure: Option<Arc<String>>,
    ) -> Result<Position, AllocError>
        ensures host { IfOk result (λ p. (h : FlatHost) → text_of failure ≡ h.failure
            → IsAt p (emptied_at_end h)) }
        ensures handlers { IfOk result (λ p. handlers_of p ≡ handlers) }
    {
        let marks = vec![in alloc; false; handlers]?;
        Ok(Position {
            location: Location::End,
            marks,
            failure,
            rescues: Vec::new(alloc),
            holds: Vec::new(alloc),
        })
    }

    // Goes where the target leads, past the handlers that aren't notified.
    fn arrive(&mut self, steps: &[Step], target: &Target) -> Result<(), AllocError>
        requires ahead { is_ahead 0 (suc (length steps.now)) target.now.to ≡ true }
        requires leads { lead_on (suc (length steps.now)) 1 steps.now ≡ true }
        ensures host { OnOk result (Arrives steps.now target.now self.old self.new) }
        ensures handlers { OnOk result (handlers_of self.new ≡ handlers_of self.old) }
    {
        self.make(&target.moves)?;
        self.reach(steps, target.to)?;
        Ok(())
    }

    // Goes to the step of that node, or past it where it is a handler that isn't notified.
    fn reach(&mut self, steps: &[Step], first: Option<u32>) -> Result<(), AllocError>
        requires ahead { is_ahead 0 (suc (length steps.now)) first ≡ true }
        requires leads { lead_on (suc (length steps.now)) 1 steps.now ≡ true }
        ensures host { OnOk result (Reaches steps.now first self.old self.new) }
        ensures handlers { OnOk result (handlers_of self.new ≡ handlers_of self.old) }
    {
        let mut to = first;
        loop {
            let Some(number) = to else {
                self.leave();
                return Ok(());
            };
            let index = number as usize - 1;
            if index >= steps.len() {
                self.location = Location::End;
                return Ok(());
            }
            let step = &steps[index];
            if self.begins_task(step.handler) {
                self.location = Location::Node(number);
                return Ok(());
            }
            self.make(&step.ok.moves)?;
            to = step.ok.to;
        }
    }

    // Notifies these handlers.
    fn mark(&mut self, notified: &Vec<usize>)
        requires { All (λ n. n < handlers_of self.old) notified.now.items }
        ensures marked { (n : ℕ) → get_or self.new.marks.items n false
            ≡ is_marked n notified.now.items || get_or self.old.marks.items n false }
        ensures rest { record self.new { marks = self.old.marks } ≡ self.old }
        ensures handlers { handlers_of self.new ≡ handlers_of self.old }
    {
        for number in notified {
            self.marks[*number] = true;
        }
    }

    // Whether the host begins the task: a handler only where it is notified, and then its mark is
    // cleared.
    fn begins_task(&mut self, handler: Option<u32>) -> bool
        ensures host { BeginsTask handler self.old self.new result }
        ensures handlers { handlers_of self.new ≡ handlers_of self.old }
    {
        match handler {
            Some(number) => self.unmark(number as usize),
            None => true,
        }
    }

    // Whether the handler is notified; its mark is cleared.
    fn unmark(&mut self, handler: usize) -> bool
        ensures was { result ≡ get_or self.old.marks.items handler false }
        ensures cleared { (n : ℕ) → get_or self.new.marks.items n false
            ≡ not (n == handler) && get_or self.old.marks.items n false }
        ensures rest { record self.new { marks = self.old.marks } ≡ self.old }
        ensures handlers { handlers_of self.new ≡ handlers_of self.old }
    {
        match self.marks.get_mut(handler) {
            Some(mark) => {
                let was = *mark;
                *mark = false;
                was
            }
            None => false,
        }
    }

    // Makes the moves, one after the other.
    fn make(&mut self, moves: &[Move]) -> Result<(), AllocError>
        ensures host { OnOk result (Moves moves.now self.old self.new) }
        ensures handlers { handlers_of self.new ≡ handlers_of self.old }
    {
        for each in moves {
            self.make_one(*each)?;
        }
        Ok(())
    }

    fn make_one(&mut self, each: Move) -> Result<(), AllocError>
        ensures host { OnOk result (Moves (each ∷ []) self.old self.new) }
        ensures handlers { handlers_of self.new ≡ handlers_of self.old }
    {
        match each {
            Move::Rescuing(depth) => {
                self.rescue(depth)?;
                Ok(())
            }
            Move::Holding(held) => {
                self.hold(held)?;
                Ok(())
            }
            Move::Releasing(held) => {
                self.release(held)?;
                Ok(())
            }
        }
    }

    // Keeps the text of the failure for a `rescue` part, inside so many others.
    fn rescue(&mut self, depth: usize) -> Result<(), AllocError>
        ensures kept { OnOk result (texts_of self.new.rescues.items
            ≡ text_of self.old.failure ∷ outermost depth (texts_of self.old.rescues.items)) }
        ensures rest { record self.new { rescues = self.old.rescues } ≡ self.old }
    {
        let text = copied(self.failure.as_ref())?;
        self.rescues.truncate(depth);
        self.rescues.push(text)?;
        Ok(())
    }

    // Holds the failure while an `always` part runs, inside so many others.
    fn hold(&mut self, held: usize) -> Result<(), AllocError>
        ensures kept { OnOk result (texts_of self.new.holds.items
            ≡ text_of self.old.failure ∷ outermost held (texts_of self.old.holds.items)) }
        ensures rest { record self.new { holds = self.old.holds } ≡ self.old }
    {
        let text = copied(self.failure.as_ref())?;
        self.holds.truncate(held);
        self.holds.push(text)?;
        Ok(())
    }

    // The failure that was held goes outwards.
    fn release(&mut self, held: usize) -> Result<(), AllocError>
        ensures text { OnOk result (text_of self.new.failure
            ≡ innermost (outermost (suc held) (texts_of self.old.holds.items))) }
        ensures rest { record self.new { failure = self.old.failure } ≡ self.old }
    {
        // There are fewer texts than can be counted.
        let text = copied(innermost_of(&self.holds, held.saturating_add(1)))?;
        self.failure = text;
        Ok(())
    }
}
