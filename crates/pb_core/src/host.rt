// A host of a run: where it stands, and what its tasks came to.
ghost use Rattle.std.specs.Prelude.{◌≡◌, IfErr, IfOk};
ghost use Rattle.pb_position.specs.Positions.{handlers_of};

use crate::batch::RunPlay;
use crate::fault::CoreFault;
use crate::place::{are_below, place_at};
use crate::recap::Recap;
use pb_position::{Location, Position, TaskEnd};
use std::alloc::{AllocError, Global};

/// Whether a job of the host is out: the calls of the task where it stands.
#[derive(Drop)]
pub enum Stage<P> {
    Waits,
    Runs {
        ticket: usize,
        /// How often the calls were made before.
        attempts: u64,
        /// How many they are.
        calls: u64,
        /// What the task does, item by item.
        passes: P,
    },
}

/// Where a host stands, and what its tasks came to.
#[derive(Drop)]
pub struct HostState<P> {
    pub position: Position,
    /// How many handlers the play has in which the position is.
    pub handlers: usize,
    pub stage: Stage<P>,
    pub recap: Recap,
    ghost room: { handlers_of position ≡ handlers },
}

// Where a host goes on, and the place of the task there.
#[derive(Drop)]
pub(crate) struct Onward {
    pub(crate) position: Position,
    pub(crate) to: Option<usize>,
}

impl<P> Stage<P> {
    ghost use Rattle.pb_core.specs.Hosts.{job_of, repeated};

    /// How often the calls of the job were made before, and how many they are.
    pub fn job(&self) -> Option<(u64, u64)>
        ensures { result ≡ job_of self.now }
    {
        match self {
            Stage::Waits => None,
            Stage::Runs {
                attempts,
                calls,
                ..
            } => Some((*attempts, *calls)),
        }
    }

    // The calls were made so many times before they are made again, by a job of that ticket.
    pub(crate) fn repeat(&mut self, next: usize, times: u64)
        ensures { self.new ≡ repeated next times self.old }
    {
        match self {
            Stage::Waits => {}
            Stage::Runs {
                ticket,
                attempts,
                ..
            } => {
                *ticket = next;
                *attempts = times;
            }
        }
    }
}

impl<P: Drop> HostState<P> {
    ghost use Rattle.pb_core.specs.Hosts.{IsFresh};

    /// A host before its first play.
    ///
    /// # Errors
    ///
    /// Want of memory.
    pub fn new(alloc: Global) -> Result<HostState<P>, AllocError>
        ensures { IfOk result IsFresh }
    {
        let position = Position::new(alloc, 0)?;
        Ok(HostState {
            position,
            handlers: 0,
            stage: Stage::Waits,
            recap: Recap::empty(),
        })
    }
}

impl<P> HostState<P> {
    ghost use Rattle.pb_core.specs.Hosts.{GoesTo, HasGone};

    // Where the host goes once the task where it stands came to that end.
    pub(crate) fn go_on(&self, play: &RunPlay, end: TaskEnd) -> Result<Onward, CoreFault>
        ensures goes { IfOk result (GoesTo play.now end self.now.position) }
        ensures handlers { IfOk result
            (λ o. handlers_of o.position ≡ handlers_of self.now.position) }
        ensures there { IfErr result (λ e. e ≡ CoreFault.NotThere
            → HasGone play.now self.now.position self.now.handlers end.notified.items) }
        ensures full { IfErr result (λ e. e ≡ CoreFault.Full → ⊥) }
    {
        let Location::Node(node) = self.position.location() else {
            return Err(CoreFault::NotThere);
        };
        let index = (node as usize).saturating_sub(1);
        if index >= play.plan.steps.len() {
            return Err(CoreFault::NotThere);
        }
        if !are_below(&end.notified, self.handlers) {
            return Err(CoreFault::NotThere);
        }
        let position = self
            .position
            .go_on(&play.plan.steps, &play.plan.steps[index], end)?;
        let to = place_at(&position, &play.plan.steps);
        Ok(Onward { position, to })
    }
}
