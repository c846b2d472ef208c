// The core of a run: where each host stands in the batch that runs.
ghost use Rattle.std.specs.Prelude.{◌<◌, ◌≡◌, All, IfOk, IfSome, length, option_map, slice_get};
ghost use Rattle.std.specs.Prelude.{false, true};
ghost use Rattle.pb_core.specs.Cores.{IsReadyAt, IsRunningAt, batches_left, play_of};
ghost use Rattle.pb_core.specs.Cores.{scheduled_batches};
ghost use Rattle.pb_core.specs.Events.{AreActive, CanStart, CanTurn, IsNext, TellsEnd};
ghost use Rattle.pb_core.specs.Events.{TellsStop};

use crate::active::active_of;
use crate::batch::{Batch, RunPlay, Schedule};
use crate::host::{HostState, Stage};
use crate::index::ReadyIndex;
use crate::place::place_at;
use std::alloc::{AllocError, Global};
use std::sync::Arc;

/// Where each host stands in the batch that runs, and the batches that follow it. Contracts say of
/// which states of pb_machine's machine that holds.
#[derive(Drop)]
pub struct RunCore<P> {
    pub(crate) schedule: Arc<Schedule>,
    // the batch that runs, or past the last where the run has ended
    pub(crate) current: usize,
    pub(crate) hosts: Vec<HostState<P>>,
    pub(crate) index: ReadyIndex,
    pub(crate) forks: usize,
    // how many calls were handed out
    pub(crate) handed: u64,
    pub(crate) is_stopped: bool,
}

impl<P> RunCore<P> {
    /// The hosts in host order.
    pub fn hosts(&self) -> &[HostState<P>]
        ensures { result.now ≡ self.now.hosts.items }
    {
        &self.hosts
    }

    /// The plays and the batches of the run.
    pub fn schedule(&self) -> &Schedule
        ensures { result.now ≡ self.now.schedule.value }
    {
        &self.schedule
    }

    /// The batch that runs, unless the run has ended.
    pub fn batch(&self) -> Option<&Batch>
        ensures { option_map (λ b. b.now) result
            ≡ slice_get (scheduled_batches self.now) self.now.current }
    {
        let schedule = self.schedule();
        if self.current >= schedule.batches.len() {
            return None;
        }
        Some(&schedule.batches[self.current])
    }

    /// The play that runs, unless the run has ended.
    pub fn play(&self) -> Option<&RunPlay>
        ensures { option_map (λ p. p.now) result ≡ play_of self.now self.now.current }
    {
        self.play_of_batch(self.current)
    }

    // The play of the batch of that number.
    pub(crate) fn play_of_batch(&self, number: usize) -> Option<&RunPlay>
        ensures { option_map (λ p. p.now) result ≡ play_of self.now number }
    {
        let schedule = self.schedule();
        if number >= schedule.batches.len() {
            return None;
        }
        let play = schedule.batches[number].play;
        if play >= schedule.plays.len() {
            return None;
        }
        Some(&schedule.plays[play])
    }

    /// The host that starts next, where one can: the one at the lowest place in the book, ties by
    /// host order.
    pub fn ready(&self) -> Option<usize>
        ensures { IsNext self.now result }
    {
        if self.is_stopped {
            return None;
        }
        let Some(play) = self.play() else {
            return None;
        };
        self.index.next(self.forks, play.is_linear)
    }

    /// Whether the host's task can begin: one of those of which `ready` tells the first.
    pub fn can_start(&self, host: usize) -> bool
        ensures { CanStart host self.now result }
    {
        if self.is_stopped {
            return false;
        }
        let Some(play) = self.play() else {
            return false;
        };
        let Some(place) = self.ready_at(host) else {
            return false;
        };
        self.index.can_start(place, self.forks, play.is_linear)
    }

    /// Whether the batch is over: no host is before a task or in one.
    pub fn can_turn(&self) -> bool
        ensures turn { CanTurn self.now result }
        ensures left { result ≡ true → 0 < batches_left self.now }
    {
        if self.is_stopped {
            return false;
        }
        if self.has_ended() {
            return false;
        }
        self.index.is_idle()
    }

    /// Whether no batch is left.
    pub fn has_ended(&self) -> bool
        ensures ended { TellsEnd self.now result }
        ensures left { result ≡ false → 0 < batches_left self.now }
    {
        self.current >= self.schedule().batches.len()
    }

    /// Whether the run was stopped.
    pub fn is_stopped(&self) -> bool
        ensures { TellsStop self.now result }
    {
        self.is_stopped
    }

    /// The hosts of the batch that runs that haven't left, in its order; none where the run has
    /// ended.
    ///
    /// # Errors
    ///
    /// Want of memory.
    pub fn active(&self, alloc: Global) -> Result<Vec<usize>, AllocError>
        ensures active { IfOk result (λ ms. AreActive self.now ms.items) }
        ensures hosts { IfOk result (λ ms. All (λ k. k < length self.now.hosts.items) ms.items) }
    {
        let Some(batch) = self.batch() else {
            return Ok(Vec::new(alloc));
        };
        let active = active_of(alloc, &self.hosts, &batch.members)?;
        Ok(active)
    }

    // The place of the task before which the host waits.
    pub(crate) fn ready_at(&self, host: usize) -> Option<usize>
        ensures place { IsReadyAt self.now host result }
        ensures within { IfSome result (λ p. host < length self.now.hosts.items) }
    {
        let Some(play) = self.play() else {
            return None;
        };
        if host >= self.hosts.len() {
            return None;
        }
        let state = &self.hosts[host];
        match state.stage {
            Stage::Waits => place_at(&state.position, &play.plan.steps),
            Stage::Runs { .. } => None,
        }
    }

    // The place of the host's task that runs.
    pub(crate) fn running_at(&self, host: usize) -> Option<usize>
        ensures place { IsRunningAt self.now host result }
        ensures within { IfSome result (λ p. host < length self.now.hosts.items) }
    {
        let Some(play) = self.play() else {
            return None;
        };
        if host >= self.hosts.len() {
            return None;
        }
        let state = &self.hosts[host];
        match state.stage {
            Stage::Waits => None,
            Stage::Runs { .. } => place_at(&state.position, &play.plan.steps),
        }
    }
}
