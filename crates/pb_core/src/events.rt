// The events of a run on its core: Starts, Gives and a Stop.
ghost use Rattle.std.specs.Prelude.{◌+◌, ◌<◌, ◌≡◌, ◌≤◌, ◌^◌, All, IfErr, IfOk, List, None};
ghost use Rattle.std.specs.Prelude.{OnErr, OnOk, Some, slice_set, suc};
ghost use Rattle.pb_language.specs.Give.{Answer};
ghost use Rattle.pb_language.specs.Machine.{give, start};
ghost use Rattle.pb_core.specs.Cores.{GoesFrom, HasGoneFrom, IsAgainPast, counts_at, tickets_of};
ghost use Rattle.pb_core.specs.Events.{Begins, HasNoJob, IsDisabled, Leaves, Repeats, Settles};
ghost use Rattle.pb_core.specs.Events.{Stops};

use crate::fault::CoreFault;
use crate::host::{Onward, Stage};
use crate::outcome::TaskOutcome;
use crate::run::RunCore;
use pb_position::TaskEnd;

impl<P> RunCore<P> {
    // Where the host goes on once the task where it stands came to that end.
    fn go_on(&self, host: usize, end: TaskEnd) -> Result<Onward, CoreFault>
        ensures goes { IfOk result (GoesFrom host end self.now) }
        ensures there { IfErr result (λ e. e ≡ CoreFault.NotThere
            → HasGoneFrom host end.notified.items self.now) }
        ensures full { IfErr result (λ e. e ≡ CoreFault.Full → ⊥) }
    {
        let Some(play) = self.play() else {
            return Err(CoreFault::NotThere);
        };
        if host >= self.hosts.len() {
            return Err(CoreFault::NotThere);
        }
        self.hosts[host].go_on(play, end)
    }
}

impl<P: Drop> RunCore<P> {
    /// The host's task begins: a job of so many calls is out, under that ticket.
    ///
    /// # Errors
    ///
    /// Want of memory; `NotThere` where the host can't start; `Full` where more calls would be
    /// handed out than a count has room for. Nothing has changed then.
    pub fn begin(
        &mut self,
        host: usize,
        passes: P,
        ticket: usize,
        calls: u64,
    ) -> Result<(), CoreFault>
        ensures begins { OnOk result (Begins host passes calls self.old self.new) }
        ensures tickets { OnOk result
            (tickets_of self.new ≡ slice_set (tickets_of self.old) host (Some ticket)) }
        ensures err { OnErr result (self.new ≡ self.old) }
        ensures there { IfErr result (λ e. e ≡ CoreFault.NotThere
            → IsDisabled (start host) self.old) }
        ensures full { IfErr result (λ e. e ≡ CoreFault.Full
            → 2 ^ 64 ≤ self.old.handed + calls) }
    {
        let Some(handed) = self.handed.checked_add(calls) else {
            return Err(CoreFault::Full);
        };
        let Some(place) = self.ready_at(host) else {
            return Err(CoreFault::NotThere);
        };
        self.index.begin(host, place)?;
        self.handed = handed;
        self.hosts[host].stage = Stage::Runs {
            ticket,
            attempts: 0,
            calls,
            passes,
        };
        Ok(())
    }

    /// The calls of the host's job are made again, by a job of that ticket.
    ///
    /// # Errors
    ///
    /// `NotThere` where no job of the host is out; `Full` where one is and a count would be past
    /// its type. Nothing has changed then.
    pub fn again(&mut self, host: usize, ticket: usize) -> Result<(), CoreFault>
        ensures repeats { OnOk result (Repeats host self.old self.new) }
        ensures tickets { OnOk result
            (tickets_of self.new ≡ slice_set (tickets_of self.old) host (Some ticket)) }
        ensures err { OnErr result (self.new ≡ self.old) }
        ensures there { IfErr result (λ e. e ≡ CoreFault.NotThere
            → (xs : List Answer) → IsDisabled (give host xs) self.old) }
        ensures full { IfErr result (λ e. e ≡ CoreFault.Full → IsAgainPast host self.old) }
    {
        if host >= self.hosts.len() {
            return Err(CoreFault::NotThere);
        }
        let Some((attempts, calls)) = self.hosts[host].stage.job() else {
            return Err(CoreFault::NotThere);
        };
        let Some(handed) = self.handed.checked_add(calls) else {
            return Err(CoreFault::Full);
        };
        let Some(times) = attempts.checked_add(1) else {
            return Err(CoreFault::Full);
        };
        self.handed = handed;
        self.hosts[host].stage.repeat(ticket, times);
        Ok(())
    }

    /// The host leaves the play: an answer broke its word, or the host wasn't reached.
    ///
    /// # Errors
    ///
    /// `NotThere` where no job of the host is out; `Full` where a count of its recap is. Nothing
    /// has changed then.
    pub fn leave(&mut self, host: usize, is_reached: bool) -> Result<(), CoreFault>
        ensures leaves { OnOk result (Leaves host is_reached self.old self.new) }
        ensures tickets { OnOk result
            (tickets_of self.new ≡ slice_set (tickets_of self.old) host None) }
        ensures err { OnErr result (self.new ≡ self.old) }
        ensures there { IfErr result (λ e. e ≡ CoreFault.NotThere
            → (xs : List Answer) → IsDisabled (give host xs) self.old) }
        ensures full { IfErr result (λ e. e ≡ CoreFault.Full
            → All (λ n. suc n < 2 ^ 64) (counts_at self.old host) → ⊥) }
    {
        let Some(from) = self.running_at(host) else {
            return Err(CoreFault::NotThere);
        };
        let Some(recap) = self.hosts[host].recap.left(is_reached) else {
            return Err(CoreFault::Full);
        };
        self.index.leave(host, from);
        let state = &mut self.hosts[host];
        state.recap = recap;
        state.stage = Stage::Waits;
        state.position.leave();
        Ok(())
    }

    /// The host's task ended, and the host goes on.
    ///
    /// # Errors
    ///
    /// Want of memory; `NotThere` where no job of the host is out, or a handler is notified that
    /// the play doesn't have; `Full` where a count of its recap is. Nothing has changed then.
    pub fn settle(&mut self, host: usize, outcome: TaskOutcome) -> Result<(), CoreFault>
        ensures settles { OnOk result (Settles host outcome self.old self.new) }
        ensures tickets { OnOk result
            (tickets_of self.new ≡ slice_set (tickets_of self.old) host None) }
        ensures err { OnErr result (self.new ≡ self.old) }
        ensures there { IfErr result (λ e. e ≡ CoreFault.NotThere
            → HasNoJob host outcome.notified.items self.old) }
        ensures full { IfErr result (λ e. e ≡ CoreFault.Full
            → All (λ n. suc n < 2 ^ 64) (counts_at self.old host) → ⊥) }
    {
        let TaskOutcome {
            status,
            text,
            notified,
        } = outcome;
        let end = TaskEnd {
            has_failed: status.goes_wrong(),
            text,
            notified,
        };
        let Some(from) = self.running_at(host) else {
            return Err(CoreFault::NotThere);
        };
        let Some(recap) = self.hosts[host].recap.after(status) else {
            return Err(CoreFault::Full);
        };
        let onward = self.go_on(host, end)?;
        self.index.go_on(host, from, onward.to)?;
        let state = &mut self.hosts[host];
        state.position = onward.position;
        state.stage = Stage::Waits;
        state.recap = recap;
        Ok(())
    }

    /// Nothing is to happen any more; nothing changes where the run was stopped or has ended.
    pub fn stop(&mut self)
        ensures stops { Stops self.old self.new }
        ensures tickets { tickets_of self.new ≡ tickets_of self.old }
    {
        if self.has_ended() {
            return;
        }
        self.is_stopped = true;
    }
}
