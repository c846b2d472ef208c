// What is seen of a run: its history, its hosts and what their tasks came to.
ghost use Rattle.std.specs.Prelude.{◌≡◌, None, get_or};
ghost use Rattle.pb_core.specs.Words.{tickets_of};
ghost use Rattle.pb_run.specs.Calls.{is_ticket};
ghost use Rattle.pb_run.specs.Recorded.{CountsHosts, Recaps, TellsStopped};

use crate::event::Event;
use crate::recorded::RecordedMachine;
use pb_core::{Recap, Stage};

impl RecordedMachine<'_> {
    /// What has happened, in order.
    pub fn history(&self) -> &[Event]
        ensures { result.now ≡ self.now.history.items }
    {
        self.history.as_slice()
    }

    /// What the host's tasks came to so far; zeros past the last host.
    pub fn recap(&self, host: usize) -> Recap
        ensures { Recaps host result self.now }
    {
        let hosts = self.machine.core.hosts();
        if host >= hosts.len() {
            return Recap::empty();
        }
        hosts[host].recap
    }

    /// Whether it was stopped.
    pub fn is_stopped(&self) -> bool
        ensures { TellsStopped result self.now }
    {
        self.is_stopped
    }

    /// How many hosts the run has.
    pub fn hosts(&self) -> usize
        ensures { CountsHosts result self.now }
    {
        self.machine.core.hosts().len()
    }

    // The ticket of the host's job that is out.
    pub(crate) fn ticket_of(&self, host: usize) -> Option<usize>
        ensures { result ≡ get_or (tickets_of self.now.machine.core) host None }
    {
        let hosts = self.machine.core.hosts();
        if host >= hosts.len() {
            return None;
        }
        match hosts[host].stage {
            Stage::Waits => None,
            Stage::Runs { ticket, .. } => Some(ticket),
        }
    }

    // Whether the host's job of that ticket is out.
    pub(crate) fn is_out(&self, host: usize, ticket: usize) -> bool
        ensures { result
            ≡ is_ticket ticket (get_or (tickets_of self.now.machine.core) host None) }
    {
        match self.ticket_of(host) {
            Some(out) => out == ticket,
            None => false,
        }
    }
}
