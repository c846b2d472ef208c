// The answers to the jobs of a run.
ghost use Rattle.std.specs.Prelude.{◌≡◌, IfErr, IfOk, None, OnErr, false, get_or, true};
ghost use Rattle.pb_core.specs.Words.{tickets_of};
ghost use Rattle.pb_run.specs.Calls.{Gives, IsRefused, StaysRecorded, given_as, is_ticket};
ghost use Rattle.pb_run.specs.Faults.{Faults};

use crate::event::{Event, GiveFault, Given};
use crate::recorded::RecordedMachine;
use pb_core::CoreFault;
use pb_finish::Answer;
use pb_jobs::Job;
use pb_jobs::machine::Answered;

impl RecordedMachine<'_> {
    /// The answers to a job, in the order of its calls; what stands in the job beside its ticket
    /// and host isn't looked at. The job is done, or its calls are made again.
    ///
    /// # Errors
    ///
    /// `Stopped` where the run is stopped, then `Stranger` where no job of that ticket and host is
    /// out, then want of memory, `NotThere` where the task sets a variable that has no slot, and
    /// `Full` where a count has no room: job and answers come back then, and nothing has happened.
    pub fn give(
        &mut self,
        job: Job,
        answers: Vec<Answer>,
    ) -> Result<Given, (GiveFault, Job, Vec<Answer>)>
        ensures gives { IfOk result (λ g. Gives job.host job.ticket answers g self.old self.new) }
        ensures err { OnErr result (StaysRecorded self.old self.new) }
        ensures back { IfErr result (λ e. (e.1 ≡ job) × (e.2 ≡ answers)) }
        ensures refused { IfErr result (λ e. IsRefused e.0 job.host job.ticket self.old) }
    {
        if self.is_stopped {
            return Err((GiveFault::Stopped, job, answers));
        }
        if !self.is_out(job.host, job.ticket) {
            return Err((GiveFault::Stranger, job, answers));
        }
        match self.record(job.host, job.ticket, answers) {
            Ok(given) => Ok(given),
            Err((fault, answers)) => Err((GiveFault::Core(fault), job, answers)),
        }
    }

    // Records the answers to the host's job of that ticket, which is out; or they come back with
    // the fault.
    pub(crate) fn record(
        &mut self,
        host: usize,
        out: usize,
        answers: Vec<Answer>,
    ) -> Result<Given, (CoreFault, Vec<Answer>)>
        requires going { self.old.is_stopped ≡ false }
        requires out { is_ticket out (get_or (tickets_of self.old.machine.core) host None) ≡ true }
        ensures gives { IfOk result (λ g. Gives host out answers g self.old self.new) }
        ensures err { OnErr result (StaysRecorded self.old self.new) }
        ensures back { IfErr result (λ e. e.1 ≡ answers) }
        ensures faults { IfErr result (λ e. Faults e.0 self.old) }
    {
        let alloc = *self.history.allocator();
        if let Err(refused) = self.history.reserve(2) {
            return Err((CoreFault::Memory(refused), answers));
        }
        let ticket = self.history.len();
        match self.machine.give(alloc, host, &answers, ticket) {
            Ok(answered) => {
                self.history.push_reserved(Event::Give(host, answers));
                Ok(given_of(answered, host, ticket))
            }
            Err(fault) => Err((fault, answers)),
        }
    }
}

// What is told of a host's job that was answered, where its calls are made again under that ticket.
fn given_of(answered: Answered, host: usize, ticket: usize) -> Given
    ensures { result ≡ given_as answered host ticket }
{
    match answered {
        Answered::Done => Given::Done,
        Answered::Again(calls) => Given::Again(Job {
            ticket,
            host,
            calls,
        }),
    }
}
