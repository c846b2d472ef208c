// What happens in a run, and what its callers are told.
use pb_core::CoreFault;
use pb_finish::Answer;
use pb_jobs::Job;

/// One step of a run.
#[derive(Drop)]
pub enum Event {
    /// A task is started on the host, and its calls are handed out.
    Start(usize),
    /// These are the answers to the host's job: its task ends, or its calls are made again.
    Give(usize, Vec<Answer>),
    /// The batch is over.
    Turn,
    /// The run is stopped, and nothing follows.
    Stop,
}

/// What a worker is told that asks for work.
#[derive(Drop)]
pub enum Taken {
    Job(Job),
    /// Nothing to start while a job is out.
    Idle,
    /// The run has ended.
    Finished,
    Stopped,
}

/// What becomes of answers that were given.
#[derive(Drop)]
pub enum Given {
    /// The host's job has ended.
    Done,
    /// Its calls are made again, by this job.
    Again(Job),
}

/// Why answers are refused.
#[derive(Debug, Drop)]
pub enum GiveFault {
    Stopped,
    /// No job of that ticket and host is out.
    Stranger,
    /// They were to be recorded, and that didn't happen.
    Core(CoreFault),
}
