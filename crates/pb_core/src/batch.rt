// The plays of a run with their plans and tasks, and the batches in which hosts run them.
use pb_start::Prepared;
use pb_steps::PlaySteps;

/// A play as it runs.
#[derive(Drop)]
pub struct RunPlay {
    pub plan: PlaySteps,
    /// The tasks of its steps, in their order.
    pub tasks: Vec<Prepared>,
    /// A host starts a task only where none is behind it (the strategy `linear`).
    pub is_linear: bool,
}

/// Hosts that run a play together.
#[derive(Drop)]
pub struct Batch {
    /// The play's number.
    pub play: usize,
    /// The hosts' numbers, in their order.
    pub members: Vec<usize>,
}

/// What a run goes through, which never changes: its plays, and its batches in their order.
#[derive(Drop)]
pub struct Schedule {
    pub plays: Vec<RunPlay>,
    pub batches: Vec<Batch>,
}
