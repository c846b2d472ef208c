// Plays: what they run on, and their tasks, blocks and handlers.
use pb_syntax::Expr;
use pb_task::Task;
use pb_template::Entry;
use std::sync::Arc;

/// What a block says of all that stands in it.
#[derive(Drop)]
pub struct BlockHead {
    /// The place in the book.
    pub line: u32,
    /// All of them have to hold, at each task in the block.
    pub when: Vec<Expr>,
    /// In the order of their names' bytes.
    pub vars: Vec<Entry>,
    pub ignore_errors: Option<bool>,
}

/// A block of steps `S`, what runs where one of them fails, and what runs in any case.
#[derive(Drop)]
pub struct Block<S> {
    pub head: BlockHead,
    pub body: Vec<S>,
    pub rescue: Vec<S>,
    pub always: Vec<S>,
}

/// A step of a section.
#[derive(Drop)]
pub enum Step {
    Task(Task),
    Block(Block<Step>),
    /// `meta: flush_handlers`, at that line.
    Flush(u32),
}

/// A task that runs at a flush where it was notified.
#[derive(Drop)]
pub struct Handler {
    pub task: Task,
    pub name: Option<Arc<String>>,
    /// What else it listens to.
    pub topics: Vec<Arc<String>>,
}

/// How many hosts a batch has.
#[derive(Clone, Copy, PartialEq, Eq, Debug)]
pub enum Cut {
    /// 1 to 1,024.
    Hosts(u64),
    /// Of the hosts of the play, 1 to 100.
    Percentage(u64),
}

/// In which order the hosts of a batch go on.
#[derive(Clone, Copy, PartialEq, Eq, Debug)]
pub enum Strategy {
    /// All of them are at the same task.
    Linear,
    /// Each goes on by itself.
    Free,
}

/// A play.
#[derive(Drop)]
pub struct Play {
    /// The place in the book.
    pub line: u32,
    /// The texts of `hosts`, each of which names groups and hosts.
    pub pattern: Vec<Arc<String>>,
    /// The line of the task that gathers facts, where there is one.
    pub gathering: Option<u32>,
    /// In the order of their names' bytes.
    pub vars: Vec<Entry>,
    pub strategy: Strategy,
    /// The sizes of the batches, the last of which holds for all that are left; none where all
    /// hosts are one batch.
    pub serial: Vec<Cut>,
    pub pre_tasks: Vec<Step>,
    pub tasks: Vec<Step>,
    pub post_tasks: Vec<Step>,
    pub handlers: Vec<Handler>,
    /// Whether a host that failed runs its notified handlers all the same.
    pub force_handlers: bool,
}
