// What a run hands out: jobs, with the calls of modules that a host's task makes.
use pb_value::Value;
use std::sync::Arc;

/// One call of a module on a host.
#[derive(Drop)]
pub struct Call {
    /// The host's place in host order.
    pub host: usize,
    /// The host's name.
    pub name: Arc<String>,
    /// How many calls were handed out to that host before.
    pub number: u64,
    pub module: Arc<String>,
    /// The arguments, a record.
    pub args: Value,
}

/// What a Start hands out, or a Give after which the calls are made again: the calls of a task on a
/// host, none where it is skipped or makes no call.
#[derive(Drop)]
pub struct Job {
    /// The place of that event in the history.
    pub ticket: usize,
    /// The host's place in host order.
    pub host: usize,
    pub calls: Vec<Call>,
}
