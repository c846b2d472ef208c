// The task where a host stands.
use pb_core::HostState;
use pb_start::{Pass, Prepared};
use pb_steps::Step;
use std::sync::Arc;

// The task where a host stands, by references to what the run keeps.
#[derive(Drop)]
pub(crate) struct HostTask<'r> {
    // the host's name
    pub(crate) name: &'r Arc<String>,
    // where the host stands
    pub(crate) state: &'r HostState<Vec<Pass>>,
    // the task as it runs
    pub(crate) task: &'r Prepared,
    // its step in the plan of the play
    pub(crate) step: &'r Step,
    // how many calls were handed out to the host before
    pub(crate) before: u64,
}
