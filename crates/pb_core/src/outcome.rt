// What a task came to, all of its items together.
ghost use Rattle.std.specs.Prelude.{◌≡◌, ◌&&◌, not};
ghost use Rattle.pb_core.specs.Hosts.{goes_wrong};

use std::sync::Arc;

/// How a task ended.
#[derive(Clone, Copy, PartialEq, Eq, Debug)]
pub struct TaskStatus {
    pub is_skipped: bool,
    pub is_changed: bool,
    pub has_failed: bool,
    /// The task ignores a failure.
    pub is_ignored: bool,
    /// It stands in a block that rescues a failure.
    pub is_rescued: bool,
}

/// What a task came to.
#[derive(Drop)]
pub struct TaskOutcome {
    pub status: TaskStatus,
    /// The text of a failure; none stands for the empty one.
    pub text: Option<Arc<String>>,
    /// The numbers of the handlers that are notified.
    pub notified: Vec<usize>,
}

impl TaskStatus {
    /// The host goes on where a failure leads.
    pub fn goes_wrong(&self) -> bool
        ensures { result ≡ goes_wrong self.now }
    {
        self.has_failed && !self.is_ignored
    }
}
