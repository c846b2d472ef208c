// A task: what it does, when, and what becomes of its result.
use pb_sig::Known;
use pb_syntax::Expr;
use pb_template::Entry;
use std::sync::Arc;

/// What an `assert` asserts.
#[derive(Drop)]
pub enum Asserted {
    NotGiven,
    /// What is given has not the form of conditions.
    Malformed,
    Conditions(Vec<Expr>),
}

/// What a task does.
#[derive(Drop)]
pub enum Work {
    /// Calls the module.
    Module(Arc<Known>),
    /// Shows a message.
    Debug,
    /// Sets variables of the host.
    SetFact,
    /// Fails unless the conditions hold.
    Assert(Asserted),
    /// Fails.
    Fail,
}

/// How often a module's call is repeated, and until when.
#[derive(Drop)]
pub struct Attempts {
    pub until: Vec<Expr>,
    /// 1 to 255; 3 where none are given.
    pub retries: u64,
}

/// A task, or the work of a handler.
#[derive(Drop)]
pub struct Task {
    /// The place in the book.
    pub line: u32,
    pub work: Work,
    /// In the order of their names' bytes.
    pub arguments: Vec<Entry>,
    /// All of them have to hold.
    pub when: Vec<Expr>,
    /// The list for whose items the task is done, one by one (`loop`).
    pub loop_over: Option<Expr>,
    /// The variable that keeps the result.
    pub register: Option<Arc<String>>,
    /// In the order of their names' bytes.
    pub vars: Vec<Entry>,
    /// The names of handlers, or of their topics.
    pub notify: Vec<Arc<String>>,
    pub changed_when: Option<Vec<Expr>>,
    pub failed_when: Option<Vec<Expr>>,
    pub attempts: Option<Attempts>,
    pub ignore_errors: Option<bool>,
}
