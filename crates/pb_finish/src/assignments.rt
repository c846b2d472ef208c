// The variables that an item sets.
use pb_value::{Fields, Value, Weighed};
use std::sync::Arc;

/// A variable that is set; one with no value stays as it was.
#[derive(Drop)]
pub struct Assignment {
    pub name: String,
    pub value: Option<Value>,
}

/// What an item sets.
#[derive(Drop)]
pub enum Assignments {
    Nothing,
    /// Each of these.
    Facts(Arc<Weighed<Fields>>),
    /// What `setup` answered, one after the other.
    Gathered(Vec<Assignment>),
}
