// The values of `vars` that are in scope at a task, and the answers of their names.
ghost use Rattle.pb_vars.specs.Borrowed.{borrowed_view};
ghost use Rattle.pb_vars.specs.Merging.{IsOrdered};

use pb_template::Entry;

/// The values of `vars` that are in scope, each name once, in the order of the names' bytes.
#[derive(Drop)]
pub struct InScope<'p> {
    pub(crate) entries: Vec<&'p Entry>,
    ghost ordered: { IsOrdered (borrowed_view entries.items) },
}

/// What the names in scope answer to a question, in their order.
#[derive(Drop)]
pub struct Answers {
    pub(crate) all: Vec<bool>,
}
