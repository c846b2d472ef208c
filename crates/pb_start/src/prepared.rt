// A task as it runs, prepared once for its place in a play.
ghost use Rattle.std.specs.Prelude.{◌≡◌, false, true};
ghost use Rattle.pb_syntax.specs.ExprView.{parts_view};
ghost use Rattle.pb_start.specs.Items.{read_no_item};

use pb_sig::Known;
use pb_syntax::Expr;
use pb_task::Attempts;
use std::collections::BTreeMap;
use std::sync::Arc;

/// What a task does.
#[derive(Drop)]
pub enum Action {
    /// Calls the module with these arguments, by their names.
    Call {
        module: Arc<Known>,
        arguments: BTreeMap<String, Expr>,
    },
    /// Shows a message; none is `null`.
    Debug(Option<Expr>),
    /// Sets these variables of the host.
    SetFact(BTreeMap<String, Expr>),
    /// Fails with the message unless the conditions hold.
    Assert {
        conditions: Vec<Expr>,
        message: Option<Expr>,
    },
    /// Fails with the message.
    Fail(Option<Expr>),
}

/// A task as it runs, prepared once for its place in a play.
#[derive(Drop)]
pub struct Prepared {
    /// The names of `vars` that it reads, each before those that read it, with their values.
    pub names: Vec<(String, Expr)>,
    /// Some value of these names may read the item of the loop, or a variable of the host that the
    /// item names.
    pub names_read_item: bool,
    /// Every `when` round it, the outermost block's first, and its own.
    pub conditions: Vec<Expr>,
    /// The list for whose items the task is done, one by one.
    pub loop_over: Option<Expr>,
    pub action: Action,
    /// The variable that keeps the result.
    pub register: Option<Arc<String>>,
    pub changed_when: Option<Vec<Expr>>,
    pub failed_when: Option<Vec<Expr>>,
    /// How often the calls are repeated, and until when.
    pub attempts: Option<Attempts>,
    /// Errors are ignored.
    pub ignores: bool,
    /// It stands in a block that rescues a failure.
    pub rescued: bool,
    /// In how many `rescue` parts it stands.
    pub depth: usize,
    ghost no_item: { names_read_item ≡ false → read_no_item (parts_view names.items) ≡ true },
}
