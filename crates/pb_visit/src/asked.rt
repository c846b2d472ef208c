// What a task says of its result, as it is asked about.
ghost use Rattle.std.specs.Prelude.{◌≡◌, option_map, string_bytes};
ghost use Rattle.pb_syntax.specs.Words.{exprs_view};
ghost use Rattle.pb_task.specs.Words.{attempts_view};

use pb_syntax::Expr;
use pb_task::Task;

// The name that the task registers.
pub(crate) fn registers(task: &Task) -> Option<&str>
    ensures { option_map (λ n. n.now) result
        ≡ option_map (λ n. string_bytes n.value) task.now.register }
{
    match &task.register {
        Some(name) => Some(name.as_str()),
        None => None,
    }
}

// The conditions, where they are given.
pub(crate) fn given(conditions: &Option<Vec<Expr>>) -> Option<&[Expr]>
    ensures { option_map (λ es. exprs_view es.now) result
        ≡ option_map (λ es. exprs_view es.items) conditions.now }
{
    match conditions {
        Some(conditions) => Some(conditions.as_slice()),
        None => None,
    }
}

// `until`, where it is given.
pub(crate) fn until_of(task: &Task) -> Option<&[Expr]>
    ensures { option_map (λ es. exprs_view es.now) result
        ≡ option_map (λ a. (attempts_view a).until) task.now.attempts }
{
    match &task.attempts {
        Some(attempts) => Some(attempts.until.as_slice()),
        None => None,
    }
}
