// A task whose keys and forms are right, with its texts as expressions.
ghost use Rattle.std.specs.Prelude.{◌≡◌, IfOk, IfSome, Some, codes, option_map, true, unwrap_or};
ghost use Rattle.pb_semantics.specs.Words.{Gives, field_value};
ghost use Rattle.pb_language.specs.Book.{Registry};
ghost use Rattle.pb_language.specs.Expression.{no_expressions};
ghost use Rattle.pb_language.specs.TaskForm.{retries_in};
ghost use Rattle.pb_value.specs.Words.{fields_view, view};
ghost use Rattle.pb_syntax.specs.Words.{exprs_view};
ghost use Rattle.pb_template.specs.Faults.{refused};
ghost use Rattle.pb_template.specs.Words.{are_ascending, entries_view, entry_names};
ghost use Rattle.pb_task.specs.Clauses.{attempts_with, task_doing, task_with, texts_in, texts_view};
ghost use Rattle.pb_task.specs.Doings.{IsFound, doing_view};
ghost use Rattle.pb_task.specs.Tasks.{IsOrdered, IsResolved, attempts_view, task_view, work_view};

use crate::argument::work_with;
use crate::clause::{Clauses, boolean_in, clauses_in, loop_in, text_in, topics_in, vars_in};
use crate::task::{Attempts, Task, Work};
use crate::work::Doing;
use pb_syntax::Expr;
use pb_template::{Entry, TemplateFault};
use pb_value::{Fields, Value, field_of};
use std::alloc::{AllocError, Global};

// The retries where none are given.
const DEFAULT_RETRIES: u64 = 3;

// What a task says in expressions, but for its arguments.
#[derive(Drop)]
struct Texts {
    clauses: Clauses,
    vars: Vec<Entry>,
    loop_over: Option<Expr>,
}

// The task at that line that does this with what is given; none where it is a flush.
pub(crate) fn task_of(
    alloc: Global,
    line: u32,
    fields: &Fields,
    doing: Doing<'_>,
    given: &Value,
) -> Result<Option<Task>, TemplateFault>
    ensures given { Gives (λ t. Some (option_map task_view t)) refused result
        (task_doing (doing_view doing.entry) line (fields_view fields.now.entries)
        (view given.now)) }
    ensures resolved { (ms : Registry) → IsFound ms (doing_view doing.entry)
        → IfOk result (λ t. IfSome t (IsResolved ms)) }
    ensures ordered { IfOk result (λ t. IfSome t IsOrdered) }
{
    let texts = texts_in(alloc, fields)?;
    match work_with(alloc, doing, given)? {
        None => Ok(None),
        Some((work, arguments)) => Ok(Some(task_with(
            alloc, line, fields, texts, work, arguments,
        )?)),
    }
}

fn texts_in(alloc: Global, fields: &Fields) -> Result<Texts, TemplateFault>
    ensures given { Gives (λ t. Some (texts_view t)) refused result
        (texts_in (fields_view fields.now.entries)) }
    ensures ordered { IfOk result (λ t. are_ascending (entry_names t.vars.items) ≡ true) }
{
    Ok(Texts {
        clauses: clauses_in(alloc, fields)?,
        vars: vars_in(alloc, fields)?,
        loop_over: loop_in(alloc, fields)?,
    })
}

// The task with these texts and this work.
fn task_with(
    alloc: Global,
    line: u32,
    fields: &Fields,
    texts: Texts,
    work: Work,
    arguments: Vec<Entry>,
) -> Result<Task, AllocError>
    ensures given { IfOk result (λ t. task_view t ≡ task_with line (fields_view fields.now.entries)
        (texts_view texts) (work_view work (entries_view arguments.items))) }
    ensures vars { IfOk result (λ t. t.vars ≡ texts.vars) }
    ensures arguments { IfOk result (λ t. t.arguments ≡ arguments) }
    ensures work { IfOk result (λ t. t.work ≡ work) }
{
    let register = text_in(fields, "register")?;
    let notify = topics_in(alloc, fields, "notify")?;
    let ignore_errors = boolean_in(fields, "ignore_errors");
    let Clauses {
        when,
        changed_when,
        failed_when,
        until,
    } = texts.clauses;
    Ok(Task {
        line,
        work,
        arguments,
        when: given_or_none(alloc, when),
        loop_over: texts.loop_over,
        register,
        vars: texts.vars,
        notify,
        changed_when,
        failed_when,
        attempts: attempts_of(fields, until),
        ignore_errors,
    })
}

/// The conditions, which are none where none are given.
pub fn given_or_none(alloc: Global, given: Option<Vec<Expr>>) -> Vec<Expr>
    ensures { exprs_view result.items
        ≡ unwrap_or (option_map (λ es. exprs_view es.items) given) no_expressions }
{
    match given {
        None => Vec::new(alloc),
        Some(conditions) => conditions,
    }
}

fn attempts_of(fields: &Fields, until: Option<Vec<Expr>>) -> Option<Attempts>
    ensures { option_map attempts_view result
        ≡ attempts_with (option_map (λ es. exprs_view es.items) until)
        (field_value (codes "retries") (fields_view fields.now.entries)) }
{
    match until {
        None => None,
        Some(until) => Some(Attempts {
            until,
            retries: retries_in(fields),
        }),
    }
}

fn retries_in(fields: &Fields) -> u64
    ensures { result ≡ retries_in
        (field_value (codes "retries") (fields_view fields.now.entries)) }
{
    match field_of(fields, "retries") {
        Some(Value::Int(number)) if *number >= 0 => *number as u64,
        _ => DEFAULT_RETRIES,
    }
}
