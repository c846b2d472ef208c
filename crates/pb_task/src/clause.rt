// The conditions of a task, and its other keywords, as they are read.
ghost use Rattle.std.specs.Prelude.{◌≡◌, IfOk, Some, codes, option_map, string_bytes, true};
ghost use Rattle.pb_semantics.specs.Words.{Gives, field_value};
ghost use Rattle.pb_language.specs.TaskForm.{boolean_in, names_in, text_in, topics_in};
ghost use Rattle.pb_language.specs.TaskForm.{vars_found};
ghost use Rattle.pb_value.specs.Words.{fields_view, items_view, view};
ghost use Rattle.pb_syntax.specs.Words.{expr_view, exprs_view};
ghost use Rattle.pb_template.specs.Faults.{refused};
ghost use Rattle.pb_template.specs.Words.{are_ascending, entries_view, entry_names};
ghost use Rattle.pb_task.specs.Clauses.{clauses_in, clauses_view, conditions_at, loop_at};
ghost use Rattle.pb_task.specs.Tasks.{names_view};

use pb_syntax::Expr;
use pb_template::{Entry, TemplateFault, conditions_in, entries_of, expr_of};
use pb_value::{Fields, Value, field_of};
use std::alloc::{AllocError, Global};
use std::sync::Arc;

// The conditions of a task by their keywords, each where it is given.
#[derive(Drop)]
pub(crate) struct Clauses {
    pub(crate) when: Option<Vec<Expr>>,
    pub(crate) changed_when: Option<Vec<Expr>>,
    pub(crate) failed_when: Option<Vec<Expr>>,
    pub(crate) until: Option<Vec<Expr>>,
}

pub(crate) fn clauses_in(alloc: Global, fields: &Fields) -> Result<Clauses, TemplateFault>
    ensures { Gives (λ c. Some (clauses_view c)) refused result
        (clauses_in (fields_view fields.now.entries)) }
{
    Ok(Clauses {
        when: conditions_at(alloc, fields, "when")?,
        changed_when: conditions_at(alloc, fields, "changed_when")?,
        failed_when: conditions_at(alloc, fields, "failed_when")?,
        until: conditions_at(alloc, fields, "until")?,
    })
}

/// The conditions at that key; none where it isn't there.
pub fn conditions_at(
    alloc: Global,
    fields: &Fields,
    key: &str,
) -> Result<Option<Vec<Expr>>, TemplateFault>
    ensures { Gives (λ c. Some (option_map (λ es. exprs_view es.items) c)) refused result
        (conditions_at (field_value key.now (fields_view fields.now.entries))) }
{
    match field_of(fields, key) {
        None => Ok(None),
        Some(value) => Ok(Some(conditions_in(alloc, value)?)),
    }
}

/// The variables at `vars`, in the order of their names' bytes; none where there are none.
pub fn vars_in(alloc: Global, fields: &Fields) -> Result<Vec<Entry>, TemplateFault>
    ensures given { Gives (λ es. Some (entries_view es.items)) refused result
        (vars_found (field_value (codes "vars") (fields_view fields.now.entries))) }
    ensures ordered { IfOk result (λ es. are_ascending (entry_names es.items) ≡ true) }
{
    match field_of(fields, "vars") {
        None => Ok(Vec::new(alloc)),
        Some(vars) => vars_of(alloc, vars),
    }
}

fn vars_of(alloc: Global, vars: &Value) -> Result<Vec<Entry>, TemplateFault>
    ensures given { Gives (λ es. Some (entries_view es.items)) refused result
        (vars_found (Some (view vars.now))) }
    ensures ordered { IfOk result (λ es. are_ascending (entry_names es.items) ≡ true) }
{
    match vars {
        Value::Rec(fields) => entries_of(alloc, fields, None),
        _ => Ok(Vec::new(alloc)),
    }
}

pub(crate) fn loop_in(alloc: Global, fields: &Fields) -> Result<Option<Expr>, TemplateFault>
    ensures { Gives (λ e. Some (option_map expr_view e)) refused result
        (loop_at (field_value (codes "loop") (fields_view fields.now.entries))) }
{
    match field_of(fields, "loop") {
        None => Ok(None),
        Some(value) => Ok(Some(expr_of(alloc, value)?)),
    }
}

/// The text at that key, if there is one.
pub fn text_in(fields: &Fields, key: &str) -> Result<Option<Arc<String>>, AllocError>
    ensures { IfOk result (λ t. option_map (λ n. string_bytes n.value) t
        ≡ text_in (field_value key.now (fields_view fields.now.entries))) }
{
    match field_of(fields, key) {
        Some(Value::Text(text)) => Ok(Some(text.clone()?)),
        _ => Ok(None),
    }
}

/// The names at that key, which is a text, or a list of texts; none where it isn't there.
pub fn topics_in(alloc: Global, fields: &Fields, key: &str) -> Result<Vec<Arc<String>>, AllocError>
    ensures { IfOk result (λ ns. names_view ns.items
        ≡ topics_in (field_value key.now (fields_view fields.now.entries))) }
{
    match field_of(fields, key) {
        Some(Value::Text(text)) => Ok(vec![in alloc; text.clone()?]?),
        Some(Value::List(items)) => names_in(alloc, items),
        _ => Ok(Vec::new(alloc)),
    }
}

// The texts up to the first item that is none.
fn names_in(alloc: Global, items: &[Value]) -> Result<Vec<Arc<String>>, AllocError>
    ensures { IfOk result (λ ns. names_view ns.items ≡ names_in (items_view items.now)) }
{
    let mut names = Vec::with_capacity(alloc, items.len())?;
    for item in items {
        match item {
            Value::Text(text) => names.push(text.clone()?)?,
            _ => return Ok(names),
        }
    }
    Ok(names)
}

/// The truth value at that key, if there is one.
pub fn boolean_in(fields: &Fields, key: &str) -> Option<bool>
    ensures { result ≡ boolean_in (field_value key.now (fields_view fields.now.entries)) }
{
    match field_of(fields, key) {
        Some(Value::Bool(holds)) => Some(*holds),
        _ => None,
    }
}
