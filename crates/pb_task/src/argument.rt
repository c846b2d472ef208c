// What a task does, with its arguments.
ghost use Rattle.std.specs.Prelude.{◌≡◌, IfOk, IfSome, None, Some, option_map, true};
ghost use Rattle.pb_semantics.specs.Words.{Gives, rec};
ghost use Rattle.pb_language.specs.TaskForm.{arguments_in, asserted_in, assertion};
ghost use Rattle.pb_language.specs.Book.{Registry, module_work};
ghost use Rattle.pb_language.specs.Expression.{no_parts};
ghost use Rattle.pb_language.specs.Texts.{value_of, with_part};
ghost use Rattle.pb_sig.specs.Words.{known_view};
ghost use Rattle.pb_value.specs.Words.{fields_view, view};
ghost use Rattle.pb_template.specs.Faults.{refused};
ghost use Rattle.pb_template.specs.Words.{are_ascending, entries_view, entry_names};
ghost use Rattle.pb_task.specs.Doings.{IsFound, doing_view, module_of, whole_argument};
ghost use Rattle.pb_task.specs.Doings.{work_doing};
ghost use Rattle.pb_task.specs.Tasks.{Resolves, asserted_view, work_view, worked};

use crate::task::{Asserted, Work};
use crate::work::Doing;
use pb_sig::{Known, Module};
use pb_template::{Entry, TemplateFault, are_conditions, conditions_in, entries_of, expr_of};
use pb_value::{Fields, Value, field_of};
use std::alloc::Global;
use std::sync::Arc;

// The conditions of an `assert`.
pub(crate) const THAT: &str = "that";

// The work and its arguments; none of a flush.
pub(crate) fn work_with(
    alloc: Global,
    doing: Doing<'_>,
    given: &Value,
) -> Result<Option<(Work, Vec<Entry>)>, TemplateFault>
    ensures given { Gives (λ w. Some (option_map worked w)) refused result
        (work_doing (doing_view doing.entry) (view given.now)) }
    ensures resolved { (ms : Registry) → IsFound ms (doing_view doing.entry)
        → IfOk result (λ w. IfSome w (λ p. Resolves ms p.0)) }
    ensures ordered { IfOk result (λ w. IfSome w
        (λ p. are_ascending (entry_names p.1.items) ≡ true)) }
{
    match doing {
        Doing::Flush => Ok(None),
        Doing::Debug => Ok(Some((Work::Debug, arguments_in(alloc, None, given)?))),
        Doing::SetFact => Ok(Some((Work::SetFact, arguments_in(alloc, None, given)?))),
        Doing::Fail => Ok(Some((Work::Fail, arguments_in(alloc, None, given)?))),
        Doing::Assert => Ok(Some(assertion(alloc, given)?)),
        Doing::Module(module) => Ok(Some(call_of(alloc, module, given)?)),
    }
}

// A call of the module.
fn call_of(
    alloc: Global,
    module: &Arc<Known>,
    given: &Value,
) -> Result<(Work, Vec<Entry>), TemplateFault>
    ensures given { Gives (λ p. Some (worked p)) refused result
        (option_map (module_work (known_view module.now.value).name)
        (arguments_in (known_view module.now.value).free (view given.now))) }
    ensures ordered { IfOk result (λ p. are_ascending (entry_names p.1.items) ≡ true) }
    ensures resolved { (ms : Registry) → IsFound ms (module_of (known_view module.now.value))
        → IfOk result (λ p. Resolves ms p.0) }
{
    let arguments = arguments_in(alloc, module.free_form(), given)?;
    Ok((Work::Module(module.clone()?), arguments))
}

// The arguments that the value of a module's key gives.
fn arguments_in(
    alloc: Global,
    free: Option<&str>,
    given: &Value,
) -> Result<Vec<Entry>, TemplateFault>
    ensures given { Gives (λ es. Some (entries_view es.items)) refused result
        (arguments_in (option_map (λ n. n.now) free.entry) (view given.now)) }
    ensures ordered { IfOk result (λ es. are_ascending (entry_names es.items) ≡ true) }
{
    match given {
        Value::Rec(fields) => entries_of(alloc, fields, None),
        Value::Text(_) => free_argument(alloc, free, given),
        _ => Ok(Vec::new(alloc)),
    }
}

// The value as the one argument of the free form, if there is one.
fn free_argument(
    alloc: Global,
    free: Option<&str>,
    given: &Value,
) -> Result<Vec<Entry>, TemplateFault>
    ensures given { Gives (λ es. Some (entries_view es.items)) refused result
        (whole_argument (option_map (λ n. n.now) free.entry) (view given.now)) }
    ensures ordered { IfOk result (λ es. are_ascending (entry_names es.items) ≡ true) }
{
    match free {
        None => Ok(Vec::new(alloc)),
        Some(name) => lone_argument(alloc, name, given),
    }
}

fn lone_argument(alloc: Global, name: &str, given: &Value) -> Result<Vec<Entry>, TemplateFault>
    ensures given { Gives (λ es. Some (entries_view es.items)) refused result
        (with_part name.now (value_of (view given.now)) (Some no_parts)) }
    ensures ordered { IfOk result (λ es. are_ascending (entry_names es.items) ≡ true) }
{
    let argument = Entry {
        name: Arc::new(alloc, String::from_str(alloc, name)?)?,
        value: expr_of(alloc, given)?,
    };
    Ok(vec![in alloc; argument]?)
}

// An `assert` with its arguments.
fn assertion(alloc: Global, given: &Value) -> Result<(Work, Vec<Entry>), TemplateFault>
    ensures given { Gives (λ p. Some (worked p)) refused result (assertion (view given.now)) }
    ensures resolved { IfOk result (λ p. (ms : Registry) → Resolves ms p.0) }
    ensures ordered { IfOk result (λ p. are_ascending (entry_names p.1.items) ≡ true) }
{
    match given {
        Value::Rec(fields) => assertion_of(alloc, fields),
        _ => Ok((Work::Assert(Asserted::NotGiven), Vec::new(alloc))),
    }
}

fn assertion_of(alloc: Global, fields: &Fields) -> Result<(Work, Vec<Entry>), TemplateFault>
    ensures given { Gives (λ p. Some (worked p)) refused result
        (assertion (rec (fields_view fields.now.entries))) }
    ensures resolved { IfOk result (λ p. (ms : Registry) → Resolves ms p.0) }
    ensures ordered { IfOk result (λ p. are_ascending (entry_names p.1.items) ≡ true) }
{
    let asserted = asserted_in(alloc, field_of(fields, THAT))?;
    let arguments = entries_of(alloc, fields, Some(THAT))?;
    Ok((Work::Assert(asserted), arguments))
}

fn asserted_in(alloc: Global, that: Option<&Value>) -> Result<Asserted, TemplateFault>
    ensures { Gives (λ a. Some (asserted_view a)) refused result
        (asserted_in (option_map (λ v. view v.now) that.entry)) }
{
    match that {
        None => Ok(Asserted::NotGiven),
        Some(value) => asserted_of(alloc, value),
    }
}

// What is asserted are conditions, where it has their form; else its texts are read all the same.
fn asserted_of(alloc: Global, value: &Value) -> Result<Asserted, TemplateFault>
    ensures { Gives (λ a. Some (asserted_view a)) refused result
        (asserted_in (Some (view value.now))) }
{
    if are_conditions(value) {
        return Ok(Asserted::Conditions(conditions_in(alloc, value)?));
    }
    drop(expr_of(alloc, value)?);
    Ok(Asserted::Malformed)
}
