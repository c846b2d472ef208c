// The answer that a program gives by what it writes and how it ends.
ghost use Rattle.std.specs.Prelude.{◌≡◌, IfOk, false};
ghost use Rattle.pb_semantics.specs.Words.{rec};
ghost use Rattle.pb_value.specs.Words.{fields_view, json_data, view};
ghost use Rattle.pb_runner.specs.Scripts.{says_unreachable};
ghost use Rattle.pb_process.specs.Outputs.{IsOutput, IsOutputOf, IsRecord, ended_fields};

use pb_finish::{Answer, Why};
use pb_runner::script::is_unreachable;
use pb_value::{Fields, JsonFault, Value, Weighed, field_of, own_fields, put_field, read_json};
use std::alloc::{AllocError, Global};
use std::sync::Arc;

/// What the output of a program is as an answer: an object with `unreachable` true says that the
/// host can't be reached, and of a program that didn't end well an object without `failed` has it
/// true. A text that is no JSON object is broken; without memory for it there is no answer.
pub fn answer_of(alloc: Global, output: &[u8], ended_well: bool) -> Answer
    ensures { IsOutputOf ended_well (json_data output.now) result }
{
    match read_json(alloc, output) {
        Ok(value) => read_answer(alloc, value, ended_well),
        Err(JsonFault::NotJson) => Answer::Broken(Why::NotJson),
        Err(JsonFault::NoMemory) => Answer::Broken(Why::NoAnswer),
    }
}

fn read_answer(alloc: Global, value: Value, ended_well: bool) -> Answer
    ensures { IsOutput ended_well (view value) result }
{
    if is_unreachable(&value) {
        return Answer::Unreachable;
    }
    reached_answer(alloc, value, ended_well)
}

fn reached_answer(alloc: Global, value: Value, ended_well: bool) -> Answer
    requires { says_unreachable (view value) ≡ false }
    ensures { IsOutput ended_well (view value) result }
{
    match value {
        Value::Rec(fields) => record_answer(alloc, fields, ended_well),
        _ => Answer::Broken(Why::NotJson),
    }
}

fn record_answer(alloc: Global, fields: Arc<Weighed<Fields>>, ended_well: bool) -> Answer
    ensures { IsRecord ended_well (fields_view fields.value.parts.entries) result }
{
    match ended_record(alloc, fields, ended_well) {
        Ok(ended) => Answer::Object(ended),
        Err(_) => Answer::Broken(Why::NoAnswer),
    }
}

fn ended_record(
    alloc: Global,
    fields: Arc<Weighed<Fields>>,
    ended_well: bool,
) -> Result<Value, AllocError>
    ensures { IfOk result (λ v. view v
        ≡ rec (ended_fields ended_well (fields_view fields.value.parts.entries))) }
{
    let own = own_fields(fields)?;
    ended_value(alloc, own, ended_well)
}

// The record, with `failed` true where the program didn't end well and says nothing of it.
fn ended_value(alloc: Global, fields: Fields, ended_well: bool) -> Result<Value, AllocError>
    ensures { IfOk result
        (λ v. view v ≡ rec (ended_fields ended_well (fields_view fields.entries))) }
{
    let mut ended = fields;
    if !ended_well && field_of(&ended, "failed").is_none() {
        let name = String::from_str(alloc, "failed")?;
        put_field(&mut ended, name, Value::Bool(true))?;
    }
    Value::of_fields(alloc, ended)
}
