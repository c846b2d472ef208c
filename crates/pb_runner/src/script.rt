// Answers from a file, in place of modules.
ghost use Rattle.std.specs.Prelude.{◌<◌, ◌↔◌, ◌≡◌, ◌≤◌, Err, IfOk, IsErr, IsTrue, Ok, codes, false};
ghost use Rattle.std.specs.Prelude.{length, option_map, true};
ghost use Rattle.pb_semantics.specs.Words.{Gives, field_value, flag_is, most_answer_bytes};
ghost use Rattle.pb_value.specs.Words.{fields_view, items_view, view};
ghost use Rattle.pb_runner.specs.Scripts.{Answers, IsObject, IsScripted, answers_in};
ghost use Rattle.pb_runner.specs.Scripts.{are_lists_of_objects as all_lists_of_objects};
ghost use Rattle.pb_runner.specs.Scripts.{are_objects as all_objects, entry_of};
ghost use Rattle.pb_runner.specs.Scripts.{is_list_of_objects as is_answer_list, item_at};
ghost use Rattle.pb_runner.specs.Scripts.{says_unreachable, script_fault, script_in, scripted};

use crate::runner::Runner;
use pb_finish::{Answer, Why};
use pb_jobs::Call;
use pb_value::{Fields, JsonFault, Value, Weighed, field_of, read_json};
use std::alloc::{AllocError, Global};
use std::sync::Arc;
use thiserror::Error;

/// The most bytes of a file of answers.
pub const ANSWERS_LIMIT: usize = 67_108_864;

/// Why a file of answers isn't read.
#[derive(Debug, Drop, Error)]
pub enum ScriptFault {
    #[error("not JSON")]
    NotJson,
    /// It isn't an object from host names to lists of objects.
    #[error("not an object from host names to lists of objects")]
    Shape,
    /// It is longer than 67,108,864 bytes.
    #[error("too long")]
    Limit,
    #[error("want of memory")]
    NoMemory,
}

impl From<JsonFault> for ScriptFault {
    ghost use Rattle.std.specs.Prelude.{◌≡◌};
    ghost use Rattle.pb_runner.specs.Faults.{from_json};

    ghost from_gives = { λ e f. f ≡ from_json e };

    fn from(fault: JsonFault) -> ScriptFault {
        match fault {
            JsonFault::NotJson => ScriptFault::NotJson,
            JsonFault::NoMemory => ScriptFault::NoMemory,
        }
    }
}

/// Answers the call numbered n of a host with entry n of the host's list.
#[derive(Drop)]
pub struct ScriptRunner {
    answers: Arc<Weighed<Fields>>,
    made: u64,
    is_short: bool,
}

impl ScriptRunner {
    /// Reads a JSON object from host names to lists of objects; of a host that nobody calls the
    /// shape is asked too. Of a text that is too long nothing else is asked.
    pub fn read(alloc: Global, bytes: &[u8]) -> Result<ScriptRunner, ScriptFault>
        ensures read { length bytes.now ≤ most_answer_bytes
            → Gives (λ r. Ok (answers_in r)) script_fault result (script_in bytes.now) }
        ensures long { most_answer_bytes < length bytes.now → result ≡ Err ScriptFault.Limit }
        ensures made { IfOk result (λ r. r.made ≡ 0) }
        ensures fine { IfOk result (λ r. r.is_short ≡ false) }
    {
        if is_too_long(bytes) {
            return Err(ScriptFault::Limit);
        }
        match read_json(alloc, bytes)? {
            Value::Rec(answers) => {
                if !are_lists_of_objects(&answers) {
                    return Err(ScriptFault::Shape);
                }
                Ok(ScriptRunner {
                    answers,
                    made: 0,
                    is_short: false,
                })
            }
            _ => Err(ScriptFault::Shape),
        }
    }

    /// Another runner that answers from the same file, and has made no calls.
    ///
    /// # Errors
    ///
    /// There are too many that share the file.
    pub fn share(&self) -> Result<ScriptRunner, AllocError>
        ensures file { IfOk result (λ r. answers_in r ≡ answers_in self.now) }
        ensures made { IfOk result (λ r. r.made ≡ 0) }
        ensures fine { IfOk result (λ r. r.is_short ≡ false) }
    {
        Ok(ScriptRunner {
            answers: self.answers.clone()?,
            made: 0,
            is_short: false,
        })
    }
}

fn is_too_long(bytes: &[u8]) -> bool
    ensures { IsTrue result ↔ most_answer_bytes < length bytes.now }
{
    bytes.len() > ANSWERS_LIMIT
}

fn are_lists_of_objects(answers: &Fields) -> bool
    ensures { result ≡ all_lists_of_objects (fields_view answers.now.entries) }
{
    for (_, list) in answers.iter() {
        if !is_list_of_objects(list) {
            return false;
        }
    }
    true
}

fn is_list_of_objects(list: &Value) -> bool
    ensures { result ≡ is_answer_list (view list.now) }
{
    match list {
        Value::List(items) => are_objects(items),
        _ => false,
    }
}

fn are_objects(items: &[Value]) -> bool
    ensures { result ≡ all_objects (items_view items.now) }
{
    for item in items {
        if !matches!(item, Value::Rec(_)) {
            return false;
        }
    }
    true
}

impl Runner for ScriptRunner {
    ghost calls = { λ r. r.made };

    ghost answers = { IsScripted };

    ghost short = { λ r. r.is_short };

    fn call(&mut self, call: &Call) -> Answer {
        self.made += 1;
        match answer_of(&self.answers, call.name.as_str(), call.number) {
            Ok(answer) => answer,
            Err(_) => {
                self.is_short = true;
                Answer::Broken(Why::NoAnswer)
            }
        }
    }

    fn made(&self) -> u64 {
        self.made
    }

    fn is_short(&self) -> bool {
        self.is_short
    }
}

// The file's answer to the call of that number on the host. Only an object is given out at the cost
// of memory.
fn answer_of(answers: &Fields, host: &str, number: u64) -> Result<Answer, AllocError>
    ensures given { IfOk result
        (λ a. Answers a (scripted (fields_view answers.now.entries) host.now number)) }
    ensures memory { IsErr result
        → IsObject (scripted (fields_view answers.now.entries) host.now number) }
{
    let Some(entry) = entry_in(answers, host, number) else {
        return Ok(Answer::Broken(Why::NoAnswer));
    };
    if is_unreachable(entry) {
        return Ok(Answer::Unreachable);
    }
    Ok(Answer::Object(entry.clone()?))
}

// The entry of that number in the host's list.
fn entry_in<'a>(answers: &'a Fields, host: &str, number: u64) -> Option<&'a Value>
    ensures { option_map (λ v. view v.now) result
        ≡ entry_of number (field_value host.now (fields_view answers.now.entries)) }
{
    match field_of(answers, host) {
        Some(Value::List(items)) => item_in(items, number),
        _ => None,
    }
}

fn item_in(items: &[Value], number: u64) -> Option<&Value>
    ensures { option_map (λ v. view v.now) result ≡ item_at number (items_view items.now) }
{
    items.get(number as usize)
}

/// Whether the object has `unreachable` true.
pub fn is_unreachable(entry: &Value) -> bool
    ensures { result ≡ says_unreachable (view entry.now) }
{
    match entry {
        Value::Rec(fields) => says_so(fields),
        _ => false,
    }
}

fn says_so(fields: &Fields) -> bool
    ensures { result ≡ flag_is true
        (field_value (codes "unreachable") (fields_view fields.now.entries)) }
{
    match field_of(fields, "unreachable") {
        Some(Value::Bool(holds)) => *holds,
        _ => false,
    }
}
