// The forms that the keywords of a task want of their values.
ghost use Rattle.std.specs.Prelude.{◌≡◌, cond, not, true};
ghost use Rattle.pb_semantics.specs.Words.{is_among};
ghost use Rattle.pb_language.specs.Keywords.{keywords_of};
ghost use Rattle.std.specs.List.{list_all};
ghost use Rattle.pb_language.specs.Rules.{is_variable_name};
ghost use Rattle.pb_language.specs.TaskForm.{are_plain_texts, fit_keywords, fits_keyword};
ghost use Rattle.pb_language.specs.TaskForm.{is_boolean};
ghost use Rattle.pb_language.specs.TaskForm.{is_handler_name, is_loop, is_name_of_variable};
ghost use Rattle.pb_language.specs.TaskForm.{is_plain_text, is_retries, is_text, is_topics};
ghost use Rattle.pb_language.specs.TaskForm.{is_vars};
ghost use Rattle.pb_language.specs.TaskForm.{keys_of};
ghost use Rattle.pb_value.specs.Words.{fields_view, items_view, view};
ghost use Rattle.pb_task.specs.Standings.{standing_view};

use crate::keyword::{Standing, is_keyword};
use pb_sig::is_variable;
use pb_template::{are_conditions, has_opening, is_template};
use pb_value::{Fields, Value};

// The most retries that may be asked for.
const MOST_RETRIES: i64 = 255;

/// Whether the value has the form that the keyword wants; of another key nothing is wanted.
pub fn fits_keyword(standing: Standing, key: &str, value: &Value) -> bool
    ensures { result ≡ fits_keyword (standing_view standing) key.now (view value.now) }
{
    match key {
        "name" => is_name(standing, value),
        "when" | "changed_when" | "failed_when" | "until" => are_conditions(value),
        "loop" => is_loop(value),
        "register" => is_name_of_variable(value),
        "vars" => is_vars(value),
        "notify" | "listen" => are_topics(value),
        "ignore_errors" => is_boolean(value),
        "retries" => are_retries(value),
        _ => true,
    }
}

// Whether each keyword has a value of its form.
pub(crate) fn fit_keywords(standing: Standing, fields: &Fields) -> bool
    ensures { result ≡ fit_keywords (standing_view standing) (fields_view fields.now.entries) }
{
    for (key, value) in fields.iter() {
        if is_misfit(standing, key.as_str(), value) {
            return false;
        }
    }
    true
}

fn is_misfit(standing: Standing, key: &str, value: &Value) -> bool
    ensures { result ≡ not (cond (is_among key.now (keywords_of (standing_view standing)))
        (fits_keyword (standing_view standing) key.now (view value.now)) true) }
{
    is_keyword(standing, key) && !fits_keyword(standing, key, value)
}

// Whether the value can be a name: of a handler it is a text without templates.
fn is_name(standing: Standing, value: &Value) -> bool
    ensures { result ≡ is_handler_name (standing_view standing) (view value.now) }
{
    match standing {
        Standing::AsHandler => is_plain_text(value),
        Standing::AtTop | Standing::InBlock => is_text(value),
    }
}

pub fn is_text(value: &Value) -> bool
    ensures { result ≡ is_text (view value.now) }
{
    matches!(value, Value::Text(_))
}

pub fn is_boolean(value: &Value) -> bool
    ensures { result ≡ is_boolean (view value.now) }
{
    matches!(value, Value::Bool(_))
}

fn is_plain_text(value: &Value) -> bool
    ensures { result ≡ is_plain_text (view value.now) }
{
    match value {
        Value::Text(text) => !has_opening(text.as_str()),
        _ => false,
    }
}

// Whether the value is a text without templates, or a list of such.
fn are_topics(value: &Value) -> bool
    ensures { result ≡ is_topics (view value.now) }
{
    match value {
        Value::List(items) => are_plain_texts(items),
        _ => is_plain_text(value),
    }
}

fn are_plain_texts(items: &[Value]) -> bool
    ensures { result ≡ are_plain_texts (items_view items.now) }
{
    for item in items {
        if !is_plain_text(item) {
            return false;
        }
    }
    true
}

// Whether the value is a list, or a text that is one template.
fn is_loop(value: &Value) -> bool
    ensures { result ≡ is_loop (view value.now) }
{
    match value {
        Value::List(_) => true,
        Value::Text(text) => is_template(text.as_str()),
        _ => false,
    }
}

fn is_name_of_variable(value: &Value) -> bool
    ensures { result ≡ is_name_of_variable (view value.now) }
{
    match value {
        Value::Text(text) => is_variable(text.as_str()),
        _ => false,
    }
}

/// Whether the value is a record each key of which is a name of a variable.
pub fn is_vars(value: &Value) -> bool
    ensures { result ≡ is_vars (view value.now) }
{
    match value {
        Value::Rec(fields) => are_variables(fields),
        _ => false,
    }
}

fn are_variables(fields: &Fields) -> bool
    ensures { result ≡ list_all is_variable_name (keys_of (fields_view fields.now.entries)) }
{
    for (key, _) in fields.iter() {
        if !is_variable(key.as_str()) {
            return false;
        }
    }
    true
}

// Whether the value is a whole number from 1 to 255.
fn are_retries(value: &Value) -> bool
    ensures { result ≡ is_retries (view value.now) }
{
    match value {
        Value::Int(number) => *number >= 1 && *number <= MOST_RETRIES,
        _ => false,
    }
}
