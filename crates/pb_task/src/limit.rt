// The limits of a task's texts, expressions, loops and values.
ghost use Rattle.std.specs.Prelude.{◌≡◌, Some, option_map};
ghost use Rattle.pb_semantics.specs.Words.{list, rec};
ghost use Rattle.pb_language.specs.TaskForm.{are_arguments_within, is_assertion_within};
ghost use Rattle.pb_language.specs.TaskForm.{is_loop_within, is_past_limits, is_record_within};
ghost use Rattle.pb_language.specs.TaskForm.{is_work_within, short_conditions};
ghost use Rattle.pb_value.specs.Words.{fields_view, items_view, view};
ghost use Rattle.pb_task.specs.Limits.{are_keywords_within, are_values_within_limits};
ghost use Rattle.pb_task.specs.Standings.{standing_view};

use crate::argument::THAT;
use crate::keyword::Standing;
use crate::work::lone_work;
use pb_template::{
    LongText, are_conditions, are_short_conditions, are_values_within, is_list_within,
    is_text_within, some_field_holds,
};
use pb_value::{Fields, Value, field_of};

// The most items of a loop that is written out.
const MOST_LOOP_ITEMS: usize = 1_024;

// Whether a text, an expression, a loop or a value is past its limit.
pub(crate) fn is_past_limits(standing: Standing, fields: &Fields) -> bool
    ensures { result ≡ is_past_limits (standing_view standing) (fields_view fields.now.entries) }
{
    some_field_holds::<LongText>(fields) || !are_keywords_within(standing, fields)
}

fn are_keywords_within(standing: Standing, fields: &Fields) -> bool
    ensures { result ≡ are_keywords_within (standing_view standing)
        (fields_view fields.now.entries) }
{
    are_conditions_short(field_of(fields, "when"))
        && are_conditions_short(field_of(fields, "changed_when"))
        && are_conditions_short(field_of(fields, "failed_when"))
        && are_conditions_short(field_of(fields, "until"))
        && are_values_within_limits(standing, fields)
}

fn are_values_within_limits(standing: Standing, fields: &Fields) -> bool
    ensures { result ≡ are_values_within_limits (standing_view standing)
        (fields_view fields.now.entries) }
{
    is_loop_within(field_of(fields, "loop"))
        && is_record_within(field_of(fields, "vars"))
        && is_work_within(lone_work(standing, fields))
}

/// Whether none of the conditions is too long, if they are given.
pub fn are_conditions_short(value: Option<&Value>) -> bool
    ensures { result ≡ short_conditions (option_map (λ v. view v.now) value.entry) }
{
    match value {
        None => true,
        Some(value) => are_short_conditions(value),
    }
}

fn is_loop_within(value: Option<&Value>) -> bool
    ensures { result ≡ is_loop_within (option_map (λ v. view v.now) value.entry) }
{
    match value {
        None => true,
        Some(value) => are_repeats_within(value),
    }
}

fn are_repeats_within(value: &Value) -> bool
    ensures { result ≡ is_loop_within (Some (view value.now)) }
{
    match value {
        Value::List(items) => is_written_loop_within(items),
        Value::Text(text) => is_text_within(text.as_str()),
        _ => true,
    }
}

// Whether a loop that is written out isn't too long, and each of its items is within the limits.
fn is_written_loop_within(items: &[Value]) -> bool
    ensures { result ≡ is_loop_within (Some (list (items_view items.now))) }
{
    items.len() <= MOST_LOOP_ITEMS && is_list_within(items)
}

/// Whether each value of the record, if it is one, is within the limits.
pub fn is_record_within(value: Option<&Value>) -> bool
    ensures { result ≡ is_record_within (option_map (λ v. view v.now) value.entry) }
{
    match value {
        None => true,
        Some(value) => are_fields_within(value),
    }
}

fn are_fields_within(value: &Value) -> bool
    ensures { result ≡ is_record_within (Some (view value.now)) }
{
    match value {
        Value::Rec(fields) => are_values_within(fields, None),
        _ => true,
    }
}

fn is_work_within(work: Option<(&str, &Value)>) -> bool
    ensures { result ≡ is_work_within (option_map (λ w. (w.0.now, view w.1.now)) work.entry) }
{
    match work {
        None => true,
        Some((name, given)) => are_given_within(name, given),
    }
}

fn are_given_within(name: &str, given: &Value) -> bool
    ensures { result ≡ is_work_within (Some (name.now, view given.now)) }
{
    if name == "assert" {
        is_assertion_within(given)
    } else {
        are_arguments_within(given)
    }
}

fn are_arguments_within(given: &Value) -> bool
    ensures { result ≡ are_arguments_within (view given.now) }
{
    match given {
        Value::Text(text) => is_text_within(text.as_str()),
        Value::Rec(fields) => are_values_within(fields, None),
        _ => true,
    }
}

fn is_assertion_within(given: &Value) -> bool
    ensures { result ≡ is_assertion_within (view given.now) }
{
    match given {
        Value::Rec(fields) => are_asserted_within(fields),
        _ => true,
    }
}

fn are_asserted_within(fields: &Fields) -> bool
    ensures { result ≡ is_assertion_within (rec (fields_view fields.now.entries)) }
{
    match field_of(fields, THAT) {
        Some(that) if are_conditions(that) => {
            are_short_conditions(that) && are_values_within(fields, Some(THAT))
        }
        _ => are_values_within(fields, None),
    }
}
