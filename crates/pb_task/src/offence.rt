// What is wrong with a task before its texts are read.
ghost use Rattle.std.specs.Prelude.{◌||◌, ◌≡◌, None, codes, not, option_map};
ghost use Rattle.std.specs.List.{list_all};
ghost use Rattle.std.specs.Str.{bytes_eq};
ghost use Rattle.pb_semantics.specs.Words.{is_among};
ghost use Rattle.pb_language.specs.Keywords.{keywords_of};
ghost use Rattle.pb_language.specs.TaskForm.{fit_works, fits_until, fits_work, has_key};
ghost use Rattle.pb_language.specs.TaskForm.{has_wrong_value, is_arguments, is_flush, is_meta};
ghost use Rattle.pb_language.specs.TaskForm.{code_where, is_known_work, keys_of, works_in};
ghost use Rattle.pb_value.specs.Words.{fields_view, view};
ghost use Rattle.pb_sig.specs.Words.{modules_of};
ghost use Rattle.pb_task.specs.Offences.{form_offence, number_of};
ghost use Rattle.pb_task.specs.Standings.{standing_view};

use crate::fault::Code;
use crate::form::fit_keywords;
use crate::keyword::{Standing, has_left_out, is_keyword};
use crate::work::{doing_in, has_action, is_action, is_work, lone_work};
use pb_sig::{Module, Registry, without_prefix};
use pb_template::{OpaqueNumber, some_field_holds};
use pb_value::{Fields, Value, field_of};

// The least of the codes that apply to the keys and the forms of their values.
pub(crate) fn form_offence(registry: &Registry, standing: Standing, fields: &Fields) -> Option<Code>
    ensures { option_map number_of result ≡ form_offence (modules_of registry.now)
        (standing_view standing) (fields_view fields.now.entries) }
{
    if has_left_out(standing, fields) {
        return Some(Code::Keyword);
    }
    if has_wrong_value(registry, standing, fields) {
        return Some(Code::Value);
    }
    match lone_work(standing, fields) {
        None => Some(Code::Work),
        Some((name, _)) => unknown_offence(registry, name),
    }
}

fn unknown_offence(registry: &Registry, name: &str) -> Option<Code>
    ensures { option_map number_of result
        ≡ code_where (not (is_known_work (modules_of registry.now) name.now)) 6 None }
{
    match doing_in(registry, name) {
        None => Some(Code::Module),
        Some(_) => None,
    }
}

// Whether some value has a wrong form, or is a number that is no whole number of 64 bits.
fn has_wrong_value(registry: &Registry, standing: Standing, fields: &Fields) -> bool
    ensures { result ≡ has_wrong_value (modules_of registry.now) (standing_view standing)
        (fields_view fields.now.entries) }
{
    some_field_holds::<OpaqueNumber>(fields)
        || !fit_keywords(standing, fields)
        || !fit_works(registry, standing, fields)
        || !fits_until(standing, fields)
}

// Whether what stands at each module and action has the form of its arguments.
fn fit_works(registry: &Registry, standing: Standing, fields: &Fields) -> bool
    ensures { result ≡ fit_works (modules_of registry.now) (standing_view standing)
        (fields_view fields.now.entries)
        (works_in (standing_view standing) (fields_view fields.now.entries)) }
{
    for (key, value) in fields.iter() {
        if is_work(standing, key.as_str()) {
            let name = without_prefix(key.as_str());
            if !fits_work(registry, standing, fields, name, value) {
                return false;
            }
        }
    }
    true
}

fn fits_work(
    registry: &Registry,
    standing: Standing,
    fields: &Fields,
    name: &str,
    value: &Value,
) -> bool
    ensures { result ≡ fits_work (modules_of registry.now) (standing_view standing)
        (fields_view fields.now.entries) name.now (view value.now) }
{
    if name == "meta" {
        return is_meta(standing, fields, value);
    }
    if is_action(name) {
        return are_arguments(None, value);
    }
    match registry.resolve(name) {
        None => true,
        Some(module) => are_arguments(module.free_form(), value),
    }
}

// Whether the value is a record or null, or a text where a parameter stands for one.
fn are_arguments(free: Option<&str>, value: &Value) -> bool
    ensures { result ≡ is_arguments (option_map (λ n. n.now) free.entry) (view value.now) }
{
    match value {
        Value::Null | Value::Rec(_) => true,
        Value::Text(_) => free.is_some(),
        _ => false,
    }
}

// Whether `meta` stands at the top of a section, with no keyword but `name` beside it.
fn is_meta(standing: Standing, fields: &Fields, value: &Value) -> bool
    ensures { result ≡ is_meta (standing_view standing) (fields_view fields.now.entries)
        (view value.now) }
{
    is_flush(standing, value) && has_no_keyword(standing, fields)
}

fn is_flush(standing: Standing, value: &Value) -> bool
    ensures { result ≡ is_flush (standing_view standing) (view value.now) }
{
    match (standing, value) {
        (Standing::AtTop, Value::Text(text)) => text.as_str() == "flush_handlers",
        _ => false,
    }
}

// Whether no keyword is there but `name`.
fn has_no_keyword(standing: Standing, fields: &Fields) -> bool
    ensures { result ≡ list_all (λ n. bytes_eq n (codes "name")
        || not (is_among n (keywords_of (standing_view standing))))
        (keys_of (fields_view fields.now.entries)) }
{
    for (key, _) in fields.iter() {
        if key.as_str() != "name" && is_keyword(standing, key.as_str()) {
            return false;
        }
    }
    true
}

// Whether `until` repeats a module's call without a loop, and `retries` stands beside it alone.
fn fits_until(standing: Standing, fields: &Fields) -> bool
    ensures { result ≡ fits_until (standing_view standing) (fields_view fields.now.entries) }
{
    if has_key(fields, "until") {
        !has_key(fields, "loop") && !has_action(standing, fields)
    } else {
        !has_key(fields, "retries")
    }
}

/// Whether the record has that key.
pub fn has_key(fields: &Fields, key: &str) -> bool
    ensures { result ≡ has_key key.now (fields_view fields.now.entries) }
{
    field_of(fields, key).is_some()
}
