// The one entry of a task that says what it does.
ghost use Rattle.std.specs.Prelude.{◌&&◌, ◌≡◌, IfSome, option_map};
ghost use Rattle.std.specs.List.{list_any};
ghost use Rattle.pb_language.specs.TaskForm.{is_action, keys_of, lone, works_in};
ghost use Rattle.pb_value.specs.Words.{fields_view, view};
ghost use Rattle.pb_sig.specs.Words.{modules_of};
ghost use Rattle.pb_language.specs.TaskForm.{module_at, without_prefix};
ghost use Rattle.pb_task.specs.Doings.{IsFound, doing_in, doing_view, is_work};
ghost use Rattle.pb_task.specs.Doings.{module_of};
ghost use Rattle.pb_task.specs.Standings.{standing_view};

use crate::keyword::{Standing, is_keyword, is_left_out};
use pb_sig::{Known, Registry, without_prefix};
use pb_value::{Fields, Value};
use std::sync::Arc;

// What the name of an action or a module stands for.
#[derive(Drop)]
pub(crate) enum Doing<'r> {
    // The handlers that are notified are run.
    Flush,
    Debug,
    SetFact,
    Assert,
    Fail,
    Module(&'r Arc<Known>),
}

// What the name stands for, without a prefix; none where it is unknown.
pub(crate) fn doing_in<'r>(registry: &'r Registry, name: &str) -> Option<Doing<'r>>
    ensures given { option_map doing_view result ≡ doing_in (modules_of registry.now) name.now }
    ensures found { IfSome result (λ d. IsFound (modules_of registry.now) (doing_view d)) }
{
    match name {
        "debug" => Some(Doing::Debug),
        "set_fact" => Some(Doing::SetFact),
        "fail" => Some(Doing::Fail),
        "assert" => Some(Doing::Assert),
        "meta" => Some(Doing::Flush),
        _ => module_in(registry, name),
    }
}

fn module_in<'r>(registry: &'r Registry, name: &str) -> Option<Doing<'r>>
    ensures found { IfSome result (λ d. IsFound (modules_of registry.now) (doing_view d)) }
    ensures given { option_map doing_view result
        ≡ option_map module_of (module_at name.now (modules_of registry.now)) }
{
    match registry.resolve(name) {
        Some(module) => Some(Doing::Module(module)),
        None => None,
    }
}

// Whether the key is neither a keyword nor left out.
pub(crate) fn is_work(standing: Standing, key: &str) -> bool
    ensures { result ≡ is_work (standing_view standing) key.now }
{
    !is_keyword(standing, key) && !is_left_out(standing, key)
}

// The one entry that says what the task does, its name without a prefix; none where there is no
// such entry, or more than one.
pub(crate) fn lone_work(standing: Standing, fields: &Fields) -> Option<(&str, &Value)>
    ensures { option_map (λ e. (e.0.now, view e.1.now)) result
        ≡ lone (works_in (standing_view standing) (fields_view fields.now.entries)) }
{
    let mut found = None;
    for (key, value) in fields.iter() {
        if is_work(standing, key.as_str()) {
            if found.is_some() {
                return None;
            }
            found = Some((without_prefix(key.as_str()), value));
        }
    }
    found
}

// Whether some entry says that an action is done.
pub(crate) fn has_action(standing: Standing, fields: &Fields) -> bool
    ensures { result ≡ list_any is_action
        (keys_of (works_in (standing_view standing) (fields_view fields.now.entries))) }
{
    for (key, _) in fields.iter() {
        if is_action_at(standing, key.as_str()) {
            return true;
        }
    }
    false
}

fn is_action_at(standing: Standing, key: &str) -> bool
    ensures { result ≡ is_work (standing_view standing) key.now
        && is_action (without_prefix key.now) }
{
    is_work(standing, key) && is_action(without_prefix(key))
}

pub(crate) fn is_action(name: &str) -> bool
    ensures { result ≡ is_action name.now }
{
    matches!(name, "debug" | "set_fact" | "assert" | "fail")
}
