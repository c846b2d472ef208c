// What stands at the end of a path, and whether a host is active.
ghost use Rattle.std.specs.Prelude.{◌≡◌, IfOk, option_map, string_bytes};
ghost use Rattle.pb_semantics.specs.Words.{field_value};
ghost use Rattle.pb_language.specs.Evaluation.{host_named, host_of, is_active as active_found};
ghost use Rattle.pb_language.specs.Evaluation.{is_text_among, look, look_there, member_text};
ghost use Rattle.pb_language.specs.Evaluation.{readable, there};
ghost use Rattle.pb_language.specs.Expansion.{expanded_root, root_named};
ghost use Rattle.pb_language.specs.Words.{found, value, value_below};
ghost use Rattle.pb_language.specs.World.{member_of, variables_of};
ghost use Rattle.pb_value.specs.Words.{view};
ghost use Rattle.pb_syntax.specs.ExprView.{names_of, root_view, term_view};
ghost use Rattle.pb_eval.specs.OwnWorld.{end_of, field_in, look_view, shown, value_read};

use crate::equal::holds_opaque;
use crate::vars::Vars;
use pb_syntax::{Member, Path, Root, Term};
use pb_value::{Value, field_of};
use std::alloc::{AllocError, Global};

// What stands at the end of a path.
#[derive(Drop)]
pub(crate) enum Look {
    /// A value, which shares what lies inside with the variables.
    There(Value),
    /// Nothing.
    Absent,
    /// What can't be looked up: the host is to be the one that `item` names, which is no text, or
    /// the name of `vars` has no value that may be read.
    Failing,
}

// What stands at the end of the path.
pub(crate) fn look_at<V: Vars>(alloc: Global, path: &Path, vars: &V) -> Result<Look, AllocError>
    ensures { IfOk result (λ l. look_view l ≡ end_of (names_of path.now.steps.items)
        (look (V.world vars.now) (expanded_root (V.trees vars.now) (root_view path.now.root)))) }
{
    match &path.root {
        Root::Variable(name) => look_at_own(name.as_str(), path.slot, &path.steps, vars),
        Root::Other(host, name) => {
            look_at_other(host, name.as_str(), path.slot, &path.steps, vars)
        }
        Root::Member(member) => look_at_member(alloc, member, &path.steps, vars),
    }
}

// From a name of `vars` or a variable of the host on.
fn look_at_own<V: Vars>(
    name: &str,
    slot: Option<u32>,
    steps: &[String],
    vars: &V,
) -> Result<Look, AllocError>
    ensures { IfOk result (λ l. look_view l ≡ end_of (names_of steps.now)
        (look (V.world vars.now) (root_named name.now (V.trees vars.now name.now)))) }
{
    match vars.alias(name) {
        Some(worth) => look_at_alias(worth, steps),
        None => look_at_variable(name, slot, steps, vars),
    }
}

// From what the tree of a name of `vars` is worth on.
fn look_at_alias(worth: &Value, steps: &[String]) -> Result<Look, AllocError>
    ensures { IfOk result (λ l. look_view l
        ≡ end_of (names_of steps.now) (readable (value (view worth.now)))) }
{
    match worth {
        Value::Opaque => Ok(Look::Failing),
        worth => look_below(worth, steps),
    }
}

// From a variable of the host on.
fn look_at_variable<V: Vars>(
    name: &str,
    slot: Option<u32>,
    steps: &[String],
    vars: &V,
) -> Result<Look, AllocError>
    ensures { IfOk result (λ l. look_view l ≡ end_of (names_of steps.now)
        (found (field_value name.now (V.world vars.now).mine))) }
{
    match own_value(name, slot, vars) {
        Some(value) => look_below(value, steps),
        None => Ok(Look::Absent),
    }
}

// What a variable of the host holds.
fn own_value<'v, V: Vars>(name: &str, slot: Option<u32>, vars: &'v V) -> Option<&'v Value>
    ensures { option_map (λ v. view v.now) result
        ≡ field_value name.now (V.world vars.now).mine }
{
    match slot {
        Some(slot) => vars.value_at(slot, name),
        None => vars.value(name),
    }
}

// From a variable of the host that the term names on.
fn look_at_other<V: Vars>(
    term: &Term,
    name: &str,
    slot: Option<u32>,
    steps: &[String],
    vars: &V,
) -> Result<Look, AllocError>
    ensures { IfOk result (λ l. look_view l ≡ end_of (names_of steps.now) (look_there
        (V.world vars.now) name.now (host_of (V.world vars.now) (term_view term.now)))) }
{
    match term {
        Term::Named(host) => look_at_host(host.as_str(), name, slot, steps, vars),
        Term::This => look_at_host(vars.this(), name, slot, steps, vars),
        Term::Item => match vars.value("item") {
            Some(Value::Text(host)) => look_at_host(host.as_str(), name, slot, steps, vars),
            Some(_) => Ok(Look::Failing),
            None => Ok(Look::Absent),
        },
        Term::Member(member) => match vars.member(member.group.as_str(), member.place) {
            Some(host) => look_at_host(host, name, slot, steps, vars),
            None => Ok(Look::Absent),
        },
    }
}

// From a variable of the host of that name on.
fn look_at_host<V: Vars>(
    host: &str,
    name: &str,
    slot: Option<u32>,
    steps: &[String],
    vars: &V,
) -> Result<Look, AllocError>
    ensures { IfOk result (λ l. look_view l ≡ end_of (names_of steps.now)
        (look_there (V.world vars.now) name.now (host_named host.now))) }
{
    match other_value(host, name, slot, vars) {
        Some(value) => look_below(value, steps),
        None => Ok(Look::Absent),
    }
}

// What a variable of the host of that name holds.
fn other_value<'v, V: Vars>(
    host: &str,
    name: &str,
    slot: Option<u32>,
    vars: &'v V,
) -> Option<&'v Value>
    ensures { option_map (λ v. view v.now) result
        ≡ field_value name.now (variables_of host.now (V.world vars.now).hosts) }
{
    match slot {
        Some(slot) => vars.other_at(host, slot, name),
        None => vars.other(host, name),
    }
}

// From the name of a host of a group on.
fn look_at_member<V: Vars>(
    alloc: Global,
    member: &Member,
    steps: &[String],
    vars: &V,
) -> Result<Look, AllocError>
    ensures { IfOk result (λ l. look_view l ≡ end_of (names_of steps.now)
        (found (member_text (member_of (string_bytes member.now.group) member.now.place
        (V.world vars.now).groups)))) }
{
    match vars.member(member.group.as_str(), member.place) {
        Some(host) => {
            let name = Value::of_text(alloc, String::from_str(alloc, host)?)?;
            look_below(&name, steps)
        }
        None => Ok(Look::Absent),
    }
}

// From a value on.
fn look_below(outer: &Value, steps: &[String]) -> Result<Look, AllocError>
    ensures { IfOk result
        (λ l. look_view l ≡ end_of (names_of steps.now) (there (view outer.now))) }
{
    match inner_value(outer, steps) {
        Some(value) => Ok(Look::There(value.clone()?)),
        None => Ok(Look::Absent),
    }
}

// The value at the end of the steps, where there is one.
fn inner_value<'v>(outer: &'v Value, steps: &[String]) -> Option<&'v Value>
    ensures { option_map (λ v. view v.now) result
        ≡ value_read (value_below (names_of steps.now) (view outer.now)) }
{
    let mut here = outer;
    for step in steps {
        here = field_inside(here, step.as_str())?;
    }
    Some(here)
}

fn field_inside<'v>(outer: &'v Value, name: &str) -> Option<&'v Value>
    ensures { option_map (λ v. view v.now) result ≡ field_in name.now (view outer.now) }
{
    match outer {
        Value::Rec(fields) => field_of(fields, name),
        _ => None,
    }
}

// Whether the host that the term names is active in the batch.
pub(crate) fn activity_of<V: Vars>(term: &Term, vars: &V) -> Value
    ensures { view result ≡ shown (active_found (V.world vars.now) (term_view term.now)) }
{
    match term {
        Term::Named(host) => Value::Bool(vars.is_active(host.as_str())),
        Term::This => Value::Bool(vars.is_active(vars.this())),
        Term::Item => match vars.value("item") {
            Some(item) => activity_of_item(item, vars),
            None => Value::Opaque,
        },
        Term::Member(member) => match vars.member(member.group.as_str(), member.place) {
            Some(host) => Value::Bool(vars.is_active(host)),
            None => Value::Opaque,
        },
    }
}

// Whether the item is the name of a host that is active in the batch.
fn activity_of_item<V: Vars>(item: &Value, vars: &V) -> Value
    ensures { view result ≡ shown (is_text_among (view item.now) (V.world vars.now).batch) }
{
    match item {
        Value::Text(host) => Value::Bool(vars.is_active(host.as_str())),
        _ => {
            if holds_opaque(item) {
                return Value::Opaque;
            }
            Value::Bool(false)
        }
    }
}
