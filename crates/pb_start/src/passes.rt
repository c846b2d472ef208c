// What a task does at its Start: for each item a skip, a call of its module with the arguments, or
// what its action does.
ghost use Rattle.std.specs.Prelude.{◌++◌, ◌≡◌, IfOk, None, OnOk, Some, map, option_map};
ghost use Rattle.pb_language.specs.Expansion.{expanded};
ghost use Rattle.pb_language.specs.Start.{eval_item, plan_items, plan_loop, with_local_item};
ghost use Rattle.pb_language.specs.Task.{Task};
ghost use Rattle.pb_language.specs.Words.{eval as outcome_of, plan_of, value};
ghost use Rattle.pb_value.specs.Words.{items_view, view};
ghost use Rattle.pb_syntax.specs.Words.{expr_view};
ghost use Rattle.pb_start.specs.Words.{ArePlanned, IsMade, Prepares, call_arguments};
ghost use Rattle.pb_start.specs.Words.{entry_arguments, entry_view, pass_view, trees_of};

use crate::action::made;
use crate::conditions::{all_hold, is_so};
use crate::local::Local;
use crate::prepared::Prepared;
use crate::shared::Shared;
use pb_eval::eval::eval;
use pb_eval::{Aliased, Vars, values_of};
use pb_syntax::Expr;
use pb_value::{Fields, Value, Weighed};
use std::alloc::{AllocError, Global};
use std::sync::Arc;

/// What comes of a task, or of one item of it.
#[derive(Drop)]
pub enum Entry {
    /// A condition is false.
    Skips,
    /// The module is called with these arguments.
    Calls(Value),
    /// A message is shown.
    Shows,
    /// These values are set.
    Sets(Arc<Weighed<Fields>>),
    /// An assertion, which may be false, or a failure.
    Says { failed: bool, message: Value },
}

/// One item of a task, or the task itself.
#[derive(Drop)]
pub struct Pass {
    pub item: Option<Value>,
    pub entry: Entry,
}

/// What the task does in this world, in the order of its items (Ansible's pages on loops and
/// conditionals): the loop is evaluated first, then for each item the conditions and, where these
/// hold, the arguments. Where the definitions have no plan, anything.
///
/// # Errors
///
/// Want of memory.
pub fn start<V: Vars>(alloc: Global, prepared: &Prepared, vars: &V) -> Result<Vec<Pass>, AllocError>
    ensures { IfOk result (λ ps. (t : Task) → Prepares prepared.now t
        → ArePlanned ps.items (plan_of (V.world vars.now) t t.loop)) }
{
    match &prepared.loop_over {
        None => alone(alloc, prepared, vars),
        Some(items) => over(alloc, prepared, items, vars),
    }
}

/// The arguments of the calls that the passes make, in their order.
///
/// # Errors
///
/// Want of memory.
pub fn arguments_of(alloc: Global, passes: &[Pass]) -> Result<Vec<Value>, AllocError>
    ensures { IfOk result (λ vs. map view vs.items ≡ call_arguments (map pass_view passes.now)) }
{
    let mut all = Vec::new(alloc);
    for pass in passes {
        add_call(&mut all, &pass.entry)?;
    }
    Ok(all)
}

fn add_call(all: &mut Vec<Value>, entry: &Entry) -> Result<(), AllocError>
    ensures { OnOk result (map view all.new.items
        ≡ map view all.old.items ++ entry_arguments (entry_view entry.now)) }
{
    match entry {
        Entry::Calls(arguments) => {
            let copy = arguments.clone()?;
            all.push(copy)?;
            Ok(())
        }
        _ => Ok(()),
    }
}

// A task without a loop.
fn alone<V: Vars>(alloc: Global, prepared: &Prepared, vars: &V) -> Result<Vec<Pass>, AllocError>
    ensures { IfOk result (λ ps. (t : Task) → Prepares prepared.now t
        → ArePlanned ps.items (plan_of (V.world vars.now) t None)) }
{
    let entry = entry_of(alloc, prepared, None, vars)?;
    Ok(vec![in alloc; Pass { item: None, entry }]?)
}

// A task with a loop.
fn over<V: Vars>(
    alloc: Global,
    prepared: &Prepared,
    items: &Expr,
    vars: &V,
) -> Result<Vec<Pass>, AllocError>
    ensures { IfOk result (λ ps. (t : Task) → Prepares prepared.now t
        → ArePlanned ps.items (plan_loop (V.world vars.now) t (outcome_of (V.world vars.now)
        (expanded (trees_of prepared.now) (expr_view items.now))))) }
{
    let known = values_of(alloc, &prepared.names, vars)?;
    let worth = eval(alloc, items, &known)?;
    looped(alloc, prepared, worth, vars, &known)
}

// The passes of a task's items, given what its loop is worth, and what its names of `vars` are.
fn looped<V: Vars>(
    alloc: Global,
    prepared: &Prepared,
    items: Value,
    vars: &V,
    known: &Aliased<'_, V>,
) -> Result<Vec<Pass>, AllocError>
    requires { known.now ≡ (vars.now, prepared.now.names.items) }
    ensures { IfOk result (λ ps. (t : Task) → Prepares prepared.now t
        → ArePlanned ps.items (plan_loop (V.world vars.now) t (value (view items)))) }
{
    match &items {
        Value::List(items) => passes_of(alloc, prepared, items, vars, known),
        _ => Ok(Vec::new(alloc)),
    }
}

fn passes_of<V: Vars>(
    alloc: Global,
    prepared: &Prepared,
    items: &[Value],
    vars: &V,
    known: &Aliased<'_, V>,
) -> Result<Vec<Pass>, AllocError>
    requires { known.now ≡ (vars.now, prepared.now.names.items) }
    ensures { IfOk result (λ ps. (t : Task) → Prepares prepared.now t
        → ArePlanned ps.items (plan_items (V.world vars.now) t (items_view items.now))) }
{
    let mut passes = Vec::with_capacity(alloc, items.len())?;
    for item in items {
        let entry = item_entry(alloc, prepared, item, vars, known)?;
        passes.push(Pass {
            item: Some(item.clone()?),
            entry,
        })?;
    }
    Ok(passes)
}

// What comes of an item. Names of `vars` that may read it are worked out for it, and others aren't.
fn item_entry<V: Vars>(
    alloc: Global,
    prepared: &Prepared,
    item: &Value,
    vars: &V,
    known: &Aliased<'_, V>,
) -> Result<Entry, AllocError>
    requires { known.now ≡ (vars.now, prepared.now.names.items) }
    ensures { IfOk result (λ e. (t : Task) → Prepares prepared.now t
        → IsMade e (eval_item (with_local_item (V.world vars.now) (Some (view item.now))) t)) }
{
    if prepared.names_read_item {
        return entry_of(alloc, prepared, Some(item), vars);
    }
    let local = Local {
        vars,
        name: "item",
        value: Some(item),
    };
    let shared = Shared::of(&local, known);
    entry_in(alloc, prepared, &shared)
}

// What comes of an item, or of the task itself.
fn entry_of<V: Vars>(
    alloc: Global,
    prepared: &Prepared,
    item: Option<&Value>,
    vars: &V,
) -> Result<Entry, AllocError>
    ensures { IfOk result (λ e. (t : Task) → Prepares prepared.now t
        → IsMade e (eval_item (with_local_item (V.world vars.now)
        (option_map (λ v. view v.now) item.entry)) t)) }
{
    let local = Local {
        vars,
        name: "item",
        value: item,
    };
    let known = values_of(alloc, &prepared.names, &local)?;
    entry_in(alloc, prepared, &known)
}

// What comes of the task in a world in which its names of `vars` are worked out.
fn entry_in<K: Vars>(alloc: Global, prepared: &Prepared, known: &K) -> Result<Entry, AllocError>
    requires { K.trees known.now ≡ trees_of prepared.now }
    ensures { IfOk result (λ e. (t : Task) → Prepares prepared.now t
        → IsMade e (eval_item (K.world known.now) t)) }
{
    let holds = all_hold(alloc, &prepared.conditions, known)?;
    if is_so(holds) {
        return made(alloc, &prepared.action, known);
    }
    Ok(Entry::Skips)
}
