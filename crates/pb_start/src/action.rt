// What comes of a task's action, or of one item of it.
ghost use Rattle.std.specs.Prelude.{◌≡◌, IfOk, option_map};
ghost use Rattle.pb_semantics.specs.Words.{text};
ghost use Rattle.pb_language.specs.Expansion.{all_expanded};
ghost use Rattle.pb_language.specs.Plays.{expanded_option};
ghost use Rattle.pb_language.specs.Start.{eval_text_or, no_changes, set_by, unchanged_with};
ghost use Rattle.pb_language.specs.Task.{assertion, failure_of};
ghost use Rattle.pb_language.specs.Words.{acts, eval_action};
ghost use Rattle.pb_value.specs.Words.{view};
ghost use Rattle.pb_syntax.specs.Words.{expr_view, exprs_view};
ghost use Rattle.pb_start.specs.Words.{IsMade, IsValue, action_view, entry_view, shape_of};

use crate::conditions::{all_hold, is_so};
use crate::passes::Entry;
use crate::prepared::Action;
use pb_eval::Vars;
use pb_eval::eval::{eval, record_of};
use pb_syntax::Expr;
use pb_value::Value;
use std::alloc::{AllocError, Global};

// What comes of the action in this world; anything where the definitions make nothing of it.
pub(crate) fn made<V: Vars>(alloc: Global, action: &Action, vars: &V) -> Result<Entry, AllocError>
    ensures { IfOk result (λ e. IsMade e
        (eval_action (V.world vars.now) (action_view (V.trees vars.now) action.now))) }
{
    match action {
        Action::Call { arguments, .. } => Ok(Entry::Calls(record_of(alloc, arguments, vars)?)),
        Action::Debug(_) => Ok(Entry::Shows),
        Action::SetFact(facts) => Ok(setting(record_of(alloc, facts, vars)?)),
        Action::Assert {
            conditions,
            message,
        } => asserted(alloc, conditions, message.as_ref(), vars),
        Action::Fail(message) => failed(alloc, message.as_ref(), vars),
    }
}

// What is no record sets nothing.
fn setting(arguments: Value) -> Entry
    ensures { IsMade result (set_by (view arguments)) }
{
    match arguments {
        Value::Rec(facts) => Entry::Sets(facts),
        _ => Entry::Shows,
    }
}

// The message is evaluated only where the conditions don't hold.
fn asserted<V: Vars>(
    alloc: Global,
    conditions: &[Expr],
    message: Option<&Expr>,
    vars: &V,
) -> Result<Entry, AllocError>
    ensures { IfOk result (λ e. IsMade e (eval_action (V.world vars.now)
        (assertion (all_expanded (V.trees vars.now) (exprs_view conditions.now))
        (expanded_option (V.trees vars.now)
        (option_map (λ m. expr_view m.now) message.entry))))) }
{
    let holds = all_hold(alloc, conditions, vars)?;
    if is_so(holds) {
        let passed = text_of(alloc, "All assertions passed")?;
        return Ok(said(false, passed));
    }
    let told = message_or(alloc, "Assertion failed", message, vars)?;
    Ok(said(true, told))
}

fn failed<V: Vars>(alloc: Global, message: Option<&Expr>, vars: &V) -> Result<Entry, AllocError>
    ensures { IfOk result (λ e. IsMade e (eval_action (V.world vars.now)
        (failure_of (expanded_option (V.trees vars.now)
        (option_map (λ m. expr_view m.now) message.entry))))) }
{
    let reason = message_or(alloc, "Failed as requested from task", message, vars)?;
    Ok(said(true, reason))
}

fn said(failed: bool, message: Value) -> Entry
    ensures { entry_view result
        ≡ acts (shape_of failed) (unchanged_with (view message)) no_changes }
{
    Entry::Says { failed, message }
}

// What the message is worth, else this text.
fn message_or<V: Vars>(
    alloc: Global,
    letters: &str,
    message: Option<&Expr>,
    vars: &V,
) -> Result<Value, AllocError>
    ensures { IfOk result (λ v. IsValue (view v) (eval_text_or (V.world vars.now) letters.now
        (expanded_option (V.trees vars.now)
        (option_map (λ m. expr_view m.now) message.entry)))) }
{
    match message {
        Some(message) => eval(alloc, message, vars),
        None => text_of(alloc, letters),
    }
}

fn text_of(alloc: Global, letters: &str) -> Result<Value, AllocError>
    ensures { IfOk result (λ v. view v ≡ text letters.now) }
{
    Value::of_text(alloc, String::from_str(alloc, letters)?)
}
