// What a task does with its arguments.
ghost use Rattle.std.specs.Prelude.{◌≡◌, IfOk, codes, option_map};
ghost use Rattle.pb_language.specs.Expansion.{all_expanded};
ghost use Rattle.pb_language.specs.Judgement.{text_fault};
ghost use Rattle.pb_language.specs.Plays.{action_of, conditions_of, expanded_option};
ghost use Rattle.pb_language.specs.Words.{Registry, action_fault, conditions_fault, first};
ghost use Rattle.pb_language.specs.Words.{part_named};
ghost use Rattle.pb_forms.specs.Words.{fault_view};
ghost use Rattle.pb_taught.specs.Words.{scope_view};
ghost use Rattle.pb_task.specs.Words.{Resolves, asserted_view, work_view};
ghost use Rattle.pb_template.specs.Words.{entries_view};

use crate::argument::{arguments_unfit, fields_unfit, named_text_unfit, named_value_unfit};
use crate::held::conditions;
use pb_expr::{Known, Taught, Unfit};
use pb_sig::Module;
use pb_task::{Asserted, Work};
use pb_template::Entry;
use std::alloc::{AllocError, Global};

/// The first fault of what a task does with its arguments: a call's keep the kinds of their
/// parameters, a message is a text, what is shown or set isn't of every kind, and what an `assert`
/// asserts has the form of conditions and is asked as such, behind its message.
///
/// # Errors
///
/// Want of memory, as of `pb_expr::infer_kind` and `pb_expr::narrow::narrow`.
pub fn action_unfit<K: Known>(
    alloc: Global,
    work: &Work,
    arguments: &[Entry],
    known: &K,
    taught: &Taught,
) -> Result<Option<Unfit>, AllocError>
    ensures { let b = K.before known.now in
        IfOk result (λ u. (ms : Registry) → Resolves ms work.now
        → option_map fault_view u ≡ action_fault (scope_view b taught.now)
        (action_of ms b.trees (work_view work.now (entries_view arguments.now)))) }
{
    match work {
        Work::Module(called) => {
            arguments_unfit(alloc, arguments, called.params(), known, taught)
        }
        Work::Debug => named_value_unfit(alloc, arguments, "msg", known, taught),
        Work::SetFact => fields_unfit(alloc, arguments, known, taught),
        Work::Assert(asserted) => assertion_unfit(alloc, asserted, arguments, known, taught),
        Work::Fail => named_text_unfit(alloc, arguments, "msg", known, taught),
    }
}

// The message, and then what is asserted.
fn assertion_unfit<K: Known>(
    alloc: Global,
    asserted: &Asserted,
    arguments: &[Entry],
    known: &K,
    taught: &Taught,
) -> Result<Option<Unfit>, AllocError>
    ensures { let b = K.before known.now in
        let c = scope_view b taught.now in
        IfOk result (λ u. option_map fault_view u ≡ first
        (text_fault c (expanded_option b.trees
        (part_named (codes "fail_msg") (entries_view arguments.now))))
        (conditions_fault c (all_expanded b.trees (conditions_of (asserted_view asserted.now))))) }
{
    if let Some(unfit) = named_text_unfit(alloc, arguments, "fail_msg", known, taught)? {
        return Ok(Some(unfit));
    }
    asserted_unfit(alloc, asserted, known, taught)
}

fn asserted_unfit<K: Known>(
    alloc: Global,
    asserted: &Asserted,
    known: &K,
    taught: &Taught,
) -> Result<Option<Unfit>, AllocError>
    ensures { let b = K.before known.now in
        IfOk result (λ u. option_map fault_view u ≡ conditions_fault (scope_view b taught.now)
        (all_expanded b.trees (conditions_of (asserted_view asserted.now)))) }
{
    match asserted {
        Asserted::Conditions(asserted) => {
            let held = conditions(alloc, asserted, known, taught.copy(alloc)?)?;
            Ok(held.unfit)
        }
        Asserted::NotGiven | Asserted::Malformed => Ok(None),
    }
}
