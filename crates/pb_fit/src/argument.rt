// The arguments of a task: which there are, and what each is asked for.
ghost use Rattle.std.specs.Prelude.{◌≡◌, IfOk, map, option_map, string_bytes};
ghost use Rattle.pb_language.specs.Expansion.{expanded, parts_expanded};
ghost use Rattle.pb_language.specs.Judgement.{text_fault};
ghost use Rattle.pb_language.specs.Plays.{expanded_option};
ghost use Rattle.pb_language.specs.Words.{argument_or, arguments_fault, fields_fault};
ghost use Rattle.pb_language.specs.Words.{parameter_kind, part_named};
ghost use Rattle.pb_semantics.specs.Words.{below as is_below};
ghost use Rattle.pb_kind.specs.Words.{kind_view};
ghost use Rattle.pb_syntax.specs.Words.{expr_view};
ghost use Rattle.pb_forms.specs.Words.{fault_view};
ghost use Rattle.pb_taught.specs.Words.{scope_view};
ghost use Rattle.pb_sig.specs.Words.{parameter_view};
ghost use Rattle.pb_template.specs.Words.{entries_view};
ghost use Rattle.pb_fit.specs.Asked.{argument_fault, value_fault};

use crate::asked::{asked, text_unfit, value_unfit};
use pb_expr::{Known, Taught, Unfit, infer_kind};
use pb_kind::Kind;
use pb_kind::below::below;
use pb_sig::Parameter;
use pb_template::{Entry, value_named};
use std::alloc::{AllocError, Global};

// The first fault of the arguments of a call, each of which keeps its parameter's kind.
pub(crate) fn arguments_unfit<K: Known>(
    alloc: Global,
    arguments: &[Entry],
    parameters: &[Parameter],
    known: &K,
    taught: &Taught,
) -> Result<Option<Unfit>, AllocError>
    ensures { let b = K.before known.now in
        IfOk result (λ u. option_map fault_view u ≡ arguments_fault (scope_view b taught.now)
        (map parameter_view parameters.now)
        (parts_expanded b.trees (entries_view arguments.now))) }
{
    for argument in arguments {
        if let Some(unfit) = argument_unfit(alloc, argument, parameters, known, taught)? {
            return Ok(Some(unfit));
        }
    }
    Ok(None)
}

fn argument_unfit<K: Known>(
    alloc: Global,
    argument: &Entry,
    parameters: &[Parameter],
    known: &K,
    taught: &Taught,
) -> Result<Option<Unfit>, AllocError>
    ensures { let b = K.before known.now in
        IfOk result (λ u. option_map fault_view u ≡ argument_fault (scope_view b taught.now)
        (map parameter_view parameters.now) (string_bytes argument.now.name.value)
        (expanded b.trees (expr_view argument.now.value))) }
{
    let found = infer_kind(alloc, &argument.value, known, taught)?;
    let is_kept = !found.kind.is_any() && is_of(&found.kind, argument.name.as_str(), parameters);
    Ok(asked(found.unfit, is_kept))
}

// Whether each value of the kind is one of the parameter of that name; where there is no such
// parameter there is no value of it.
fn is_of(kind: &Kind, name: &str, parameters: &[Parameter]) -> bool
    ensures { result ≡ is_below (kind_view kind.now)
        (parameter_kind name.now (map parameter_view parameters.now)) }
{
    for parameter in parameters {
        if name == parameter.name.as_str() {
            return below(kind, &parameter.kind);
        }
    }
    below(kind, &Kind::Never)
}

// The first fault of the values that are set.
pub(crate) fn fields_unfit<K: Known>(
    alloc: Global,
    arguments: &[Entry],
    known: &K,
    taught: &Taught,
) -> Result<Option<Unfit>, AllocError>
    ensures { let b = K.before known.now in
        IfOk result (λ u. option_map fault_view u ≡ fields_fault (scope_view b taught.now)
        (parts_expanded b.trees (entries_view arguments.now))) }
{
    for argument in arguments {
        if let Some(unfit) = value_unfit(alloc, &argument.value, known, taught)? {
            return Ok(Some(unfit));
        }
    }
    Ok(None)
}

// The argument of that name is a text, where it is given.
pub(crate) fn named_text_unfit<K: Known>(
    alloc: Global,
    arguments: &[Entry],
    name: &str,
    known: &K,
    taught: &Taught,
) -> Result<Option<Unfit>, AllocError>
    ensures { let b = K.before known.now in
        IfOk result (λ u. option_map fault_view u ≡ text_fault (scope_view b taught.now)
        (expanded_option b.trees (part_named name.now (entries_view arguments.now)))) }
{
    match value_named(arguments, name) {
        Some(text) => text_unfit(alloc, text, known, taught),
        None => Ok(None),
    }
}

// The argument of that name isn't of every kind; null stands for one that isn't given.
pub(crate) fn named_value_unfit<K: Known>(
    alloc: Global,
    arguments: &[Entry],
    name: &str,
    known: &K,
    taught: &Taught,
) -> Result<Option<Unfit>, AllocError>
    ensures { let b = K.before known.now in
        IfOk result (λ u. option_map fault_view u ≡ value_fault (scope_view b taught.now)
        (expanded b.trees (argument_or (part_named name.now (entries_view arguments.now))))) }
{
    match value_named(arguments, name) {
        Some(value) => value_unfit(alloc, value, known, taught),
        None => Ok(None),
    }
}
