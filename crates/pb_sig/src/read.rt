// The modules of a run with those of a file of signatures.
ghost use Rattle.std.specs.Prelude.{[], ◌<◌, ◌≡◌, ◌≤◌, Err, IfOk, Ok, Some, codes, false, length};
ghost use Rattle.std.specs.Prelude.{map, suc, true};
ghost use Rattle.std.specs.Str.{is_utf8};
ghost use Rattle.pb_semantics.specs.Signature.{is_certain_boolean, is_certain_text};
ghost use Rattle.pb_semantics.specs.Words.{Gives, is_among, recs, slot_at, spot};
ghost use Rattle.pb_language.specs.Judgement.{is_lawful as is_lawful_module};
ghost use Rattle.pb_kind.specs.Words.{kind_view, slots_view};
ghost use Rattle.pb_value.specs.Words.{items_view, view};
ghost use Rattle.pb_sig.specs.Drafts.{draft_view};
ghost use Rattle.pb_sig.specs.ModuleView.{are_lawful_modules, shared_view};
ghost use Rattle.pb_sig.specs.Modules.{modules_of};
ghost use Rattle.pb_sig.specs.Offences.{offence_of};
ghost use Rattle.pb_sig.specs.Registered.{registry_of};
ghost use Rattle.pb_sig.specs.Signatures.{are_lawful, are_parameters_within as has_small};
ghost use Rattle.pb_sig.specs.Signatures.{are_within as are_kinds_within, is_taken as has_taken};
ghost use Rattle.pb_sig.specs.Signatures.{is_within as is_kind_within, judged_module};
ghost use Rattle.pb_sig.specs.Signatures.{keeps_laws as has_laws, keeps_limits as has_limits};
ghost use Rattle.pb_sig.specs.Signatures.{lists_any, modules_after, most_kind_nesting};
ghost use Rattle.pb_sig.specs.Signatures.{most_signature_bytes, names_of, result_fields};
ghost use Rattle.pb_sig.specs.Signatures.{signatures_in};
ghost use Rattle.pb_sig.specs.Views.{parameter_view};

use crate::declared::Declared;
use crate::draft::Draft;
use crate::fault::SignatureFault;
use crate::form::module_in;
use crate::names::{has_taken_prefix, is_taken_word};
use crate::registry::{Known, Registry};
use crate::signature::{Module, Parameter, SIGNATURES_LIMIT};
use pb_kind::below::{find, has_field};
use pb_kind::{Kind, Slots};
use pb_value::{Value, read_json};
use std::alloc::Global;
use std::sync::Arc;

// The most modules of a file.
const MOST_MODULES: usize = 256;

// The most parameters of a module.
const MOST_PARAMETERS: usize = 64;

// The most fields of a record.
const MOST_FIELDS: usize = 64;

// How many lists and records of a kind stand inside one another at most.
const MOST_NESTING: usize = 8;

// The most items that a list is said to have.
const MOST_ITEMS: usize = 65_536;

// The fields that the run gives to results.
const RESULT_FIELDS: [&str; 5] = ["failed", "skipped", "skip_reason", "results", "unreachable"];

impl Registry {
    /// The built-in modules, and those that a file of signatures declares.
    ///
    /// # Errors
    /// `Limit` where there are more than 1,048,576 bytes; else `NotJson` where they aren't JSON;
    /// else what the first module that isn't well declared has, `Form` before `Law`, `Law` before
    /// `Taken`, `Taken` before `Limit`. `NoMemory` for want of memory.
    pub fn read(alloc: Global, bytes: &[u8]) -> Result<Registry, SignatureFault>
        ensures verdict { Gives (λ r. Ok (modules_of r)) offence_of result (registry_of bytes.now) }
        ensures large { most_signature_bytes < length bytes.now
            → result ≡ Err SignatureFault.Limit }
        ensures no_text { is_utf8 bytes.now ≡ false → length bytes.now ≤ most_signature_bytes
            → result ≡ Err SignatureFault.NotJson }
    {
        if bytes.len() > SIGNATURES_LIMIT {
            return Err(SignatureFault::Limit);
        }
        let value = read_json(alloc, bytes)?;
        let declared = declared_in(alloc, &value)?;
        Ok(Registry::with(alloc, declared)?)
    }
}

fn declared_in(alloc: Global, value: &Value) -> Result<Vec<Arc<Known>>, SignatureFault>
    ensures given { Gives (λ ms. Ok (map shared_view ms.items)) offence_of result
        (signatures_in (Some (view value.now))) }
    ensures lawful { IfOk result (λ ms. are_lawful_modules (map shared_view ms.items) ≡ true) }
{
    match value {
        Value::List(items) => all_declared(alloc, items.as_slice()),
        _ => Err(SignatureFault::Form),
    }
}

fn all_declared(alloc: Global, items: &[Value]) -> Result<Vec<Arc<Known>>, SignatureFault>
    ensures given { Gives (λ ms. Ok (map shared_view ms.items)) offence_of result
        (modules_after [] (items_view items.now)) }
    ensures lawful { IfOk result (λ ms. are_lawful_modules (map shared_view ms.items) ≡ true) }
{
    let mut found = Vec::new(alloc);
    for item in items {
        let draft = module_in(alloc, item)?;
        let module = judged(alloc, draft, found.as_slice())?;
        found.push(module)?;
    }
    Ok(found)
}

// The module of the draft, where it may stand after those modules.
fn judged(alloc: Global, draft: Draft, earlier: &[Arc<Known>]) -> Result<Arc<Known>, SignatureFault>
    ensures given { Gives (λ m. Ok (shared_view m)) offence_of result
        (judged_module (map shared_view earlier.now) (Some (draft_view draft))) }
    ensures lawful { IfOk result (λ m. is_lawful_module (shared_view m) ≡ true) }
{
    if !keeps_laws(&draft) {
        return Err(SignatureFault::Law);
    }
    if is_taken(earlier, draft.name.as_str()) {
        return Err(SignatureFault::Taken);
    }
    if !keeps_limits(&draft) || earlier.len() >= MOST_MODULES {
        return Err(SignatureFault::Limit);
    }
    let module = Known::Declared(Declared::of(alloc, draft)?);
    Ok(Arc::new(alloc, module)?)
}

fn keeps_laws(draft: &Draft) -> bool
    ensures { result ≡ has_laws (draft_view draft.now) }
{
    is_lawful(&draft.ok) && is_lawful(&draft.failure) && has_message(&draft.failure)
}

// `changed` is always there, and no field is one that the run gives to results.
fn is_lawful(shape: &Slots) -> bool
    ensures { result ≡ are_lawful (slots_view shape.now.entries) }
{
    has_changed(shape) && !has_result_field(shape)
}

fn has_changed(shape: &Slots) -> bool
    ensures { result
        ≡ is_certain_boolean (slot_at (codes "changed") (slots_view shape.now.entries)) }
{
    match find(shape, "changed") {
        Some(slot) => slot.presence.is_always() && is_bool(&slot.kind),
        None => false,
    }
}

fn has_message(shape: &Slots) -> bool
    ensures { result ≡ is_certain_text (slot_at (codes "msg") (slots_view shape.now.entries)) }
{
    match find(shape, "msg") {
        Some(slot) => slot.presence.is_always() && is_text(&slot.kind),
        None => false,
    }
}

fn is_bool(kind: &Kind) -> bool
    ensures { result ≡ is_certain_boolean (spot true (kind_view kind.now)) }
{
    matches!(kind, Kind::Bool)
}

fn is_text(kind: &Kind) -> bool
    ensures { result ≡ is_certain_text (spot true (kind_view kind.now)) }
{
    matches!(kind, Kind::Text)
}

fn has_result_field(shape: &Slots) -> bool
    ensures { result ≡ lists_any result_fields (slots_view shape.now.entries) }
{
    has_any(shape, &RESULT_FIELDS)
}

fn has_any(shape: &Slots, names: &[&str]) -> bool
    ensures { result ≡ lists_any (map (λ n. n.now) names.now) (slots_view shape.now.entries) }
{
    for name in names {
        if has_field(shape, *name) {
            return true;
        }
    }
    false
}

// An earlier module has the name, or none can have it.
fn is_taken(earlier: &[Arc<Known>], name: &str) -> bool
    ensures { result ≡ has_taken (map shared_view earlier.now) name.now }
{
    is_declared(earlier, name) || is_taken_word(name) || has_taken_prefix(name)
}

fn is_declared(earlier: &[Arc<Known>], name: &str) -> bool
    ensures { result ≡ is_among name.now (names_of (map shared_view earlier.now)) }
{
    for module in earlier {
        if name == module.name() {
            return true;
        }
    }
    false
}

fn keeps_limits(draft: &Draft) -> bool
    ensures { result ≡ has_limits (draft_view draft.now) }
{
    draft.parameters.len() <= MOST_PARAMETERS
        && are_parameters_within(&draft.parameters)
        && is_shape_within(&draft.ok)
        && is_shape_within(&draft.failure)
}

fn are_parameters_within(parameters: &[Parameter]) -> bool
    ensures { result ≡ has_small (map parameter_view parameters.now) }
{
    for parameter in parameters {
        if !is_within(&parameter.kind, MOST_NESTING) {
            return false;
        }
    }
    true
}

// The record of a shape isn't one of those inside its fields.
fn is_shape_within(shape: &Slots) -> bool
    ensures { result
        ≡ is_kind_within (suc most_kind_nesting) (recs (slots_view shape.now.entries)) }
{
    is_record_within(shape, MOST_NESTING)
}

#[cycle(is_within)]
fn is_within(kind: &Kind, levels: usize) -> bool
    ensures { result ≡ is_kind_within levels (kind_view kind.now) }
{
    match kind {
        Kind::List(item, most) => {
            if levels == 0 {
                return false;
            }
            if *most > MOST_ITEMS {
                return false;
            }
            is_within(item, levels - 1)
        }
        Kind::Rec(slots) => {
            if levels == 0 {
                return false;
            }
            is_record_within(slots, levels - 1)
        }
        _ => true,
    }
}

#[cycle(is_within)]
fn is_record_within(slots: &Slots, levels: usize) -> bool
    ensures { result ≡ is_kind_within (suc levels) (recs (slots_view slots.now.entries)) }
{
    if slots.len() > MOST_FIELDS {
        return false;
    }
    are_within(slots, levels)
}

#[cycle(is_within)]
fn are_within(slots: &Slots, levels: usize) -> bool
    ensures { result ≡ are_kinds_within levels (slots_view slots.now.entries) }
{
    for (_, slot) in slots.iter() {
        if !is_within(&slot.kind, levels) {
            return false;
        }
    }
    true
}
