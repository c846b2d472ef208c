// What the values in a file of signatures describe: kinds, fields, parameters, modules.
ghost use Rattle.std.specs.Prelude.{◌≡◌, Some, map, option_map, string_bytes};
ghost use Rattle.pb_semantics.specs.Words.{Gives};
ghost use Rattle.pb_kind.specs.Words.{is_always as is_certain, kind_view};
ghost use Rattle.pb_value.specs.Words.{fields_view};
ghost use Rattle.pb_kind.specs.Words.{slots_view};
ghost use Rattle.pb_value.specs.Words.{view};
ghost use Rattle.pb_sig.specs.Drafts.{draft_view, slot_spot};
ghost use Rattle.pb_sig.specs.Offences.{no_form, no_spot};
ghost use Rattle.pb_sig.specs.Signatures.{bound_in, inner_kind, kind_in as kind_meant};
ghost use Rattle.pb_sig.specs.Signatures.{kind_named, lone_in, module_form};
ghost use Rattle.pb_sig.specs.Signatures.{module_in as module_meant, module_name, pair_in};
ghost use Rattle.pb_sig.specs.Signatures.{parameter_in, parameters_in, parameters_of};
ghost use Rattle.pb_sig.specs.Signatures.{shape_in as shape_meant, shape_of, slots_in, spot_in};
ghost use Rattle.pb_sig.specs.Views.{parameter_view};

use crate::draft::Draft;
use crate::fault::FormFault;
use crate::names::{is_module, is_variable};
use crate::signature::Parameter;
use pb_kind::{Kind, Presence, Slot, Slots, put_slot};
use pb_value::{Fields, Value, field_of};
use std::alloc::Global;

// The module that a value describes.
pub(crate) fn module_in(alloc: Global, value: &Value) -> Result<Draft, FormFault>
    ensures { Gives (λ m. Some (draft_view m)) no_form result (module_meant (view value.now)) }
{
    match value {
        Value::Rec(fields) => module_of(alloc, fields),
        _ => Err(FormFault::Form),
    }
}

fn module_of(alloc: Global, fields: &Fields) -> Result<Draft, FormFault>
    ensures { Gives (λ m. Some (draft_view m)) no_form result
        (module_form (fields_view fields.now.entries)) }
{
    if fields.len() != 4 {
        return Err(FormFault::Form);
    }
    let name = name_of(alloc, field_of(fields, "name"))?;
    let parameters = parameters_of(alloc, field_of(fields, "params"))?;
    let ok = shape_of(alloc, field_of(fields, "ok"))?;
    let failure = shape_of(alloc, field_of(fields, "failure"))?;
    Ok(Draft {
        name,
        parameters,
        ok,
        failure,
    })
}

fn name_of(alloc: Global, value: Option<&Value>) -> Result<String, FormFault>
    ensures { Gives (λ n. Some (string_bytes n)) no_form result
        (module_name (option_map (λ v. view v.now) value.entry)) }
{
    match value {
        Some(Value::Text(name)) if is_module(name.as_str()) => {
            Ok(String::from_str(alloc, name.as_str())?)
        }
        _ => Err(FormFault::Form),
    }
}

fn parameters_of(alloc: Global, value: Option<&Value>) -> Result<Vec<Parameter>, FormFault>
    ensures { Gives (λ ps. Some (map parameter_view ps.items)) no_form result
        (parameters_of (option_map (λ v. view v.now) value.entry)) }
{
    match value {
        Some(Value::Rec(fields)) => parameters_in(alloc, fields),
        _ => Err(FormFault::Form),
    }
}

fn parameters_in(alloc: Global, fields: &Fields) -> Result<Vec<Parameter>, FormFault>
    ensures { Gives (λ ps. Some (map parameter_view ps.items)) no_form result
        (parameters_in (fields_view fields.now.entries)) }
{
    let mut parameters = Vec::with_capacity(alloc, fields.len())?;
    for (name, value) in fields.iter() {
        parameters.push(parameter_in(alloc, name.as_str(), value)?)?;
    }
    Ok(parameters)
}

fn parameter_in(alloc: Global, name: &str, value: &Value) -> Result<Parameter, FormFault>
    ensures { Gives (λ p. Some (parameter_view p)) no_form result
        (parameter_in name.now (view value.now)) }
{
    if !is_variable(name) {
        return Err(FormFault::Form);
    }
    let Some((kind, required)) = pair_of(value, "kind", "required") else {
        return Err(FormFault::Form);
    };
    let Some(required) = required.as_bool() else {
        return Err(FormFault::Form);
    };
    Ok(Parameter {
        kind: kind_in(alloc, kind)?,
        name: String::from_str(alloc, name)?,
        required,
    })
}

fn shape_of(alloc: Global, value: Option<&Value>) -> Result<Slots, FormFault>
    ensures { Gives (λ ss. Some (slots_view ss.entries)) no_form result
        (shape_of (option_map (λ v. view v.now) value.entry)) }
{
    match value {
        Some(fields) => shape_in(alloc, fields),
        None => Err(FormFault::Form),
    }
}

// The kind that a value describes.
#[cycle(kind_in)]
fn kind_in(alloc: Global, value: &Value) -> Result<Kind, FormFault>
    ensures { Gives (λ k. Some (kind_view k)) no_form result (kind_meant (view value.now)) }
{
    match value {
        Value::Text(name) => named_kind(name.as_str()),
        _ => inner_kind(alloc, value),
    }
}

fn named_kind(name: &str) -> Result<Kind, FormFault>
    ensures { Gives (λ k. Some (kind_view k)) no_form result (kind_named name.now) }
{
    match name {
        "bool" => Ok(Kind::Bool),
        "int" => Ok(Kind::Int),
        "text" => Ok(Kind::Text),
        _ => Err(FormFault::Form),
    }
}

// The kind of a list or a record.
#[cycle(kind_in)]
fn inner_kind(alloc: Global, value: &Value) -> Result<Kind, FormFault>
    ensures { Gives (λ k. Some (kind_view k)) no_form result (inner_kind (view value.now)) }
{
    if let Some((item, most)) = pair_of(value, "list", "max") {
        let Some(most) = bound_of(most) else {
            return Err(FormFault::Form);
        };
        let item = kind_in(alloc, item)?;
        return Ok(Kind::of_item(alloc, item, most)?);
    }
    let Some(fields) = lone_of(value, "rec") else {
        return Err(FormFault::Form);
    };
    let slots = shape_in(alloc, fields)?;
    Ok(Kind::of_slots(alloc, slots)?)
}

// How many items a list has at most.
fn bound_of(value: &Value) -> Option<usize>
    ensures { result ≡ bound_in (view value.now) }
{
    match value {
        Value::Int(most) => usize::try_from(*most).ok(),
        _ => None,
    }
}

// The fields that a value describes.
#[cycle(kind_in)]
fn shape_in(alloc: Global, value: &Value) -> Result<Slots, FormFault>
    ensures { Gives (λ ss. Some (slots_view ss.entries)) no_form result
        (shape_meant (view value.now)) }
{
    match value {
        Value::Rec(fields) => slots_in(alloc, fields),
        _ => Err(FormFault::Form),
    }
}

#[cycle(kind_in)]
fn slots_in(alloc: Global, fields: &Fields) -> Result<Slots, FormFault>
    ensures { Gives (λ ss. Some (slots_view ss.entries)) no_form result
        (slots_in (fields_view fields.now.entries)) }
{
    let mut slots = Slots::new(alloc);
    for (name, value) in fields.iter() {
        if !is_variable(name.as_str()) {
            return Err(FormFault::Form);
        }
        let slot = slot_in(alloc, value)?;
        put_slot(&mut slots, name.clone()?, slot)?;
    }
    Ok(slots)
}

// What a value says of a field.
#[cycle(kind_in)]
fn slot_in(alloc: Global, value: &Value) -> Result<Slot<Kind>, FormFault>
    ensures { Gives slot_spot no_spot result (spot_in (view value.now)) }
{
    let Some((always, kind)) = pair_of(value, "always", "kind") else {
        return Err(FormFault::Form);
    };
    let Some(always) = always.as_bool() else {
        return Err(FormFault::Form);
    };
    let kind = kind_in(alloc, kind)?;
    Ok(Slot {
        presence: presence_of(always),
        kind,
    })
}

fn presence_of(always: bool) -> Presence
    ensures { is_certain result ≡ always }
{
    if always {
        Presence::Always
    } else {
        Presence::Maybe
    }
}

// The values of a record with just these names, the first before the other.
fn pair_of<'v>(value: &'v Value, first: &str, second: &str) -> Option<(&'v Value, &'v Value)>
    ensures { option_map (λ p. (view p.0.now, view p.1.now)) result
        ≡ pair_in first.now second.now (view value.now) }
{
    let Value::Rec(fields) = value else {
        return None;
    };
    let mut entries = fields.iter();
    let (name, one) = entries.next()?;
    let (other, two) = entries.next()?;
    if entries.next().is_none() && name.as_str() == first && other.as_str() == second {
        Some((one, two))
    } else {
        None
    }
}

// The value of a record with just that name.
fn lone_of<'v>(value: &'v Value, wanted: &str) -> Option<&'v Value>
    ensures { option_map (λ v. view v.now) result ≡ lone_in wanted.now (view value.now) }
{
    let Value::Rec(fields) = value else {
        return None;
    };
    let mut entries = fields.iter();
    let (name, value) = entries.next()?;
    if entries.next().is_none() && name.as_str() == wanted {
        Some(value)
    } else {
        None
    }
}
