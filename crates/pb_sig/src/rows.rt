// Records of kinds and lists of parameters, written as rows.
ghost use Rattle.std.specs.Prelude.{◌≡◌, IfOk, map};
ghost use Rattle.pb_semantics.specs.Words.{lists, most_output_lines, no_slots, recs, texts};
ghost use Rattle.pb_kind.specs.Words.{kind_view};
ghost use Rattle.pb_sig.specs.Views.{parameter_view};
ghost use Rattle.pb_sig.specs.Rows.{row_parameter, with_rows};

use crate::signature::Parameter;
use pb_kind::{Kind, Presence, Slot, Slots, put_slot};
use std::alloc::{AllocError, Global};

// The most lines that one answer gives.
const MOST_LINES: usize = 65_536;

/// A field of a shape, or a parameter, which is required where it is always there.
#[derive(Drop)]
pub struct Row<'a> {
    pub name: &'a str,
    pub presence: Presence,
    pub kind: Kind,
}

/// The record of these fields; a later row of one name counts.
pub fn shape_of(alloc: Global, rows: &[Row<'_>]) -> Result<Kind, AllocError>
    ensures { IfOk result (λ k. kind_view k ≡ recs (with_rows rows.now no_slots)) }
{
    let mut fields = Slots::new(alloc);
    for row in rows {
        let name = String::from_str(alloc, row.name)?;
        let slot = Slot {
            presence: row.presence,
            kind: row.kind.clone()?,
        };
        put_slot(&mut fields, name, slot)?;
    }
    Kind::of_slots(alloc, fields)
}

/// The parameters in the order of the rows.
pub fn parameters_of(alloc: Global, rows: &[Row<'_>]) -> Result<Vec<Parameter>, AllocError>
    ensures { IfOk result (λ ps. map parameter_view ps.items ≡ map row_parameter rows.now) }
{
    let mut parameters = Vec::with_capacity(alloc, rows.len())?;
    for row in rows {
        parameters.push(Parameter {
            name: String::from_str(alloc, row.name)?,
            kind: row.kind.clone()?,
            required: row.presence.is_always(),
        })?;
    }
    Ok(parameters)
}

/// A field that is always there, or a required parameter.
pub fn must(name: &str, kind: Kind) -> Row<'_>
    ensures name { result.name.now ≡ name.now }
    ensures presence { result.presence ≡ Presence.Always }
    ensures kind { result.kind ≡ kind }
{
    Row {
        name,
        presence: Presence::Always,
        kind,
    }
}

/// A field that may be missing, or a parameter that isn't required.
pub fn may(name: &str, kind: Kind) -> Row<'_>
    ensures name { result.name.now ≡ name.now }
    ensures presence { result.presence ≡ Presence.Maybe }
    ensures kind { result.kind ≡ kind }
{
    Row {
        name,
        presence: Presence::Maybe,
        kind,
    }
}

/// The kind of the lines that a program wrote.
pub fn lines(alloc: Global) -> Result<Kind, AllocError>
    ensures { IfOk result (λ k. kind_view k ≡ lists texts most_output_lines) }
{
    Kind::of_item(alloc, Kind::Text, MOST_LINES)
}
