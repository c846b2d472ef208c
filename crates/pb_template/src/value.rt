// The expression that a value is.
ghost use Rattle.std.specs.Prelude.{◌≡◌, Some};
ghost use Rattle.pb_semantics.specs.Words.{Gives};
ghost use Rattle.pb_language.specs.Texts.{parts_of, value_of, values_of};
ghost use Rattle.pb_value.specs.Words.{fields_view, items_view, view};
ghost use Rattle.pb_syntax.specs.Words.{expr_view, exprs_view, parts_view};
ghost use Rattle.pb_template.specs.Faults.{refused};

use crate::fault::TemplateFault;
use crate::nesting::{Test, holds};
use crate::text::Opening;
use pb_syntax::{Expr, parse_template};
use pb_value::{Fields, Value};
use std::alloc::Global;
use std::collections::BTreeMap;

/// A number that is no whole number of 64 bits, which no book may have.
pub struct OpaqueNumber;

impl Test for OpaqueNumber {
    ghost use Rattle.pb_language.specs.Texts.{is_opaque};

    ghost meaning = { is_opaque };

    fn passes(value: &Value) -> bool {
        matches!(value, Value::Opaque)
    }
}

/// The expression that a value is: itself, where no text in it may have a template.
///
/// # Errors
///
/// A text in it can't be read, or want of memory.
#[cycle(expr_of)]
pub fn expr_of(alloc: Global, value: &Value) -> Result<Expr, TemplateFault>
    ensures { Gives (λ e. Some (expr_view e)) refused result (value_of (view value.now)) }
{
    if !holds::<Opening>(value) {
        return Ok(Expr::Literal(value.clone()?));
    }
    match value {
        Value::Text(text) => Ok(parse_template(alloc, text.as_str())?),
        Value::List(items) => Ok(Expr::List(exprs_of(alloc, items)?)),
        Value::Rec(fields) => Ok(Expr::Record(record_of(alloc, fields)?)),
        _ => Ok(Expr::Literal(value.clone()?)),
    }
}

#[cycle(expr_of)]
fn exprs_of(alloc: Global, items: &[Value]) -> Result<Vec<Expr>, TemplateFault>
    ensures { Gives (λ parts. Some (exprs_view parts.items)) refused result
        (values_of (items_view items.now)) }
{
    let mut parts = Vec::with_capacity(alloc, items.len())?;
    for item in items {
        parts.push(expr_of(alloc, item)?)?;
    }
    Ok(parts)
}

#[cycle(expr_of)]
fn record_of(alloc: Global, fields: &Fields) -> Result<BTreeMap<String, Expr>, TemplateFault>
    ensures { Gives (λ parts. Some (parts_view parts.entries)) refused result
        (parts_of (fields_view fields.now.entries)) }
{
    let mut parts = BTreeMap::new(alloc);
    for (name, value) in fields.iter() {
        let name = name.clone()?;
        drop(parts.insert(name, expr_of(alloc, value)?)?);
    }
    Ok(parts)
}
