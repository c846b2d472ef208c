// Records of values as names with expressions: arguments, and variables.
ghost use Rattle.std.specs.Prelude.{◌≡◌, IfOk, Some, option_map, true};
ghost use Rattle.pb_semantics.specs.Words.{Gives};
ghost use Rattle.pb_language.specs.Expansion.{part_named};
ghost use Rattle.pb_language.specs.Texts.{parts_of};
ghost use Rattle.pb_syntax.specs.Words.{expr_view};
ghost use Rattle.pb_value.specs.Words.{fields_view};
ghost use Rattle.pb_template.specs.Entries.{are_ascending, but, entries_view, entry_names, is_that};
ghost use Rattle.pb_template.specs.Faults.{refused};

use crate::fault::TemplateFault;
use crate::value::expr_of;
use pb_syntax::Expr;
use pb_value::Fields;
use std::alloc::Global;
use std::sync::Arc;

/// A name with its expression.
#[derive(Drop)]
pub struct Entry {
    pub name: Arc<String>,
    pub value: Expr,
}

/// The fields of a record, but for that one, in the order of their names' bytes.
///
/// # Errors
///
/// A text in one of them can't be read, or want of memory.
pub fn entries_of(
    alloc: Global,
    fields: &Fields,
    left_out: Option<&str>,
) -> Result<Vec<Entry>, TemplateFault>
    ensures given { Gives (λ es. Some (entries_view es.items)) refused result
        (parts_of (but (option_map (λ n. n.now) left_out.entry) (fields_view fields.now.entries))) }
    ensures ordered { IfOk result (λ es. are_ascending (entry_names es.items) ≡ true) }
{
    let mut entries = Vec::with_capacity(alloc, fields.len())?;
    for (name, value) in fields.iter() {
        if is_one(name.as_str(), left_out) {
            continue;
        }
        entries.push(Entry {
            name: Arc::new(alloc, name.clone()?)?,
            value: expr_of(alloc, value)?,
        })?;
    }
    Ok(entries)
}

/// The expression of the first entry of that name.
pub fn value_named<'e>(entries: &'e [Entry], name: &str) -> Option<&'e Expr>
    ensures { option_map (λ e. expr_view e.now) result
        ≡ part_named name.now (entries_view entries.now) }
{
    for entry in entries {
        if name == entry.name.as_str() {
            return Some(&entry.value);
        }
    }
    None
}

// Whether it is that name, if there is one.
pub(crate) fn is_one(name: &str, other: Option<&str>) -> bool
    ensures { result ≡ is_that (option_map (λ n. n.now) other.entry) name.now }
{
    match other {
        None => false,
        Some(other) => name == other,
    }
}
