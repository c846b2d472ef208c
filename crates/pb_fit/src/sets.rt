// The names that a `set_fact` sets.
ghost use Rattle.std.specs.Prelude.{◌≡◌, Bool, IfOk};
ghost use Rattle.pb_language.specs.Expansion.{parts_expanded};
ghost use Rattle.pb_language.specs.Words.{parts_set};
ghost use Rattle.pb_taught.specs.Words.{scope_view};
ghost use Rattle.pb_template.specs.Words.{entries_view};
ghost use Rattle.pb_fit.specs.SetsView.{sets_view};

use pb_expr::{Known, Taught, infer_kind};
use pb_kind::Kind;
use pb_template::Entry;
use std::alloc::{AllocError, Global};
use std::sync::Arc;

/// A name that is set, with the kind of its value.
#[derive(Drop)]
pub struct Set {
    pub name: Arc<String>,
    pub kind: Kind,
}

/// The names that a `set_fact` sets, in the order of its arguments, each with the kind of its
/// value, fit or not.
///
/// # Errors
///
/// Want of memory, as of `pb_expr::infer_kind`.
pub fn sets_of<K: Known>(
    alloc: Global,
    arguments: &[Entry],
    known: &K,
    taught: &Taught,
) -> Result<Vec<Set>, AllocError>
    ensures { let b = K.before known.now in
        IfOk result (λ v. (a : Bool) → sets_view a v.items
        ≡ parts_set (scope_view b taught.now) a
        (parts_expanded b.trees (entries_view arguments.now))) }
{
    let mut sets = Vec::with_capacity(alloc, arguments.len())?;
    for argument in arguments {
        let name = argument.name.clone()?;
        let found = infer_kind(alloc, &argument.value, known, taught)?;
        let kind = found.kind;
        sets.push(Set { name, kind })?;
    }
    Ok(sets)
}
