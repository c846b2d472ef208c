// The names of `vars` that have to be worked out where roots are read.
ghost use Rattle.std.specs.Prelude.{◌≡◌, IfOk, false, true};
ghost use Rattle.pb_semantics.specs.Words.{is_among};
ghost use Rattle.pb_language.specs.Expansion.{trees};
ghost use Rattle.pb_language.specs.Expression.{Name};
ghost use Rattle.pb_language.specs.Rules.{any_too_long, part_names};
ghost use Rattle.pb_language.specs.Theorem.{are_distinct};
ghost use Rattle.pb_syntax.specs.Aliases.{trees_in};
ghost use Rattle.pb_vars.specs.Borrowed.{borrowed_view};
ghost use Rattle.pb_vars.specs.Words.{in_scope};
ghost use Rattle.pb_reads.specs.Needed.{AreSameAt, IsReached, parts_among};
ghost use Rattle.pb_reads.specs.Reached.{names_in, own_names};
ghost use Rattle.pb_reads.specs.RootsView.{roots_view};

use crate::names::{add_own, reached_roots};
use pb_syntax::Root;
use pb_template::Entry;
use pb_vars::InScope;
use pb_vars::laws::{all_are_in_order, trees_are_whole};
use std::alloc::{AllocError, Global};
use std::collections::BTreeSet;

/// The names of `vars` that these roots reach, also through values of others, each once and behind
/// the names that its value reads: in this order they are worked out, and no others have to be.
///
/// # Errors
///
/// Want of memory.
pub fn names_reached<'p>(
    alloc: Global,
    scope: &InScope<'p>,
    roots: &[&'p Root],
) -> Result<Vec<&'p Entry>, AllocError>
    ensures enough { IfOk result (λ es.
        any_too_long (in_scope scope.now) (in_scope scope.now) ≡ false
        → AreSameAt (roots_view roots.now)
        (trees_in (borrowed_view es.items)) (trees (in_scope scope.now))) }
    ensures needed { IfOk result (λ es. (n : Name)
        → is_among n (part_names (borrowed_view es.items)) ≡ true
        → IsReached (in_scope scope.now) (roots_view roots.now) n) }
    ensures once { IfOk result (λ es.
        any_too_long (in_scope scope.now) (in_scope scope.now) ≡ false
        → are_distinct (part_names (borrowed_view es.items)) ≡ true) }
{
    all_are_in_order();
    trees_are_whole();
    let order = scope.in_order(alloc)?;
    let all = reached_roots(alloc, scope, order.as_slice(), roots)?;
    let names = own_names_of(alloc, all.as_slice())?;
    entries_among(alloc, order.as_slice(), &names)
}

// The names of variables of the host itself, and of `vars`, among the roots.
fn own_names_of<'p>(alloc: Global, roots: &[&'p Root]) -> Result<BTreeSet<&'p str>, AllocError>
    ensures { IfOk result (λ ns. (n : Name)
        → is_among n (names_in ns) ≡ is_among n (own_names (roots_view roots.now))) }
{
    let mut names = BTreeSet::new(alloc);
    for root in roots {
        add_own(&mut names, *root)?;
    }
    Ok(names)
}

// The entries whose names are in the set, in their order.
fn entries_among<'p>(
    alloc: Global,
    entries: &[&'p Entry],
    names: &BTreeSet<&'p str>,
) -> Result<Vec<&'p Entry>, AllocError>
    ensures { IfOk result (λ es. borrowed_view es.items
        ≡ parts_among (λ n. is_among n (names_in names.now)) (borrowed_view entries.now)) }
{
    let mut found = Vec::new(alloc);
    for entry in entries {
        if names.contains(entry.name.as_str()) {
            found.push(*entry)?;
        }
    }
    Ok(found)
}
