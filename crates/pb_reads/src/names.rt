// The variables that roots read, also through names of `vars`.
ghost use Rattle.std.specs.Prelude.{◌++◌, ◌∷◌, ◌≡◌, IfOk, OnOk, false, true};
ghost use Rattle.pb_semantics.specs.Words.{is_among};
ghost use Rattle.pb_language.specs.Expansion.{part_named};
ghost use Rattle.pb_language.specs.Expression.{Name};
ghost use Rattle.pb_language.specs.Rules.{any_too_long};
ghost use Rattle.pb_syntax.specs.Words.{expr_view, root_view};
ghost use Rattle.pb_vars.specs.Borrowed.{borrowed_view};
ghost use Rattle.pb_vars.specs.Words.{in_scope};
ghost use Rattle.pb_reads.specs.Reached.{names_in, own_names, reached, told_name, told_names};
ghost use Rattle.pb_reads.specs.Reached.{own_name, value_roots, with_value};
ghost use Rattle.pb_reads.specs.Reads.{IsRead};
ghost use Rattle.pb_reads.specs.Roots.{roots_in};
ghost use Rattle.pb_reads.specs.RootsView.{roots_view};

use crate::roots::put_roots;
use pb_syntax::{Expr, Root};
use pb_template::Entry;
use pb_vars::InScope;
use pb_vars::laws::all_are_in_order;
use std::alloc::{AllocError, Global};
use std::collections::BTreeSet;

/// The variables that these roots read where those values of `vars` are in scope, of any host.
///
/// # Errors
///
/// Want of memory.
pub fn names_read<'p>(
    alloc: Global,
    scope: &InScope<'p>,
    roots: &[&'p Root],
) -> Result<BTreeSet<&'p str>, AllocError>
    ensures sound { IfOk result (λ ns. (n : Name) → is_among n (names_in ns) ≡ true
        → IsRead (in_scope scope.now) (roots_view roots.now) n) }
    ensures whole { IfOk result (λ ns.
        any_too_long (in_scope scope.now) (in_scope scope.now) ≡ false
        → (n : Name) → IsRead (in_scope scope.now) (roots_view roots.now) n
        → is_among n (names_in ns) ≡ true) }
{
    all_are_in_order();
    let order = scope.in_order(alloc)?;
    let all = reached_roots(alloc, scope, order.as_slice(), roots)?;
    names_told(alloc, scope, all.as_slice())
}

// The roots, and those of the values of names of `vars` that they reach.
pub(crate) fn reached_roots<'p>(
    alloc: Global,
    scope: &InScope<'p>,
    order: &[&'p Entry],
    roots: &[&'p Root],
) -> Result<Vec<&'p Root>, AllocError>
    ensures { IfOk result (λ rs. roots_view rs.items
        ≡ reached (in_scope scope.now) (borrowed_view order.now) (roots_view roots.now)) }
{
    let mut all = Vec::new(alloc);
    let mut own = BTreeSet::new(alloc);
    put_behind(&mut all, &mut own, roots)?;
    for index in (0..order.len()).rev() {
        put_value(alloc, scope, order[index].name.as_str(), &mut all, &mut own)?;
    }
    Ok(all)
}

// Where the name is among those, its value's roots too.
fn put_value<'p>(
    alloc: Global,
    scope: &InScope<'p>,
    name: &str,
    all: &mut Vec<&'p Root>,
    own: &mut BTreeSet<&'p str>,
) -> Result<(), AllocError>
    requires same { (n : Name) → is_among n (names_in own.now)
        ≡ is_among n (own_names (roots_view all.now.items)) }
    ensures roots { OnOk result (roots_view all.new.items
        ≡ with_value (in_scope scope.now) name.now (roots_view all.old.items)) }
    ensures names { OnOk result ((n : Name) → is_among n (names_in own.new)
        ≡ is_among n (own_names (roots_view all.new.items))) }
{
    if own.contains(name) {
        let found = value_roots(alloc, scope, name)?;
        put_behind(all, own, found.as_slice())?;
        return Ok(());
    }
    Ok(())
}

// The roots of the value of the name.
fn value_roots<'p>(
    alloc: Global,
    scope: &InScope<'p>,
    name: &str,
) -> Result<Vec<&'p Root>, AllocError>
    ensures { IfOk result (λ rs. roots_view rs.items
        ≡ value_roots (part_named name.now (in_scope scope.now))) }
{
    match scope.find(name) {
        Some(value) => roots_of(alloc, value),
        None => Ok(Vec::new(alloc)),
    }
}

fn roots_of<'p>(alloc: Global, value: &'p Expr) -> Result<Vec<&'p Root>, AllocError>
    ensures { IfOk result (λ rs. roots_view rs.items ≡ roots_in (expr_view value.now)) }
{
    let mut found = Vec::new(alloc);
    put_roots(value, &mut found)?;
    Ok(found)
}

// Puts the roots behind those that are there, and their own names among those.
fn put_behind<'p>(
    all: &mut Vec<&'p Root>,
    own: &mut BTreeSet<&'p str>,
    roots: &[&'p Root],
) -> Result<(), AllocError>
    ensures roots { OnOk result (roots_view all.new.items
        ≡ roots_view all.old.items ++ roots_view roots.now) }
    ensures names { OnOk result ((n : Name) → is_among n (names_in own.new)
        ≡ is_among n (own_names (roots_view roots.now) ++ names_in own.old)) }
{
    for root in roots {
        all.push(*root)?;
        add_own(own, *root)?;
    }
    Ok(())
}

// Adds the name of a variable of the host itself.
pub(crate) fn add_own<'p>(own: &mut BTreeSet<&'p str>, root: &'p Root) -> Result<(), AllocError>
    ensures { OnOk result ((n : Name) → is_among n (names_in own.new)
        ≡ is_among n (own_name (root_view root.now) ++ names_in own.old)) }
{
    match root {
        Root::Variable(name) => add_name(own, name.as_str()),
        Root::Other(_, _) | Root::Member(_) => Ok(()),
    }
}

pub(crate) fn add_name<'p>(names: &mut BTreeSet<&'p str>, name: &'p str) -> Result<(), AllocError>
    ensures { OnOk result ((n : Name) → is_among n (names_in names.new)
        ≡ is_among n (name.now ∷ names_in names.old)) }
{
    let _ = names.insert(name)?;
    Ok(())
}

// The variables that the roots are.
fn names_told<'p>(
    alloc: Global,
    scope: &InScope<'p>,
    roots: &[&'p Root],
) -> Result<BTreeSet<&'p str>, AllocError>
    ensures { IfOk result (λ ns. (n : Name) → is_among n (names_in ns)
        ≡ is_among n (told_names (in_scope scope.now) (roots_view roots.now))) }
{
    let mut names = BTreeSet::new(alloc);
    for root in roots {
        add_told(scope, &mut names, *root)?;
    }
    Ok(names)
}

// Adds the name of a variable of any host, unless it is a name of `vars`.
fn add_told<'p>(
    scope: &InScope<'p>,
    names: &mut BTreeSet<&'p str>,
    root: &'p Root,
) -> Result<(), AllocError>
    ensures { OnOk result ((n : Name) → is_among n (names_in names.new)
        ≡ is_among n (told_name (in_scope scope.now) (root_view root.now)
        ++ names_in names.old)) }
{
    match root {
        Root::Variable(name) => {
            if scope.find(name.as_str()).is_some() {
                return Ok(());
            }
            add_name(names, name.as_str())
        }
        Root::Other(_, name) => add_name(names, name.as_str()),
        Root::Member(_) => Ok(()),
    }
}
