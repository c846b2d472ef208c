// The roots of the paths of expressions.
ghost use Rattle.std.specs.Prelude.{◌++◌, ◌≡◌, OnOk, map};
ghost use Rattle.pb_syntax.specs.Words.{expr_view, exprs_view, parts_view, root_view};
ghost use Rattle.pb_reads.specs.Roots.{all_roots, part_roots, roots_in};
ghost use Rattle.pb_reads.specs.RootsView.{roots_view};

use pb_syntax::{Expr, Root};
use std::alloc::AllocError;
use std::collections::BTreeMap;

/// Puts the roots of the paths of the expression behind those that are there, from left to right.
///
/// # Errors
///
/// Want of memory.
#[cycle(roots)]
pub fn put_roots<'e>(expr: &'e Expr, roots: &mut Vec<&'e Root>) -> Result<(), AllocError>
    ensures { OnOk result (roots_view roots.new.items
        ≡ roots_view roots.old.items ++ roots_in (expr_view expr.now)) }
{
    match expr {
        Expr::Literal(_) | Expr::Hostvars(_) | Expr::InBatch(_) => Ok(()),
        Expr::Path(path) | Expr::Defined(path) | Expr::PathStatus(_, path) => {
            Ok(roots.push(&path.root)?)
        }
        Expr::PathOr(path, other) => {
            roots.push(&path.root)?;
            put_roots(other, roots)
        }
        Expr::Not(of) | Expr::Undefinable(of) | Expr::Status(_, of) | Expr::Length(of) => {
            put_roots(of, roots)
        }
        Expr::Compare(_, left, right) | Expr::In(left, right) => {
            put_roots(left, roots)?;
            put_roots(right, roots)
        }
        Expr::ValueOr(left, right) | Expr::Join(left, right) => {
            put_roots(left, roots)?;
            put_roots(right, roots)
        }
        Expr::And(parts) | Expr::Or(parts) | Expr::Concat(parts) | Expr::List(parts) => {
            put_all_roots(parts, roots)
        }
        Expr::Record(fields) => put_field_roots(fields, roots),
    }
}

#[cycle(roots)]
pub(crate) fn put_all_roots<'e>(
    parts: &'e [Expr],
    roots: &mut Vec<&'e Root>,
) -> Result<(), AllocError>
    ensures { OnOk result (roots_view roots.new.items
        ≡ roots_view roots.old.items ++ all_roots (exprs_view parts.now)) }
{
    for part in parts {
        put_roots(part, roots)?;
    }
    Ok(())
}

#[cycle(roots)]
fn put_field_roots<'e>(
    fields: &'e BTreeMap<String, Expr>,
    roots: &mut Vec<&'e Root>,
) -> Result<(), AllocError>
    ensures { OnOk result (roots_view roots.new.items
        ≡ roots_view roots.old.items ++ part_roots (parts_view fields.now.entries)) }
{
    for (_, field) in fields.iter() {
        put_roots(field, roots)?;
    }
    Ok(())
}
