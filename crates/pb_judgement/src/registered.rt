// The kind of what a task with a `loop` registers.
ghost use Rattle.std.specs.Prelude.{◌≡◌, IfOk};
ghost use Rattle.pb_semantics.specs.Words.{lists};
ghost use Rattle.pb_language.specs.Cases.{listed_kind, looped_kind};
ghost use Rattle.pb_kind.specs.Words.{kind_view};

use pb_kind::Kind;
use pb_sig::rows::{must, shape_of};
use std::alloc::{AllocError, Global};

/// The kind of what a task registers whose results are of that kind (or, of a loop, whose items'
/// results are): with a loop a record of `changed`, `failed`, `results`, `skipped`.
///
/// # Errors
///
/// Want of memory.
pub fn looped(alloc: Global, results: &Kind, over: &Kind) -> Result<Kind, AllocError>
    ensures { IfOk result (λ k. kind_view k
        ≡ looped_kind (listed_kind (kind_view results.now) (kind_view over.now))) }
{
    let listed = listed(alloc, results, over)?;
    looped_record(alloc, listed)
}

// The kind of the list of results.
fn listed(alloc: Global, results: &Kind, over: &Kind) -> Result<Kind, AllocError>
    ensures { IfOk result (λ k. kind_view k
        ≡ listed_kind (kind_view results.now) (kind_view over.now)) }
{
    match over {
        Kind::Any => Ok(Kind::Any),
        Kind::List(_, most) => list_of(alloc, results, *most),
        _ => list_of(alloc, results, 0),
    }
}

fn list_of(alloc: Global, results: &Kind, most: usize) -> Result<Kind, AllocError>
    ensures { IfOk result (λ k. kind_view k ≡ lists (kind_view results.now) most) }
{
    let item = results.clone()?;
    Kind::of_item(alloc, item, most)
}

fn looped_record(alloc: Global, listed: Kind) -> Result<Kind, AllocError>
    ensures { IfOk result (λ k. kind_view k ≡ looped_kind (kind_view listed)) }
{
    let rows = [
        must("changed", Kind::Bool),
        must("failed", Kind::Bool),
        must("results", listed),
        must("skipped", Kind::Bool),
    ];
    shape_of(alloc, &rows)
}
