// What is found of an expression, fit or not.
ghost use Rattle.std.specs.Prelude.{◌≡◌, IfOk};
ghost use Rattle.pb_kind.specs.Words.{kind_view};

use crate::unfit::Unfit;
use pb_kind::Kind;
use std::alloc::AllocError;

/// What is found of an expression, fit or not.
#[derive(Drop)]
pub struct Inferred {
    /// The kind of each value that it can have.
    pub kind: Kind,
    /// The first fault from left to right, operands before the form round them.
    pub unfit: Option<Unfit>,
}

/// A copy that shares what lies inside.
///
/// # Errors
///
/// Want of memory.
pub fn found_copied(found: &Inferred) -> Result<Inferred, AllocError>
    ensures kind { IfOk result (λ i. kind_view i.kind ≡ kind_view found.now.kind) }
    ensures unfit { IfOk result (λ i. i.unfit ≡ found.now.unfit) }
{
    let kind = found.kind.clone()?;
    Ok(Inferred {
        kind,
        unfit: found.unfit,
    })
}
