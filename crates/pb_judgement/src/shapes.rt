// The records of answers: a module's shape, or an action's fields, with the final status.
ghost use Rattle.std.specs.Prelude.{◌≡◌, IfOk, true};
ghost use Rattle.pb_language.specs.Cases.{changed_slots, ended_kind, is_lawful_shape};
ghost use Rattle.pb_language.specs.Cases.{message_slots, shape_slots};
ghost use Rattle.pb_kind.specs.Words.{kind_view};

use pb_kind::Kind;
use pb_sig::ended_record;
use pb_sig::rows::{must, shape_of};
use std::alloc::{AllocError, Global};

// The record of a module's shape with the final status.
pub(crate) fn ended_shape(alloc: Global, shape: &Kind) -> Result<Kind, AllocError>
    requires { is_lawful_shape (kind_view shape.now) ≡ true }
    ensures { IfOk result (λ k. kind_view k ≡ ended_kind (shape_slots (kind_view shape.now))) }
{
    match shape {
        Kind::Rec(fields) => ended_record(alloc, fields),
        _ => unreachable!(),
    }
}

// The record of `changed` with the final status.
pub(crate) fn changed_record(alloc: Global) -> Result<Kind, AllocError>
    ensures { IfOk result (λ k. kind_view k ≡ ended_kind changed_slots) }
{
    let rows = [must("changed", Kind::Bool), must("failed", Kind::Bool)];
    shape_of(alloc, &rows)
}

// The record of `changed` and `msg` with the final status.
pub(crate) fn message_record(alloc: Global) -> Result<Kind, AllocError>
    ensures { IfOk result (λ k. kind_view k ≡ ended_kind message_slots) }
{
    let rows = [
        must("changed", Kind::Bool),
        must("failed", Kind::Bool),
        must("msg", Kind::Text),
    ];
    shape_of(alloc, &rows)
}
