// Steps that are done many times, so that they can be timed.
ghost use Rattle.std.specs.Prelude.{◌≤◌};

use crate::answer::tree_of;
use crate::question::{count_at, fields_at, flag_at};
use crate::scene::Scene;
use pb_eval::eval::eval;
use pb_expr::{Expr, ExprFault, KindFault, Taught, kind_of};
use pb_value::Fields;
use std::alloc::{AllocError, Global};

// How often a step is done again at most.
const MOST_TIMES: u64 = 1_000_000;

/// Reads the text, finds its kind and its value again, as often as the question says under `repeat`
/// by `read`, `kind` and `value`.
pub fn repeat(
    alloc: Global,
    asked: &Fields,
    text: &str,
    expr: &Expr,
    scene: &Scene,
) -> Result<(), AllocError> {
    let Some(counts) = fields_at(asked, "repeat") else {
        return Ok(());
    };
    read_again(
        alloc,
        text,
        flag_at(asked, "template"),
        times(counts, "read"),
    )?;
    find_again(alloc, expr, scene, times(counts, "kind"))?;
    evaluate_again(alloc, expr, scene, times(counts, "value"))
}

// How often that step is done again.
pub(crate) fn times(counts: &Fields, step: &str) -> u64
    ensures { result ≤ 1000000 }
{
    let count = count_at(counts, step);
    if count > MOST_TIMES {
        MOST_TIMES
    } else {
        count
    }
}

fn read_again(alloc: Global, text: &str, is_template: bool, count: u64) -> Result<(), AllocError> {
    for _ in 0..count {
        match tree_of(alloc, text, is_template) {
            Ok(expr) => drop(expr),
            Err(ExprFault::NoMemory) => return Err(AllocError),
            Err(_) => {}
        }
    }
    Ok(())
}

fn find_again(alloc: Global, expr: &Expr, scene: &Scene, count: u64) -> Result<(), AllocError> {
    let taught = Taught::nothing(alloc);
    for _ in 0..count {
        match kind_of(alloc, expr, scene, &taught) {
            Ok(kind) => drop(kind),
            Err(KindFault::NoMemory) => return Err(AllocError),
            Err(KindFault::Unfit(_)) => {}
        }
    }
    Ok(())
}

fn evaluate_again(alloc: Global, expr: &Expr, scene: &Scene, count: u64) -> Result<(), AllocError> {
    for _ in 0..count {
        drop(eval(alloc, expr, &scene.values)?);
    }
    Ok(())
}
