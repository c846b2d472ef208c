// Expressions: the kind that is known before a run, the first fault, and what a test teaches.
//
//     let condition = parse_expr(alloc, "out.rc == 0 and not out.changed")?;
//     let taught = Taught::nothing(alloc);
//     match kind_of(alloc, &condition, &slots, &taught) {
//         Ok(kind) => { .. } // what its value is, in every world that the slots describe
//         Err(KindFault::Unfit(unfit)) => { .. } // the first fault
//         Err(KindFault::NoMemory) => { .. }
//     }
//     let Inferred { kind, unfit } = infer_kind(alloc, &condition, &slots, &taught)?; // fit or not
//     let taught = narrow(alloc, &condition, true, &slots, taught)?; // where it is true
#![tactic(auto)]

mod asked;
pub mod change;
pub mod fit;
mod inference;
mod leaves;
pub mod narrow;
mod narrowing;
mod root_faults;
mod roots;
mod steps;

pub use fit::{KindFault, infer_kind, kind_of};
pub use pb_forms::{Inferred, Unfit, literal_kind};
pub use pb_syntax::{
    Comparison, Expr, ExprFault, Member, Names, Path, Root, Status, Term, parse_expr,
    parse_template,
};
pub use pb_taught::{Known, Taught};
