// Expressions: their values in a run.
//
//     let condition = parse_expr(alloc, "out.rc == 0 and not out.changed")?;
//     let value = eval(alloc, &condition, &vars)?; // where it is fit
#![tactic(auto)]

pub mod aliases;
pub mod equal;
pub mod eval;
mod filter;
mod look;
pub mod vars;

pub use aliases::{Aliased, values_of};
pub use vars::Vars;
