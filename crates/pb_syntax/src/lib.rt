// The tree of an expression or a template, and how it is read from its text.
//
//     let condition = parse_expr(alloc, "out.rc == 0 and not out.changed")?;
//     let message = parse_template(alloc, "{{ out.stdout | default('nothing') }}")?;
//     let bound = message.bind(alloc, &slots)?; // `out` is looked for at its slot
#![tactic(auto)]

pub mod bind;
pub mod expr;
pub mod fault;
mod filter;
mod items;
mod lexer;
mod literal;
pub mod parse;
mod path;
mod relation;
pub mod template;
mod test;

pub use bind::{SlotNames, names_copied};
pub use expr::{Comparison, Expr, Member, Names, Path, Root, Status, Term};
pub use fault::ExprFault;
pub use parse::parse_expr;
pub use template::{closing_of, opening_of, parse_template};
