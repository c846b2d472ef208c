// Kinds of the forms of expressions: of values that are known, of a form by what is found of its
// operands, and of what a test of a status or of a path teaches of a kind.
//
//     let kind = literal_kind(alloc, &value)?;
//     let whole = forms::comparison(Comparison::Equal, (left, right)); // an `Inferred`
//     let failed = answered(alloc, &kind, Status::Failed, true)?; // where it has failed
//     let there = defined_at(alloc, &kind, &steps)?; // where its steps are there
#![tactic(auto)]

pub mod defined;
pub mod forms;
pub mod inferred;
pub mod kinds;
pub mod literal;
pub mod teach;
pub mod unfit;

pub use defined::defined_at;
pub use inferred::Inferred;
pub use literal::literal_kind;
pub use teach::answered;
pub use unfit::Unfit;
