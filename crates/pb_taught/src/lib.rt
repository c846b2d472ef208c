// What is known of variables where an expression is asked for, and what tests have taught of it.
//
//     let taught = Taught::nothing(alloc); // over what a `Known` says
//     let slot = own_slot(&known, &taught, "out"); // of a variable of the host's own
//     let either = both(alloc, &one, &other)?; // where one of two ways was taken
#![tactic(auto)]

mod both;
pub mod known;
pub mod scope;
pub mod views;

pub use known::Known;
pub use scope::Taught;
