// What is known where a task of a host stands: of the host's own variables, of the names that are
// always there, of the item and the result of the task, and of other hosts.
//
//     let ground = Ground { outlook: &outlook, vars: &vars, space: &space, at, place, depth };
//     let start = Standing { ground: &ground, item: None, result: None, is_start: true };
//     let list = infer_kind(alloc, &list, &start, &Taught::nothing(alloc))?;
//     let item = item_of(Some(&list.kind))?; // for what is known where conditions are asked
#![tactic(auto)]

pub mod outlook;
pub mod standing;

pub use outlook::Outlook;
pub use standing::{Given, Ground, Standing, item_of, own_result};
