// Where a host is on its play's plan, and how it goes on from task to task.
//
//     let before = Position::new(alloc, handlers)?;
//     let mut position = before.begin(alloc, &play.steps, &play.begin, handlers)?;
//     while let Location::Node(number) = position.location() {
//         let step = &play.steps[number as usize - 1];
//         position = position.go_on(&play.steps, step, end_of(step))?;
//     }
#![tactic(auto)]

pub mod position;
mod texts;

pub use position::{Location, Position, TaskEnd};
