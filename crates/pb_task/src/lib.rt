// The tasks and handlers of a book, read from their values.
//
//     match read_task(alloc, &registry, Standing::AtTop, line, &fields)? {
//         Some(task) => { .. }
//         None => { .. } // `meta: flush_handlers`
//     }
#![tactic(auto)]

mod argument;
mod clause;
pub mod fault;
pub mod form;
pub mod keyword;
mod limit;
mod offence;
pub mod read;
pub mod task;
mod text;
mod work;

pub use clause::{boolean_in, conditions_at, text_in, topics_in, vars_in};
pub use fault::{Code, TaskFault};
pub use form::{fits_keyword, is_boolean, is_text, is_vars};
pub use keyword::Standing;
pub use limit::{are_conditions_short, is_record_within};
pub use offence::has_key;
pub use read::read_task;
pub use task::{Asserted, Attempts, Task, Work};
pub use text::given_or_none;
