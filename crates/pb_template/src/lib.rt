// Values with templates in them, and conditions: which expressions they are, and their limits.
//
//     let message = expr_of(alloc, &value)?; // of a text, or of a list or a record of such
//     let when = conditions_in(alloc, &value)?;
#![tactic(auto)]

pub mod condition;
pub mod entry;
pub mod fault;
pub mod limits;
pub mod nesting;
pub mod text;
pub mod value;

pub use condition::{are_conditions, are_short_conditions, conditions_in};
pub use entry::{Entry, entries_of, value_named};
pub use fault::TemplateFault;
pub use limits::{LongText, are_values_within, is_list_within, is_text_within};
pub use nesting::{Test, holds, some_field_holds};
pub use text::{Opening, has_opening, is_template};
pub use value::{OpaqueNumber, expr_of};
