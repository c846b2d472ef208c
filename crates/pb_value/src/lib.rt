// Values of variables, and JSON read into them.
//
//     let value = read_json(alloc, b"{\"rc\": 0}")?;
//     let code = field_of(fields, "rc"); // of a record's fields
//     let text = render(&Value::Int(7))?; // 7
#![tactic(auto)]

mod number;
pub mod read;
pub mod render;
pub mod value;
pub mod weight;

pub use read::{JsonFault, read_json};
pub use value::{Fields, Value, field_of, own_fields, own_items, put_field};
pub use weight::Weighed;
