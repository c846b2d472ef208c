// Values written as JSON.
//
//     let text = write_json(alloc, &Value::Int(7))?; // 7
#![tactic(auto)]

pub mod write;

pub use write::write_json;
