// What stands in a question.
use pb_value::{Fields, Value, field_of};

/// The text under that name.
pub fn text_at<'q>(asked: &'q Fields, name: &str) -> Option<&'q str> {
    match field_of(asked, name)? {
        Value::Text(text) => Some(text.as_str()),
        _ => None,
    }
}

/// Whether `true` stands under that name.
pub fn flag_at(asked: &Fields, name: &str) -> bool {
    match field_of(asked, name) {
        Some(Value::Bool(flag)) => *flag,
        _ => false,
    }
}

/// The record under that name.
pub fn fields_at<'q>(asked: &'q Fields, name: &str) -> Option<&'q Fields> {
    match field_of(asked, name)? {
        Value::Rec(fields) => Some(fields),
        _ => None,
    }
}

/// The items of the list under that name.
pub fn items_at<'q>(asked: &'q Fields, name: &str) -> Option<&'q [Value]> {
    match field_of(asked, name)? {
        Value::List(items) => Some(items.as_slice()),
        _ => None,
    }
}

/// The number under that name, and 0 where there is none or it is negative.
pub fn count_at(asked: &Fields, name: &str) -> u64 {
    match field_of(asked, name) {
        Some(Value::Int(count)) => u64::try_from(*count).unwrap_or(0),
        _ => 0,
    }
}
