// `serial`: how many hosts the batches of a play have.
ghost use Rattle.std.specs.Prelude.{[], ◌≡◌, IfOk, Some, map, not, option_map, unwrap_or};
ghost use Rattle.pb_semantics.specs.Words.{list};
ghost use Rattle.pb_language.specs.Book.{percentage};
ghost use Rattle.pb_language.specs.BookForm.{cut_before, cut_in, cuts_in, is_percentage, is_serial};
ghost use Rattle.pb_language.specs.BookForm.{number_from, percentage_in, serial_given, serial_in};
ghost use Rattle.pb_language.specs.TaskForm.{is_missing};
ghost use Rattle.pb_value.specs.Words.{items_view, view};
ghost use Rattle.pb_play.specs.Plays.{cut_view};
ghost use Rattle.pb_play.specs.Serial.{percentage_where};

use crate::play::Cut;
use pb_value::Value;
use std::alloc::{AllocError, Global};

// The most hosts that a batch may be asked to have.
const MOST_HOSTS: i64 = 1_024;

const MOST_PERCENT: u64 = 100;

// Whether the value is a cut, or a list of cuts that isn't empty.
pub(crate) fn is_serial(value: &Value) -> bool
    ensures { result ≡ is_serial (view value.now) }
{
    match value {
        Value::List(items) => is_cut_list(items),
        _ => cut_in(value).is_some(),
    }
}

fn is_cut_list(items: &[Value]) -> bool
    ensures { result ≡ is_serial (list (items_view items.now)) }
{
    !items.is_empty() && are_cuts(items)
}

fn are_cuts(items: &[Value]) -> bool
    ensures { result ≡ not (is_missing (cuts_in (items_view items.now))) }
{
    for item in items {
        if cut_in(item).is_none() {
            return false;
        }
    }
    true
}

// The cuts that are given; none where none are, or where they haven't their form.
pub(crate) fn serial_of(alloc: Global, value: Option<&Value>) -> Result<Vec<Cut>, AllocError>
    ensures { IfOk result (λ cs. map cut_view cs.items
        ≡ serial_given (option_map (λ v. view v.now) value.entry)) }
{
    match value {
        None => Ok(Vec::new(alloc)),
        Some(value) => cuts_of(alloc, value),
    }
}

fn cuts_of(alloc: Global, value: &Value) -> Result<Vec<Cut>, AllocError>
    ensures { IfOk result (λ cs. map cut_view cs.items
        ≡ unwrap_or (serial_in (view value.now)) []) }
{
    match value {
        Value::List(items) => each_cut(alloc, items),
        _ => lone_cut(alloc, value),
    }
}

fn lone_cut(alloc: Global, value: &Value) -> Result<Vec<Cut>, AllocError>
    ensures { IfOk result (λ cs. map cut_view cs.items
        ≡ unwrap_or (cut_before (cut_in (view value.now)) (Some [])) []) }
{
    match cut_in(value) {
        None => Ok(Vec::new(alloc)),
        Some(cut) => Ok(vec![in alloc; cut]?),
    }
}

fn each_cut(alloc: Global, items: &[Value]) -> Result<Vec<Cut>, AllocError>
    ensures { IfOk result (λ cs. map cut_view cs.items
        ≡ unwrap_or (cuts_in (items_view items.now)) []) }
{
    let mut cuts = Vec::new(alloc);
    for item in items {
        match cut_in(item) {
            None => return Ok(Vec::new(alloc)),
            Some(cut) => cuts.push(cut)?,
        }
    }
    Ok(cuts)
}

// A whole number from 1 to 1,024, or a text `N%` from 1 to 100.
fn cut_in(value: &Value) -> Option<Cut>
    ensures { option_map cut_view result ≡ cut_in (view value.now) }
{
    match value {
        Value::Int(number) if *number >= 1 && *number <= MOST_HOSTS => {
            Some(Cut::Hosts(*number as u64))
        }
        Value::Text(text) => percentage_cut(text.as_str()),
        _ => None,
    }
}

fn percentage_cut(text: &str) -> Option<Cut>
    ensures { option_map cut_view result ≡ option_map percentage (percentage_in text.now) }
{
    match percentage_in(text.as_bytes()) {
        None => None,
        Some(number) => Some(Cut::Percentage(number)),
    }
}

// Digits without a leading zero, then `%`.
fn percentage_in(bytes: &[u8]) -> Option<u64>
    ensures { result ≡ percentage_in bytes.now }
{
    if bytes.is_empty() || bytes[0] == b'0' || !bytes[0].is_ascii_digit() {
        return None;
    }
    percentage_from(bytes)
}

fn percentage_from(bytes: &[u8]) -> Option<u64>
    ensures { result ≡ is_percentage (number_from 0 bytes.now) }
{
    let mut number: u64 = 0;
    'digits: for index in 0..bytes.len() {
        let byte = bytes[index];
        if !byte.is_ascii_digit() {
            return percentage_of(number, byte, index + 1 == bytes.len());
        }
        number = number * 10 + (byte - b'0') as u64;
        if number > MOST_PERCENT {
            return None;
        }
    }
    None
}

// The number before that byte, which ends the text or doesn't.
fn percentage_of(number: u64, byte: u8, ends: bool) -> Option<u64>
    ensures { result ≡ percentage_where number byte ends }
{
    if ends && byte == b'%' && number >= 1 && number <= MOST_PERCENT {
        Some(number)
    } else {
        None
    }
}
