// What happens in a run, as lines of its journal.
ghost use Rattle.std.specs.Prelude.{◌≡◌, IfOk, OnOk, Some, map, option_map, pos, string_bytes};
ghost use Rattle.pb_semantics.specs.Data.{int, put_field, text};
ghost use Rattle.pb_value.specs.View.{fields_view, items_view, view};
ghost use Rattle.pb_journal.specs.Said.{all_told, answers_at, as_fields, as_text, broken_of};
ghost use Rattle.pb_journal.specs.Said.{give_in, has_field, has_mark, is_marked, object, one_field};
ghost use Rattle.pb_journal.specs.Said.{place_at, said_by, said_in, said_of, said_on, said_onto};
ghost use Rattle.pb_journal.specs.Said.{said_word, told_among, told_by, told_data, told_items};
ghost use Rattle.pb_journal.specs.Said.{told_of, why_word, word_at, word_why};

use crate::written::{WriteFault, write_value};
use pb_finish::{Answer, Why};
use pb_run::Event;
use pb_value::{Fields, JsonFault, Value, field_of, put_field, read_json};
use std::alloc::{AllocError, Global};

/// The line of an event, which has these notes too, where it says nothing else by their names. What
/// reads it finds that event.
///
/// # Errors
///
/// Want of memory, or answers that nest too deep to be read back.
pub fn line_of(alloc: Global, event: &Event, notes: Fields) -> Result<String, WriteFault>
    ensures { IfOk result (λ line. said_on (string_bytes line) ≡ Some (said_by event.now)) }
{
    let mut fields = notes;
    put_event(alloc, event, &mut fields)?;
    let value = Value::of_fields(alloc, fields)?;
    let text = write_value(alloc, &value)?;
    Ok(text)
}

fn put_event(alloc: Global, event: &Event, fields: &mut Fields) -> Result<(), WriteFault>
    ensures { OnOk result (fields_view fields.new.entries
        ≡ said_onto (said_by event.now) (fields_view fields.old.entries)) }
{
    match event {
        Event::Start(host) => {
            put(alloc, fields, "host", place(*host)?)?;
            put_word(alloc, fields, "event", "start")?;
        }
        Event::Give(host, answers) => {
            let told = Value::of_items(alloc, answer_values(alloc, answers)?)?;
            put(alloc, fields, "answers", told)?;
            put(alloc, fields, "host", place(*host)?)?;
            put_word(alloc, fields, "event", "give")?;
        }
        Event::Turn => put_word(alloc, fields, "event", "turn")?,
        Event::Stop => put_word(alloc, fields, "event", "stop")?,
    }
    Ok(())
}

fn put(alloc: Global, fields: &mut Fields, name: &str, value: Value) -> Result<(), AllocError>
    ensures { OnOk result (fields_view fields.new.entries
        ≡ put_field name.now (view value) (fields_view fields.old.entries)) }
{
    let name = String::from_str(alloc, name)?;
    put_field(fields, name, value)?;
    Ok(())
}

fn put_word(alloc: Global, fields: &mut Fields, name: &str, word: &str) -> Result<(), AllocError>
    ensures { OnOk result (fields_view fields.new.entries
        ≡ put_field name.now (text word.now) (fields_view fields.old.entries)) }
{
    let word = Value::of_text(alloc, String::from_str(alloc, word)?)?;
    put(alloc, fields, name, word)
}

fn place(host: usize) -> Result<Value, WriteFault>
    ensures { IfOk result (λ v. view v ≡ int (pos host)) }
{
    match i64::try_from(host) {
        Ok(number) => Ok(Value::Int(number)),
        Err(_) => Err(WriteFault::TooLarge),
    }
}

fn answer_values(alloc: Global, answers: &[Answer]) -> Result<Vec<Value>, AllocError>
    ensures { IfOk result (λ vs. items_view vs.items ≡ told_items (map told_by answers.now)) }
{
    let mut found = Vec::with_capacity(alloc, answers.len())?;
    for answer in answers {
        found.push(answer_value(alloc, answer)?)?;
    }
    Ok(found)
}

fn answer_value(alloc: Global, answer: &Answer) -> Result<Value, AllocError>
    ensures { IfOk result (λ v. view v ≡ told_data (told_by answer.now)) }
{
    match answer {
        Answer::Object(value) => object_value(alloc, value),
        Answer::Unreachable => one_field(alloc, "unreachable", Value::Bool(true)),
        Answer::Broken(why) => {
            let word = String::from_str(alloc, word_of(*why))?;
            one_field(alloc, "broken", Value::of_text(alloc, word)?)
        }
    }
}

fn object_value(alloc: Global, value: &Value) -> Result<Value, AllocError>
    ensures { IfOk result (λ v. view v ≡ told_data (object (view value.now))) }
{
    let copy = value.clone()?;
    if is_marked(value) {
        one_field(alloc, "object", copy)
    } else {
        Ok(copy)
    }
}

// Whether it would be read as something else than an object that was given.
fn is_marked(value: &Value) -> bool
    ensures { result ≡ is_marked (view value.now) }
{
    match fields_of(value) {
        Some(fields) => has_mark(fields),
        None => true,
    }
}

fn has_mark(fields: &Fields) -> bool
    ensures { result ≡ has_mark (fields_view fields.now.entries) }
{
    has_field(fields, "object") || has_field(fields, "unreachable") || has_field(fields, "broken")
}

fn has_field(fields: &Fields, name: &str) -> bool
    ensures { result ≡ has_field name.now (fields_view fields.now.entries) }
{
    field_of(fields, name).is_some()
}

fn fields_of(value: &Value) -> Option<&Fields>
    ensures { option_map (λ f. fields_view f.now.entries) result ≡ as_fields (view value.now) }
{
    match value {
        Value::Rec(fields) => Some(fields),
        _ => None,
    }
}

// The record of one field.
fn one_field(alloc: Global, name: &str, value: Value) -> Result<Value, AllocError>
    ensures { IfOk result (λ v. view v ≡ one_field name.now (view value)) }
{
    let mut fields = Fields::new(alloc);
    put(alloc, &mut fields, name, value)?;
    Value::of_fields(alloc, fields)
}

fn word_of(why: Why) -> &'static str
    ensures { result.now ≡ why_word why }
{
    match why {
        Why::NotJson => "not json",
        Why::TooLong => "too long",
        Why::NoAnswer => "no answer",
        Why::TooSlow => "too slow",
    }
}

/// What a line says of a run, where it says something.
///
/// # Errors
///
/// Want of memory.
pub fn event_on(alloc: Global, line: &[u8]) -> Result<Option<Event>, AllocError>
    ensures { IfOk result (λ o. option_map said_by o ≡ said_on line.now) }
{
    match read_json(alloc, line) {
        Ok(value) => event_of(alloc, &value),
        Err(JsonFault::NotJson) => Ok(None),
        Err(JsonFault::NoMemory) => Err(AllocError),
    }
}

fn event_of(alloc: Global, value: &Value) -> Result<Option<Event>, AllocError>
    ensures { IfOk result (λ o. option_map said_by o ≡ said_of (view value.now)) }
{
    match fields_of(value) {
        Some(fields) => event_in(alloc, fields),
        None => Ok(None),
    }
}

fn event_in(alloc: Global, fields: &Fields) -> Result<Option<Event>, AllocError>
    ensures { IfOk result (λ o. option_map said_by o ≡ said_in (fields_view fields.now.entries)) }
{
    match word_at(fields) {
        Some(word) => event_of_word(alloc, word, fields),
        None => Ok(None),
    }
}

fn event_of_word(alloc: Global, word: &str, fields: &Fields) -> Result<Option<Event>, AllocError>
    ensures { IfOk result (λ o. option_map said_by o
        ≡ said_word word.now (fields_view fields.now.entries)) }
{
    match word {
        "start" => Ok(place_at(fields).map(Event::Start)),
        "give" => give_in(alloc, fields),
        "turn" => Ok(Some(Event::Turn)),
        "stop" => Ok(Some(Event::Stop)),
        _ => Ok(None),
    }
}

fn give_in(alloc: Global, fields: &Fields) -> Result<Option<Event>, AllocError>
    ensures { IfOk result (λ o. option_map said_by o ≡ give_in (fields_view fields.now.entries)) }
{
    let Some(host) = place_at(fields) else {
        return Ok(None);
    };
    let Some(items) = answers_at(fields) else {
        return Ok(None);
    };
    match answers_of(alloc, items)? {
        Some(answers) => Ok(Some(Event::Give(host, answers))),
        None => Ok(None),
    }
}

fn word_at(fields: &Fields) -> Option<&str>
    ensures { option_map (λ w. w.now) result ≡ word_at (fields_view fields.now.entries) }
{
    match field_of(fields, "event") {
        Some(Value::Text(letters)) => Some(letters.as_str()),
        _ => None,
    }
}

fn place_at(fields: &Fields) -> Option<usize>
    ensures { result ≡ place_at (fields_view fields.now.entries) }
{
    match field_of(fields, "host") {
        Some(Value::Int(number)) => usize::try_from(*number).ok(),
        _ => None,
    }
}

fn answers_at(fields: &Fields) -> Option<&[Value]>
    ensures { option_map (λ v. items_view v.now) result
        ≡ answers_at (fields_view fields.now.entries) }
{
    match field_of(fields, "answers") {
        Some(Value::List(items)) => Some(items),
        _ => None,
    }
}

fn answers_of(alloc: Global, items: &[Value]) -> Result<Option<Vec<Answer>>, AllocError>
    ensures { IfOk result (λ o. option_map (λ rs. map told_by rs.items) o
        ≡ all_told (items_view items.now)) }
{
    let mut found = Vec::with_capacity(alloc, items.len())?;
    for item in items {
        match answer_in(item)? {
            Some(answer) => found.push(answer)?,
            None => return Ok(None),
        }
    }
    Ok(Some(found))
}

fn answer_in(value: &Value) -> Result<Option<Answer>, AllocError>
    ensures { IfOk result (λ o. option_map told_by o ≡ told_of (view value.now)) }
{
    match fields_of(value) {
        Some(fields) => answer_by(
            field_of(fields, "object"),
            field_of(fields, "unreachable"),
            field_of(fields, "broken"),
            value,
        ),
        None => Ok(None),
    }
}

fn answer_by(
    object: Option<&Value>,
    unreachable: Option<&Value>,
    broken: Option<&Value>,
    whole: &Value,
) -> Result<Option<Answer>, AllocError>
    ensures { IfOk result (λ o. option_map told_by o ≡ told_among
        (option_map (λ v. view v.now) object.entry)
        (option_map (λ v. view v.now) unreachable.entry)
        (option_map (λ v. view v.now) broken.entry) (view whole.now)) }
{
    if let Some(object) = object {
        return Ok(Some(Answer::Object(object.clone()?)));
    }
    if unreachable.is_some() {
        return Ok(Some(Answer::Unreachable));
    }
    match broken {
        Some(why) => Ok(broken_of(why)),
        None => Ok(Some(Answer::Object(whole.clone()?))),
    }
}

fn broken_of(value: &Value) -> Option<Answer>
    ensures { option_map told_by result ≡ broken_of (view value.now) }
{
    let word = text_of(value)?;
    match why_of(word) {
        Some(why) => Some(Answer::Broken(why)),
        None => None,
    }
}

fn text_of(value: &Value) -> Option<&str>
    ensures { option_map (λ w. w.now) result ≡ as_text (view value.now) }
{
    match value {
        Value::Text(letters) => Some(letters.as_str()),
        _ => None,
    }
}

fn why_of(word: &str) -> Option<Why>
    ensures { result ≡ word_why word.now }
{
    match word {
        "not json" => Some(Why::NotJson),
        "too long" => Some(Why::TooLong),
        "no answer" => Some(Why::NoAnswer),
        "too slow" => Some(Why::TooSlow),
        _ => None,
    }
}
