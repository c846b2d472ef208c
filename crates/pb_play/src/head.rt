// What a play says of itself, beside its sections and handlers.
ghost use Rattle.std.specs.Prelude.{◌≡◌, ◌≤◌, ◌||◌, IfOk, Ok, codes, nat_lt, not, option_map};
ghost use Rattle.pb_semantics.specs.Words.{Gives, field_value};
ghost use Rattle.pb_language.specs.BookForm.{fits, has_wrong_play_value, is_filled_text};
ghost use Rattle.pb_language.specs.BookForm.{are_filled_texts, is_free, is_large_play};
ghost use Rattle.pb_language.specs.BookForm.{is_pattern, is_set, is_strategy, most_lines};
ghost use Rattle.pb_language.specs.BookForm.{pattern_in, words_of_each};
ghost use Rattle.pb_language.specs.TaskForm.{boolean_in, is_boolean, is_text, is_vars, text_in};
ghost use Rattle.pb_language.specs.TaskForm.{vars_found};
ghost use Rattle.pb_value.specs.Words.{fields_view, items_view, view};
ghost use Rattle.pb_task.specs.Words.{names_view, number_of};
ghost use Rattle.pb_template.specs.Words.{entries_view};
ghost use Rattle.pb_play.specs.Faults.{offence_of};
ghost use Rattle.pb_play.specs.Heads.{are_other_lists, fit_play_keywords, fit_run_keywords};
ghost use Rattle.pb_play.specs.Heads.{fits_play_keyword, has_wrong_form};
ghost use Rattle.pb_play.specs.Heads.{are_play_texts_short, play_form_offence, play_head_read};
ghost use Rattle.pb_play.specs.Heads.{play_head_view, play_head_with};
ghost use Rattle.pb_play.specs.Plays.{is_linear, words_in};

use crate::fault::PlayFault;
use crate::form::{MOST_LINES, has_other_key, is_list, some_own_field_holds};
use crate::play::{Cut, Strategy};
use crate::serial::{is_serial, serial_of};
use pb_task::{Code, boolean_in, has_key, is_boolean, is_record_within, is_text, is_vars, vars_in};
use pb_template::{Entry, LongText, OpaqueNumber};
use pb_value::{Fields, Value, field_of};
use std::alloc::{AllocError, Global};
use std::sync::Arc;

// The keywords of a play.
const PLAY_KEYWORDS: [&str; 11] = [
    "hosts",
    "name",
    "gather_facts",
    "vars",
    "strategy",
    "serial",
    "handlers",
    "force_handlers",
    "pre_tasks",
    "tasks",
    "post_tasks",
];

const OTHER_LINES: [&str; 4] = ["handlers", "pre_tasks", "tasks", "post_tasks"];

// The most plays of a book.
const MOST_PLAYS: usize = 64;

// What stands at a play itself.
#[derive(Drop)]
pub(crate) struct Head {
    pub(crate) pattern: Vec<Arc<String>>,
    pub(crate) vars: Vec<Entry>,
    pub(crate) strategy: Strategy,
    pub(crate) serial: Vec<Cut>,
    pub(crate) gathers: bool,
    pub(crate) force_handlers: bool,
}

// The head of the play at that line, behind so many others.
pub(crate) fn play_head(
    alloc: Global,
    earlier: usize,
    line: u32,
    fields: &Fields,
) -> Result<Head, PlayFault>
    ensures given { Gives (λ h. Ok (play_head_view h)) offence_of result
        (play_head_read earlier line (fields_view fields.now.entries)) }
    ensures within { IfOk result (λ h. line ≤ most_lines) }
{
    if let Some(code) = play_form_offence(fields) {
        return Err(PlayFault::at(line, code));
    }
    let vars = match vars_in(alloc, fields) {
        Ok(vars) => vars,
        Err(fault) => return Err(PlayFault::of_text(line, fault)),
    };
    if is_large(earlier, line, fields) {
        return Err(PlayFault::at(line, Code::Limit));
    }
    Ok(head_with(alloc, fields, vars)?)
}

// The least code that applies to the play's keys and to the forms of their values.
fn play_form_offence(fields: &Fields) -> Option<Code>
    ensures { option_map number_of result ≡ play_form_offence (fields_view fields.now.entries) }
{
    if !has_key(fields, "hosts") {
        return Some(Code::Shape);
    }
    if has_other_key(&PLAY_KEYWORDS, fields) {
        return Some(Code::Keyword);
    }
    if has_wrong_value(fields) {
        return Some(Code::Value);
    }
    None
}

fn has_wrong_value(fields: &Fields) -> bool
    ensures { result ≡ has_wrong_play_value (fields_view fields.now.entries) }
{
    some_own_field_holds::<OpaqueNumber>(&OTHER_LINES, fields) || has_wrong_form(fields)
}

fn has_wrong_form(fields: &Fields) -> bool
    ensures { result ≡ has_wrong_form (fields_view fields.now.entries) }
{
    !are_other_lists(fields) || !fit_play_keywords(fields)
}

fn are_other_lists(fields: &Fields) -> bool
    ensures { result ≡ are_other_lists (fields_view fields.now.entries) }
{
    is_list(field_of(fields, "handlers"))
        && is_list(field_of(fields, "pre_tasks"))
        && is_list(field_of(fields, "tasks"))
        && is_list(field_of(fields, "post_tasks"))
}

// Whether the keywords of a play have their forms.
fn fit_play_keywords(fields: &Fields) -> bool
    ensures { result ≡ fit_play_keywords (fields_view fields.now.entries) }
{
    fits_play(fields, "hosts")
        && fits_play(fields, "name")
        && fits_play(fields, "gather_facts")
        && fits_play(fields, "vars")
        && fit_run_keywords(fields)
}

// Whether the keywords that say how it runs have their forms.
fn fit_run_keywords(fields: &Fields) -> bool
    ensures { result ≡ fit_run_keywords (fields_view fields.now.entries) }
{
    fits_play(fields, "strategy")
        && fits_play(fields, "serial")
        && fits_play(fields, "force_handlers")
}

// Whether what stands at the keyword, if it is there, has the form that a play wants of it.
fn fits_play(fields: &Fields, keyword: &str) -> bool
    ensures { result ≡ fits (fits_play_keyword keyword.now)
        (field_value keyword.now (fields_view fields.now.entries)) }
{
    match field_of(fields, keyword) {
        None => true,
        Some(value) => fits_play_keyword(keyword, value),
    }
}

fn fits_play_keyword(keyword: &str, value: &Value) -> bool
    ensures { result ≡ fits_play_keyword keyword.now (view value.now) }
{
    match keyword {
        "hosts" => is_pattern(value),
        "name" => is_text(value),
        "gather_facts" | "force_handlers" => is_boolean(value),
        "vars" => is_vars(value),
        "strategy" => is_strategy(value),
        "serial" => is_serial(value),
        _ => true,
    }
}

// Whether the value is a text that isn't empty, or a list of such.
fn is_pattern(value: &Value) -> bool
    ensures { result ≡ is_pattern (view value.now) }
{
    match value {
        Value::List(items) => are_filled_texts(items),
        _ => is_filled_text(value),
    }
}

fn are_filled_texts(items: &[Value]) -> bool
    ensures { result ≡ are_filled_texts (items_view items.now) }
{
    for item in items {
        if !is_filled_text(item) {
            return false;
        }
    }
    true
}

fn is_filled_text(value: &Value) -> bool
    ensures { result ≡ is_filled_text (view value.now) }
{
    match value {
        Value::Text(text) => !text.is_empty(),
        _ => false,
    }
}

fn is_strategy(value: &Value) -> bool
    ensures { result ≡ is_strategy (view value.now) }
{
    match value {
        Value::Text(text) => matches!(text.as_str(), "linear" | "free"),
        _ => false,
    }
}

// Whether the play, its place or its line is past a limit.
fn is_large(earlier: usize, line: u32, fields: &Fields) -> bool
    ensures { result ≡ is_large_play earlier (fields_view fields.now.entries)
        || nat_lt most_lines line }
{
    earlier >= MOST_PLAYS || !are_texts_short(fields) || line > MOST_LINES
}

fn are_texts_short(fields: &Fields) -> bool
    ensures { result ≡ are_play_texts_short (fields_view fields.now.entries) }
{
    !some_own_field_holds::<LongText>(&OTHER_LINES, fields)
        && is_record_within(field_of(fields, "vars"))
}

// The head with these variables.
fn head_with(alloc: Global, fields: &Fields, vars: Vec<Entry>) -> Result<Head, AllocError>
    ensures { IfOk result (λ h. play_head_view h
        ≡ play_head_with (entries_view vars.items) (fields_view fields.now.entries)) }
{
    Ok(Head {
        pattern: pattern_in(alloc, field_of(fields, "hosts"))?,
        vars,
        strategy: strategy_in(fields),
        serial: serial_of(alloc, field_of(fields, "serial"))?,
        gathers: is_set(fields, "gather_facts"),
        force_handlers: is_set(fields, "force_handlers"),
    })
}

// The texts that a pattern is, or lists.
fn pattern_in(alloc: Global, hosts: Option<&Value>) -> Result<Vec<Arc<String>>, AllocError>
    ensures { IfOk result (λ ts. words_in (names_view ts.items)
        ≡ pattern_in (option_map (λ v. view v.now) hosts.entry)) }
{
    match hosts {
        Some(Value::Text(text)) => Ok(vec![in alloc; text.clone()?]?),
        Some(Value::List(items)) => texts_in(alloc, items),
        _ => Ok(Vec::new(alloc)),
    }
}

// The texts up to the first item that is none.
fn texts_in(alloc: Global, items: &[Value]) -> Result<Vec<Arc<String>>, AllocError>
    ensures { IfOk result (λ ts. words_in (names_view ts.items)
        ≡ words_of_each (items_view items.now)) }
{
    let mut texts = Vec::with_capacity(alloc, items.len())?;
    for item in items {
        match item {
            Value::Text(text) => texts.push(text.clone()?)?,
            _ => return Ok(texts),
        }
    }
    Ok(texts)
}

fn strategy_in(fields: &Fields) -> Strategy
    ensures { is_linear result ≡ not (is_free (text_in
        (field_value (codes "strategy") (fields_view fields.now.entries)))) }
{
    match field_of(fields, "strategy") {
        Some(Value::Text(text)) if text.as_str() == "free" => Strategy::Free,
        _ => Strategy::Linear,
    }
}

// Whether the truth value at that key is there and true.
fn is_set(fields: &Fields, key: &str) -> bool
    ensures { result ≡ is_set (boolean_in (field_value key.now (fields_view fields.now.entries))) }
{
    boolean_in(fields, key) == Some(true)
}
