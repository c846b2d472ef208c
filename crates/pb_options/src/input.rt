// Standard input, for which `-` stands in the place of a file.
ghost use Rattle.std.specs.Prelude.{◌≡◌, ◌≤◌, nat_lt, option_map, string_bytes};
ghost use Rattle.std.specs.Option.{option_to_list};
ghost use Rattle.pb_options.specs.Inputs.{inputs_at, inputs_in, inputs_of, is_input};
ghost use Rattle.pb_options.specs.Inputs.{source_inputs, subject_names};

use crate::words::{Options, Source, Subject};

/// Whether the file of that name is standard input.
pub fn is_input(name: &str) -> bool
    ensures { result ≡ is_input name.now }
{
    name == "-"
}

/// Whether standard input stands in the place of several files; it can be read once.
pub fn names_input_twice(options: &Options) -> bool
    ensures { result ≡ nat_lt 1 (inputs_of options.now) }
{
    match options {
        Options::Check(subject) => subject_inputs(subject) > 1,
        Options::Run {
            subject,
            source,
            ..
        } => source_inputs(source) + subject_inputs(subject) > 1,
    }
}

// How many of the files that a verdict is on are standard input.
fn subject_inputs(subject: &Subject) -> u8
    ensures count { result ≡ inputs_in (subject_names subject.now) }
    ensures few { result ≤ 3 }
{
    inputs_at(subject.book.as_str())
        + (inputs_at(subject.inventory.as_str()) + optional_inputs(&subject.signatures))
}

fn optional_inputs(name: &Option<String>) -> u8
    ensures count { result ≡ inputs_in (option_to_list (option_map string_bytes name.now)) }
    ensures few { result ≤ 1 }
{
    match name {
        Some(name) => inputs_at(name.as_str()),
        None => 0,
    }
}

fn inputs_at(name: &str) -> u8
    ensures count { result ≡ inputs_at name.now }
    ensures few { result ≤ 1 }
{
    if is_input(name) { 1 } else { 0 }
}

// A folder is no file.
fn source_inputs(source: &Source) -> u8
    ensures count { result ≡ source_inputs source.now }
    ensures few { result ≤ 1 }
{
    match source {
        Source::Answers(name) => inputs_at(name.as_str()),
        Source::Modules(_) => 0,
    }
}
