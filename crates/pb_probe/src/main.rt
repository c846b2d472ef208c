// Puts texts to the libraries: what each is read as, its kind and its value, or the inventory that
// it is, or a book's plan.
//
// Standard input is a JSON list of questions (`answer.rt` says what stands in one); a line of JSON
// is printed for each. The status is 64 where it is no such list.
#![tactic(auto)]

mod answer;
mod inventory;
mod lines;
mod plan;
mod question;
mod records;
mod repeat;
mod scene;
mod words;

use pb_value::{Value, read_json};
use std::io;
use std::io::Read;
use std::process::ExitCode;

// The most bytes of standard input.
const MOST_BYTES: usize = 16_777_216;

// The status where standard input is no list of questions.
const NOT_ASKED: u8 = 64;

fn main(rt: HostRuntime) -> io::Result<ExitCode> {
    let bytes = input_of(&rt)?;
    if bytes.len() > MOST_BYTES {
        return Ok(ExitCode::from(NOT_ASKED));
    }
    match read_json(rt.alloc(), &bytes) {
        Ok(Value::List(questions)) => answer_all(&rt, &questions),
        _ => Ok(ExitCode::from(NOT_ASKED)),
    }
}

// The bytes of standard input, of which there may be one more than the most.
fn input_of<R: Input + AllocGlobal>(rt: &R) -> io::Result<Vec<u8>> {
    let mut bytes = Vec::new(rt.alloc());
    let mut bounded = rt.reader().take(MOST_BYTES as u64 + 1);
    bounded.read_to_end(&mut bytes)?;
    Ok(bytes)
}

fn answer_all<R: Print + AllocGlobal>(rt: &R, questions: &[Value]) -> io::Result<ExitCode> {
    for question in questions {
        let line = answer::line_of(rt.alloc(), question)?;
        println!(rt; "{line}")?;
    }
    Ok(ExitCode::from(0))
}
