// The program: judges a playbook, and runs what was accepted.
#![tactic(auto)]

mod files;
mod form;
mod judge;
mod machine;
mod outcome;
mod program;
mod texts;
mod want;

use std::env::Env;
use std::process::ExitCode;
use std::{env, io};

fn main(rt: HostRuntime) -> io::Result<ExitCode> {
    let status = match words_of(&rt) {
        Ok(words) => program::run(&rt, &rt, words.as_slice()),
        Err(e) => program::status_of_fault(&rt, e),
    };
    Ok(ExitCode::from(status))
}

fn words_of<R: Env + AllocGlobal>(rt: &R) -> io::Result<Vec<String>> {
    let mut words = Vec::new(rt.alloc());
    for word in env::args(rt)? {
        words.push(word)?;
    }
    Ok(words)
}
