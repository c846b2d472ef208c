// The program: reads its words and the files that they name, and prints what comes of them.
ghost use Rattle.std.specs.Prelude.{◌≡◌, ◌≤◌, IfOk, sum_by, vec_len};
ghost use Rattle.pb_cli.specs.Outcomes.{most_programs};

use crate::files::read_bounded;
use crate::form::{Form, form_of};
use crate::machine::{has_room, look_into, loses_ends, most_workers};
use crate::outcome::{Bytes, Outcome, Stream, USAGE, WANTING, checked, line_outcome, outcome_of};
use crate::want::Want;
use pb_book::BOOK_LIMIT;
use pb_inventory::INVENTORY_LIMIT;
use pb_options::input::{is_input, names_input_twice};
use pb_options::options::options;
use pb_options::{Calling, Handover, LineFault, Options, Source, Subject};
use pb_process::{Manner, ProcessRunner, Reason, Visible, Watchdog};
use pb_runner::ANSWERS_LIMIT;
use pb_sig::SIGNATURES_LIMIT;
use std::alloc::AllocError;
use std::os::fd::AsRawFd;
use std::process::{OpenProcess, Processes};
use std::rt::Files;
use std::sync::Wait;
use std::thread::Threads;
use std::time::{Clock, Duration};
use std::{fs, io};

// What is said where the ends of programs can't be seen.
const LOST: &str = "playcheck: SIGCHLD is ignored here: try env --default-signal=CHLD before it\n";

/// Does what the words say; the answer is the program's status. `host` starts the programs: they go
/// to threads, where a handle that is known by its bounds alone doesn't.
pub fn run<R>(rt: &R, host: &HostRuntime, words: &[String]) -> u8
where
    R: Files + AllocGlobal + Print + Eprint + Input + Threads + Wait + Sync,
{
    match options(rt.alloc(), words) {
        Ok(options) => match act(rt, host, options) {
            Ok(status) => status,
            Err(status) => status,
        },
        Err(fault) => say(rt, line_said(fault)),
    }
}

// What `check` comes to needs no handle that may wait.
fn act<R>(rt: &R, host: &HostRuntime, options: Options) -> Result<u8, u8>
where
    R: Files + AllocGlobal + Print + Eprint + Input + Threads + Wait + Sync,
{
    let options = fit(rt, options)?;
    let bytes = read_all(rt, &options)?;
    match &options {
        Options::Check(_) => {
            let said = checked(rt.alloc(), &bytes);
            Ok(conclude(rt, &options, &bytes, said))
        }
        Options::Run { .. } => {
            let said = come_to(rt, host, &options, &bytes);
            Ok(conclude(rt, &options, &bytes, said))
        }
    }
}

// Says what was come to, and what reads a file that is no JSON; the answer is the status.
fn conclude<R: Files + Print + Eprint>(
    rt: &R,
    options: &Options,
    bytes: &Bytes,
    said: Result<Outcome, Want>,
) -> u8 {
    let other = other_form(options, bytes, &said);
    let status = say(rt, said);
    if let Some((name, form)) = other {
        let name = Visible(name);
        let form = form.name();
        let _ = eprintln!(rt; "playcheck: {name} looks like {form}, which playcheck-ansible reads");
    }
    status
}

// The file that was refused for being no JSON, and what it looks like.
fn other_form<'o>(
    options: &'o Options,
    bytes: &Bytes,
    said: &Result<Outcome, Want>,
) -> Option<(&'o str, Form)> {
    let Ok(outcome) = said else {
        return None;
    };
    let subject = subject_of(options);
    let text = outcome.text.as_str();
    let (name, file) = if text.starts_with("refused P01 ") {
        (&subject.book, &bytes.book)
    } else if text.starts_with("refused I01 ") {
        (&subject.inventory, &bytes.inventory)
    } else {
        return None;
    };
    Some((name.as_str(), form_of(file)?))
}

fn line_said(fault: LineFault) -> Result<Outcome, Want> {
    Ok(line_outcome(fault)?)
}

// The options as this machine allows them: programs are called by no more workers than it has room
// for. Where their folder can't be read, or their ends can't be seen, nothing is done.
fn fit<R: Files + AllocGlobal + Eprint>(rt: &R, options: Options) -> Result<Options, u8> {
    let Some(folder) = folder_of(&options) else {
        return Ok(options);
    };
    if let Err(e) = look_into(rt.alloc(), folder) {
        return Err(unread(rt, folder, &e));
    }
    if loses_ends(rt) {
        return Err(tell(rt, LOST, USAGE));
    }
    Ok(with_fit_forks(rt, options))
}

// The folder of the programs, if programs are called.
fn folder_of(options: &Options) -> Option<&str> {
    match options {
        Options::Run {
            source: Source::Modules(folder),
            ..
        } => Some(folder.as_str()),
        _ => None,
    }
}

fn with_fit_forks<R: Eprint>(rt: &R, options: Options) -> Options {
    match options {
        Options::Run {
            subject,
            forks,
            source,
            calling,
        } => Options::Run {
            subject,
            forks: fit_forks(rt, forks),
            source,
            calling,
        },
        check => check,
    }
}

// As many workers as were asked for, or as there is room for; where these are fewer it is told.
fn fit_forks<R: Eprint>(rt: &R, forks: u16) -> u16 {
    let most = most_workers();
    if most >= forks {
        return forks;
    }
    let _ = eprintln!(rt;
        "playcheck: {most} workers: this machine's limits leave no room for {forks}"
    );
    most
}

// What the options and the files come to; without a file of answers, programs answer the calls.
fn come_to<R: AllocGlobal + Threads + Wait + Sync>(
    rt: &R,
    host: &HostRuntime,
    options: &Options,
    bytes: &Bytes,
) -> Result<Outcome, Want> {
    let watchdog = watchdog_for(host, options)?;
    let programs = programs_of(host, options, &watchdog)?;
    let outcome = outcome_of(rt, rt.alloc(), options, bytes, programs);
    if let Some(watchdog) = watchdog {
        watchdog.leave();
    }
    outcome
}

// Whoever ends programs where this process is ended, if programs are called. Where there can't be
// one it is told, and the run goes on without.
fn watchdog_for<R: AllocGlobal + Processes + Clock + Eprint>(
    rt: &R,
    options: &Options,
) -> Result<Option<Watchdog<R::Started>>, AllocError>
where
    <R::Started as OpenProcess>::Stdin: AsRawFd,
{
    if folder_of(options).is_none() {
        return Ok(None);
    }
    match Watchdog::start(rt.alloc(), rt) {
        Ok(watchdog) => Ok(Some(watchdog)),
        Err(e) => {
            let reason = Reason(&e);
            let _ = eprintln!(rt;
                "playcheck: cannot start /bin/sh: {reason}: programs may outlive this process"
            );
            Ok(None)
        }
    }
}

// A runner of the programs for each worker that there may be.
fn programs_of<'r, R: AllocGlobal + Processes>(
    rt: &'r R,
    options: &Options,
    watchdog: &Option<Watchdog<R::Started>>,
) -> Result<Vec<ProcessRunner<&'r R>>, AllocError>
where
    <R::Started as OpenProcess>::Stdin: AsRawFd,
    ensures enough { IfOk result (λ ps. most_programs options.now ≤ vec_len ps) }
    ensures none { IfOk result (λ ps. sum_by (λ p. p.made) ps.items ≡ 0) }
{
    match options {
        Options::Run {
            forks,
            source: Source::Modules(folder),
            calling,
            ..
        } => {
            let first = ProcessRunner::new(rt.alloc(), rt, folder.as_str())?;
            programs_like(&first, *calling, watchdog, (*forks).max(1))
        }
        _ => Ok(Vec::new(rt.alloc())),
    }
}

fn programs_like<'r, R: AllocGlobal + Processes>(
    first: &ProcessRunner<&'r R>,
    calling: Calling,
    watchdog: &Option<Watchdog<R::Started>>,
    count: u16,
) -> Result<Vec<ProcessRunner<&'r R>>, AllocError>
where
    <R::Started as OpenProcess>::Stdin: AsRawFd,
    ensures count { IfOk result (λ ps. vec_len ps ≡ count) }
    ensures none { IfOk result (λ ps. sum_by (λ p. p.made) ps.items ≡ 0) }
{
    let mut programs = Vec::with_capacity(first.allocator(), count as usize)?;
    for worker in 0..count {
        programs.push(first.share(manner_of(calling, watchdog, worker))?)?;
    }
    Ok(programs)
}

// How that worker calls programs.
fn manner_of<P: OpenProcess + Drop>(
    calling: Calling,
    watchdog: &Option<Watchdog<P>>,
    worker: u16,
) -> Manner
where
    P::Stdin: AsRawFd,
{
    Manner {
        by_input: calling.handover == Handover::Input,
        timeout: calling
            .timeout
            .map(|seconds| Duration::from_secs(seconds as u64)),
        watch: watchdog
            .as_ref()
            .map(|watchdog| watchdog.watch(worker as u32)),
    }
}

/// The status where the words of the command line can't be had.
pub fn status_of_fault<R: Files + Eprint>(rt: &R, e: io::Error) -> u8 {
    if e.kind() == io::ErrorKind::OutOfMemory {
        return wanting(rt, Want::Memory);
    }
    tell(rt, "playcheck: the command line is not UTF-8\n", USAGE)
}

// Prints what was come to; the answer is the status.
fn say<R: Files + Print + Eprint>(rt: &R, said: Result<Outcome, Want>) -> u8 {
    match said {
        Ok(outcome) => match outcome.stream {
            Stream::Output => print_text(rt, outcome.text.as_str(), outcome.status),
            Stream::Error => tell(rt, outcome.text.as_str(), outcome.status),
        },
        Err(want) => wanting(rt, want),
    }
}

// Says something on standard error, as well as that goes.
fn tell<R: Files + Eprint>(rt: &R, text: &str, status: u8) -> u8 {
    if has_room(rt, true, text.len()) {
        let _ = eprint!(rt; "{text}");
    }
    status
}

fn wanting<R: Files + Eprint>(rt: &R, want: Want) -> u8 {
    tell(rt, want.text(), WANTING)
}

// Prints on standard output, which has to take all of it; else it is said on standard error.
fn print_text<R: Files + Print + Eprint>(rt: &R, text: &str, status: u8) -> u8 {
    if has_room(rt, false, text.len()) && print!(rt; "{text}").is_ok() {
        return status;
    }
    tell(rt, text, status);
    tell(rt, "playcheck: the output cannot be written\n", USAGE)
}

// The files in the order book, inventory, signatures, answers, of which one may be standard input;
// or the status where one can't be read.
fn read_all<R: Files + AllocGlobal + Eprint + Input>(
    rt: &R,
    options: &Options,
) -> Result<Bytes, u8> {
    if names_input_twice(options) {
        return Err(tell(rt, "playcheck: standard input stands for one file\n", USAGE));
    }
    let subject = subject_of(options);
    Ok(Bytes {
        book: read_named(rt, subject.book.as_str(), BOOK_LIMIT as u32)?,
        inventory: read_named(rt, subject.inventory.as_str(), INVENTORY_LIMIT as u32)?,
        signatures: match &subject.signatures {
            Some(name) => Some(read_named(rt, name.as_str(), SIGNATURES_LIMIT as u32)?),
            None => None,
        },
        answers: match answers_name(options) {
            Some(name) => read_named(rt, name, ANSWERS_LIMIT as u32)?,
            None => Vec::new(rt.alloc()),
        },
    })
}

fn subject_of(options: &Options) -> &Subject {
    match options {
        Options::Check(subject) => subject,
        Options::Run { subject, .. } => subject,
    }
}

fn answers_name(options: &Options) -> Option<&str> {
    match options {
        Options::Run {
            source: Source::Answers(name),
            ..
        } => Some(name.as_str()),
        _ => None,
    }
}

fn read_named<R: Files + AllocGlobal + Eprint + Input>(
    rt: &R,
    name: &str,
    most: u32,
) -> Result<Vec<u8>, u8> {
    match open_bounded(rt, name, most) {
        Ok(bytes) => Ok(bytes),
        Err(e) => Err(unread(rt, name, &e)),
    }
}

// The status where a file or a folder can't be read, or there is no memory for it.
fn unread<R: Files + Eprint>(rt: &R, name: &str, e: &io::Error) -> u8 {
    if e.kind() == io::ErrorKind::OutOfMemory {
        return wanting(rt, Want::Memory);
    }
    let name = Visible(name);
    let reason = Reason(e);
    let _ = eprintln!(rt; "playcheck: cannot read {name}: {reason}");
    USAGE
}

fn open_bounded<R: Files + AllocGlobal + Input>(
    rt: &R,
    name: &str,
    most: u32,
) -> io::Result<Vec<u8>> {
    if is_input(name) {
        return read_bounded(rt.alloc(), rt.reader(), most);
    }
    read_bounded(rt.alloc(), fs::open(rt, name)?, most)
}
