// What the words come to, of the bytes of the files that they name: what is printed where, and the
// status.
ghost use Rattle.std.specs.Prelude.{◌<◌, ◌≡◌, ◌≤◌, All, Err, IfOk, Ok, false, max, min, sum_by};
ghost use Rattle.std.specs.Prelude.{vec_len};
ghost use Rattle.pb_runner.specs.Words.{answers_in};
ghost use Rattle.pb_pool.specs.Executed.{IsAnswerOfOne, IsOpenedWith};
ghost use Rattle.pb_pool.specs.Kept.{AllTold};
ghost use Rattle.pb_cli.specs.Outcomes.{ChecksAs, IsOutcome, IsWholeRun, JudgesFiles};
ghost use Rattle.pb_cli.specs.Outcomes.{LineSays, RunSays, RunsAccepted, RunsAcceptedAs};
ghost use Rattle.pb_cli.specs.Outcomes.{RunsAcceptedWith, RunsAs, RunsBy, RunsWith};
ghost use Rattle.pb_cli.specs.Outcomes.{VerdictSays, most_programs, programs_for, want_in};
ghost use Rattle.pb_cli.specs.Outcomes.{workers};

use crate::judge::{Fault, judge};
use crate::texts::{recap_text, refusal_text, status_of, verdict_text};
use crate::want::Want;
use pb_executor::Run;
use pb_options::{LineFault, Options, Source};
use pb_pool::{PoolFault, execute};
use pb_runner::{Runner, ScriptRunner};
use pb_verify::Checked;
use std::alloc::{AllocError, Global};
use std::mem;
use std::sync::Wait;
use std::thread::Threads;

/// The status where all is well.
pub const FINE: u8 = 0;

/// The status of a refusal.
pub const REFUSED: u8 = 1;

/// The status for want of memory, or of a thread.
pub const WANTING: u8 = 3;

/// The status of a bad command line, of a file that can't be read and of an output that can't be
/// written.
pub const USAGE: u8 = 64;

/// The bytes of the files that are named; no answers where no file of them is.
#[derive(Drop)]
pub struct Bytes {
    pub book: Vec<u8>,
    pub inventory: Vec<u8>,
    pub signatures: Option<Vec<u8>>,
    pub answers: Vec<u8>,
}

/// Where a text is printed.
#[derive(Clone, Copy)]
pub enum Stream {
    Output,
    Error,
}

/// What the program prints, and its status.
#[derive(Drop)]
pub struct Outcome {
    pub stream: Stream,
    pub text: String,
    pub status: u8,
}

/// What comes of words that name no options: help, the version or what is wrong with them. Nothing
/// for want of memory.
pub fn line_outcome(fault: LineFault) -> Result<Outcome, AllocError>
    ensures { LineSays fault result }
{
    match fault {
        LineFault::Help(text) => Ok(told(text, FINE)),
        LineFault::Version(text) => Ok(printed(text, FINE)),
        LineFault::Line(text) => Ok(told(text, USAGE)),
        LineFault::NoMemory => Err(AllocError),
    }
}

fn told(text: String, status: u8) -> Outcome
    ensures { result ≡ record { stream = Stream.Error; text = text; status = status } }
{
    Outcome {
        stream: Stream::Error,
        text,
        status,
    }
}

fn printed(text: String, status: u8) -> Outcome
    ensures { result ≡ record { stream = Stream.Output; text = text; status = status } }
{
    Outcome {
        stream: Stream::Output,
        text,
        status,
    }
}

/// What comes of the options and the bytes of the files that they name: of `check` the verdict, of
/// `run` the recap of the run, or the refusal. Without a file of answers the calls of the run are
/// put to the programs, of which each worker has one. Nothing for want of memory or of a thread.
pub fn outcome_of<W: Runner + Send + Drop, R: Threads + Wait + Sync>(
    rt: &R,
    alloc: Global,
    options: &Options,
    bytes: &Bytes,
    programs: Vec<W>,
) -> Result<Outcome, Want>
    requires none { sum_by W.calls programs.items ≡ 0 }
    requires enough { most_programs options.now ≤ vec_len programs }
    ensures { IfOk result (IsOutcome W.answers W.short programs.items options.now bytes.now) }
{
    match options {
        Options::Check(_) => {
            drop(programs);
            checked(alloc, bytes)
        }
        Options::Run { forks, source, .. } => {
            answered(rt, alloc, source, bytes, *forks, programs)
        }
    }
}

fn answered<W: Runner + Send + Drop, R: Threads + Wait + Sync>(
    rt: &R,
    alloc: Global,
    source: &Source,
    bytes: &Bytes,
    forks: u16,
    programs: Vec<W>,
) -> Result<Outcome, Want>
    requires none { sum_by W.calls programs.items ≡ 0 }
    requires enough { programs_for source.now forks ≤ vec_len programs }
    ensures { IfOk result (RunsBy W.answers W.short programs.items source.now forks bytes.now) }
{
    match source {
        Source::Answers(_) => {
            drop(programs);
            ran(rt, alloc, bytes, forks)
        }
        Source::Modules(_) => ran_by(rt, alloc, bytes, forks, programs),
    }
}

/// What comes of `check` and the bytes of the files that it names: the verdict. Nothing for want of
/// memory.
pub fn checked(alloc: Global, bytes: &Bytes) -> Result<Outcome, Want>
    ensures { IfOk result (ChecksAs bytes.now) }
{
    let verdict = verdict_of(alloc, bytes);
    let outcome = verdict_outcome(alloc, &verdict);
    leave(verdict);
    outcome
}

fn ran<R: Threads + Wait + Sync>(
    rt: &R,
    alloc: Global,
    bytes: &Bytes,
    forks: u16,
) -> Result<Outcome, Want>
    ensures { IfOk result (RunsAs forks bytes.now) }
{
    match verdict_of(alloc, bytes) {
        Ok(checked) => {
            let outcome = ran_accepted(rt, alloc, &checked, forks, bytes.answers.as_slice());
            leave(checked);
            outcome
        }
        Err(fault) => fault_outcome(alloc, &fault),
    }
}

fn ran_by<W: Runner + Send + Drop, R: Threads + Wait + Sync>(
    rt: &R,
    alloc: Global,
    bytes: &Bytes,
    forks: u16,
    programs: Vec<W>,
) -> Result<Outcome, Want>
    requires none { sum_by W.calls programs.items ≡ 0 }
    requires enough { max forks 1 ≤ vec_len programs }
    ensures { IfOk result (RunsWith W.answers W.short programs.items forks bytes.now) }
{
    match verdict_of(alloc, bytes) {
        Ok(checked) => {
            let outcome = ran_accepted_by(rt, alloc, &checked, forks, programs);
            leave(checked);
            outcome
        }
        Err(fault) => {
            drop(programs);
            fault_outcome(alloc, &fault)
        }
    }
}

// What comes of the run of what was accepted, whose calls the programs answer.
fn ran_accepted_by<W: Runner + Send + Drop, R: Threads + Wait + Sync>(
    rt: &R,
    alloc: Global,
    checked: &Checked,
    forks: u16,
    programs: Vec<W>,
) -> Result<Outcome, Want>
    requires none { sum_by W.calls programs.items ≡ 0 }
    requires enough { max forks 1 ≤ vec_len programs }
    ensures { IfOk result
        (RunsAcceptedWith W.answers W.short programs.items forks checked.now) }
{
    let mut programs = programs;
    programs.truncate(workers_of(forks, checked.hosts()));
    let run = whole_run(rt, alloc, checked, forks, programs)?;
    let outcome = run_outcome(alloc, &run);
    leave(run);
    outcome
}

// What comes of the run of what was accepted, with the answers of the file.
fn ran_accepted<R: Threads + Wait + Sync>(
    rt: &R,
    alloc: Global,
    checked: &Checked,
    forks: u16,
    answers: &[u8],
) -> Result<Outcome, Want>
    ensures { IfOk result (RunsAcceptedAs forks answers.now checked.now) }
{
    match scripted_run(rt, alloc, checked, forks, answers)? {
        Ok(run) => {
            let outcome = run_outcome(alloc, &run);
            leave(run);
            outcome
        }
        Err(fault) => fault_outcome(alloc, &fault),
    }
}

// Lets go of a value without taking it apart, as the process ends and its memory with it.
fn leave<T: Drop>(value: T) {
    mem::forget(value);
}

fn verdict_outcome(alloc: Global, verdict: &Result<Checked, Fault>) -> Result<Outcome, Want>
    ensures { IfOk result (VerdictSays verdict.now) }
{
    let status = match verdict {
        Ok(_) => FINE,
        Err(Fault::Refused(_)) => REFUSED,
        Err(Fault::NoMemory) => return Err(Want::Memory),
    };
    Ok(printed(verdict_text(alloc, verdict)?, status))
}

fn run_outcome(alloc: Global, run: &Run<'_>) -> Result<Outcome, Want>
    ensures { IfOk result (RunSays (Ok run.now)) }
{
    Ok(printed(recap_text(alloc, run)?, status_of(run)))
}

fn fault_outcome(alloc: Global, fault: &Fault) -> Result<Outcome, Want>
    ensures { IfOk result (RunSays (Err fault.now)) }
{
    match fault {
        Fault::Refused(refusal) => Ok(printed(refusal_text(alloc, refusal)?, REFUSED)),
        Fault::NoMemory => Err(Want::Memory),
    }
}

fn verdict_of(alloc: Global, bytes: &Bytes) -> Result<Checked, Fault>
    ensures { JudgesFiles bytes.now result }
{
    let signatures = match &bytes.signatures {
        Some(found) => Some(found.as_slice()),
        None => None,
    };
    judge(
        alloc,
        bytes.book.as_slice(),
        bytes.inventory.as_slice(),
        signatures,
    )
}

/// The run of an accepted book to its end, with the answers of the file, or what is wrong with
/// these. Nothing for want of memory or of a thread.
pub fn scripted_run<'c, R: Threads + Wait + Sync>(
    rt: &R,
    alloc: Global,
    checked: &'c Checked,
    forks: u16,
    answers: &[u8],
) -> Result<Result<Run<'c>, Fault>, Want>
    ensures { IfOk result (RunsAccepted forks answers.now checked.now) }
{
    let first = match ScriptRunner::read(alloc, answers) {
        Ok(first) => first,
        Err(fault) => return Ok(Err(fault.into())),
    };
    let runners = shares_of(alloc, &first, workers_of(forks, checked.hosts()));
    leave(first);
    let run = whole_run(rt, alloc, checked, forks, runners?)?;
    Ok(Ok(run))
}

// So many runners that answer from the same file, and have made no calls.
fn shares_of(
    alloc: Global,
    first: &ScriptRunner,
    count: usize,
) -> Result<Vec<ScriptRunner>, AllocError>
    ensures count { IfOk result (λ rs. vec_len rs ≡ count) }
    ensures file { IfOk result
        (λ rs. All (λ r. answers_in r ≡ answers_in first.now) rs.items) }
    ensures none { IfOk result
        (λ rs. sum_by ⟦<ScriptRunner as Runner>⟧.calls rs.items ≡ 0) }
{
    let mut runners = Vec::with_capacity(alloc, count)?;
    for _worker in 0..count {
        runners.push(first.share()?)?;
    }
    Ok(runners)
}

// As many workers as there are hosts, at most the forks and at least one.
fn workers_of(forks: u16, hosts: usize) -> usize
    ensures { result ≡ max (min forks hosts) 1 }
{
    (forks as usize).min(hosts).max(1)
}

// The run of the book to its end, by a worker for each runner, of which there are as many as there
// are workers. Nothing for want of memory or of a thread.
fn whole_run<'c, W: Runner + Send + Drop, R: Threads + Wait + Sync>(
    rt: &R,
    alloc: Global,
    checked: &'c Checked,
    forks: u16,
    runners: Vec<W>,
) -> Result<Run<'c>, Want>
    requires none { sum_by W.calls runners.items ≡ 0 }
    requires count { vec_len runners ≡ workers forks checked.now }
    ensures whole { IfOk result (IsWholeRun forks checked.now) }
    ensures told { IfOk result (λ r. AllTold (IsAnswerOfOne W.answers W.short runners.items
        (IsOpenedWith checked.now r.forks)) r.history) }
{
    // A budget fits into 64 bits.
    let _budget = checked.budget();
    let count = runners.len();
    match execute(rt, alloc, checked, count, runners) {
        Ok((run, runners)) => {
            leave(runners);
            Ok(run)
        }
        Err(fault) => {
            let want = want_of(&fault);
            leave(fault);
            Err(want)
        }
    }
}

// What wasn't there where a pool gives up.
fn want_of(fault: &PoolFault<'_>) -> Want
    ensures { result ≡ want_in fault.now }
{
    match fault {
        PoolFault::NoMemory(_) => Want::Memory,
        PoolFault::NoThread(_) => Want::Thread,
    }
}
