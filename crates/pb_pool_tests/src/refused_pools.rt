// Runs by workers in which an allocation may be refused: the recap is that of the row, or memory or
// a thread is wanted by name and the same run made again has that recap. tests/refused_checks.py
// refuses each allocation in turn.
ghost use Rattle.std.specs.Prelude.{◌<◌, ◌≡◌, IfOk, sum_by, vec_len};

use crate::books::{ONE_HOST, ONE_PING, PONG, TWO_HOSTS, Told, checked_again, told};
use crate::untils::ASKED_AGAIN;
use pb_executor::Run;
use pb_finish::{Answer, Why};
use pb_jobs::Call;
use pb_pool::{PoolFault, execute};
use pb_run::{Event, Taken};
use pb_runner::{Runner, ScriptRunner};
use pb_value::read_json;
use pb_verify::Checked;
use std::alloc::{AllocError, Global};
use std::sync::Wait;
use std::test::Fail;
use std::thread::Threads;

// The first host's call says 0 when it is made again, and the second host's at once.
const SCRIPT: &[u8] =
    b"{\"h1\":[{\"changed\":true,\"rc\":1,\"stdout\":\"\",\"stderr\":\"\",\"stdout_lines\":[],\"stderr_lines\":[]},{\"changed\":true,\"rc\":0,\"stdout\":\"\",\"stderr\":\"\",\"stdout_lines\":[],\"stderr_lines\":[]}],\"h2\":[{\"changed\":true,\"rc\":0,\"stdout\":\"\",\"stderr\":\"\",\"stdout_lines\":[],\"stderr_lines\":[]}]}";

fn is_over(run: Run<'_>) -> Result<bool, Fail> {
    let mut run = run;
    Ok(matches!(run.take()?, Taken::Finished | Taken::Stopped))
}

// Says what is wanted; the run that comes back is over, and for want of a thread nothing has
// happened in it.
fn wanted<R: Eprint>(rt: &R, fault: PoolFault<'_>) -> Result<bool, Fail> {
    match fault {
        PoolFault::NoMemory(None) => {
            eprintln!(rt; "no memory")?;
            Ok(true)
        }
        PoolFault::NoMemory(Some(run)) => {
            eprintln!(rt; "no memory")?;
            is_over(run)
        }
        PoolFault::NoThread(run) => {
            eprintln!(rt; "no thread")?;
            Ok(matches!(run.history(), [Event::Stop]))
        }
    }
}

// The run by so many workers, with their runners; none where memory or a thread is wanted.
fn ran<'c, W: Runner + Send + Drop, R: Threads + Wait + Sync + Eprint>(
    rt: &R,
    alloc: Global,
    checked: &'c Checked,
    runners: Vec<W>,
) -> Result<Option<(Run<'c>, Vec<W>)>, Fail>
    requires some { 0 < vec_len runners }
    requires none { sum_by W.calls runners.items ≡ 0 }
{
    // A number of 64 bits: so many calls can be counted.
    let _budget = checked.budget();
    match execute(rt, alloc, checked, runners.len(), runners) {
        Ok(ended) => Ok(Some(ended)),
        Err(fault) => {
            if !wanted(rt, fault)? {
                return Err("a run that comes back goes on, or something has happened in it")?;
            }
            Ok(None)
        }
    }
}

// Two runners that answer from the script.
fn script_runners(alloc: Global) -> Result<Vec<ScriptRunner>, AllocError>
    ensures count { IfOk result (λ rs. vec_len rs ≡ 2) }
    ensures none { IfOk result (λ rs. sum_by ⟦<ScriptRunner as Runner>⟧.calls rs.items ≡ 0) }
{
    let Ok(first) = ScriptRunner::read(alloc, SCRIPT) else {
        return Err(AllocError);
    };
    let mut runners = Vec::with_capacity(alloc, 2)?;
    runners.push(first.share()?)?;
    runners.push(first)?;
    Ok(runners)
}

// What is told of both hosts of the run from the script; none where memory or a thread is wanted,
// for the runners too.
fn told_of_script<R: Threads + Wait + Sync + Eprint>(
    rt: &R,
    alloc: Global,
    checked: &Checked,
) -> Result<Option<(Told, Told)>, Fail> {
    let Ok(runners) = script_runners(alloc) else {
        eprintln!(rt; "no runners")?;
        return Ok(None);
    };
    match ran(rt, alloc, checked, runners)? {
        Some((run, runners)) => {
            drop(runners);
            Ok(Some((told(&run, 0), told(&run, 1))))
        }
        None => Ok(None),
    }
}

#[test]
fn two_workers_answer_from_a_script(rt: HostRuntime) -> Result<(), Fail> {
    let alloc = rt.alloc();
    let checked = checked_again(alloc, ASKED_AGAIN, TWO_HOSTS).ok_or("refused")?;
    let found = match told_of_script(&rt, alloc, &checked)? {
        Some(found) => found,
        None => told_of_script(&rt, alloc, &checked)?.ok_or("refused again")?,
    };
    assert_eq!(rt; found, ((1, 1, 0, 0), (1, 1, 0, 0)));
    Ok(())
}

// Answers each call well; where memory is refused it gives no answer, and isn't short.
#[derive(Drop)]
struct Forgoing {
    alloc: Global,
    made: u64,
    has_forgone: bool,
}

impl Runner for Forgoing {
    ghost use Rattle.std.specs.Prelude.{false};

    ghost calls = { λ r. r.made };

    ghost answers = { λ r c a s. Unit {0} };

    ghost short = { λ r. false };

    fn call(&mut self, _call: &Call) -> Answer {
        self.made += 1;
        match read_json(self.alloc, PONG) {
            Ok(answer) => Answer::Object(answer),
            Err(_) => {
                self.has_forgone = true;
                Answer::Broken(Why::NoAnswer)
            }
        }
    }

    fn made(&self) -> u64 {
        self.made
    }

    fn is_short(&self) -> bool {
        false
    }
}

fn one_forgoing(alloc: Global) -> Result<Vec<Forgoing>, AllocError>
    ensures count { IfOk result (λ rs. vec_len rs ≡ 1) }
    ensures none { IfOk result (λ rs. sum_by (λ r. r.made) rs.items ≡ 0) }
{
    let mut runners = Vec::with_capacity(alloc, 1)?;
    runners.push(Forgoing {
        alloc,
        made: 0,
        has_forgone: false,
    })?;
    Ok(runners)
}

// Whether an answer was forgone, and what is told of the host then; none where memory or a thread
// is wanted, for the runner too.
fn told_of_forgoing<R: Threads + Wait + Sync + Eprint>(
    rt: &R,
    alloc: Global,
    checked: &Checked,
) -> Result<Option<(bool, Told)>, Fail> {
    let Ok(runners) = one_forgoing(alloc) else {
        eprintln!(rt; "no runners")?;
        return Ok(None);
    };
    let Some((run, runners)) = ran(rt, alloc, checked, runners)? else {
        return Ok(None);
    };
    let has_forgone = matches!(runners.as_slice(), [runner] if runner.has_forgone);
    if has_forgone {
        eprintln!(rt; "no answer")?;
    }
    Ok(Some((has_forgone, told(&run, 0))))
}

#[test]
fn an_answer_that_is_refused_fails_its_task(rt: HostRuntime) -> Result<(), Fail> {
    let checked = checked_again(rt.alloc(), ONE_PING, ONE_HOST).ok_or("refused")?;
    let (has_forgone, found) = match told_of_forgoing(&rt, rt.alloc(), &checked)? {
        Some(found) => found,
        None => told_of_forgoing(&rt, rt.alloc(), &checked)?.ok_or("refused again")?,
    };
    let row = if has_forgone {
        (0, 0, 1, 0)
    } else {
        (1, 0, 0, 0)
    };
    assert_eq!(rt; found, row);
    Ok(())
}
