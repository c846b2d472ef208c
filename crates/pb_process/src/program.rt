// The answer of a program to a call, by how it was started, what it wrote and how it ended.
ghost use Rattle.std.specs.Prelude.{◌<◌, ◌≡◌, length};
ghost use Rattle.pb_process.specs.Limits.{most_argument_bytes};

use crate::answer::answer_of;
use crate::asked::Asked;
use crate::exchange::{Exchange, Heard};
use crate::start::{deadline_of, end, rest_of, start};
use crate::told::Told;
use pb_finish::{Answer, Why};
use std::alloc::Global;
use std::io;
use std::io::{Eprint, ErrorKind};
use std::os::fd::AsRawFd;
use std::process::{Child, OpenProcess, Processes};
use std::time::{Clock, Duration};

/// The answer of the program to a call: it is started with the host's name and the arguments, and
/// what it writes beside its output is dropped. What its own children write once it has ended isn't
/// waited for. One that can't be started says that the host can't be reached; why is told on
/// standard error, once for each program and cause.
pub fn run_program<P: Processes + Clock + Eprint>(
    alloc: Global,
    processes: &P,
    asked: &Asked<'_>,
    told: &Told,
) -> Answer
where
    <P::Started as OpenProcess>::Stdin: AsRawFd,
    <P::Started as OpenProcess>::Stdout: AsRawFd,
    ensures long { most_argument_bytes asked.now.manner.by_input
        < length asked.now.arguments.now → result ≡ Answer.Broken Why.TooLong }
{
    if asked.is_too_long() {
        return Answer::Broken(Why::TooLong);
    }
    let deadline = deadline_of(processes, asked.manner.timeout);
    asked.say(alloc, "out");
    let answer = match start(alloc, processes, asked) {
        Ok(child) => child_answer(alloc, processes, asked, child, deadline),
        Err(e) => unstarted(processes, asked, told, &e),
    };
    asked.say(alloc, "in");
    answer
}

fn unstarted<P: Eprint>(rt: &P, asked: &Asked<'_>, told: &Told, e: &io::Error) -> Answer {
    told.tell(rt, asked.program, e);
    if e.kind() == ErrorKind::OutOfMemory && e.raw_os_error().is_none() {
        Answer::Broken(Why::NoAnswer)
    } else {
        Answer::Unreachable
    }
}

// What a program that runs answers; it has ended then.
fn child_answer<P: OpenProcess + Drop, R: Clock>(
    alloc: Global,
    rt: &R,
    asked: &Asked<'_>,
    child: Child<P>,
    deadline: Option<Duration>,
) -> Answer
where
    P::Stdin: AsRawFd,
    P::Stdout: AsRawFd,
{
    let mut child = child;
    let heard = match heard_of(alloc, rt, asked, &mut child, deadline) {
        Ok(heard) => heard,
        Err(_) => Heard::Nothing,
    };
    ended_answer(alloc, rt, asked, child, heard, deadline)
}

fn heard_of<P: OpenProcess + Drop, R: Clock>(
    alloc: Global,
    rt: &R,
    asked: &Asked<'_>,
    child: &mut Child<P>,
    deadline: Option<Duration>,
) -> io::Result<Heard>
where
    P::Stdin: AsRawFd,
    P::Stdout: AsRawFd,
{
    let Some(output) = child.stdout.take() else {
        return Ok(Heard::Nothing);
    };
    let input = child.stdin.take();
    let mut exchange = Exchange::new(alloc, asked.arguments.as_bytes(), input, output);
    exchange.hear(rt, child, deadline)
}

// What the program answers, by what was heard of it; it has ended then.
fn ended_answer<P: OpenProcess + Drop, R: Clock>(
    alloc: Global,
    rt: &R,
    asked: &Asked<'_>,
    child: Child<P>,
    heard: Heard,
    deadline: Option<Duration>,
) -> Answer {
    let mut child = child;
    match heard {
        Heard::All(output) => match rest_of(rt, &mut child, deadline) {
            Ok(Some(status)) => answer_of(alloc, &output, status.success()),
            Ok(None) => {
                end(alloc, rt, asked, &mut child, true);
                Answer::Broken(Why::TooSlow)
            }
            Err(_) => Answer::Broken(Why::NoAnswer),
        },
        Heard::TooMuch => {
            end(alloc, rt, asked, &mut child, false);
            Answer::Broken(Why::TooLong)
        }
        Heard::TooLittle => {
            end(alloc, rt, asked, &mut child, true);
            Answer::Broken(Why::TooSlow)
        }
        Heard::Nothing => {
            end(alloc, rt, asked, &mut child, false);
            Answer::Broken(Why::NoAnswer)
        }
    }
}
