// A folder without the program of a module.
ghost use Rattle.std.specs.Prelude.{◌≡◌, IfOk, sum_by, vec_len};

use crate::books::{ONE_HOST, ONE_PING, Told, checked_for, told};
use pb_pool::execute;
use pb_process::ProcessRunner;
use pb_verify::Checked;
use std::alloc::{AllocError, Global};
use std::mem;
use std::sync::Wait;
use std::test::Fail;
use std::thread::Threads;

fn one_runner(rt: &HostRuntime) -> Result<Vec<ProcessRunner<&HostRuntime>>, AllocError>
    ensures count { IfOk result (λ ps. vec_len ps ≡ 1) }
    ensures none { IfOk result (λ ps. sum_by (λ p. p.made) ps.items ≡ 0) }
{
    let mut runners = Vec::with_capacity(rt.alloc(), 1)?;
    runners.push(ProcessRunner::new(rt.alloc(), rt, "data/no_modules")?)?;
    Ok(runners)
}

// `host` starts the programs: a handle that is known by its bounds alone doesn't go to a thread.
fn told_of_ping<R: Threads + Wait + Sync>(
    rt: &R,
    host: &HostRuntime,
    alloc: Global,
    checked: &Checked,
) -> Result<Told, Fail> {
    // A number of 64 bits: so many calls can be counted.
    let _budget = checked.budget();
    let runners = one_runner(host)?;
    match execute(rt, alloc, checked, 1, runners) {
        Ok((run, runners)) => {
            drop(runners);
            let found = told(&run, 0);
            mem::forget(run);
            Ok(found)
        }
        Err(_) => Err("no run")?,
    }
}

#[test]
fn a_program_is_missing(rt: HostRuntime) -> Result<(), Fail> {
    let checked = checked_for(rt.alloc(), ONE_PING, ONE_HOST).ok_or("refused")?;
    let found = told_of_ping(&rt, &rt, rt.alloc(), &checked)?;
    assert_eq!(rt; found, (0, 0, 0, 1));
    Ok(())
}
