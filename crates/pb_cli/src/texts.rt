// What is printed of a verdict and of a run, and the status of the program.
ghost use Rattle.std.specs.Prelude.{◌≡◌, IfOk, string_bytes};
ghost use Rattle.pb_core.specs.Words.{recap_view};
ghost use Rattle.pb_cli.specs.Texts.{ended_text, host_text, reached_text, recap_line, recaps_of};
ghost use Rattle.pb_cli.specs.Texts.{refusal_line, run_lines, status_for, verdict_line};

use crate::judge::Fault;
use pb_core::Recap;
use pb_executor::Run;
use pb_verify::{Checked, Refusal};
use std::alloc::{AllocError, Global};

/// The line of a verdict with its line feed; nothing for want of memory.
pub fn verdict_text(alloc: Global, verdict: &Result<Checked, Fault>) -> Result<String, AllocError>
    ensures { IfOk result (λ s. string_bytes s ≡ verdict_line verdict.now) }
{
    match verdict {
        Ok(checked) => {
            let budget = checked.budget();
            format!(in alloc; "accepted budget {budget}\n")
        }
        Err(Fault::Refused(refusal)) => refusal_text(alloc, refusal),
        Err(Fault::NoMemory) => Ok(String::new(alloc)),
    }
}

/// The line of a refusal with its line feed.
pub fn refusal_text(alloc: Global, refusal: &Refusal) -> Result<String, AllocError>
    ensures { IfOk result (λ s. string_bytes s ≡ refusal_line refusal.now) }
{
    let code = refusal.code.text();
    let line = refusal.line;
    let host = host_name(&refusal.host);
    format!(in alloc; "refused {code} line {line} host {host}\n")
}

fn host_name(host: &Option<String>) -> &str
    ensures { result.now ≡ host_text host.now }
{
    match host {
        Some(name) => name.as_str(),
        None => "-",
    }
}

/// A line for each host of the inventory in host order, with what its tasks came to.
pub fn recap_text(alloc: Global, run: &Run<'_>) -> Result<String, AllocError>
    ensures { IfOk result (λ s. string_bytes s ≡ run_lines run.now) }
{
    let mut text = String::new(alloc);
    let hosts = run.hosts();
    for host in 0..hosts {
        let line = recap_line_of(alloc, run.host_name(host), run.recap(host))?;
        text.push_str(line.as_str())?;
    }
    Ok(text)
}

fn recap_line_of(alloc: Global, name: &str, recap: Recap) -> Result<String, AllocError>
    ensures { IfOk result (λ s. string_bytes s ≡ recap_line name.now (recap_view recap)) }
{
    let reached = reached_of(alloc, recap)?;
    let ended = ended_of(alloc, recap)?;
    let reached = reached.as_str();
    let ended = ended.as_str();
    format!(in alloc; "{name} : {reached} {ended}\n")
}

fn reached_of(alloc: Global, recap: Recap) -> Result<String, AllocError>
    ensures { IfOk result (λ s. string_bytes s ≡ reached_text (recap_view recap)) }
{
    let Recap {
        ok,
        changed,
        unreachable,
        ..
    } = recap;
    format!(in alloc; "ok={ok} changed={changed} unreachable={unreachable}")
}

fn ended_of(alloc: Global, recap: Recap) -> Result<String, AllocError>
    ensures { IfOk result (λ s. string_bytes s ≡ ended_text (recap_view recap)) }
{
    let Recap {
        failed,
        skipped,
        rescued,
        ignored,
        ..
    } = recap;
    format!(in alloc; "failed={failed} skipped={skipped} rescued={rescued} ignored={ignored}")
}

/// The status of a run: 2 where some host's task failed, else 4 where some host couldn't be
/// reached, else 0.
pub fn status_of(run: &Run<'_>) -> u8
    ensures { result ≡ status_for (recaps_of run.now) }
{
    let mut unreachable = false;
    let hosts = run.hosts();
    for host in 0..hosts {
        let recap = run.recap(host);
        if recap.failed > 0 {
            return 2;
        }
        unreachable |= recap.unreachable > 0;
    }
    if unreachable { 4 } else { 0 }
}
