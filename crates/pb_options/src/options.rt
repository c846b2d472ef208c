// The command line, read with `clap`.
ghost use Rattle.std.specs.Prelude.{[], ◌<◌, ◌^◌, ◌≡◌, ◌≤◌, IfErr, IfOk, IfSome, Some, codes};
ghost use Rattle.std.specs.Prelude.{false, map, option_map, string_bytes, unwrap_or, ℕ};
ghost use Rattle.clap.specs.Words.{app_of, fault_of as kinds_of, first_of, found_of, kind_of};
ghost use Rattle.clap.specs.Words.{rows_of, rule_of, subcommand_of, subcommand_rows_of};
ghost use Rattle.pb_options.specs.Options.{Extends, HasForks, IsForkCount, IsLocal, IsOfKind};
ghost use Rattle.pb_options.specs.Options.{IsMistakeWhere, IsRefusal, IsTimeout, NamesFiles};
ghost use Rattle.pb_options.specs.Options.{NamesHandover, NamesNoForks, NamesNoSource, NamesSource};
ghost use Rattle.pb_options.specs.Options.{Says, SaysCalling, SaysNoCalling, SaysNone, check_app};
ghost use Rattle.pb_options.specs.Options.{most_forks, option_rule, playcheck_app, run_app};
ghost use Rattle.pb_options.specs.Options.{top_app, with_callings, with_files, with_sources};

use crate::words::{Calling, Handover, LineFault, Options, Source, Subject};
use clap::error::ErrorKind;
use clap::{Arg, ArgAction, ArgMatches, Command, Error};
use std::alloc::{AllocError, Global};

// The version that the program tells of itself.
const VERSION: &str = "0.3.0";

// The most workers of a run.
const MOST_FORKS: u16 = 256;

// The workers of a run where the words name no number.
const DEFAULT_FORKS: u16 = 5;

// The most seconds of a call: a week.
const MOST_SECONDS: u32 = 604_800;

/// Reads the words of the command line, the program's name first: the values are those that `clap`
/// finds in them.
///
/// # Errors
/// `Help` and `Version` only where the words ask for them, with `clap`'s text; `Line` where `clap`
/// finds a mistake in them or they name no options, with what is wrong.
pub fn options(alloc: Global, words: &[String]) -> Result<Options, LineFault>
    ensures says { IfOk result (Says (subcommand_of playcheck_app (map string_bytes words.now))) }
    ensures forks { IfOk result HasForks }
    ensures refused { let words = map string_bytes words.now in
        let found = subcommand_of playcheck_app words in
        IfErr result (IsRefusal (kinds_of playcheck_app words) found) }
{
    let command = command_of(alloc)?;
    match command.try_get_matches_from(words) {
        Ok(matches) => chosen(alloc, &matches),
        Err(e) => Err(fault_of(alloc, &e)),
    }
}

fn fault_of(alloc: Global, e: &Error) -> LineFault
    ensures { IsOfKind result (kind_of e.now) }
{
    match (e.kind(), e.to_string(alloc)) {
        (ErrorKind::OutOfMemory, _) | (_, Err(_)) => LineFault::NoMemory,
        (ErrorKind::DisplayHelp, Ok(text)) => LineFault::Help(text),
        (ErrorKind::DisplayVersion, Ok(text)) => LineFault::Version(text),
        (_, Ok(text)) => LineFault::Line(text),
    }
}

fn chosen(alloc: Global, matches: &ArgMatches<'_>) -> Result<Options, LineFault>
    ensures says { IfOk result (Says (subcommand_rows_of matches.now)) }
    ensures forks { IfOk result HasForks }
    ensures refused { IfErr result (IsMistakeWhere (SaysNone (subcommand_rows_of matches.now))) }
{
    match matches.subcommand() {
        Some(("check", found)) => Ok(Options::Check(subject_of(alloc, found)?)),
        Some(("run", found)) => Ok(Options::Run {
            forks: forks_of(alloc, found)?,
            subject: subject_of(alloc, found)?,
            source: source_of(alloc, found)?,
            calling: calling_of(alloc, found)?,
        }),
        _ => Err(LineFault::Line(String::from_str(
            alloc,
            "playcheck: a command is wanted, check or run\n",
        )?)),
    }
}

// The first value of that name.
fn value_of<'a>(found: &ArgMatches<'a>, name: &str) -> Option<&'a str>
    ensures { option_map (λ s. s.now) result ≡ first_of name.now (rows_of (found_of found.now)) }
{
    found.get_str(name)
}

// The first value of that name, empty where there is none.
fn text_of(alloc: Global, found: &ArgMatches<'_>, name: &str) -> Result<String, AllocError>
    ensures { IfOk result (λ s. string_bytes s
        ≡ unwrap_or (first_of name.now (rows_of (found_of found.now))) []) }
{
    match value_of(found, name) {
        Some(text) => String::from_str(alloc, text),
        None => Ok(String::new(alloc)),
    }
}

// The first value of that name, if there is one.
fn optional_of(
    alloc: Global,
    found: &ArgMatches<'_>,
    name: &str,
) -> Result<Option<String>, AllocError>
    ensures { IfOk result (λ o. option_map string_bytes o
        ≡ first_of name.now (rows_of (found_of found.now))) }
{
    match value_of(found, name) {
        Some(text) => Ok(Some(String::from_str(alloc, text)?)),
        None => Ok(None),
    }
}

fn subject_of(alloc: Global, found: &ArgMatches<'_>) -> Result<Subject, AllocError>
    ensures { IfOk result (NamesFiles (rows_of (found_of found.now))) }
{
    Ok(Subject {
        book: text_of(alloc, found, "book")?,
        inventory: text_of(alloc, found, "inventory")?,
        signatures: optional_of(alloc, found, "signatures")?,
    })
}

fn forks_of(alloc: Global, found: &ArgMatches<'_>) -> Result<u16, LineFault>
    ensures numeral { IfOk result
        (IsForkCount (first_of (codes "forks") (rows_of (found_of found.now)))) }
    ensures range { IfOk result (λ n. (1 ≤ n) × (n ≤ most_forks)) }
    ensures refused { IfErr result (IsMistakeWhere (NamesNoForks (rows_of (found_of found.now)))) }
{
    match number_of(value_of(found, "forks")) {
        Some(n) if n >= 1 && n <= MOST_FORKS => Ok(n),
        _ => Err(LineFault::Line(String::from_str(
            alloc,
            "playcheck: forks are a whole number from 1 to 256\n",
        )?)),
    }
}

// The number that the numeral writes, the default where there is none.
fn number_of(text: Option<&str>) -> Option<u16>
    ensures number { IfSome result (IsForkCount (option_map (λ t. t.now) text.entry)) }
    ensures fits { (n : ℕ) → IsForkCount (option_map (λ t. t.now) text.entry) n → n < 2 ^ 16
        → result ≡ Some n }
{
    match text {
        Some(text) => text.parse::<u16>().ok(),
        None => Some(DEFAULT_FORKS),
    }
}

fn source_of(alloc: Global, found: &ArgMatches<'_>) -> Result<Source, LineFault>
    ensures source { IfOk result (NamesSource (rows_of (found_of found.now))) }
    ensures refused { IfErr result (IsMistakeWhere (NamesNoSource (rows_of (found_of found.now)))) }
{
    match (value_of(found, "answers"), value_of(found, "modules")) {
        (Some(name), None) => Ok(Source::Answers(String::from_str(alloc, name)?)),
        (None, Some(name)) => Ok(Source::Modules(String::from_str(alloc, name)?)),
        _ => Err(LineFault::Line(String::from_str(
            alloc,
            "playcheck: run takes either --answers or --modules\n",
        )?)),
    }
}

// How programs are called. Where there are none, nothing may be said of it.
fn calling_of(alloc: Global, found: &ArgMatches<'_>) -> Result<Calling, LineFault>
    ensures calling { IfOk result (SaysCalling (rows_of (found_of found.now))) }
    ensures refused { IfErr result (IsMistakeWhere (SaysNoCalling (rows_of (found_of found.now)))) }
{
    let arguments = value_of(found, "arguments");
    let timeout = value_of(found, "timeout");
    let modules = value_of(found, "modules");
    if modules.is_none() && (arguments.is_some() || timeout.is_some()) {
        return Err(LineFault::Line(String::from_str(
            alloc,
            "playcheck: --arguments and --timeout go with --modules\n",
        )?));
    }
    Ok(Calling {
        handover: handover_of(alloc, arguments)?,
        timeout: timeout_of(alloc, timeout)?,
    })
}

fn handover_of(alloc: Global, text: Option<&str>) -> Result<Handover, LineFault>
    ensures named { IfOk result (NamesHandover (option_map (λ t. t.now) text.entry)) }
    ensures refused { IfErr result
        (IsMistakeWhere ((h : _) → NamesHandover (option_map (λ t. t.now) text.entry) h → ⊥)) }
{
    match text {
        None | Some("word") => Ok(Handover::Word),
        Some("stdin") => Ok(Handover::Input),
        _ => Err(LineFault::Line(String::from_str(
            alloc,
            "playcheck: arguments are handed over as word or by stdin\n",
        )?)),
    }
}

fn timeout_of(alloc: Global, text: Option<&str>) -> Result<Option<u32>, LineFault>
    ensures numeral { IfOk result (IsTimeout (option_map (λ t. t.now) text.entry)) }
    ensures refused { IfErr result
        (IsMistakeWhere ((n : _) → IsTimeout (option_map (λ t. t.now) text.entry) n → ⊥)) }
{
    let Some(text) = text else {
        return Ok(None);
    };
    match text.parse::<u32>().ok() {
        Some(n) if n >= 1 && n <= MOST_SECONDS => Ok(Some(n)),
        _ => Err(LineFault::Line(String::from_str(
            alloc,
            "playcheck: a timeout is a whole number of seconds from 1 to 604800\n",
        )?)),
    }
}

fn command_of<'a>(alloc: Global) -> Result<Command<'a>, AllocError>
    ensures { IfOk result (λ c. app_of c ≡ playcheck_app) }
{
    let check = check_command(alloc)?;
    let command = top_command(alloc)?.subcommand(check)?;
    command.subcommand(run_command(alloc)?)
}

// Named so in usage, whatever the program's file is called.
fn top_command<'a>(alloc: Global) -> Result<Command<'a>, AllocError>
    ensures { IfOk result (λ c. app_of c ≡ top_app) }
{
    let command = Command::new(alloc, "playcheck").bin_name("playcheck")?;
    Ok(
        command
            .version(VERSION)
            .about("Verifies Ansible playbooks in JSON form, and runs what it accepts")
            .subcommand_required(true),
    )
}

fn check_command<'a>(alloc: Global) -> Result<Command<'a>, AllocError>
    ensures app { IfOk result (λ c. app_of c ≡ check_app) }
    ensures local { IfOk result IsLocal }
{
    let command = Command::new(alloc, "check").about("Prints the verdict on a playbook");
    with_subject(alloc, command)
}

fn run_command<'a>(alloc: Global) -> Result<Command<'a>, AllocError>
    ensures app { IfOk result (λ c. app_of c ≡ run_app) }
    ensures local { IfOk result IsLocal }
{
    let command = Command::new(alloc, "run").about(
        "Runs a playbook that is accepted, and prints the recap",
    );
    with_calling(alloc, with_workers(alloc, with_subject(alloc, command)?)?)
}

// How many work, and what answers their calls.
fn with_workers<'a>(alloc: Global, command: Command<'a>) -> Result<Command<'a>, AllocError>
    ensures { IfOk result (Extends with_sources command.entry) }
{
    command
        .arg(
            option(alloc, "forks")
                .short('f')
                .help("How many workers at most, 1 to 256"),
        )?
        .arg(option(alloc, "answers").help("A file of answers, in place of modules"))?
        .arg(option(alloc, "modules").help("A folder of programs, one for each module"))
}

// How programs are called.
fn with_calling<'a>(alloc: Global, command: Command<'a>) -> Result<Command<'a>, AllocError>
    ensures { IfOk result (Extends with_callings command.entry) }
{
    command
        .arg(option(alloc, "arguments").help(
            "How programs get their arguments: as word, or by stdin",
        ))?
        .arg(option(alloc, "timeout").help("How many seconds a call may take at most"))
}

fn with_subject<'a>(alloc: Global, command: Command<'a>) -> Result<Command<'a>, AllocError>
    ensures { IfOk result (Extends with_files command.entry) }
{
    command
        .arg(
            Arg::new(alloc, "book")
                .required(true)
                .action(ArgAction::Set)
                .help("The playbook, a JSON file; - is standard input"),
        )?
        .arg(
            option(alloc, "inventory")
                .short('i')
                .required(true)
                .help("The inventory, a JSON file"),
        )?
        .arg(
            option(alloc, "signatures")
                .short('s')
                .help("Further modules, a JSON file"),
        )
}

fn option<'a>(alloc: Global, name: &'a str) -> Arg<'a>
    ensures rule { rule_of result ≡ option_rule name.now }
    ensures local { result.global ≡ false }
{
    Arg::new(alloc, name).long(name).action(ArgAction::Set)
}
