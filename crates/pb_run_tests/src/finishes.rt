// What comes of the answers to a task's calls: admission, statuses, writes and failures.
use pb_eval::equal::equal;
use pb_finish::{Answer, AnswerFault, Ending, Fixed, Given, Outcome, Why, finish};
use pb_sig::Registry;
use pb_start::{Action, Prepared, start};
use pb_syntax::{Expr, parse_expr, parse_template};
use pb_task::Attempts;
use pb_value::{Fields, Value, read_json};
use std::alloc::Global;
use std::collections::BTreeMap;
use std::sync::Arc;
use std::test::Fail;

const HOST: &str = r#"{"port": 1, "ready": false}"#;

// A command that ran, and one that failed.
pub(crate) const RAN: &str = r#"{"changed": true, "rc": 0, "stdout": "a", "stderr": "",
    "stdout_lines": ["a"], "stderr_lines": []}"#;

pub(crate) const FAILED: &str = r#"{"failed": true, "changed": false, "msg": "no", "rc": 1,
    "stdout": "", "stderr": "", "stdout_lines": [], "stderr_lines": []}"#;

fn fields(alloc: Global, json: &str) -> Result<Fields, Fail> {
    match &read_json(alloc, json.as_bytes())? {
        Value::Rec(fields) => {
            let shared: &Fields = fields;
            Ok(shared.clone()?)
        }
        _ => Err("no fields")?,
    }
}

pub(crate) fn conditions(alloc: Global, texts: &[&str]) -> Result<Vec<Expr>, Fail> {
    let mut all = Vec::new(alloc);
    for text in texts {
        all.push(parse_expr(alloc, text)?)?;
    }
    Ok(all)
}

fn call(alloc: Global, name: &str) -> Result<Action, Fail> {
    let registry = Registry::builtin(alloc)?;
    let module = match registry.resolve(name) {
        Some(module) => module.clone()?,
        None => Err("no such module")?,
    };
    let arguments = BTreeMap::new(alloc);
    Ok(Action::Call { module, arguments })
}

// A task of this action that registers `out`.
pub(crate) fn task(alloc: Global, action: Action) -> Result<Prepared, Fail> {
    let register = Arc::new(alloc, String::from_str(alloc, "out")?)?;
    Ok(Prepared {
        names: Vec::new(alloc),
        names_read_item: false,
        conditions: Vec::new(alloc),
        loop_over: None,
        action,
        register: Some(register),
        changed_when: None,
        failed_when: None,
        attempts: None,
        ignores: false,
        rescued: false,
        depth: 0,
    })
}

pub(crate) fn command(alloc: Global) -> Result<Prepared, Fail> {
    task(alloc, call(alloc, "command")?)
}

fn object(alloc: Global, json: &str) -> Result<Answer, Fail> {
    Ok(Answer::Object(read_json(alloc, json.as_bytes())?))
}

pub(crate) fn objects(alloc: Global, answers: &[&str]) -> Result<Vec<Answer>, Fail> {
    let mut all = Vec::new(alloc);
    for answer in answers {
        all.push(object(alloc, answer)?)?;
    }
    Ok(all)
}

fn ending(
    alloc: Global,
    prepared: &Prepared,
    answers: &[Answer],
    tried: u64,
) -> Result<Ending, Fail> {
    let host = fields(alloc, HOST)?;
    let passes = start(alloc, prepared, &host)?;
    let fixed = Fixed::new(alloc)?;
    let given = Given {
        passes: &passes,
        answers,
        tried,
    };
    Ok(finish(alloc, prepared, &fixed, &given, &host)?)
}

fn outcome(alloc: Global, prepared: &Prepared, answers: &[&str]) -> Result<Outcome, Fail> {
    let answers = objects(alloc, answers)?;
    match ending(alloc, prepared, &answers, 0)? {
        Ending::Ended(outcome) => Ok(outcome),
        _ => Err("not ended")?,
    }
}

// The call and the fault of a breach.
fn breach(
    alloc: Global,
    prepared: &Prepared,
    answers: &[Answer],
) -> Result<(usize, AnswerFault), Fail> {
    match ending(alloc, prepared, answers, 0)? {
        Ending::Breached(breach) => Ok((breach.call, breach.fault)),
        _ => Err("no breach")?,
    }
}

fn wrote(
    alloc: Global,
    outcome: &Outcome,
    place: usize,
    name: &str,
    expected: &str,
) -> Result<(), Fail> {
    match outcome.writes.get(place) {
        Some((written, value)) => {
            let expected = read_json(alloc, expected.as_bytes())?;
            if written.as_str() == name && equal(value, &expected) {
                Ok(())
            } else {
                Err("another write")?
            }
        }
        None => Err("no such write")?,
    }
}

// Changed, failed and skipped, and how many variables are written.
fn ended_so(outcome: &Outcome, statuses: (bool, bool, bool), writes: usize) -> bool {
    (outcome.changed, outcome.failed, outcome.skipped) == statuses && outcome.writes.len() == writes
}

fn told(outcome: &Outcome, expected: &str) -> bool {
    match &outcome.failure {
        Some(text) => text.as_str() == expected,
        None => false,
    }
}

#[test]
fn a_command_is_registered(rt: HostRuntime) -> Result<(), Fail> {
    let alloc = rt.alloc();
    let ran = outcome(alloc, &command(alloc)?, &[RAN])?;
    assert!(rt; ended_so(&ran, (true, false, false), 1));
    assert!(rt; ran.failure.is_none());
    let result = r#"{"changed": true, "failed": false, "rc": 0, "stderr": "", "stderr_lines": [],
        "stdout": "a", "stdout_lines": ["a"]}"#;
    wrote(alloc, &ran, 0, "out", result)
}

#[test]
fn a_skipped_task_registers_four_fields(rt: HostRuntime) -> Result<(), Fail> {
    let alloc = rt.alloc();
    let mut prepared = command(alloc)?;
    prepared.conditions = conditions(alloc, &["ready"])?;
    prepared.changed_when = Some(conditions(alloc, &["missing.rc == 0"])?);
    let skipped = outcome(alloc, &prepared, &[RAN])?;
    assert!(rt; ended_so(&skipped, (false, false, true), 1));
    let result = r#"{"changed": false, "failed": false, "skipped": true,
        "skip_reason": "Conditional result was False"}"#;
    wrote(alloc, &skipped, 0, "out", result)
}

#[test]
fn a_failure_is_told_unless_it_is_ignored(rt: HostRuntime) -> Result<(), Fail> {
    let alloc = rt.alloc();
    let mut prepared = command(alloc)?;
    let failed = outcome(alloc, &prepared, &[FAILED])?;
    assert!(rt; ended_so(&failed, (false, true, false), 1));
    assert!(rt; told(&failed, "no"));
    prepared.ignores = true;
    let ignored = outcome(alloc, &prepared, &[FAILED])?;
    assert!(rt; ended_so(&ignored, (false, true, false), 1));
    assert!(rt; ignored.failure.is_none());
    wrote(alloc, &ignored, 0, "out", FAILED)
}

#[test]
fn the_first_answer_that_is_wrong_decides(rt: HostRuntime) -> Result<(), Fail> {
    let alloc = rt.alloc();
    let mut prepared = command(alloc)?;
    let number = r#"{"changed": true, "rc": 0, "stdout": 7, "stderr": "", "stdout_lines": ["a"],
        "stderr_lines": []}"#;
    let wrong = breach(alloc, &prepared, &objects(alloc, &[number])?)?;
    assert!(rt; wrong == (0, AnswerFault::WrongKind));
    prepared.loop_over = Some(parse_expr(alloc, "['a', 'b']")?);
    let missing = breach(alloc, &prepared, &objects(alloc, &[RAN])?)?;
    assert!(rt; missing == (1, AnswerFault::Missing));
    let broken = Answer::Broken(Why::NotJson);
    let mixed = vec![in alloc; object(alloc, RAN)?, broken, Answer::Unreachable]?;
    let unread = breach(alloc, &prepared, &mixed)?;
    assert!(rt; unread == (1, AnswerFault::Broken(Why::NotJson)));
    let unreached = vec![in alloc; Answer::Unreachable, Answer::Broken(Why::TooLong)]?;
    let first = ending(alloc, &prepared, &unreached, 0)?;
    assert!(rt; matches!(first, Ending::Unreached));
    Ok(())
}

#[test]
fn a_loop_registers_its_items(rt: HostRuntime) -> Result<(), Fail> {
    let alloc = rt.alloc();
    let mut prepared = command(alloc)?;
    prepared.loop_over = Some(parse_expr(alloc, "['a', 'b', 'c']")?);
    prepared.conditions = conditions(alloc, &["item != 'b'"])?;
    let failed = outcome(alloc, &prepared, &[RAN, FAILED, RAN])?;
    assert!(rt; ended_so(&failed, (true, true, false), 1));
    assert!(rt; told(&failed, "One or more items failed"));
    let ran = r#"{"changed": true, "failed": false, "rc": 0, "stderr": "", "stderr_lines": [],
        "stdout": "a", "stdout_lines": ["a"]}"#;
    let skipped = r#"{"changed": false, "failed": false, "skipped": true,
        "skip_reason": "Conditional result was False"}"#;
    let items = format!(in alloc; "[{ran}, {skipped}, {FAILED}]")?;
    let whole = format!(in alloc;
        r#"{{"changed": true, "failed": true, "results": {items}, "skipped": false}}"#
    )?;
    wrote(alloc, &failed, 0, "out", whole.as_str())?;
    prepared.loop_over = Some(parse_expr(alloc, "[]")?);
    let none = outcome(alloc, &prepared, &[RAN])?;
    assert!(rt; ended_so(&none, (false, false, true), 1));
    let empty = r#"{"changed": false, "failed": false, "results": [], "skipped": true}"#;
    wrote(alloc, &none, 0, "out", empty)
}

#[test]
fn attempts_are_counted(rt: HostRuntime) -> Result<(), Fail> {
    let alloc = rt.alloc();
    let mut prepared = command(alloc)?;
    let until = conditions(alloc, &["out.rc == 0"])?;
    prepared.attempts = Some(Attempts { until, retries: 2 });
    let failed = objects(alloc, &[FAILED])?;
    let first = ending(alloc, &prepared, &failed, 0)?;
    assert!(rt; matches!(first, Ending::Again));
    let second = ending(alloc, &prepared, &failed, 1)?;
    assert!(rt; matches!(second, Ending::Again));
    match ending(alloc, &prepared, &failed, 2)? {
        Ending::Ended(last) => {
            assert!(rt; ended_so(&last, (false, true, false), 1));
            assert!(rt; told(&last, "no"));
        }
        _ => Err("not ended")?,
    }
    let held = outcome(alloc, &prepared, &[RAN])?;
    assert!(rt; ended_so(&held, (true, false, false), 1));
    Ok(())
}

#[test]
fn a_last_attempt_is_failed(rt: HostRuntime) -> Result<(), Fail> {
    let alloc = rt.alloc();
    let mut prepared = command(alloc)?;
    let until = conditions(alloc, &["out.rc == 5"])?;
    prepared.attempts = Some(Attempts { until, retries: 1 });
    match ending(alloc, &prepared, &objects(alloc, &[RAN])?, 1)? {
        Ending::Ended(last) => {
            assert!(rt; ended_so(&last, (true, true, false), 1));
            assert!(rt; told(&last, "until condition was not met"));
            let result = r#"{"changed": true, "failed": true, "rc": 0, "stderr": "",
                "stderr_lines": [], "stdout": "a", "stdout_lines": ["a"]}"#;
            wrote(alloc, &last, 0, "out", result)
        }
        _ => Err("not ended")?,
    }
}

#[test]
fn keywords_see_the_own_result(rt: HostRuntime) -> Result<(), Fail> {
    let alloc = rt.alloc();
    let mut prepared = command(alloc)?;
    prepared.changed_when = Some(conditions(alloc, &["out.rc != 0"])?);
    let ran = outcome(alloc, &prepared, &[RAN])?;
    assert!(rt; ended_so(&ran, (false, false, false), 1));
    prepared.failed_when = Some(conditions(alloc, &["out is changed", "port == 1"])?);
    let failed = outcome(alloc, &prepared, &[RAN])?;
    assert!(rt; ended_so(&failed, (false, true, false), 1));
    assert!(rt; told(&failed, "failed_when condition was true"));
    let result = r#"{"changed": false, "failed": true, "rc": 0, "stderr": "", "stderr_lines": [],
        "stdout": "a", "stdout_lines": ["a"]}"#;
    wrote(alloc, &failed, 0, "out", result)
}

#[test]
fn setup_sets_facts_by_both_names(rt: HostRuntime) -> Result<(), Fail> {
    let alloc = rt.alloc();
    let mut prepared = task(alloc, call(alloc, "setup")?)?;
    prepared.register = None;
    let answer = r#"{"ansible_facts": {"ansible_system": "Linux", "ansible_hostname": "h1",
        "ansible_distribution": "Debian", "ansible_unknown": 1}}"#;
    let told = outcome(alloc, &prepared, &[answer])?;
    assert!(rt; ended_so(&told, (false, false, false), 4));
    let bare = r#"{"distribution": "Debian", "hostname": "h1", "system": "Linux"}"#;
    wrote(alloc, &told, 0, "ansible_facts", bare)?;
    wrote(alloc, &told, 1, "ansible_distribution", "\"Debian\"")?;
    wrote(alloc, &told, 2, "ansible_hostname", "\"h1\"")?;
    wrote(alloc, &told, 3, "ansible_system", "\"Linux\"")
}

#[test]
fn facts_are_set_in_order_unless_the_task_fails(rt: HostRuntime) -> Result<(), Fail> {
    let alloc = rt.alloc();
    let mut facts = BTreeMap::new(alloc);
    let next = parse_template(alloc, "{{ item }}")?;
    drop(facts.insert(String::from_str(alloc, "last")?, next)?);
    let mut prepared = task(alloc, Action::SetFact(facts))?;
    prepared.loop_over = Some(parse_expr(alloc, "[1, 2]")?);
    let set = outcome(alloc, &prepared, &[])?;
    assert!(rt; ended_so(&set, (false, false, false), 3));
    wrote(alloc, &set, 1, "last", "1")?;
    wrote(alloc, &set, 2, "last", "2")?;
    prepared.failed_when = Some(conditions(alloc, &["item == 2"])?);
    let failed = outcome(alloc, &prepared, &[])?;
    assert!(rt; ended_so(&failed, (false, true, false), 1));
    prepared.ignores = true;
    let ignored = outcome(alloc, &prepared, &[])?;
    assert!(rt; ended_so(&ignored, (false, true, false), 3));
    Ok(())
}

#[test]
fn a_failed_assertion_says_its_message(rt: HostRuntime) -> Result<(), Fail> {
    let alloc = rt.alloc();
    let message = Some(parse_template(alloc, "port {{ port }}")?);
    let assertion = Action::Assert {
        conditions: conditions(alloc, &["ready"])?,
        message,
    };
    let failed = outcome(alloc, &task(alloc, assertion)?, &[])?;
    assert!(rt; ended_so(&failed, (false, true, false), 1));
    assert!(rt; told(&failed, "port 1"));
    let result = r#"{"changed": false, "failed": true, "msg": "port 1"}"#;
    wrote(alloc, &failed, 0, "out", result)
}
