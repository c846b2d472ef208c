// What a Start finds: items, conditions, names of `vars`, and each action.
use pb_eval::equal::equal;
use pb_sig::Registry;
use pb_start::{Action, Entry, Pass, Prepared, all_hold, arguments_of, start};
use pb_syntax::{Expr, parse_expr, parse_template};
use pb_template::expr_of;
use pb_value::{Fields, Value, read_json};
use std::alloc::Global;
use std::collections::BTreeMap;
use std::test::Fail;

fn fields(alloc: Global, json: &str) -> Result<Fields, Fail> {
    match &read_json(alloc, json.as_bytes())? {
        Value::Rec(fields) => {
            let shared: &Fields = fields;
            Ok(shared.clone()?)
        }
        _ => Err("no fields")?,
    }
}

fn arguments(alloc: Global, json: &str) -> Result<BTreeMap<String, Expr>, Fail> {
    let mut arguments = BTreeMap::new(alloc);
    for (name, value) in fields(alloc, json)?.iter() {
        match expr_of(alloc, value) {
            Ok(value) => drop(arguments.insert(name.clone()?, value)?),
            Err(_) => Err("no arguments")?,
        }
    }
    Ok(arguments)
}

fn conditions(alloc: Global, texts: &[&str]) -> Result<Vec<Expr>, Fail> {
    let mut all = Vec::new(alloc);
    for text in texts {
        all.push(parse_expr(alloc, text)?)?;
    }
    Ok(all)
}

fn message(alloc: Global, text: &str) -> Result<Option<Expr>, Fail> {
    Ok(Some(parse_template(alloc, text)?))
}

// A task that does this and keeps nothing of it.
fn task(
    names: Vec<(String, Expr)>,
    conditions: Vec<Expr>,
    loop_over: Option<Expr>,
    action: Action,
) -> Prepared {
    Prepared {
        names,
        names_read_item: true,
        conditions,
        loop_over,
        action,
        register: None,
        changed_when: None,
        failed_when: None,
        attempts: None,
        ignores: false,
        rescued: false,
        depth: 0,
    }
}

// What comes of a task that does this for no list and under no condition.
fn lone_entry(alloc: Global, action: Action) -> Result<Entry, Fail> {
    let names = Vec::new(alloc);
    let prepared = task(names, Vec::new(alloc), None, action);
    let mut passes = start(alloc, &prepared, &fields(alloc, HOST)?)?;
    match passes.pop() {
        Some(Pass { item: _, entry }) => Ok(entry),
        None => Err("no pass")?,
    }
}

fn is_value(alloc: Global, found: &Value, expected: &str) -> Result<(), Fail> {
    if equal(found, &read_json(alloc, expected.as_bytes())?) {
        Ok(())
    } else {
        Err("another value")?
    }
}

// An assertion or a failure, which says that and is failed or not.
fn is_said(alloc: Global, action: Action, wanted: bool, expected: &str) -> Result<(), Fail> {
    match lone_entry(alloc, action)? {
        Entry::Says { failed, message } => {
            if failed != wanted {
                Err("another status")?;
            }
            is_value(alloc, &message, expected)
        }
        _ => Err("nothing said")?,
    }
}

const HOST: &str = r#"{"port": 1, "ready": false, "word": "up"}"#;

#[test]
fn conditions_in_their_order(rt: HostRuntime) -> Result<(), Fail> {
    let alloc = rt.alloc();
    let host = fields(alloc, HOST)?;
    let block_first = conditions(alloc, &["ready", "missing.rc == 0"])?;
    assert!(rt; all_hold(alloc, &block_first, &host)? == Some(false));
    let task_first = conditions(alloc, &["missing.rc == 0", "ready"])?;
    assert!(rt; all_hold(alloc, &task_first, &host)?.is_none());
    let both = conditions(alloc, &["port == 1", "not ready"])?;
    assert!(rt; all_hold(alloc, &both, &host)? == Some(true));
    Ok(())
}

#[test]
fn an_item_among_others_is_skipped(rt: HostRuntime) -> Result<(), Fail> {
    let alloc = rt.alloc();
    let registry = Registry::builtin(alloc)?;
    let module = match registry.resolve("command") {
        Some(module) => module.clone()?,
        None => Err("no command")?,
    };
    let arguments = arguments(alloc, r#"{"cmd": "echo {{ item }} {{ port }}"}"#)?;
    let action = Action::Call { module, arguments };
    let items = parse_expr(alloc, "['a', 'b', 'c']")?;
    let skips = conditions(alloc, &["item != 'b'"])?;
    let prepared = task(Vec::new(alloc), skips, Some(items), action);
    let passes = start(alloc, &prepared, &fields(alloc, HOST)?)?;
    assert!(rt; passes.len() == 3);
    assert!(rt; matches!(passes[1].entry, Entry::Skips));
    match &passes[2].item {
        Some(item) => is_value(alloc, item, "\"c\"")?,
        None => Err("no item")?,
    }
    let calls = arguments_of(alloc, &passes)?;
    assert!(rt; calls.len() == 2);
    is_value(alloc, &calls[0], r#"{"cmd": "echo a 1"}"#)?;
    is_value(alloc, &calls[1], r#"{"cmd": "echo c 1"}"#)
}

#[test]
fn a_name_of_vars_reads_another(rt: HostRuntime) -> Result<(), Fail> {
    let alloc = rt.alloc();
    let port = (String::from_str(alloc, "port")?, parse_expr(alloc, "80")?);
    let address = parse_template(alloc, "web:{{ port }}")?;
    let address = (String::from_str(alloc, "address")?, address);
    let names = vec![in alloc; port, address]?;
    let action = Action::SetFact(arguments(alloc, r#"{"url": "{{ address }}/", "n": 1}"#)?);
    let condition = conditions(alloc, &["port == 80"])?;
    let prepared = task(names, condition, None, action);
    let passes = start(alloc, &prepared, &fields(alloc, HOST)?)?;
    assert!(rt; passes.len() == 1);
    match &passes[0].entry {
        Entry::Sets(facts) => {
            let facts = Value::Rec(facts.clone()?);
            is_value(alloc, &facts, r#"{"n": 1, "url": "web:80/"}"#)
        }
        _ => Err("nothing set")?,
    }
}

#[test]
fn nothing_is_evaluated_to_be_shown(rt: HostRuntime) -> Result<(), Fail> {
    let alloc = rt.alloc();
    let shows = lone_entry(alloc, Action::Debug(message(alloc, "{{ missing }}")?))?;
    assert!(rt; matches!(shows, Entry::Shows));
    Ok(())
}

#[test]
fn assertions_say_what_came(rt: HostRuntime) -> Result<(), Fail> {
    let alloc = rt.alloc();
    let holds = Action::Assert {
        conditions: conditions(alloc, &["port == 1", "word == 'up'"])?,
        message: message(alloc, "{{ missing }}")?,
    };
    is_said(alloc, holds, false, r#""All assertions passed""#)?;
    let plain = Action::Assert {
        conditions: conditions(alloc, &["port == 1", "ready"])?,
        message: None,
    };
    is_said(alloc, plain, true, r#""Assertion failed""#)?;
    let told = Action::Assert {
        conditions: conditions(alloc, &["ready"])?,
        message: message(alloc, "not {{ word }}")?,
    };
    is_said(alloc, told, true, r#""not up""#)
}

#[test]
fn a_failure_says_why(rt: HostRuntime) -> Result<(), Fail> {
    let alloc = rt.alloc();
    let plain = r#""Failed as requested from task""#;
    is_said(alloc, Action::Fail(None), true, plain)?;
    let told = Action::Fail(message(alloc, "port {{ port }}")?);
    is_said(alloc, told, true, r#""port 1""#)
}
