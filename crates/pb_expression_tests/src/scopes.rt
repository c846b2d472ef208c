// The names of `vars` in scope, in the order in which they are worked out.
use pb_template::{Entry, entries_of};
use pb_value::{Value, read_json};
use pb_vars::InScope;
use std::alloc::Global;
use std::test::Fail;

// A chain of four names that goes against the order of their bytes, and a name that reads no other.
const CHAIN: &[u8] =
    br#"{"a":"{{ c }}-{{ b }}","b":"{{ c }}","c":"{{ d.x }}","d":{"x":"{{ port }}"},"e":1}"#;

// Two names that read one another, and one that doesn't.
const CYCLE: &[u8] = br#"{"a":"{{ b }}","b":"{{ a }}","c":"{{ port }}"}"#;

fn entries(alloc: Global, json: &[u8]) -> Result<Vec<Entry>, Fail> {
    match &read_json(alloc, json)? {
        Value::Rec(fields) => match entries_of(alloc, fields, None) {
            Ok(entries) => Ok(entries),
            Err(_) => Err("no entries")?,
        },
        _ => Err("no record")?,
    }
}

// The names of a record in the order in which they are worked out.
fn in_order(alloc: Global, json: &[u8]) -> Result<String, Fail> {
    let entries = entries(alloc, json)?;
    let scope = InScope::nothing(alloc).with(alloc, entries.as_slice())?;
    let mut names = String::new(alloc);
    for entry in &scope.in_order(alloc)? {
        names.push_str(entry.name.as_str())?;
    }
    Ok(names)
}

#[test]
fn behind_what_they_read(rt: HostRuntime) -> Result<(), Fail> {
    assert_eq!(rt; in_order(rt.alloc(), CHAIN)?.as_str(), "decba");
    assert_eq!(rt; in_order(rt.alloc(), CYCLE)?.as_str(), "c");
    Ok(())
}
