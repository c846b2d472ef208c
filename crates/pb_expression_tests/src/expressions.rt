// What texts are read as, and what they are worth.
use pb_eval::eval::eval;
use pb_syntax::{Expr, ExprFault, parse_expr, parse_template};
use pb_value::{Fields, Value, read_json};
use std::alloc::{AllocError, Global};
use std::test::Fail;

// What the variables of these texts hold.
const VARIABLES: &[u8] = br#"{"a":true,"b":false,"n":3,"s":"hello","r":{"in":true,"x":3}}"#;

fn spelled(alloc: Global, value: &Value) -> Result<String, AllocError> {
    match value {
        Value::Bool(truth) => format!(in alloc; "{truth}"),
        Value::Int(number) => format!(in alloc; "{number}"),
        Value::Text(text) => String::from_str(alloc, text.as_str()),
        _ => String::from_str(alloc, "?"),
    }
}

fn fault_text(alloc: Global, fault: &ExprFault) -> Result<String, AllocError> {
    match fault {
        ExprFault::Unreadable { at } => format!(in alloc; "E01 {at}"),
        ExprFault::TooDeep => String::from_str(alloc, "E02"),
        ExprFault::NoMemory => String::from_str(alloc, "no memory"),
    }
}

fn value_text(alloc: Global, expr: &Expr, variables: &Fields) -> Result<String, AllocError> {
    spelled(alloc, &eval(alloc, expr, variables)?)
}

fn known_worth(alloc: Global, expr: &Expr) -> Result<String, Fail> {
    match &read_json(alloc, VARIABLES)? {
        Value::Rec(variables) => Ok(value_text(alloc, expr, variables)?),
        _ => Err("no variables")?,
    }
}

fn worth(alloc: Global, text: &str, is_template: bool) -> Result<String, Fail> {
    let read = if is_template {
        parse_template(alloc, text)
    } else {
        parse_expr(alloc, text)
    };
    match &read {
        Ok(expr) => known_worth(alloc, expr),
        Err(fault) => Ok(fault_text(alloc, fault)?),
    }
}

// The expected value is that text; else the test fails with what was found in its place.
fn is_text(expected: &Value, found: &str) -> Result<(), Fail> {
    match expected {
        Value::Text(text) if text.as_str() == found => Ok(()),
        _ => Err(found)?,
    }
}

// Texts of expressions, each with what it is worth.
const EXPRESSIONS: &[u8] = br#"{
    "a": "true",
    "not n == 3": "false",
    "b and b or a": "true",
    "a or b and b": "true",
    "(a or b) and b": "false",
    " not\tnot\na ": "true",
    "'ell' in s and not 'x' in s": "true",
    "'x' in r": "true",
    "'x' not in s": "true",
    "not 'x' not in r": "true",
    "r.in": "true",
    "r . x == 3": "true",
    "1 == true": "false",
    "1 != True": "true",
    "-0": "0",
    "-9223372036854775808": "-9223372036854775808",
    "'a\\'\\\\\\n\\t\\\"'": "a'\\\n\t\"",
    "\"it's\"": "it's",
    "zz": "?",
    "s | length": "5",
    "[a, n, 'x'] | length": "3",
    "n < 3": "false",
    "n <= 3": "true",
    "4 > n": "true",
    "none == none": "true",
    "none in [none]": "true",
    "a is defined": "true",
    "zz is undefined": "true",
    "zz is not undefined": "false",
    "r.y is defined": "false",
    "zz | default(s)": "hello",
    "s | default('x') | length": "5",
    "['a', s] | join('-')": "a-hello",
    "['a', s] | join": "ahello",
    "r['x']": "3",
    "r['x'] in [1, 3]": "true",
    "'h' in ansible_play_batch": "false",
    "hostvars.h.x is defined": "false",
    "hostvars['h'].x | default(n)": "3",
    "groups['web'][0] | default('none')": "none",
    "hostvars": "?"
}"#;

// Texts that are no expression, and where.
const UNREAD: &[u8] = br#"{
    "": "E01 0",
    "a ==": "E01 4",
    "a..b": "E01 2",
    "a.": "E01 2",
    "(a": "E01 2",
    "a )": "E01 2",
    "a == b == c": "E01 7",
    "01": "E01 0",
    "- 1": "E01 0",
    "9223372036854775808": "E01 0",
    "a and 'b": "E01 6",
    "'\\x'": "E01 0",
    "{{ a }}": "E01 0",
    "and": "E01 0",
    "a == not b": "E01 5",
    "a not b": "E01 6",
    "a | lengthy": "E01 4",
    "a is good": "E01 5",
    "n <": "E01 3",
    "[a": "E01 2",
    "[a,": "E01 3",
    "a[0]": "E01 2",
    "groups.web[": "E01 11"
}"#;

// Texts that may hold an expression, each with what it is worth.
const TEMPLATES: &[u8] = br#"{
    "": "",
    "plain } text": "plain } text",
    "{{ n }}": "3",
    "{{'}}'}}": "}}",
    "{{": "E01 2",
    "{{ a ": "E01 5",
    "{{ }}": "E01 3",
    "{{ a == }}": "E01 8",
    "x {% if %}": "E01 2",
    "{# c #}": "E01 0",
    " {{ n }}": " 3",
    "{{ n }}{{ s }}": "3hello",
    "x{{ n }}y{{ s }}}z": "x3yhello}z",
    "{{ n }} {{": "E01 10",
    "{{ n }}{# c #}": "E01 7"
}"#;

// Each text of the table is worth what stands beside it; the number of them.
fn worths_found(alloc: Global, table: &[u8], are_templates: bool) -> Result<usize, Fail> {
    match &read_json(alloc, table)? {
        Value::Rec(rows) => {
            for (text, expected) in rows.iter() {
                is_text(
                    expected,
                    worth(alloc, text.as_str(), are_templates)?.as_str(),
                )?;
            }
            Ok(rows.len())
        }
        _ => Err("no table")?,
    }
}

#[test]
fn expressions(rt: HostRuntime) -> Result<(), Fail> {
    assert_eq!(rt; worths_found(rt.alloc(), EXPRESSIONS, false)?, 41);
    Ok(())
}

#[test]
fn unread_expressions(rt: HostRuntime) -> Result<(), Fail> {
    assert_eq!(rt; worths_found(rt.alloc(), UNREAD, false)?, 23);
    Ok(())
}

#[test]
fn templates(rt: HostRuntime) -> Result<(), Fail> {
    assert_eq!(rt; worths_found(rt.alloc(), TEMPLATES, true)?, 15);
    Ok(())
}

// As many of the first text, the second, and as many of the third.
fn nested(
    alloc: Global,
    count: usize,
    open: &str,
    middle: &str,
    close: &str,
) -> Result<String, AllocError> {
    let mut text = String::new(alloc);
    for _ in 0..count {
        text.push_str(open)?;
    }
    text.push_str(middle)?;
    for _ in 0..count {
        text.push_str(close)?;
    }
    Ok(text)
}

// Such a text is worth that, or the test fails with what was found.
fn is_worth(
    alloc: Global,
    count: usize,
    open: &str,
    middle: &str,
    close: &str,
    expected: &str,
) -> Result<(), Fail> {
    let text = nested(alloc, count, open, middle, close)?;
    let found = worth(alloc, text.as_str(), false)?;
    if found.as_str() == expected {
        Ok(())
    } else {
        Err(found.as_str())?
    }
}

#[test]
fn depths(rt: HostRuntime) -> Result<(), Fail> {
    is_worth(rt.alloc(), 32, "(", "a", ")", "true")?;
    is_worth(rt.alloc(), 33, "(", "a", ")", "E02")?;
    is_worth(rt.alloc(), 33, "(", "?", ")", "E02")?;
    is_worth(rt.alloc(), 32, "(", "?", ")", "E01 32")?;
    is_worth(rt.alloc(), 32, "not ", "a", "", "true")?;
    is_worth(rt.alloc(), 33, "not ", "a", "", "E02")?;
    is_worth(rt.alloc(), 200, "", "a", " and a", "true")?;
    is_worth(rt.alloc(), 200, "", "s", " | default('x')", "hello")?;
    is_worth(rt.alloc(), 32, "[", "a", "]", "?")?;
    is_worth(rt.alloc(), 33, "[", "a", "]", "E02")?;
    is_worth(rt.alloc(), 16, "", "r", ".x", "?")?;
    is_worth(rt.alloc(), 17, "", "r", ".x", "E02")
}
