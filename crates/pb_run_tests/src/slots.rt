// The slots of variables: which names have one, and what an expression keeps of them.
use pb_slots::{Slots, SlotsInScope};
use pb_syntax::{Expr, SlotNames, parse_expr};
use pb_template::{Entry, entries_of};
use pb_value::{Fields, Value, read_json};
use pb_vars::InScope;
use std::alloc::Global;
use std::collections::BTreeSet;
use std::test::Fail;

pub(crate) fn slots_of(alloc: Global, names: &[&str]) -> Result<Slots, Fail> {
    let mut all = BTreeSet::new(alloc);
    for name in names {
        let _ = all.insert(*name)?;
    }
    Ok(Slots::of(alloc, &all)?)
}

// The entries of `vars`.
fn entries(alloc: Global, json: &str) -> Result<Vec<Entry>, Fail> {
    match &read_json(alloc, json.as_bytes())? {
        Value::Rec(fields) => {
            let shared: &Fields = fields;
            match entries_of(alloc, shared, None) {
                Ok(entries) => Ok(entries),
                Err(_) => Err("no entries")?,
            }
        }
        _ => Err("no fields")?,
    }
}

// The slot of the host's own variable of that name, and that of another host's.
fn own_and_other(slots: &Slots, scope: &InScope<'_>, name: &str) -> (Option<u32>, Option<u32>) {
    let seen = SlotsInScope { slots, scope };
    let found = (seen.own(name), seen.other(name));
    let SlotsInScope { slots: _, scope: _ } = seen;
    found
}

// The slot that the path of a bound copy keeps.
fn bound_slot(
    alloc: Global,
    slots: &Slots,
    scope: &InScope<'_>,
    text: &str,
) -> Result<Option<u32>, Fail> {
    let expr = parse_expr(alloc, text)?;
    let seen = SlotsInScope { slots, scope };
    let bound = expr.bind(alloc, &seen);
    let SlotsInScope { slots: _, scope: _ } = seen;
    match &bound? {
        Expr::Path(path) => Ok(path.slot),
        _ => Err("no path")?,
    }
}

#[test]
fn names_have_their_places(rt: HostRuntime) -> Result<(), Fail> {
    let slots = slots_of(rt.alloc(), &["port", "Zone", "env", "port"])?;
    assert!(rt; slots.count() == 3);
    assert!(rt; slots.name(0) == Some("Zone") && slots.name(1) == Some("env"));
    assert!(rt; slots.name(2) == Some("port") && slots.name(3).is_none());
    assert!(rt; slots.slot("env") == Some(1) && slots.slot("port") == Some(2));
    assert!(rt; slots.slot("zone").is_none());
    Ok(())
}

#[test]
fn names_of_vars_have_none(rt: HostRuntime) -> Result<(), Fail> {
    let alloc = rt.alloc();
    let slots = slots_of(alloc, &["env", "port"])?;
    let vars = entries(alloc, r#"{"env": "{{ port }}"}"#)?;
    let scope = InScope::nothing(alloc).with(alloc, &vars)?;
    assert!(rt; own_and_other(&slots, &scope, "env") == (None, Some(0)));
    assert!(rt; own_and_other(&slots, &scope, "port") == (Some(1), Some(1)));
    assert!(rt; own_and_other(&slots, &scope, "gone") == (None, None));
    assert!(rt; bound_slot(alloc, &slots, &scope, "env")?.is_none());
    assert!(rt; bound_slot(alloc, &slots, &scope, "port")? == Some(1));
    assert!(rt; bound_slot(alloc, &slots, &scope, "hostvars['h1'].env")? == Some(0));
    Ok(())
}
