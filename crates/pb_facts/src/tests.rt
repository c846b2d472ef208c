// Slots that are set and read, and a block of the greatest sizes.
use crate::Facts;
use pb_value::Value;
use std::test::Fail;

const HOSTS: usize = 1_024;

const SLOTS: usize = 2_000;

fn is_int(value: Option<&Value>, wanted: i64) -> bool {
    match value {
        Some(Value::Int(found)) => *found == wanted,
        _ => false,
    }
}

#[test]
fn what_is_set_is_read(rt: HostRuntime) -> Result<(), Fail> {
    let mut facts = Facts::new(rt.alloc(), 2, 3)?;
    facts.set(1, 0, Value::Int(7));
    facts.set(1, 0, Value::Int(8));
    assert!(rt; is_int(facts.get(1, 0), 8));
    assert!(rt;
        facts.get(0, 0).is_none() && facts.get(1, 1).is_none() && facts.get(1, 2).is_none()
    );
    let held = facts.snapshot_of(rt.alloc(), 1)?;
    assert!(rt; held.len() == 3 && is_int(held[0].as_ref(), 8) && held[1].is_none());
    Ok(())
}

#[test]
fn all_hosts_have_room(rt: HostRuntime) -> Result<(), Fail> {
    let mut facts = Facts::new(rt.alloc(), HOSTS, SLOTS)?;
    facts.set(0, SLOTS - 1, Value::Int(1));
    facts.set(HOSTS - 1, SLOTS - 1, Value::Int(2));
    assert!(rt; is_int(facts.get(0, SLOTS - 1), 1));
    assert!(rt; facts.get(HOSTS - 1, 0).is_none());
    assert!(rt; is_int(facts.get(HOSTS - 1, SLOTS - 1), 2));
    Ok(())
}
