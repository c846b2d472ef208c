// What inventories say of hosts and groups.
use pb_inventory::{Inventory, PatternFault};
use pb_value::{Fields, Value, field_of};
use std::sync::Arc;
use std::test::Fail;

// Groups in groups, and variables of two groups, of all hosts and of the host itself.
const NESTED: &[u8] = br#"{"web":{"hosts":["h1"],"vars":{"p":1},"children":["w2"]},
    "w2":{"hosts":["h1"],"vars":{"p":2}},
    "all":{"vars":{"p":0,"q":0,"r":1.5}},
    "_meta":{"hostvars":{"h1":{"q":5},"zz":{}}}}"#;

// The name of the first host.
fn first_name(inventory: &Inventory) -> Option<&str> {
    if inventory.hosts() == 0 {
        return None;
    }
    Some(inventory.host_name(0))
}

// Whether the group has the first host alone.
fn is_first_alone(inventory: &Inventory, group: &str) -> bool {
    match inventory.groups().get(group) {
        Some(places) => matches!(places.as_slice(), [0]),
        None => false,
    }
}

// The value that the last layer that has the name gives it.
fn value_of<'v>(layers: &'v [Arc<Fields>], name: &str) -> Option<&'v Value> {
    let mut last = None;
    for layer in layers {
        if let Some(value) = field_of(layer, name) {
            last = Some(value);
        }
    }
    last
}

// Whether the inventory's one host is in no group but `ungrouped`, and has no variables.
fn is_ungrouped(inventory: &Inventory) -> bool {
    if inventory.hosts() != 1 {
        return false;
    }
    let are_groups = inventory.groups().len() == 2
        && is_first_alone(inventory, "all")
        && is_first_alone(inventory, "ungrouped");
    let is_in_none = matches!(inventory.group_names(0), [group] if group.as_str() == "ungrouped");
    are_groups && is_in_none && inventory.vars_of(0).iter().all(|layer| layer.is_empty())
}

#[test]
fn one_host(rt: HostRuntime) -> Result<(), Fail> {
    let inventory = Inventory::read(rt.alloc(), br#"{"all":{"hosts":["db-1.Example_org"]}}"#)?;
    assert_eq!(rt; first_name(&inventory), Some("db-1.Example_org"));
    assert!(rt; is_ungrouped(&inventory));
    Ok(())
}

// Whether the first host is in the groups `w2` and `web`, in this order.
fn is_in_both(inventory: &Inventory) -> bool {
    if inventory.hosts() == 0 {
        return false;
    }
    match inventory.group_names(0) {
        [first, second] => first.as_str() == "w2" && second.as_str() == "web",
        _ => false,
    }
}

// Whether the first host has the variables of the inventory of groups in groups.
fn has_nested_variables(inventory: &Inventory) -> bool {
    if inventory.hosts() == 0 {
        return false;
    }
    let layers = inventory.vars_of(0);
    matches!(value_of(layers, "p"), Some(Value::Int(2)))
        && matches!(value_of(layers, "q"), Some(Value::Int(5)))
        && matches!(value_of(layers, "r"), Some(Value::Opaque))
        && value_of(layers, "s").is_none()
}

#[test]
fn groups_in_groups(rt: HostRuntime) -> Result<(), Fail> {
    let inventory = Inventory::read(rt.alloc(), NESTED)?;
    assert_eq!(rt;
        (inventory.hosts(), first_name(&inventory)),
        (1, Some("h1"))
    );
    assert!(rt; is_in_both(&inventory));
    assert!(rt; has_nested_variables(&inventory));
    Ok(())
}

#[test]
fn patterns(rt: HostRuntime) -> Result<(), Fail> {
    // in host order h3, h1, h2
    let text = br#"{"web":{"hosts":["h1","h2"]},"db":{"hosts":["h3","h1"]}}"#;
    let inventory = Inventory::read(rt.alloc(), text)?;
    let groups = inventory.hosts_of(rt.alloc(), "web:db")?;
    let mixed = inventory.hosts_of(rt.alloc(), " h2 ,\tweb")?;
    assert!(rt; matches!((groups.as_slice(), mixed.as_slice()), ([1, 2, 0], [2, 1])));
    let unknown = inventory.hosts_of(rt.alloc(), "web:zz");
    assert!(rt; matches!(&unknown, Err(PatternFault::Unknown)));
    let empty = inventory.hosts_of(rt.alloc(), "web:");
    assert!(rt; matches!(&empty, Err(PatternFault::Unknown)));
    Ok(())
}
