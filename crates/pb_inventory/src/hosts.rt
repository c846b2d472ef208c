// The hosts of an inventory in their order.
ghost use Rattle.std.specs.Prelude.{◌≡◌, IfOk, OnOk, map};
ghost use Rattle.pb_semantics.specs.Words.{is_among};
ghost use Rattle.pb_language.specs.Families.{host_order};
ghost use Rattle.pb_language.specs.Plays.{add_hosts};
ghost use Rattle.pb_inventory.specs.Documents.{key_names, names_view, written_view};
ghost use Rattle.pb_inventory.specs.Hosts.{with_host};

use crate::document::Written;
use indexmap::IndexSet;
use std::alloc::{AllocError, Global};
use std::sync::Arc;

// Every host that some group lists, where it first comes.
pub(crate) fn host_order(alloc: Global, groups: &[Written]) -> Result<IndexSet<String>, AllocError>
    ensures { IfOk result (λ hs. key_names hs.keys ≡ host_order (map written_view groups.now)) }
{
    let mut hosts = IndexSet::new(alloc);
    for group in groups {
        add_hosts(alloc, &mut hosts, group.hosts.as_slice())?;
    }
    Ok(hosts)
}

fn add_hosts(
    alloc: Global,
    hosts: &mut IndexSet<String>,
    names: &[Arc<String>],
) -> Result<(), AllocError>
    ensures { OnOk result (key_names hosts.new.keys
        ≡ add_hosts (key_names hosts.old.keys) (names_view names.now)) }
{
    for name in names {
        add_host(alloc, hosts, name.as_str())?;
    }
    Ok(())
}

fn add_host(alloc: Global, hosts: &mut IndexSet<String>, name: &str) -> Result<(), AllocError>
    ensures { OnOk result (key_names hosts.new.keys
        ≡ with_host (key_names hosts.old.keys) name.now) }
{
    if !hosts.contains(name) {
        let _ = hosts.insert(String::from_str(alloc, name)?)?;
    }
    Ok(())
}
