// The hosts of an inventory with what they have of their groups.
ghost use Rattle.std.specs.Prelude.{◌<◌, ◌≡◌, IfOk, length, map};
ghost use Rattle.std.specs.List.{All};
ghost use Rattle.pb_semantics.specs.Data.{Fields as DataFields};
ghost use Rattle.pb_language.specs.Families.{groups_of};
ghost use Rattle.pb_language.specs.Inventories.{host_variables, overlaid};
ghost use Rattle.pb_language.specs.Program.{memberships_of};
ghost use Rattle.pb_inventory.specs.Documents.{document_view, key_names, names_view, own_view};
ghost use Rattle.pb_inventory.specs.Families.{lists_of};
ghost use Rattle.pb_inventory.specs.HostGroups.{flag_at, layer_views, names_where};
ghost use Rattle.pb_inventory.specs.Tables.{IsTable, IsTableOf};
ghost use Rattle.pb_inventory.specs.Views.{AreBased, base_lists, host_view, kept_groups, laid};
ghost use Rattle.pb_inventory.specs.Views.{layered};
ghost use Rattle.pb_value.specs.Words.{fields_view};

use crate::bases::{Base, base_of};
use crate::document::Document;
use crate::group_layers::hostvars_of;
use crate::inventory::Host;
use crate::layers::{add_layer, depth_order, member_rows, names_of, shared_layers};
use crate::variables::layer_of;
use indexmap::{IndexMap, IndexSet};
use pb_value::Fields;
use std::alloc::{AllocError, Global};
use std::collections::BTreeMap;
use std::sync::Arc;

// What hosts have of their groups, by the groups' numbers.
#[derive(Drop)]
pub(crate) struct Table {
    pub(crate) names: Vec<Arc<String>>,
    pub(crate) layers: Vec<Arc<Fields>>,
    // Of each group, which of the hosts it has.
    pub(crate) rows: Vec<Vec<bool>>,
    // The groups by their depths.
    pub(crate) order: Vec<usize>,
}

// The table of groups with these names, layers, members and depths.
pub(crate) fn table_of(
    alloc: Global,
    names: &IndexSet<String>,
    layers: Vec<Arc<Fields>>,
    members: &[Vec<usize>],
    depths: &[usize],
    hosts: usize,
) -> Result<Table, AllocError>
    ensures { IfOk result (λ t. IsTable t (key_names names.now.keys) (layer_views layers.items)
        (lists_of members.now) depths.now hosts) }
{
    Ok(Table {
        names: shared_names(alloc, names)?,
        layers,
        rows: member_rows(alloc, members, hosts)?,
        order: depth_order(alloc, depths)?,
    })
}

fn shared_names(alloc: Global, names: &IndexSet<String>) -> Result<Vec<Arc<String>>, AllocError>
    ensures { IfOk result (λ ns. names_view ns.items ≡ key_names names.now.keys) }
{
    let mut shared = Vec::with_capacity(alloc, names.len())?;
    for name in names.as_slice() {
        shared.push(Arc::new(alloc, name.clone()?)?)?;
    }
    Ok(shared)
}

// The hosts in host order, each with the names of its groups and the layers of its variables, and
// the lists of layers that their groups give them.
pub(crate) fn known_hosts(
    alloc: Global,
    document: &Document,
    hosts: &IndexSet<String>,
    table: &Table,
) -> Result<(IndexMap<String, Host>, Vec<Base>), AllocError>
    requires { IsTableOf table.now (document_view document.now) (key_names hosts.now.keys) }
    ensures hosts { IfOk result (λ known. map host_view known.0.entries
        ≡ map (host_variables (document_view document.now)) (key_names hosts.now.keys)) }
    ensures groups { IfOk result (λ known. kept_groups known.0.entries
        ≡ map (λ n. memberships_of n (groups_of (document_view document.now).groups))
        (key_names hosts.now.keys)) }
    ensures based { IfOk result (λ known. AreBased (base_lists known.1.items) known.0.entries) }
{
    let mut known = IndexMap::with_capacity(alloc, hosts.len())?;
    let mut bases = Vec::new(alloc);
    let mut places = BTreeMap::new(alloc);
    let names = hosts.as_slice();
    for place in 0..names.len() {
        let name = names[place].as_str();
        let base = base_of(alloc, table, &mut bases, &mut places, place)?;
        let own = own_layer(alloc, hostvars_of(&document.hostvars, name))?;
        let host = known_host(
            alloc,
            table,
            place,
            base,
            bases[base].layers.as_slice(),
            own,
        )?;
        drop(known.insert(String::from_str(alloc, name)?, host)?);
    }
    Ok((known, bases))
}

// What is said of a host besides its groups, as it may be read.
fn own_layer(alloc: Global, own: Option<&Fields>) -> Result<Fields, AllocError>
    ensures { IfOk result (λ layer. (vs : DataFields)
        → laid vs (fields_view layer.entries) ≡ overlaid vs (own_view own.entry)) }
{
    match own {
        None => Ok(Fields::new(alloc)),
        Some(fields) => layer_of(alloc, fields),
    }
}

// The host at that place, which has the layers of the base of that number, and its own over them.
fn known_host(
    alloc: Global,
    table: &Table,
    host: usize,
    base: usize,
    given: &[Arc<Fields>],
    own: Fields,
) -> Result<Host, AllocError>
    requires names { length table.now.names.items ≡ length table.now.rows.items }
    requires wide { All (λ row. host < length row.items) table.now.rows.items }
    ensures groups { IfOk result (λ known. names_view known.groups.items
        ≡ names_where (flag_at table.now.rows.items host) (names_view table.now.names.items)) }
    ensures base { IfOk result (λ known. known.base ≡ base) }
    ensures own { IfOk result (λ known. known.own.value ≡ own) }
    ensures layers { IfOk result (λ known. layered (layer_views known.layers.items)
        ≡ laid (layered (layer_views given.now)) (fields_view own.entries)) }
{
    let groups = names_of(alloc, table.names.as_slice(), table.rows.as_slice(), host)?;
    let own = Arc::new(alloc, own)?;
    let mut layers = shared_layers(alloc, given)?;
    add_layer(&mut layers, &own)?;
    Ok(Host {
        groups,
        base,
        layers,
        own,
    })
}
