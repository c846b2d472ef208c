// The lists of layers that groups give hosts, each once.
ghost use Rattle.std.specs.Prelude.{◌++◌, ◌<◌, ◌≡◌, IfOk, IfSome, List, OnOk, Some, length};
ghost use Rattle.std.specs.Prelude.{slice_get};
ghost use Rattle.std.specs.List.{All};
ghost use Rattle.pb_inventory.specs.HostGroups.{flag_at, layer_views, layers_where};
ghost use Rattle.pb_inventory.specs.Tables.{IsBase};
ghost use Rattle.pb_inventory.specs.Views.{base_at, base_lists, layered};
ghost use Rattle.pb_inventory.specs.declared.bases.Base.{Base};

use crate::assembly::Table;
use crate::layers::{layers_at, numbers_of};
use pb_value::Fields;
use std::alloc::{AllocError, Global};
use std::collections::BTreeMap;
use std::sync::Arc;

// What groups give the hosts that are in all of them.
#[derive(Drop)]
pub(crate) struct Base {
    // The groups that give variables, by depth, then name.
    pub(crate) groups: Vec<usize>,
    pub(crate) layers: Vec<Arc<Fields>>,
}

// Which of the bases is that of the host; it is put behind them where it is a new one.
pub(crate) fn base_of(
    alloc: Global,
    table: &Table,
    bases: &mut Vec<Base>,
    places: &mut BTreeMap<Vec<usize>, usize>,
    host: usize,
) -> Result<usize, AllocError>
    requires layers { length table.now.rows.items ≡ length table.now.layers.items }
    requires order { All (λ i. i < length table.now.layers.items) table.now.order.items }
    requires wide { All (λ row. host < length row.items) table.now.rows.items }
    requires bases { All (IsBase table.now) bases.old.items }
    ensures bases { OnOk result (All (IsBase table.now) bases.new.items) }
    ensures more { OnOk result ((more : List Base) × bases.new.items ≡ bases.old.items ++ more) }
    ensures placed { IfOk result (λ p. p < length bases.new.items) }
    ensures layers { IfOk result (λ p. layered (base_at (base_lists bases.new.items) p)
        ≡ layered (layers_where (flag_at table.now.rows.items host) table.now.order.items
        (layer_views table.now.layers.items))) }
{
    let layers = table.layers.as_slice();
    let groups = numbers_of(
        alloc,
        layers,
        table.rows.as_slice(),
        table.order.as_slice(),
        host,
    )?;
    if let Some(place) = place_of(bases, places.get(&groups), &groups) {
        return Ok(place);
    }
    let place = bases.len();
    let key = groups.clone()?;
    let layers = layers_at(alloc, layers, groups.as_slice())?;
    drop(places.insert(key, place)?);
    bases.push(Base { groups, layers })?;
    Ok(place)
}

// That place, where the base there is the one of these groups.
fn place_of(bases: &[Base], place: Option<&usize>, groups: &Vec<usize>) -> Option<usize>
    ensures { IfSome result (λ p. (b : Base) × (slice_get bases.now p ≡ Some b)
        × (b.groups.items ≡ groups.now.items)) }
{
    let place = *place?;
    let base = bases.get(place)?;
    if base.groups == *groups {
        Some(place)
    } else {
        None
    }
}
