// Which hosts look alike to plays whose texts read no other host and not the host's own name.
ghost use Rattle.std.specs.Prelude.{◌≡◌, ◌<◌, IfOk, Some, length, slice_get, true};
ghost use Rattle.pb_semantics.specs.Words.{is_among};
ghost use Rattle.pb_language.specs.Program.{Play, Program};
ghost use Rattle.pb_language.specs.World.{HostVariables};
ghost use Rattle.pb_alike.specs.Words.{LookAlike, SamePlays};
ghost use Rattle.pb_inventory.specs.Words.{inventory_view};
ghost use Rattle.pb_tables.specs.Ends.{AreAlike};
ghost use Rattle.pb_tables.specs.Scenes.{AreScenes, IsScene};
ghost use Rattle.pb_tables.specs.declared.scene.Scene.{Scene};

use crate::table::Stage;
use std::alloc::{AllocError, Global};
use std::collections::BTreeMap;

/// For each host, in host order, the place of the first host that is found to look like it, or its
/// own. Hosts look alike of which the same is known, which are in equally many groups, and of which
/// each play names both or neither.
///
/// # Errors
///
/// Want of memory.
pub fn firsts_of(alloc: Global, stage: &Stage<'_, '_>) -> Result<Vec<usize>, AllocError>
    ensures { IfOk result (λ v. (ps : Program)
        → AreScenes stage.now.inventory.now ps stage.now.scenes.now
        → AreAlike (inventory_view stage.now.inventory.now) ps v.items) }
{
    let mut firsts = Vec::with_capacity(alloc, stage.inventory.hosts())?;
    let mut looks: BTreeMap<String, usize> = BTreeMap::new(alloc);
    for host in 0..stage.inventory.hosts() {
        let look = look_of(alloc, stage, host)?;
        let first = first_like(stage, looks.get(&look), host);
        if first == host {
            drop(looks.insert(look, host)?);
        }
        firsts.push(first)?;
    }
    Ok(firsts)
}

// The earlier host, where this one looks like it, or this one.
fn first_like(stage: &Stage<'_, '_>, earlier: Option<&usize>, host: usize) -> usize
    requires host { host < length (inventory_view stage.now.inventory.now).hosts }
    ensures { (ps : Program) (x y : HostVariables)
        → AreScenes stage.now.inventory.now ps stage.now.scenes.now
        → slice_get (inventory_view stage.now.inventory.now).hosts result ≡ Some x
        → slice_get (inventory_view stage.now.inventory.now).hosts host ≡ Some y
        → LookAlike (inventory_view stage.now.inventory.now) ps x y }
{
    match earlier {
        Some(first) => {
            if *first < host && look_alike(stage, *first, host) {
                *first
            } else {
                host
            }
        }
        None => host,
    }
}

// Where it holds, the hosts at both places look alike.
fn look_alike(stage: &Stage<'_, '_>, one: usize, other: usize) -> bool
    requires one { one < length (inventory_view stage.now.inventory.now).hosts }
    requires other { other < length (inventory_view stage.now.inventory.now).hosts }
    ensures { result ≡ true → (ps : Program) (x y : HostVariables)
        → AreScenes stage.now.inventory.now ps stage.now.scenes.now
        → slice_get (inventory_view stage.now.inventory.now).hosts one ≡ Some x
        → slice_get (inventory_view stage.now.inventory.now).hosts other ≡ Some y
        → LookAlike (inventory_view stage.now.inventory.now) ps x y }
{
    let inventory = stage.inventory;
    inventory.group_names(one).len() == inventory.group_names(other).len()
        && first_of(stage, one) == first_of(stage, other)
        && are_in_same_plays(stage, one, other)
}

// Whether each play names both hosts or neither.
fn are_in_same_plays(stage: &Stage<'_, '_>, one: usize, other: usize) -> bool
    requires one { one < length (inventory_view stage.now.inventory.now).hosts }
    requires other { other < length (inventory_view stage.now.inventory.now).hosts }
    ensures { result ≡ true → (ps : Program) (x y : HostVariables)
        → AreScenes stage.now.inventory.now ps stage.now.scenes.now
        → slice_get (inventory_view stage.now.inventory.now).hosts one ≡ Some x
        → slice_get (inventory_view stage.now.inventory.now).hosts other ≡ Some y
        → SamePlays ps x.name y.name }
{
    for play in 0..stage.scenes.len() {
        if is_named(stage, play, one) != is_named(stage, play, other) {
            return false;
        }
    }
    true
}

// Whether the play of that number names the host at that place.
fn is_named(stage: &Stage<'_, '_>, play: usize, host: usize) -> bool
    requires play { play < length stage.now.scenes.now }
    requires host { host < length (inventory_view stage.now.inventory.now).hosts }
    ensures { (s : Scene) (p : Play) (x : HostVariables)
        → slice_get stage.now.scenes.now play ≡ Some s → IsScene stage.now.inventory.now p s
        → slice_get (inventory_view stage.now.inventory.now).hosts host ≡ Some x
        → is_among x.name p.hosts ≡ result }
{
    stage.scenes[play].cast.has(host)
}

// A text that differs for all hosts that don't look alike: which plays name the host, in how many
// groups it is, and the first host of which the same is known.
fn look_of(alloc: Global, stage: &Stage<'_, '_>, host: usize) -> Result<String, AllocError>
    requires host { host < length (inventory_view stage.now.inventory.now).hosts }
{
    let mut look = stage.inventory.group_names(host).len().to_string(alloc)?;
    for play in 0..stage.scenes.len() {
        look.push(if is_named(stage, play, host) {
            '+'
        } else {
            '-'
        })?;
    }
    look.push_str(first_of(stage, host).to_string(alloc)?.as_str())?;
    Ok(look)
}

// The first host of which the same is known.
fn first_of(stage: &Stage<'_, '_>, host: usize) -> usize
    requires host { host < length (inventory_view stage.now.inventory.now).hosts }
    ensures { slice_get stage.now.firsts.now host ≡ Some result }
{
    stage.firsts[host]
}
