// A host's way through all plays: what is found on it, and what the host has at its later places.
ghost use Rattle.std.specs.Prelude.{◌≡◌, ◌+◌, ◌<◌, All, IfOk, Some, None, [], drop, false};
ghost use Rattle.std.specs.Prelude.{List, length, option_map, slice_get, true};
ghost use Rattle.pb_semantics.specs.Words.{is_among, recs};
ghost use Rattle.pb_semantics.specs.Well.{Well};
ghost use Rattle.pb_language.specs.Book.{PlayData, Registry};
ghost use Rattle.pb_language.specs.Expression.{Name};
ghost use Rattle.pb_language.specs.Kinds.{known_slots};
ghost use Rattle.pb_language.specs.Plays.{play_row};
ghost use Rattle.pb_language.specs.Program.{Play, Program, setting_of};
ghost use Rattle.pb_language.specs.Scope.{every_name, no_since, view_of};
ghost use Rattle.pb_language.specs.Tables.{first_laters};
ghost use Rattle.pb_language.specs.World.{HostVariables};
ghost use Rattle.pb_lattice.specs.Words.{IsKept, Stands, exit_of, names_of};
ghost use Rattle.pb_inventory.specs.Words.{inventory_view};
ghost use Rattle.pb_kind.specs.Words.{slots_view};
ghost use Rattle.pb_route.specs.Words.{ArePathsOf};
ghost use Rattle.pb_hosts.specs.Words.{AreConstants, since_view, views_view};
ghost use Rattle.pb_tables.specs.Found.{HostFinds, HostLasts};
ghost use Rattle.pb_tables.specs.Played.{PlayFinds, PlayLasts, laters_here};
ghost use Rattle.pb_tables.specs.Scenes.{AreScenes, IsScene};
ghost use Rattle.pb_tables.specs.Tabled.{AreTables, laters_in};
ghost use Rattle.pb_tables.specs.declared.scene.Scene.{Scene};

use crate::table::{Stage, Tables};
use pb_find::{Find, calls_in, entry_of, find_play};
use pb_hosts::lasting::NEVER;
use pb_hosts::{Constants, Lasting, Laters, Seen, Views};
use pb_kind::{Slots, copy_slots};
use pb_lasting::lasting_in;
use pb_lattice::{Environment, Environments};
use pb_outlook::Outlook;
use pb_route::Route;
use pb_route::places::places_are_counted;
use pb_way::walk;
use std::alloc::{AllocError, Global};

/// What is found of a host on its way through all plays.
#[derive(Drop)]
pub struct HostFound {
    pub find: Find,
    /// The most module calls.
    pub calls: u64,
}

/// What is found of the host at that place on its way through all plays.
///
/// # Errors
///
/// Want of memory, also where a name that is known or written isn't among the names.
pub fn host_found(
    alloc: Global,
    stage: &Stage<'_, '_>,
    tables: &Tables<'_>,
    host: usize,
    space: &mut Environments,
) -> Result<HostFound, AllocError>
    requires tables { AreTables stage.now tables.now }
    requires host { host < length (inventory_view stage.now.inventory.now).hosts }
    requires names { space.old.names ≡ names_of stage.now.names.now }
    ensures names { space.new.names ≡ space.old.names }
    ensures well { IfOk result (λ f. Well (recs (slots_view f.find.next.entries))) }
    ensures found { IfOk result (λ f. (ps : Program) (x : HostVariables)
        → AreScenes stage.now.inventory.now ps stage.now.scenes.now
        → slice_get (inventory_view stage.now.inventory.now).hosts host ≡ Some x
        → HostFinds (inventory_view stage.now.inventory.now) ps (views_view tables.now.views)
        (laters_in stage.now tables.now.laters.items) x f) }
{
    let at = entry_of(alloc, known_at(stage, host), space)?;
    let found = nothing_found(tables.views.slots(host))?;
    let constants = Constants::of(alloc, stage.inventory, stage.groups, host)?;
    let mut way = OnWay { found, at };
    for play in 0..stage.scenes.len() {
        way = found_in(alloc, stage, tables, play, &constants, space, way)?;
    }
    Ok(way.found)
}

/// What the host at that place has at its later places in each play, where others see of hosts what
/// the inventory says.
///
/// # Errors
///
/// Want of memory, as of `host_found`.
pub fn host_lasting(
    alloc: Global,
    stage: &Stage<'_, '_>,
    host: usize,
    space: &mut Environments,
) -> Result<Vec<Lasting>, AllocError>
    requires host { host < length (inventory_view stage.now.inventory.now).hosts }
    requires names { space.old.names ≡ names_of stage.now.names.now }
    ensures names { space.new.names ≡ space.old.names }
    ensures number { IfOk result (λ ls. length ls.items ≡ length stage.now.scenes.now) }
    ensures beside { IfOk result
        (λ ls. All (λ l. length l.from.items ≡ length stage.now.names.now) ls.items) }
    ensures lasts { IfOk result (λ ls. (ps : Program) (x : HostVariables)
        → AreScenes stage.now.inventory.now ps stage.now.scenes.now
        → slice_get (inventory_view stage.now.inventory.now).hosts host ≡ Some x
        → HostLasts (names_of stage.now.names.now) (inventory_view stage.now.inventory.now) ps x
        ls.items) }
{
    let mut at = entry_of(alloc, known_at(stage, host), space)?;
    let constants = Constants::of(alloc, stage.inventory, stage.groups, host)?;
    let mut lastings = Vec::with_capacity(alloc, stage.scenes.len())?;
    for play in 0..stage.scenes.len() {
        let (lasting, end) = lasting_at(alloc, stage, stage.known, play, &constants, at, space)?;
        lastings.push(lasting)?;
        at = end;
    }
    Ok(lastings)
}

// A host on its way through all plays: what is found so far, and what is known where it stands.
#[derive(Drop)]
struct OnWay {
    found: HostFound,
    at: Environment,
}

// What the inventory says of the variables of the host at that place.
fn known_at<'t>(stage: &'t Stage<'_, '_>, host: usize) -> &'t Slots
    requires host { host < length (inventory_view stage.now.inventory.now).hosts }
    ensures known { option_map (λ h. known_slots h.variables)
        (slice_get (inventory_view stage.entry.now.inventory.now).hosts host)
        ≡ Some (slots_view result.now.entries) }
    ensures well { Well (recs (slots_view result.now.entries)) }
{
    stage.known.slots(host)
}

// Before anything is run.
fn nothing_found(view: &Slots) -> Result<HostFound, AllocError>
    ensures fault { IfOk result (λ f. f.find.fault ≡ None) }
    ensures next { IfOk result (λ f.
        slots_view f.find.next.entries ≡ slots_view view.now.entries) }
    ensures settled { IfOk result (λ f. f.find.is_settled ≡ true) }
    ensures calls { IfOk result (λ f. f.calls ≡ 0) }
{
    let find = Find {
        fault: None,
        next: copy_slots(view)?,
        is_settled: true,
        is_same: true,
    };
    Ok(HostFound { find, calls: 0 })
}

// What is found once the play of that number is done, which may not name the host.
fn found_in(
    alloc: Global,
    stage: &Stage<'_, '_>,
    tables: &Tables<'_>,
    play: usize,
    constants: &Constants<'_>,
    space: &mut Environments,
    before: OnWay,
) -> Result<OnWay, AllocError>
    requires tables { AreTables stage.now tables.now }
    requires play { play < length stage.now.scenes.now }
    requires constants { AreConstants (inventory_view stage.now.inventory.now) constants.now }
    requires stands { Stands space.old before.at }
    requires next { Well (recs (slots_view before.found.find.next.entries)) }
    ensures kept { IsKept space.old space.new }
    ensures stands { IfOk result (λ w. Stands space.new w.at) }
    ensures next { IfOk result (λ w. Well (recs (slots_view w.found.find.next.entries))) }
    ensures named { IfOk result (λ w. (s : Scene) (p : Play) (x : HostVariables)
        → slice_get stage.now.scenes.now play ≡ Some s → IsScene stage.now.inventory.now p s
        → slice_get (inventory_view stage.now.inventory.now).hosts constants.now.host
        ≡ Some x
        → is_among x.name p.hosts ≡ true
        → PlayFinds x.name (setting_of (inventory_view stage.now.inventory.now) p
        (views_view tables.now.views)
        (first_laters (drop play (laters_in stage.now tables.now.laters.items))) x.name) p.row
        (view_of x.name (views_view tables.now.views)) (exit_of space.old before.at)
        (exit_of space.new w.at) before.found w.found) }
    ensures others { IfOk result (λ w. (s : Scene) (p : Play) (x : HostVariables)
        → slice_get stage.now.scenes.now play ≡ Some s → IsScene stage.now.inventory.now p s
        → slice_get (inventory_view stage.now.inventory.now).hosts constants.now.host
        ≡ Some x
        → is_among x.name p.hosts ≡ false
        → (w.found ≡ before.found) × (exit_of space.new w.at ≡ exit_of space.old before.at)) }
{
    let scene = &stage.scenes[play];
    if !scene.cast.has(constants.host) {
        return Ok(before);
    }
    let views = &tables.views;
    let laters = laters_at(stage, tables, play);
    let seen = Seen::of(&scene.cast, constants, views, laters.as_ref());
    play_found(
        alloc,
        &scene.route,
        &seen,
        views.slots(constants.host),
        space,
        before,
    )
}

// What hosts have at their later places in the play of that number; nothing under `free`.
fn laters_at<'t>(
    stage: &'t Stage<'_, '_>,
    tables: &'t Tables<'_>,
    play: usize,
) -> Option<Laters<'t>>
    requires tables { AreTables stage.now tables.now }
    ensures { laters_here (inventory_view stage.entry.now.inventory.now) result
        ≡ first_laters (drop play (laters_in stage.entry.now tables.entry.now.laters.items)) }
{
    let Some(laters) = tables.laters.get(play) else {
        return None;
    };
    match laters {
        Some(hosts) => Some(Laters {
            names: stage.names,
            hosts,
        }),
        None => None,
    }
}

// What is found once a play is done that names the host.
fn play_found<O: Outlook>(
    alloc: Global,
    route: &Route<'_>,
    outlook: &O,
    view: &Slots,
    space: &mut Environments,
    before: OnWay,
) -> Result<OnWay, AllocError>
    requires stands { Stands space.old before.at }
    requires view { Well (recs (slots_view view.now.entries)) }
    requires next { Well (recs (slots_view before.found.find.next.entries)) }
    ensures kept { IsKept space.old space.new }
    ensures stands { IfOk result (λ w. Stands space.new w.at) }
    ensures next { IfOk result (λ w. Well (recs (slots_view w.found.find.next.entries))) }
    ensures found { IfOk result (λ w. (h : Name) (ms : Registry) (d : PlayData)
        → ArePathsOf (play_row ms d) route.now
        → PlayFinds h (O.setting outlook.now) (play_row ms d) (slots_view view.now.entries)
        (exit_of space.old before.at) (exit_of space.new w.at) before.found w.found) }
{
    places_are_counted();
    let HostFound { find, calls } = before.found;
    let stations = route.stations();
    let values = walk(alloc, route, outlook, before.at, space)?;
    let find = find_play(alloc, stations, outlook, &values, space, view, find)?;
    let more = calls_in(alloc, stations, outlook, &values, space)?;
    Ok(OnWay {
        found: HostFound {
            find,
            calls: sum(calls, more)?,
        },
        at: values[stations.len() + 1],
    })
}

fn sum(one: u64, other: u64) -> Result<u64, AllocError>
    ensures { IfOk result (λ n. n ≡ one + other) }
{
    match one.checked_add(other) {
        Some(sum) => Ok(sum),
        None => Err(AllocError),
    }
}

// From which places of the play of that number on the host has its variables, and what is known
// once that is done, which may not name the host.
fn lasting_at(
    alloc: Global,
    stage: &Stage<'_, '_>,
    views: &Views<'_>,
    play: usize,
    constants: &Constants<'_>,
    at: Environment,
    space: &mut Environments,
) -> Result<(Lasting, Environment), AllocError>
    requires play { play < length stage.now.scenes.now }
    requires constants { AreConstants (inventory_view stage.now.inventory.now) constants.now }
    requires stands { Stands space.old at }
    requires names { space.old.names ≡ names_of stage.now.names.now }
    ensures kept { IsKept space.old space.new }
    ensures stands { IfOk result (λ r. Stands space.new r.1) }
    ensures beside { IfOk result (λ r. length r.0.from.items ≡ length stage.now.names.now) }
    ensures named { IfOk result (λ r. (s : Scene) (p : Play) (x : HostVariables)
        → slice_get stage.now.scenes.now play ≡ Some s → IsScene stage.now.inventory.now p s
        → slice_get (inventory_view stage.now.inventory.now).hosts constants.now.host
        ≡ Some x
        → is_among x.name p.hosts ≡ true
        → PlayLasts (names_of stage.now.names.now)
        (setting_of (inventory_view stage.now.inventory.now) p (views_view views.now) [] x.name)
        p.row (exit_of space.old at) (exit_of space.new r.1) r.0) }
    ensures others { IfOk result (λ r. (s : Scene) (p : Play) (x : HostVariables)
        → slice_get stage.now.scenes.now play ≡ Some s → IsScene stage.now.inventory.now p s
        → slice_get (inventory_view stage.now.inventory.now).hosts constants.now.host
        ≡ Some x
        → is_among x.name p.hosts ≡ false
        → (since_view (names_of stage.now.names.now) r.0 ≡ every_name 0 no_since)
        × (exit_of space.new r.1 ≡ exit_of space.old at)) }
{
    let scene = &stage.scenes[play];
    if !scene.cast.has(constants.host) {
        return Ok((everything(alloc, stage.names.len())?, at));
    }
    let laters: Option<Laters<'_>> = None;
    let seen = Seen::of(&scene.cast, constants, views, laters.as_ref());
    let stations = scene.route.stations();
    let values = walk(alloc, &scene.route, &seen, at, space)?;
    let lasting = lasting_in(alloc, stations, &values, space)?;
    Ok((lasting, values[stations.len() + 1]))
}

// Of a host that the play doesn't name nothing keeps a name from lasting.
fn everything(alloc: Global, names: usize) -> Result<Lasting, AllocError>
    ensures beside { IfOk result (λ l. length l.from.items ≡ names) }
    ensures every { IfOk result (λ l. (ns : List Name)
        → since_view ns l ≡ every_name 0 no_since) }
{
    Ok(Lasting {
        from: vec![in alloc; NEVER; names]?,
        every: Some(0),
    })
}
