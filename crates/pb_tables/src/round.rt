// A round of the tables: what the ways of all hosts come to, in host order.
ghost use Rattle.std.specs.Prelude.{◌≡◌, ◌+◌, ◌<◌, ◌∷◌, ◌++◌, List, [], All, IfOk, Some, length};
ghost use Rattle.std.specs.Prelude.{option_map, slice_get};
ghost use Rattle.pb_semantics.specs.Words.{recs};
ghost use Rattle.pb_semantics.specs.Well.{Well};
ghost use Rattle.pb_language.specs.Program.{Program};
ghost use Rattle.pb_language.specs.Scope.{Later, View};
ghost use Rattle.pb_language.specs.Verdict.{earlier};
ghost use Rattle.pb_language.specs.World.{HostVariables};
ghost use Rattle.pb_kind.specs.Words.{slots_view};
ghost use Rattle.pb_lattice.specs.Words.{names_of};
ghost use Rattle.pb_inventory.specs.Words.{inventory_view};
ghost use Rattle.pb_hosts.specs.Words.{views_view};
ghost use Rattle.pb_hosts.specs.declared.views.Views.{Views};
ghost use Rattle.pb_find.specs.Words.{offence_of};
ghost use Rattle.pb_tables.specs.Ends.{AreEnds, AreShared, found_in};
ghost use Rattle.pb_tables.specs.Found.{HostFinds};
ghost use Rattle.pb_tables.specs.Outcomes.{host_offence, stands_by};
ghost use Rattle.pb_tables.specs.Rounds.{AreFound, IsRound};
ghost use Rattle.pb_tables.specs.Scenes.{AreScenes};
ghost use Rattle.pb_tables.specs.Tabled.{AreTables, laters_in};

use crate::end::HostEnd;
use crate::ends::ends_of;
use crate::outcome::HostFault;
use crate::table::{Stage, Tables};
use pb_find::FaultAt;
use pb_hosts::Views;
use pb_inventory::Inventory;
use pb_kind::Slots;
use pb_lattice::Environments;
use std::alloc::{AllocError, Global};
use std::sync::Arc;

/// What the ways of all hosts come to in a round.
#[derive(Drop)]
pub struct Round<'i> {
    /// The least line, then the first host, then the least code.
    pub fault: Option<HostFault>,
    /// Each write is below what others see.
    pub is_settled: bool,
    /// Others see in the next round what they see in this one.
    pub is_same: bool,
    /// The most module calls.
    pub calls: u64,
    /// What others see in the next round.
    pub next: Views<'i>,
}

/// What the ways of the hosts so far come to.
#[derive(Drop)]
pub struct SoFar {
    pub fault: Option<HostFault>,
    pub is_settled: bool,
    pub is_same: bool,
    pub calls: u64,
    pub next: Vec<Arc<Slots>>,
}

/// What the ways of all hosts come to. A host isn't followed where an earlier one stands for it,
/// whose place is the one at its own among `firsts`.
///
/// # Errors
///
/// Want of memory, as of `ends_of`, also where a `u64` doesn't hold the number of calls.
pub fn round_of<'i>(
    alloc: Global,
    stage: &Stage<'i, '_>,
    tables: &Tables<'i>,
    firsts: &[usize],
    space: Environments,
) -> Result<(Round<'i>, Environments), AllocError>
    requires tables { AreTables stage.now tables.now }
    requires names { space.names ≡ names_of stage.now.names.now }
    ensures names { IfOk result (λ r. r.1.names ≡ space.names) }
    ensures inventory { IfOk result (λ r. r.0.next.inventory ≡ stage.now.inventory) }
    ensures round { IfOk result (λ r. (ps : Program)
        → AreScenes stage.now.inventory.now ps stage.now.scenes.now
        → AreShared (inventory_view stage.now.inventory.now) ps (views_view tables.now.views)
        (laters_in stage.now tables.now.laters.items) firsts.now
        → IsRound (inventory_view stage.now.inventory.now) ps (views_view tables.now.views)
        (laters_in stage.now tables.now.laters.items) r.0) }
{
    let (ends, space) = ends_of(alloc, stage, tables, firsts, space)?;
    let found = all_taken(alloc, stage.inventory, &ends)?;
    Ok((all_found(stage.inventory, found), space))
}

// What the ways of all hosts come to, one after the other.
fn all_taken(alloc: Global, inventory: &Inventory, ends: &[HostEnd]) -> Result<SoFar, AllocError>
    requires { length ends.now ≡ length (inventory_view inventory.now).hosts }
    ensures each { IfOk result
        (λ s. length s.next.items ≡ length (inventory_view inventory.now).hosts) }
    ensures well { IfOk result
        (λ s. All (λ m. Well (recs (slots_view m.value.entries))) s.next.items) }
    ensures found { IfOk result (λ s. (ps : Program) (vs : List View) (ls : List (List Later))
        → AreEnds (inventory_view inventory.now) ps vs ls ends.now
        → AreFound (inventory_view inventory.now) ps vs ls (inventory_view inventory.now).hosts s) }
{
    let mut found = SoFar {
        fault: None,
        is_settled: true,
        is_same: true,
        calls: 0,
        next: Vec::new(alloc),
    };
    for host in 0..inventory.hosts() {
        found = with_host(alloc, inventory, host, &ends[host], found)?;
    }
    Ok(found)
}

// With what the way of the host at that place comes to.
fn with_host(
    alloc: Global,
    inventory: &Inventory,
    host: usize,
    end: &HostEnd,
    before: SoFar,
) -> Result<SoFar, AllocError>
    requires host { host < length (inventory_view inventory.now).hosts }
    requires well { All (λ m. Well (recs (slots_view m.value.entries))) before.next.items }
    ensures number { IfOk result (λ s. length s.next.items ≡ length before.next.items + 1) }
    ensures well { IfOk result
        (λ s. All (λ m. Well (recs (slots_view m.value.entries))) s.next.items) }
    ensures found { IfOk result (λ s. (ps : Program) (vs : List View) (ls : List (List Later))
        (xs : List HostVariables) (x : HostVariables)
        → slice_get (inventory_view inventory.now).hosts host ≡ Some x
        → HostFinds (inventory_view inventory.now) ps vs ls x (found_in end.now)
        → AreFound (inventory_view inventory.now) ps vs ls xs before
        → AreFound (inventory_view inventory.now) ps vs ls (xs ++ x ∷ []) s) }
{
    let fault = first_of(alloc, inventory, before.fault, host, end.fault)?;
    let calls = sum(before.calls, end.calls)?;
    let mut next = before.next;
    next.push(end.next.clone()?)?;
    Ok(SoFar {
        fault,
        is_settled: before.is_settled && end.is_settled,
        is_same: before.is_same && end.is_same,
        calls,
        next,
    })
}

// What the ways of all hosts come to, once each was taken in.
fn all_found<'i>(inventory: &'i Inventory, found: SoFar) -> Round<'i>
    requires each { length found.next.items ≡ length (inventory_view inventory.now).hosts }
    requires well { All (λ m. Well (recs (slots_view m.value.entries))) found.next.items }
    ensures inventory { result.next.inventory ≡ inventory.entry }
    ensures round { (ps : Program) (v : Views) (ls : List (List Later))
        → v.inventory.now ≡ inventory.entry.now
        → AreFound (inventory_view inventory.entry.now) ps (views_view v) ls
        (inventory_view inventory.entry.now).hosts found
        → IsRound (inventory_view inventory.entry.now) ps (views_view v) ls result }
{
    Round {
        fault: found.fault,
        is_settled: found.is_settled,
        is_same: found.is_same,
        calls: found.calls,
        next: Views::of_hosts(inventory, found.next),
    }
}

// The fault that came before, or that of the host where it stands at a lesser line.
fn first_of(
    alloc: Global,
    inventory: &Inventory,
    before: Option<HostFault>,
    host: usize,
    fault: Option<FaultAt>,
) -> Result<Option<HostFault>, AllocError>
    requires { host < length (inventory_view inventory.now).hosts }
    ensures { IfOk result (λ f. (x : HostVariables)
        → slice_get (inventory_view inventory.now).hosts host ≡ Some x
        → option_map host_offence f
        ≡ earlier (option_map host_offence before) (offence_of x.name fault)) }
{
    let Some(fault) = fault else {
        return Ok(before);
    };
    if stands_by(&before, fault.line) {
        return Ok(before);
    }
    let host = String::from_str(alloc, inventory.host_name(host))?;
    Ok(Some(HostFault { host, fault }))
}

// Whether there is a fault at that line or a lesser one.
fn stands_by(fault: &Option<HostFault>, line: u32) -> bool
    ensures { result ≡ stands_by fault.now line }
{
    match fault {
        Some(first) => first.fault.line <= line,
        None => false,
    }
}

// The sum, where a `u64` holds it.
fn sum(one: u64, other: u64) -> Result<u64, AllocError>
    ensures { IfOk result (λ n. n ≡ one + other) }
{
    match one.checked_add(other) {
        Some(sum) => Ok(sum),
        None => Err(AllocError),
    }
}
