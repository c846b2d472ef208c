// What is found at the tasks on a host's way: the first fault, and what it writes.
ghost use Rattle.std.specs.Prelude.{◌≡◌, ◌<◌, ◌&&◌, ◌||◌, ◌∷◌, [], All, IfOk, OnOk, length};
ghost use Rattle.std.specs.Prelude.{nat_eq, nat_lt, option_map, string_bytes, true};
ghost use Rattle.pb_semantics.specs.Words.{recs};
ghost use Rattle.pb_semantics.specs.Well.{Well};
ghost use Rattle.pb_language.specs.Cases.{no_sets, sets};
ghost use Rattle.pb_language.specs.Tables.{writes_below};
ghost use Rattle.pb_language.specs.Verdict.{code_of, lesser};
ghost use Rattle.pb_language.specs.Wells.{WellSets};
ghost use Rattle.pb_language.specs.Walk.{visits_at};
ghost use Rattle.pb_language.specs.Words.{Name};
ghost use Rattle.pb_lattice.specs.Words.{Stands, exit_of};
ghost use Rattle.pb_kind.specs.Words.{kind_view, slots_view, spot_view};
ghost use Rattle.pb_visit.specs.Visits.{registered};
ghost use Rattle.pb_route.specs.Words.{IsStation, station_task};
ghost use Rattle.pb_visit.specs.Words.{IsReached, env_of, task_there};
ghost use Rattle.pb_visit.specs.Words.{IsEither, writes_view};
ghost use Rattle.pb_forms.specs.Words.{fault_view};
ghost use Rattle.pb_find.specs.Finds.{Finds, offence_of};
ghost use Rattle.pb_find.specs.Ways.{way_visits};
ghost use Rattle.pb_find.specs.Written.{Grown, IsPut, Written};

use pb_expr::Unfit;
use pb_kind::below::{below, find};
use pb_kind::join::join;
use pb_kind::{Kind, Slot, Slots};
use pb_lattice::{Environment, Environments};
use pb_outlook::Outlook;
use pb_route::Station;
use pb_visit::{Visit, Writes, fault, written};
use std::alloc::{AllocError, Global};
use std::sync::Arc;

/// A fault at a line.
#[derive(Clone, Copy, PartialEq, Eq, Debug)]
pub struct FaultAt {
    pub line: u32,
    pub unfit: Unfit,
}

/// What is found of a host on its way so far.
#[derive(Drop)]
pub struct Find {
    /// The first fault: the least line, and on it the least code.
    pub fault: Option<FaultAt>,
    /// Its variables as others see them, with all that it writes.
    pub next: Slots,
    /// Each write is below what others see.
    pub is_settled: bool,
    /// `next` has no name and no kind that it didn't have at first.
    pub is_same: bool,
}

/// What is found at the tasks of a play, where that is known at its nodes, after what was found
/// before. Others see the host's variables so.
///
/// # Errors
///
/// Want of memory, as of `pb_visit::fault` and `written`.
pub fn find_play<O: Outlook>(
    alloc: Global,
    stations: &[Station<'_>],
    outlook: &O,
    values: &[Environment],
    space: &Environments,
    view: &Slots,
    before: Find,
) -> Result<Find, AllocError>
    requires stations { All IsStation stations.now }
    requires values { All (Stands space.now) values.now }
    requires number { length stations.now < length values.now }
    requires view { Well (recs (slots_view view.now.entries)) }
    requires next { Well (recs (slots_view before.next.entries)) }
    ensures { IfOk result (λ f. (h : Name) → Finds h (slots_view view.now.entries)
        (way_visits (O.setting outlook.now) stations.now space.now values.now) before f) }
{
    O::views_are_well();
    let mut found = before;
    for (index, station) in stations.iter().enumerate() {
        found = find_at(
            alloc,
            station,
            outlook,
            values[index + 1],
            space,
            view,
            found,
        )?;
    }
    Ok(found)
}

// What is found at one task, if a way leads there.
fn find_at<O: Outlook>(
    alloc: Global,
    station: &Station<'_>,
    outlook: &O,
    at: Environment,
    space: &Environments,
    view: &Slots,
    before: Find,
) -> Result<Find, AllocError>
    requires station { IsStation station.now }
    requires stands { Stands space.now at }
    requires view { Well (recs (slots_view view.now.entries)) }
    requires next { Well (recs (slots_view before.next.entries)) }
    ensures { IfOk result (λ f. (h : Name) → Finds h (slots_view view.now.entries)
        (visits_at (O.setting outlook.now) (station_task station.now) (exit_of space.now at))
        before f) }
{
    if at.is_dead() {
        return Ok(before);
    }
    let visit = Visit { station, space, at };
    find_visit(alloc, &visit, outlook, view, before)
}

// What is found at one task.
fn find_visit<O: Outlook>(
    alloc: Global,
    visit: &Visit<'_, '_>,
    outlook: &O,
    view: &Slots,
    before: Find,
) -> Result<Find, AllocError>
    requires station { IsStation visit.now.station.now }
    requires reached { IsReached visit.now }
    requires view { Well (recs (slots_view view.now.entries)) }
    requires next { Well (recs (slots_view before.next.entries)) }
    ensures { IfOk result (λ f. (h : Name) → Finds h (slots_view view.now.entries)
        (record {
          setting = O.setting outlook.now;
          visited = task_there visit.now;
          env = env_of visit.now;
        } ∷ []) before f) }
{
    O::views_are_well();
    let unfit = fault(alloc, visit, outlook)?;
    let writes = written(alloc, visit, outlook)?;
    let mut found = before;
    found.fault = sooner(found.fault, fault_at(visit.station.task.line, unfit));
    with_writes(alloc, visit.station, writes, view, found)
}

fn fault_at(line: u32, unfit: Option<Unfit>) -> Option<FaultAt>
    ensures { result ≡ option_map (λ u. record { line = line; unfit = u }) unfit }
{
    match unfit {
        Some(unfit) => Some(FaultAt { line, unfit }),
        None => None,
    }
}

// Of two faults the one at the lesser line, and on one line that of the lesser code.
pub(crate) fn sooner(first: Option<FaultAt>, second: Option<FaultAt>) -> Option<FaultAt>
    ensures { (h : Name)
        → offence_of h result ≡ lesser (offence_of h first) (offence_of h second) }
{
    match (first, second) {
        (Some(one), Some(other)) => { if is_sooner(other, one) { second } else { first } }
        (None, _) => second,
        _ => first,
    }
}

fn is_sooner(one: FaultAt, other: FaultAt) -> bool
    ensures { result ≡ (nat_lt one.line other.line || (nat_eq one.line other.line
        && nat_lt (code_of (fault_view one.unfit)) (code_of (fault_view other.unfit)))) }
{
    one.line < other.line || one.line == other.line && code(one.unfit) < code(other.unfit)
}

// The number of the V code of a fault.
fn code(unfit: Unfit) -> u32
    ensures { result ≡ code_of (fault_view unfit) }
{
    match unfit {
        Unfit::Undefined => 1,
        Unfit::UndefinedThere => 2,
        Unfit::MissingField => 3,
        Unfit::WrongKind => 4,
        Unfit::UnknownName => 6,
    }
}

// With all that the task writes. Its result is joined once, of the kind that it has in either way.
fn with_writes(
    alloc: Global,
    station: &Station<'_>,
    writes: Writes,
    view: &Slots,
    before: Find,
) -> Result<Find, AllocError>
    requires writes { WellSets (writes_view (station_task station.now).register writes) }
    requires either { IsEither (option_map kind_view writes.going)
        (option_map kind_view writes.failing) (option_map kind_view writes.either) }
    requires next { Well (recs (slots_view before.next.entries)) }
    ensures { IfOk result (λ f. Written (writes_view (station_task station.now).register writes)
        (slots_view view.now.entries) before f) }
{
    let register = &station.task.register;
    let mut found = with_registered(alloc, register, &writes.either, view, before)?;
    for set in &writes.sets {
        found = with_write(alloc, set.name.as_str(), &set.kind, view, found)?;
    }
    Ok(found)
}

// With what is registered of that kind, where there is a name for it.
fn with_registered(
    alloc: Global,
    register: &Option<Arc<String>>,
    kind: &Option<Kind>,
    view: &Slots,
    before: Find,
) -> Result<Find, AllocError>
    requires writes { WellSets (registered (option_map (λ n. string_bytes n.value) register.now)
        (option_map kind_view kind.now)) }
    requires next { Well (recs (slots_view before.next.entries)) }
    ensures { IfOk result (λ f. Written (registered
        (option_map (λ n. string_bytes n.value) register.now)
        (option_map kind_view kind.now)) (slots_view view.now.entries) before f) }
{
    match register {
        None => Ok(before),
        Some(name) => match kind {
            None => Ok(before),
            Some(kind) => with_write(alloc, name.as_str(), kind, view, before),
        },
    }
}

// With a write: it is joined to what is known, and what isn't known yet is only perhaps there.
fn with_write(
    alloc: Global,
    name: &str,
    kind: &Kind,
    view: &Slots,
    before: Find,
) -> Result<Find, AllocError>
    requires kind { Well (kind_view kind.now) }
    requires next { Well (recs (slots_view before.next.entries)) }
    ensures { IfOk result (λ f. Written (sets name.now true (kind_view kind.now) no_sets)
        (slots_view view.now.entries) before f) }
{
    let Find {
        fault,
        mut next,
        is_settled,
        is_same,
    } = before;
    let is_settled = is_settled && is_known(view, name, kind);
    let slot = grown(alloc, find(&next, name), kind)?;
    let is_same = is_same && slot.is_none();
    put(alloc, &mut next, name, slot)?;
    Ok(Find {
        fault,
        next,
        is_settled,
        is_same,
    })
}

// What is known of a name once the kind is joined to it; none where it has that kind already.
fn grown(
    alloc: Global,
    known: Option<&Slot<Kind>>,
    kind: &Kind,
) -> Result<Option<Slot<Kind>>, AllocError>
    ensures { IfOk result (λ o. Grown (spot_view known.entry) (kind_view kind.now) o) }
{
    match known {
        Some(slot) => {
            if below(kind, &slot.kind) {
                return Ok(None);
            }
            Ok(Some(Slot {
                presence: slot.presence,
                kind: join(alloc, &slot.kind, kind)?,
            }))
        }
        None => Ok(Some(Slot::maybe(kind.clone()?))),
    }
}

// Puts the slot under that name, where there is one.
fn put(
    alloc: Global,
    slots: &mut Slots,
    name: &str,
    slot: Option<Slot<Kind>>,
) -> Result<(), AllocError>
    ensures { OnOk result
        (IsPut name.now slot (slots_view slots.old.entries) (slots_view slots.new.entries)) }
{
    match slot {
        Some(slot) => {
            drop(slots.insert(String::from_str(alloc, name)?, slot)?);
            Ok(())
        }
        None => Ok(()),
    }
}

// Whether the kind is below what is known of the name.
fn is_known(slots: &Slots, name: &str, kind: &Kind) -> bool
    ensures { result ≡ writes_below (sets name.now true (kind_view kind.now) no_sets)
        (slots_view slots.now.entries) }
{
    match find(slots, name) {
        Some(slot) => below(kind, &slot.kind),
        None => below(kind, &Kind::Never),
    }
}
