// What the ways of all hosts come to: the first fault, whether the kinds settle, and the budget.
ghost use Rattle.std.specs.Prelude.{[], ◌≡◌, All, IfOk, List, false, map, option_map, true};
ghost use Rattle.pb_language.specs.Words.{Name};
ghost use Rattle.pb_language.specs.Program.{Program};
ghost use Rattle.pb_language.specs.Verdict.{flow_verdict, found_laters, offence_verdict};
ghost use Rattle.pb_language.specs.Verdict.{settled_verdict};
ghost use Rattle.pb_language.specs.Tables.{known_views, views_after};
ghost use Rattle.pb_inventory.specs.Words.{inventory_view};
ghost use Rattle.pb_lattice.specs.Words.{IsAscending, names_of};
ghost use Rattle.pb_walks.specs.Words.{ViewsAgree, plays_read_others};
ghost use Rattle.pb_others.specs.Words.{DifferIn, book_reads_theirs};
ghost use Rattle.pb_play.specs.Words.{play_view};
ghost use Rattle.pb_hosts.specs.Words.{views_view};
ghost use Rattle.pb_tables.specs.Ends.{AreShared};
ghost use Rattle.pb_tables.specs.Outcomes.{AlwaysNamesHandlers, ReadsAsWritten, ReadsNoMore};
ghost use Rattle.pb_tables.specs.Outcomes.{host_offence, outcome_verdict};
ghost use Rattle.pb_tables.specs.Rounds.{AreAfter};
ghost use Rattle.pb_tables.specs.Scenes.{AreScenes};
ghost use Rattle.pb_tables.specs.Tabled.{AreTables};

use crate::changed::changed_names;
use crate::laters::laters_of;
use crate::looks::firsts_of;
use crate::round::{Round, round_of};
use crate::scene::Scene;
use crate::table::{Stage, Tables};
use pb_alike::{alike_walks_give_the_same, hosts_walk_alike};
use pb_find::FaultAt;
use pb_hosts::{Views, groups_kind};
use pb_inventory::Inventory;
use pb_lattice::Environments;
use pb_others::read_round_is_last;
use pb_play::Play;
use pb_rules::reads_theirs;
use pb_walks::one_round_is_enough;
use std::alloc::{AllocError, Global};

// In so many rounds the kinds of hosts' variables are worked out.
const ROUNDS: usize = 4;

/// A fault of a host at a line.
#[derive(Drop)]
pub struct HostFault {
    /// The host's name.
    pub host: String,
    pub fault: FaultAt,
}

/// What the ways of all hosts come to.
#[derive(Drop)]
pub struct Outcome<'i> {
    /// The least line, then the first host, then the least code.
    pub fault: Option<HostFault>,
    /// Each write is below what the last round says that others see.
    pub is_settled: bool,
    /// The most module calls.
    pub calls: u64,
    /// What hosts' variables look like to others, by the last round.
    pub views: Views<'i>,
}

/// What the texts of plays read of hosts.
#[derive(Clone, Copy)]
pub enum Reads<'p> {
    /// Perhaps other hosts, or who is active, as these plays do.
    Others(&'p [Play]),
    /// No other host and not who is active.
    Own,
    /// Nor the name of their own host.
    Nameless,
}

/// What the ways of all hosts through all plays come to, in four rounds of the kinds that hosts see
/// of each other, or until a round changes nothing that some text reads of another host; in one
/// alone where it is said that no text reads another host or who is active, which follows one of
/// the hosts that look alike where it is said that none reads the host's name. The names are those
/// of all variables.
///
/// # Errors
///
/// Want of memory, also where a name that is known or written isn't among the names.
pub fn outcome_of<'i>(
    alloc: Global,
    inventory: &'i Inventory,
    scenes: &[Scene<'i>],
    names: Vec<String>,
    reads: Reads<'_>,
) -> Result<Outcome<'i>, AllocError>
    requires ascending { IsAscending (names_of names.items) }
    requires scenes { All (λ s. s.cast.inventory.now ≡ inventory.now) scenes.now }
    ensures inventory { IfOk result (λ o. o.views.inventory ≡ inventory.entry) }
    ensures verdict { IfOk result (λ o. (ps : Program)
        → AreScenes inventory.entry.now ps scenes.now
        → AlwaysNamesHandlers (inventory_view inventory.entry.now) ps → ReadsNoMore reads.entry ps
        → outcome_verdict o ≡ flow_verdict ps (inventory_view inventory.entry.now)) }
    ensures views { IfOk result (λ o. (ps : Program)
        → AreScenes inventory.entry.now ps scenes.now → ReadsNoMore reads.entry ps
        → ViewsAgree (views_view o.views) (views_after 4 (inventory_view inventory.entry.now) ps
        (found_laters ps (inventory_view inventory.entry.now)))) }
{
    hosts_walk_alike();
    alike_walks_give_the_same();
    let groups = groups_kind(alloc, inventory)?;
    let (known, shared) = Views::of(alloc, inventory)?;
    let space = Environments::new(alloc, copies(alloc, &names)?)?;
    let stage = Stage {
        inventory,
        scenes,
        known: &known,
        firsts: &shared,
        groups: &groups,
        names: &names,
    };
    let views = known.copy(alloc)?;
    match reads {
        Reads::Others(plays) => {
            let (laters, space) = laters_of(alloc, &stage, space)?;
            last_round(alloc, &stage, plays, Tables { views, laters }, space)
        }
        Reads::Own => only_round(alloc, &stage, views, &[], space),
        Reads::Nameless => {
            let firsts = firsts_of(alloc, &stage)?;
            only_round(alloc, &stage, views, &firsts, space)
        }
    }
}

// What the round comes to that changes nothing that some text reads of another host, or the one
// after the last.
fn last_round<'i>(
    alloc: Global,
    stage: &Stage<'i, '_>,
    plays: &[Play],
    tables: Tables<'i>,
    space: Environments,
) -> Result<Outcome<'i>, AllocError>
    requires inventory { tables.views.inventory ≡ stage.now.inventory }
    requires tables { AreTables stage.now tables }
    requires names { space.names ≡ names_of stage.now.names.now }
    requires first { (ps : Program) → AreScenes stage.now.inventory.now ps stage.now.scenes.now
        → AreAfter 0 stage.now tables ps }
    ensures inventory { IfOk result (λ o. o.views.inventory ≡ stage.now.inventory) }
    ensures verdict { IfOk result (λ o. (ps : Program)
        → AreScenes stage.now.inventory.now ps stage.now.scenes.now
        → AlwaysNamesHandlers (inventory_view stage.now.inventory.now) ps
        → ReadsAsWritten plays.now ps
        → outcome_verdict o ≡ flow_verdict ps (inventory_view stage.now.inventory.now)) }
    ensures views { IfOk result (λ o. (ps : Program)
        → AreScenes stage.now.inventory.now ps stage.now.scenes.now
        → ReadsAsWritten plays.now ps
        → ViewsAgree (views_view o.views) (views_after 4
        (inventory_view stage.now.inventory.now) ps
        (found_laters ps (inventory_view stage.now.inventory.now)))) }
{
    read_round_is_last();
    let mut tables = tables;
    let mut space = space;
    for _round in 0..ROUNDS {
        let (round, emptied) = round_of(alloc, stage, &tables, &[], space)?;
        if round.is_same {
            return Ok(outcome_in(round, tables));
        }
        if !reads_changed(alloc, plays, &tables.views, &round.next)? {
            return Ok(outcome_after(round));
        }
        space = emptied;
        tables = tables_after(round, tables);
    }
    let (round, _) = round_of(alloc, stage, &tables, &[], space)?;
    Ok(outcome_in(round, tables))
}

// Whether some text reads a variable of another host of which the two tables don't say the same.
fn reads_changed(
    alloc: Global,
    plays: &[Play],
    before: &Views<'_>,
    after: &Views<'_>,
) -> Result<bool, AllocError>
    requires { after.now.inventory ≡ before.now.inventory }
    ensures { IfOk result (λ b. b ≡ false → (ns : List Name)
        × (book_reads_theirs ns (map play_view plays.now) ≡ false)
        × DifferIn ns (views_view before.now) (views_view after.now)) }
{
    let names = changed_names(alloc, before, after)?;
    reads_theirs(alloc, plays, &names)
}

// What one round comes to, from what the inventory says: where no text reads another host, no
// round after it finds anything else, and each write is below what others see then. A host isn't
// followed where an earlier one stands for it.
fn only_round<'i>(
    alloc: Global,
    stage: &Stage<'i, '_>,
    views: Views<'i>,
    firsts: &[usize],
    space: Environments,
) -> Result<Outcome<'i>, AllocError>
    requires inventory { views.inventory ≡ stage.now.inventory }
    requires views { views_view views
        ≡ known_views (inventory_view stage.now.inventory.now).hosts }
    requires names { space.names ≡ names_of stage.now.names.now }
    ensures inventory { IfOk result (λ o. o.views.inventory ≡ stage.now.inventory) }
    ensures verdict { IfOk result (λ o. (ps : Program)
        → AreScenes stage.now.inventory.now ps stage.now.scenes.now
        → AlwaysNamesHandlers (inventory_view stage.now.inventory.now) ps
        → plays_read_others ps ≡ false
        → AreShared (inventory_view stage.now.inventory.now) ps (views_view views.entry) []
        firsts.now
        → outcome_verdict o ≡ flow_verdict ps (inventory_view stage.now.inventory.now)) }
    ensures views { IfOk result (λ o. (ps : Program)
        → AreScenes stage.now.inventory.now ps stage.now.scenes.now
        → plays_read_others ps ≡ false
        → AreShared (inventory_view stage.now.inventory.now) ps (views_view views.entry) []
        firsts.now
        → ViewsAgree (views_view o.views) (views_after 4
        (inventory_view stage.now.inventory.now) ps
        (found_laters ps (inventory_view stage.now.inventory.now)))) }
{
    one_round_is_enough();
    let laters = Vec::new(alloc);
    let tables = Tables { views, laters };
    let (round, _) = round_of(alloc, stage, &tables, firsts, space)?;
    Ok(outcome_after(round))
}

// What is found in a round, with what others see in it.
fn outcome_in<'i>(round: Round<'i>, tables: Tables<'i>) -> Outcome<'i>
    ensures verdict { outcome_verdict result ≡ offence_verdict
        (option_map host_offence round.entry.fault)
        (settled_verdict round.entry.is_settled round.entry.calls) }
    ensures views { result.views ≡ tables.entry.views }
{
    Outcome {
        fault: round.fault,
        is_settled: round.is_settled,
        calls: round.calls,
        views: tables.views,
    }
}

// What is found in the round that is the last, with what others see after it, below which each
// write is.
fn outcome_after<'i>(round: Round<'i>) -> Outcome<'i>
    ensures verdict { outcome_verdict result ≡ offence_verdict
        (option_map host_offence round.entry.fault) (settled_verdict true round.entry.calls) }
    ensures views { result.views ≡ round.entry.next }
{
    Outcome {
        fault: round.fault,
        is_settled: true,
        calls: round.calls,
        views: round.next,
    }
}

// The tables of the round after that one.
fn tables_after<'i>(round: Round<'i>, tables: Tables<'i>) -> Tables<'i>
    ensures views { result.views ≡ round.entry.next }
    ensures laters { result.laters ≡ tables.entry.laters }
{
    Tables {
        views: round.next,
        laters: tables.laters,
    }
}

// Copies of the names, for the environments.
fn copies(alloc: Global, names: &[String]) -> Result<Vec<String>, AllocError>
    ensures { IfOk result (λ v. names_of v.items ≡ names_of names.now) }
{
    let mut copies = Vec::with_capacity(alloc, names.len())?;
    for name in names {
        copies.push(name.clone()?)?;
    }
    Ok(copies)
}
