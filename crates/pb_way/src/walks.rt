// What is known of a host's variables at each node of a play.
ghost use Rattle.std.specs.Prelude.{◌≡◌, ◌+◌, All, IfOk, length, slice_index_or, vec_len};
ghost use Rattle.pb_language.specs.Task.{Row};
ghost use Rattle.pb_lattice.specs.Words.{IsKept, Stands, exit_of};
ghost use Rattle.pb_route.specs.Routes.{ArePathsOf};
ghost use Rattle.pb_way.specs.Walks.{IsWalk};

use crate::moves::{Move, Moves};
use crate::tabled::{Tabled, environments_of};
use pb_flow::laws::solution_is_walk;
use pb_lattice::{Environment, Environments, solve};
use pb_outlook::Outlook;
use pb_route::laws::nodes_are_visits;
use pb_route::route::Route;
use pb_walks::values_are_visits;
use std::alloc::{AllocError, Global};

/// What is known of a host's variables at each node of a play, from its start, where that is the
/// entry, to its end: the least that covers the entry and every edge. So it is the walk of the
/// play's row.
///
/// # Errors
///
/// Want of memory, also where the table isn't over a name that a task writes.
pub fn walk<O: Outlook>(
    alloc: Global,
    route: &Route<'_>,
    outlook: &O,
    entry: Environment,
    space: &mut Environments,
) -> Result<Vec<Environment>, AllocError>
    requires stands { Stands space.old entry }
    ensures kept { IsKept space.old space.new }
    ensures number { IfOk result (λ vs. vec_len vs ≡ length route.now.stations + 2) }
    ensures stands { IfOk result (λ vs. All (Stands space.new) vs.items) }
    ensures walks { IfOk result (λ vs. (row : Row) → ArePathsOf row route.now
        → IsWalk (O.setting outlook.now) row (exit_of space.old entry)
        (λ n. exit_of space.new (slice_index_or vs.items n entry))) }
{
    O::views_are_well();
    solution_is_walk();
    values_are_visits();
    nodes_are_visits();
    let moves = Moves { route, outlook };
    let start: Tabled<Move<'_, '_, O>> = Tabled::of(entry);
    let values = solve(alloc, route.graph(), &moves, start, space)?;
    environments_of(alloc, &values)
}
