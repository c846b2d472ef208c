// A way of a host to a task.
ghost use Rattle.std.specs.Prelude.{◌≡◌, true};
ghost use Rattle.pb_lattice.specs.Words.{exit_of};
ghost use Rattle.pb_visit.specs.Footing.{footing, visit_footing};
ghost use Rattle.pb_route.specs.Station.{IsStation};
ghost use Rattle.pb_visit.specs.Visits.{IsReached};

use pb_lattice::{Environment, Environments};
use pb_outlook::{Ground, Outlook};
use pb_route::station::Station;

/// A way of a host to a task, by what is known of the host's variables there.
#[derive(Drop)]
pub struct Visit<'s, 'p> {
    pub station: &'s Station<'p>,
    /// The table in which what is known stands.
    pub space: &'s Environments,
    pub at: Environment,
}

impl<'s, 'p> Visit<'s, 'p> {
    // What is known there, for what the host sees beside.
    pub(crate) fn ground<'g, O: Outlook>(&'g self, outlook: &'g O) -> Ground<'g, O>
        requires station { IsStation self.now.station.now }
        requires reached { IsReached self.now }
        ensures { footing (O.setting result.outlook.now) result.vars.now
            (exit_of result.space.now result.at) result.place result.depth
            ≡ visit_footing (O.setting outlook.now) self.now }
    {
        Ground {
            outlook,
            vars: &self.station.vars,
            space: self.space,
            at: self.at,
            place: self.station.place,
            depth: self.station.around.depth,
        }
    }
}
