// What goes along the edges of a play on a host's way.
use crate::tabled::Tabled;
use pb_lattice::{Environments, Steps, Transfer};
use pb_outlook::Outlook;
use pb_route::route::Route;
use pb_transfer::laws::what_is_led_goes_up;
use pb_visit::led;
use std::alloc::{AllocError, Global};

/// A host's ways along the edges of a play.
#[derive(Clone, Copy)]
pub struct Moves<'s, 'p, O: Outlook> {
    pub route: &'s Route<'p>,
    /// What the host sees beside its own variables.
    pub outlook: &'s O,
}

/// The way along one edge.
#[derive(Clone, Copy)]
pub struct Move<'s, 'p, O: Outlook> {
    pub moves: Moves<'s, 'p, O>,
    pub edge: usize,
}

impl<'s, 'p, O: Outlook> Steps for Move<'s, 'p, O> {
    ghost use Rattle.pb_route.specs.Routes.{path_step};

    ghost carried = { λ m.
        path_step (O.setting m.moves.outlook.now) m.moves.route.now m.edge };
}

impl<'s, 'p, O: Outlook> Transfer<Tabled<Move<'s, 'p, O>>> for Moves<'s, 'p, O> {
    ghost use Rattle.std.specs.Prelude.{length};

    ghost edges = { λ m. length m.route.now.graph.edges };

    ghost step = { λ m e. record { moves = m; edge = e } };

    fn along(
        &self,
        alloc: Global,
        edge: usize,
        at: &Tabled<Move<'s, 'p, O>>,
        space: &mut Environments,
    ) -> Result<Tabled<Move<'s, 'p, O>>, AllocError> {
        O::views_are_well();
        what_is_led_goes_up();
        let source = self.route.graph().edges()[edge].source;
        if source == 0 {
            return Ok(Tabled::of(at.at));
        }
        let way = self.route.ways()[edge];
        let station = &self.route.stations()[source - 1];
        let after = led(alloc, station, self.outlook, way, at.at, space)?;
        Ok(Tabled::of(after))
    }

    fn goes_up() {
        O::views_are_well();
        what_is_led_goes_up();
    }

    fn stays_well() {
        O::views_are_well();
        what_is_led_goes_up();
    }
}
