// The machine of a run with the history of its events.
ghost use Rattle.std.specs.Prelude.{◌<◌, ◌≡◌, false, length, vec_capacity};

use crate::event::Event;
use pb_jobs::Machine;

/// The machine of a run with the history of its events. Contracts say of which runs it is the
/// state.
#[derive(Drop)]
pub struct RecordedMachine<'c> {
    pub(crate) machine: Machine<'c>,
    pub(crate) history: Vec<Event>,
    pub(crate) is_stopped: bool,
    /// There is room for one Stop.
    ghost room: { is_stopped ≡ false → length history.items < vec_capacity history },
}
