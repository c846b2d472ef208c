// Where a host begins its play, and where it stood before.
ghost use Rattle.std.specs.Prelude.{◌≡◌};
ghost use Rattle.pb_position.specs.Positions.{handlers_of};

use pb_position::Position;

/// Where a host begins its play.
#[derive(Drop)]
pub struct Entry {
    pub host: usize,
    pub position: Position,
    /// How many handlers the play has.
    pub handlers: usize,
    /// The place of the first task, where there is one.
    pub place: Option<usize>,
    ghost room: { handlers_of position ≡ handlers },
}

/// Where a host stood before it began a play.
#[derive(Drop)]
pub struct Former {
    pub host: usize,
    pub position: Position,
    /// How many handlers the play had.
    pub handlers: usize,
    ghost room: { handlers_of position ≡ handlers },
}
