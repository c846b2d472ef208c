// Where a position is in the book.
ghost use Rattle.std.specs.Prelude.{◌≡◌};
ghost use Rattle.pb_core.specs.Hosts.{IsPlaceAt, are_below};

use pb_position::{Location, Position};
use pb_steps::Step;

// The place of the task where the position is, where it is at one.
pub(crate) fn place_at(position: &Position, steps: &[Step]) -> Option<usize>
    ensures { IsPlaceAt steps.now position.now result }
{
    let Location::Node(node) = position.location() else {
        return None;
    };
    let index = (node as usize).saturating_sub(1);
    if index >= steps.len() {
        return Some(0);
    }
    Some(steps[index].place as usize)
}

// Whether each of the numbers is lower.
pub(crate) fn are_below(numbers: &[usize], bound: usize) -> bool
    ensures { result ≡ are_below bound numbers.now }
{
    for number in numbers {
        if *number >= bound {
            return false;
        }
    }
    true
}
