// The plays so far have at most 8,192 steps (V13).
ghost use Rattle.std.specs.Prelude.{◌≡◌, None, map, option_map};
ghost use Rattle.pb_language.specs.Rules.{too_many_steps};
ghost use Rattle.pb_play.specs.Words.{play_view};
ghost use Rattle.pb_rules.specs.Rules.{past_steps};

use pb_flow::{MOST_STEPS, steps_of};
use pb_play::Play;

// The line of the first play up to whose end there are more.
pub(crate) fn line_past_steps(plays: &[Play]) -> Option<u32>
    ensures { option_map past_steps result ≡ too_many_steps 0 (map play_view plays.now) }
{
    let mut steps = 0;
    for play in plays {
        steps += steps_of(play);
        if steps > MOST_STEPS {
            return Some(play.line);
        }
    }
    None
}
