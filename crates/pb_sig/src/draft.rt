// A module as a file describes it.
ghost use Rattle.std.specs.Prelude.{◌&&◌, ◌≡◌, true};
ghost use Rattle.pb_language.specs.Cases.{are_plain};
ghost use Rattle.pb_kind.specs.Words.{slots_view};

use crate::signature::Parameter;
use pb_kind::Slots;

// A module as a file describes it, of which no more is known than that its shapes hold no result
// and have each name once.
#[derive(Drop)]
pub(crate) struct Draft {
    pub(crate) name: String,
    pub(crate) parameters: Vec<Parameter>,
    pub(crate) ok: Slots,
    pub(crate) failure: Slots,
    ghost plain: { are_plain (slots_view ok.entries) && are_plain (slots_view failure.entries)
        ≡ true },
}
