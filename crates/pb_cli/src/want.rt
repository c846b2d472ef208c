// What wasn't there where the program comes to nothing.
ghost use Rattle.std.specs.Prelude.{◌≡◌};
ghost use Rattle.pb_cli.specs.Texts.{want_line};

use std::alloc::AllocError;

/// What wasn't there.
#[derive(Clone, Copy)]
pub enum Want {
    Memory,
    Thread,
}

impl From<AllocError> for Want {
    ghost use Rattle.std.specs.Prelude.{◌≡◌};
    ghost use Rattle.pb_cli.specs.declared.want.Want.TheVariants.{Memory};

    ghost from_gives = { λ _ w. w ≡ Memory };

    fn from(_: AllocError) -> Want {
        Want::Memory
    }
}

impl Want {
    /// The line that says so, with its line feed.
    pub fn text(self) -> &'static str
        ensures { result.now ≡ want_line self }
    {
        match self {
            Want::Memory => "playcheck: want of memory\n",
            Want::Thread => "playcheck: no thread\n",
        }
    }
}
