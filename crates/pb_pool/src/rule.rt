// What whoever opens a board picks: which runs it is opened with, and which answers it is given.

use std::marker::Brand;

/// Two predicates that a board keeps, whichever they are. A call that passes `Brand` picks them.
pub trait Rule {
    ghost use Rattle.std.specs.Prelude.{ℕ, List};
    ghost use Rattle.pb_verify.specs.declared.checked.Accepted.{Accepted};
    ghost use Rattle.pb_finish.specs.declared.answer.Answer.{Answer};
    ghost use Rattle.pb_run.specs.declared.event.Event.{Event};

    /// What was accepted, the fork count and the history when the board is opened.
    ghost of: { Accepted → ℕ → List Event → Type 0 };

    /// A job's ticket and host, and the answers to its calls.
    ghost told: { ℕ → ℕ → List Answer → Type 0 };
}

impl Rule for Brand {
    ghost of = { λ a f es. Unit {0} };

    ghost told = { λ t k xs. Unit {0} };
}
