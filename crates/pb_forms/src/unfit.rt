// Why an expression isn't fit.
ghost use Rattle.std.specs.Prelude.{◌≡◌, option_map};
ghost use Rattle.pb_language.specs.Fit.{asks, first};
ghost use Rattle.pb_forms.specs.FitView.{fault_view};

use thiserror::Error;

/// Why an expression isn't fit.
#[derive(Clone, Copy, PartialEq, Eq, Debug, Error)]
pub enum Unfit {
    /// A name that may hold nothing.
    #[error("a name that may hold nothing")]
    Undefined,
    /// A variable of another host that may hold nothing.
    #[error("a variable of another host that may hold nothing")]
    UndefinedThere,
    /// A field that may be missing.
    #[error("a field that may be missing")]
    MissingField,
    /// An operand of another kind than its form asks.
    #[error("an operand of another kind than its form asks")]
    WrongKind,
    /// A place of a group at which no host stands.
    #[error("a place of a group at which no host stands")]
    UnknownName,
}

/// The first of two faults.
pub fn first_of(one: Option<Unfit>, other: Option<Unfit>) -> Option<Unfit>
    ensures { option_map fault_view result
        ≡ first (option_map fault_view one) (option_map fault_view other) }
{
    match one {
        Some(unfit) => Some(unfit),
        None => other,
    }
}

/// That the fault is there, where what is asked isn't so.
pub fn asked_of(is_so: bool, unfit: Unfit) -> Option<Unfit>
    ensures { option_map fault_view result ≡ asks (fault_view unfit) is_so }
{
    if is_so { None } else { Some(unfit) }
}
