// The words for kinds and faults.
ghost use Rattle.std.specs.Prelude.{◌≡◌};
ghost use Rattle.pb_kind.specs.Words.{kind_view};
ghost use Rattle.pb_forms.specs.Words.{fault_view};
ghost use Rattle.pb_probe.specs.Said.{fault_said, sort_said};

use pb_expr::Unfit;
use pb_kind::Kind;

/// The sort of a kind.
pub fn sort_word(kind: &Kind) -> &'static str
    ensures { result.now ≡ sort_said (kind_view kind.now) }
{
    match kind {
        Kind::Never => "never",
        Kind::Null => "null",
        Kind::Bool => "bool",
        Kind::Int => "int",
        Kind::Text => "text",
        Kind::Host(_) => "host",
        Kind::List(_, _) => "list",
        Kind::Rec(_) => "record",
        Kind::Result(_, _) => "result",
        Kind::Any => "any",
    }
}

/// The name of a fault.
pub fn fault_word(unfit: Unfit) -> &'static str
    ensures { result.now ≡ fault_said (fault_view unfit) }
{
    match unfit {
        Unfit::Undefined => "undefined",
        Unfit::UndefinedThere => "undefined_there",
        Unfit::MissingField => "missing_field",
        Unfit::WrongKind => "wrong_kind",
        Unfit::UnknownName => "unknown_name",
    }
}
