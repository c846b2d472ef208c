// The laws of the definitions, each on a function that does nothing.
ghost use Rattle.pb_semantics.specs.Laws.{BelowItself, BelowThrough, JoinAbove, JoinLeast};
ghost use Rattle.pb_semantics.specs.Laws.{JoinWell, KeepsGoesUp, MeetModels, ProjectedKeeps};
ghost use Rattle.pb_semantics.specs.Laws.{ProjectedOfKept, SameBothWays};
ghost use Rattle.pb_semantics.specs.Rows.{Rows};

/// Worked rows: what the definitions say of some values and kinds.
pub fn rows()
    ensures { Rows }
{}

/// A value of a kind is one of each kind above it.
pub fn keeps_goes_up()
    ensures { KeepsGoesUp }
{}

/// A well formed kind is below itself.
pub fn below_itself()
    ensures { BelowItself }
{}

/// What is below a kind is below each kind above that one.
pub fn below_through()
    ensures { BelowThrough }
{}

/// Two kinds that are below each other have the same values.
pub fn same_both_ways()
    ensures { SameBothWays }
{}

/// The join of two well formed kinds is above both.
pub fn join_above()
    ensures { JoinAbove }
{}

/// The join of two well formed kinds is below each kind that is above both.
pub fn join_least()
    ensures { JoinLeast }
{}

/// The join of two well formed kinds is well formed.
pub fn join_well()
    ensures { JoinWell }
{}

/// The variables that one of two environments knows are known where the two meet.
pub fn meet_models()
    ensures { MeetModels }
{}

/// What a value is projected to is a value of the kind.
pub fn projected_keeps()
    ensures { ProjectedKeeps }
{}

/// A value of a kind with no results in it has a projection onto that kind.
pub fn projected_of_kept()
    ensures { ProjectedOfKept }
{}
