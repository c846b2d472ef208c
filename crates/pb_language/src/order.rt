// The laws of the order of environments and of the walk of a row, each on a function that does
// nothing.
ghost use Rattle.pb_language.specs.Links.{NumbersAreWalk, NumbersCover, TreesAreNumbered};
ghost use Rattle.pb_language.specs.Links.{TreesCover};
ghost use Rattle.pb_language.specs.Nodes.{LeastIsWalk, WalkCovers, WalkIsLeast, WalkVisits};
ghost use Rattle.pb_language.specs.Ordered.{ExitsGoUp, KindsGoUp, NarrowGoesUp};
ghost use Rattle.pb_language.specs.SameBelow.{SameFaults, SameTaskFaults, SameWritesBelow};
ghost use Rattle.pb_language.specs.SameBelow.{WritesGoUp};

/// Where less is known of variables, less is known of an expression: its kind goes up with the
/// scope.
pub fn kinds_go_up()
    ensures { KindsGoUp }
{}

/// What is known after a test goes up with what was known before it.
pub fn narrow_goes_up()
    ensures { NarrowGoesUp }
{}

/// What is known after a task, where it goes on and where it fails, goes up with what is known
/// before it and with what hosts' variables look like to others; and so does what the task writes.
pub fn exits_go_up()
    ensures { ExitsGoUp }
{}

/// What a host's variables look like to others goes up with itself and with what is written.
pub fn writes_go_up()
    ensures { WritesGoUp }
{}

/// An expression has the same fault, or none, in scopes that are below each other.
pub fn same_faults()
    ensures { SameFaults }
{}

/// A task has the same fault, or none, and a loop of the same length, in environments that are
/// below each other.
pub fn same_task_faults()
    ensures { SameTaskFaults }
{}

/// Whether all that is written is below what others see of it has one answer for those that are
/// below each other.
pub fn same_writes_below()
    ensures { SameWritesBelow }
{}

/// What the walk of a row knows at each task covers the entry and every edge.
pub fn walk_covers()
    ensures { WalkCovers }
{}

/// And it is below whatever covers them.
pub fn walk_is_least()
    ensures { WalkIsLeast }
{}

/// The least that covers and what the walk knows are below each other.
pub fn least_is_walk()
    ensures { LeastIsWalk }
{}

/// The walk visits the nodes in their order, each with what it knows there.
pub fn walk_visits()
    ensures { WalkVisits }
{}

/// What is assigned to the nodes by their numbers and covers each edge between them is a tree of
/// values that covers.
pub fn numbers_cover()
    ensures { NumbersCover }
{}

/// And a tree of values that covers is, by numbers, what covers each edge.
pub fn trees_cover()
    ensures { TreesCover }
{}

/// Each tree of values is that of its numbers.
pub fn trees_are_numbered()
    ensures { TreesAreNumbered }
{}

/// The least assignment to the numbered nodes that covers each edge, and what the walk knows, are
/// below each other.
pub fn numbers_are_walk()
    ensures { NumbersAreWalk }
{}
