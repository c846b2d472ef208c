// The laws of the nodes of a play, each on a function that does nothing.
ghost use Rattle.std.specs.Prelude.{◌≡◌, length};
ghost use Rattle.pb_language.specs.Book.{PlayData, Registry};
ghost use Rattle.pb_language.specs.Links.{size};
ghost use Rattle.pb_language.specs.Plays.{play_row};
ghost use Rattle.pb_language.specs.Sites.{steps_of};
ghost use Rattle.pb_language.specs.Task.{Row};
ghost use Rattle.pb_flow.specs.Flow.{AreRising, end_node, row_links, tasks_of};
ghost use Rattle.pb_flow.specs.Solved.{FlowsAreRows, FlowsCarryRows, SolutionIsWalk};
ghost use Rattle.pb_flow.specs.Solved.{NodesHaveLinks, NodesHaveTasks};

/// A play has as many nodes, without its start and its end, as the rule on steps counts.
pub fn steps_are_nodes()
    ensures { (ms : Registry) (p : PlayData) → size (play_row ms p) ≡ steps_of p }
{}

/// Each node has a task.
pub fn nodes_have_tasks()
    ensures { (row : Row) → length (tasks_of row) ≡ size row }
{}

/// Nodes that are the steps of a play have its tasks, and lead along its edges.
pub fn steps_have_tasks_and_links()
    ensures tasks { NodesHaveTasks }
    ensures links { NodesHaveLinks }
{}

/// Edges lead from a node to a higher one, and they stand in the order of their sources.
pub fn links_rise()
    ensures { (row : Row) → AreRising 1 (end_node row) (row_links row) }
{}

/// The least solution on the graph of a play, and what the walk of its row knows, are below each
/// other, at each node and at the end.
pub fn solution_is_walk()
    ensures { SolutionIsWalk }
{}

/// The edges of nodes that have the links of a row are the edges of the row's graph.
pub fn edges_are_those_of_the_row()
    ensures { FlowsAreRows }
{}

/// What goes along the edges of such nodes is what goes along those of the row.
pub fn edges_carry_what_the_row_does()
    ensures { FlowsCarryRows }
{}
