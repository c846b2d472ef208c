// The laws of nodes and visits, each on a function that does nothing.
ghost use Rattle.pb_route.specs.Visited.{NodesAreVisits};

/// The visits of a row are its nodes' tasks, each with what is known there.
pub fn nodes_are_visits()
    ensures { NodesAreVisits }
{}
