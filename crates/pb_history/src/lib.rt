// Runs and their histories: what a run has to do next, which jobs are out, how many calls each host
// was given, and the laws of a run that goes on by one event. Each law stands on a function that
// does nothing.
#![tactic(auto)]

ghost use Rattle.pb_history.specs.Laws.{GivesComeTo, GivesNotify, NextMayStart};
ghost use Rattle.pb_history.specs.Laws.{StartsArePlanned, TurnsAreDue};

/// The host that starts next stands before a task, and its Start may happen. Where that isn't stuck
/// the task comes to passes.
pub fn starts_are_planned()
    ensures next { NextMayStart }
    ensures planned { StartsArePlanned }
{}

/// Where a Give isn't stuck its answers come to results, and those that end the task notify
/// handlers.
pub fn gives_come_to_results()
    ensures results { GivesComeTo }
    ensures handlers { GivesNotify }
{}

/// The Turns of which each is enabled, and behind which none is, are those that are due.
pub fn turns_are_due()
    ensures { TurnsAreDue }
{}
