// Plays as flat plans, and the machine that runs them by the numbers of their nodes: the laws that
// these are pb_language's rows and machine. Each stands on a function that does nothing.
#![tactic(auto)]

ghost use Rattle.pb_machine.specs.Joins.{StepsHaveTasks, StepsJoin};
ghost use Rattle.pb_machine.specs.Laws.{ArrivalSettles, BeginIsPlain, EndArrives, NodeArrives};
ghost use Rattle.pb_machine.specs.Laws.{NodesAreSteps, PlanIsRow, StepsLeadAlongLinks};
ghost use Rattle.pb_machine.specs.Laws.{StepsLeadOn};
ghost use Rattle.pb_machine.specs.Rows.{AlwaysTargets, FlushesPass, ForcedRun, ForcedTargets};
ghost use Rattle.pb_machine.specs.Rows.{NestedTargets, OuterRescuesGetTexts, RescuesGetTexts};
ghost use Rattle.pb_machine.specs.Simulation.{AfterSettles, BeginSettles, SameEnabled, SameHistory};
ghost use Rattle.pb_machine.specs.Simulation.{SameNext, SameRun, SameStep};

/// The steps of a play are as many as its nodes, and lead along the edges between them.
pub fn steps_lead_along_links()
    ensures { StepsLeadAlongLinks }
{}

/// Each step leads to higher nodes or out of the play, and a host that begins a play goes there
/// with no move.
pub fn steps_lead_on()
    ensures on { StepsLeadOn }
    ensures begin { BeginIsPlain }
{}

/// A host that begins a play has its row to do, and one at a node the task there, and then what
/// there is to do where the step leads.
pub fn plan_is_row()
    ensures begin { PlanIsRow }
    ensures nodes { NodesAreSteps }
{}

/// At any target, at the begin of a play and after a task, a host arrives where pb_language's
/// machine has it; whether it stops at a node is said by the step there.
pub fn arrival_settles()
    ensures arrival { ArrivalSettles }
    ensures begin { BeginSettles }
    ensures after { AfterSettles }
    ensures node { NodeArrives }
    ensures end { EndArrives }
{}

/// In each state, and for each event, the two machines do the same: so their runs are the same, and
/// their histories.
pub fn runs_are_same()
    ensures enabled { SameEnabled }
    ensures step { SameStep }
    ensures next { SameNext }
    ensures run { SameRun }
    ensures history { SameHistory }
{}

/// The steps of two rows, one after the other, are those of each; and they have the rows' tasks.
pub fn steps_join()
    ensures join { StepsJoin }
    ensures tasks { StepsHaveTasks }
{}

/// Where the nodes of blocks and of a section with forced handlers lead; which handlers a flush
/// passes over, and which run when they are forced; and which failure's text a rescue gets.
pub fn rows()
    ensures nested { NestedTargets }
    ensures always { AlwaysTargets }
    ensures forced { ForcedTargets }
    ensures passes { FlushesPass }
    ensures run { ForcedRun }
    ensures texts { RescuesGetTexts × OuterRescuesGetTexts }
{}
