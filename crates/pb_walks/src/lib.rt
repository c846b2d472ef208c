// The laws of walks that agree: the same tasks are visited, in environments that are below each
// other. Each stands on a function that does nothing.
#![tactic(auto)]

ghost use Rattle.pb_walks.specs.Alone.{BooksReadAlone, OneRoundIsEnough};
ghost use Rattle.pb_walks.specs.Laws.{AllWalkedAgree, KnownViewsAgree, LatersOfAgree};
ghost use Rattle.pb_walks.specs.Laws.{NextViewsAgree, RoundsSettle, SameBudget, SameOffence};
ghost use Rattle.pb_walks.specs.Laws.{SameSettled, ValuesAreVisits, VerdictIsWalked, WalksGoUp};
ghost use Rattle.pb_walks.specs.Notified.{AgreeingNameHandlers, RuledNameHandlers};

/// A walk goes up with where it begins, and with what hosts' variables look like to others.
pub fn walks_go_up()
    ensures { WalksGoUp }
{}

/// Values that are below those of a walk at each node, and above them, have visits that agree with
/// the walk's, also with those of a walk that begins where as much is known.
pub fn values_are_visits()
    ensures { ValuesAreVisits }
{}

/// The first offence, the budget and whether the kinds are settled are the same of walks that
/// agree.
pub fn same_verdicts()
    ensures offence { SameOffence }
    ensures budget { SameBudget }
    ensures settled { SameSettled }
{}

/// What is then known of hosts' variables, and of their later places, agrees.
pub fn tables_agree()
    ensures views { NextViewsAgree }
    ensures laters { LatersOfAgree }
{}

/// All walks under tables that agree do so too, and the inventory's table agrees with itself.
pub fn walks_agree()
    ensures known { KnownViewsAgree }
    ensures walked { AllWalkedAgree }
{}

/// A round of the tables that changes nothing is the last that does.
pub fn rounds_settle()
    ensures { RoundsSettle }
{}

/// The verdict on all ways is that of any walks that agree with those under the fourth table.
pub fn verdict_is_walked()
    ensures { VerdictIsWalked }
{}

/// Wherever a host of a book comes that keeps the rules, each text that a task notifies names a
/// handler; so it is in walks that agree with those.
pub fn handlers_are_named()
    ensures ruled { RuledNameHandlers }
    ensures agreeing { AgreeingNameHandlers }
{}

/// Where no text of a book reads another host or who is active, no task of its plays does.
pub fn books_read_alone()
    ensures { BooksReadAlone }
{}

/// Where no text reads another host or who is active, one round from what the inventory says comes
/// to the verdict, whatever hosts have at their later places.
pub fn one_round_is_enough()
    ensures { OneRoundIsEnough }
{}
