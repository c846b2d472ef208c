// The laws of the definitions, each on a function that does nothing.
ghost use Rattle.pb_language.specs.Derivations.{DerivedAreTrees, TreesAreDerived};
ghost use Rattle.pb_language.specs.Evaluates.{DerivedAreOutcomes, OutcomesAreDerived};
ghost use Rattle.pb_language.specs.FlushOrder.{AcceptedRepeats, AskingRepeats, FlushAsks};
ghost use Rattle.pb_language.specs.FlushOrder.{HandlersAreNumbered, OrderNotifiesLater};
ghost use Rattle.pb_language.specs.FlushOrder.{RepeatingAsks};
ghost use Rattle.pb_language.specs.GiveRules.{AskedOnce, DerivedAreNotified, DerivedAreResults};
ghost use Rattle.pb_language.specs.GiveRules.{GiveAsksAgain, GiveSettles, NotifiedAreDerived};
ghost use Rattle.pb_language.specs.GiveRules.{ResultsAreDerived, StuckGiveMarks};
ghost use Rattle.pb_language.specs.Knows.{FitHasValue, KindsAreWell, TestTeaches, ValueKeepsKind};
ghost use Rattle.pb_language.specs.OwnReads.{GivesReadTheirStart, SameAtGive, SameOutcomes};
ghost use Rattle.pb_language.specs.OwnReads.{SameResults};
ghost use Rattle.pb_language.specs.Printed.{DocumentsAreReadBack};
ghost use Rattle.pb_language.specs.StartRules.{DerivedArePlans, PlansAreDerived, StartHandsOut};
ghost use Rattle.pb_language.specs.StartRules.{StuckStartMarks};
ghost use Rattle.pb_language.specs.Theorem.{LatersHold, NeverStuck, Progress, ShortHistory};
ghost use Rattle.pb_language.specs.Theorem.{WithinBudget};
ghost use Rattle.pb_language.specs.Unwinding.{UnwindingWalks};

/// An expression that is fit has a value in each world that knows the scope, and the value is of
/// the expression's kind.
pub fn fit_has_value()
    ensures { FitHasValue }
{}

/// A value of an expression is of the expression's kind, whether the expression is fit or not.
pub fn value_keeps_kind()
    ensures { ValueKeepsKind }
{}

/// What a test teaches is so in each world in which it has that answer.
pub fn test_teaches()
    ensures { TestTeaches }
{}

/// The kind of an expression is well formed where the kinds of the scope are.
pub fn kinds_are_well()
    ensures { KindsAreWell }
{}

/// Whatever happens, in whatever order and with whatever answers: no step of an accepted book is
/// stuck.
pub fn never_stuck()
    ensures { NeverStuck }
{}

/// And the calls that were handed out are at most the budget.
pub fn within_budget()
    ensures { WithinBudget }
{}

/// The rules by which blocks unwind, said of a row and the blocks open round it, walk the tree of
/// ways that a run follows.
pub fn unwinding_walks()
    ensures { UnwindingWalks }
{}

/// With at least one fork, a run that hasn't ended, isn't stopped and has no job out can go on: a
/// host can start its task, or the run can turn to the next batch or to its end.
pub fn progress()
    ensures { Progress }
{}

/// Few events of a run of an accepted book are enabled: for each host of a batch and each place of
/// its play one Start and a Give for each attempt, one for each batch, and one Stop.
pub fn short_history()
    ensures { ShortHistory }
{}

/// What a first walk says of later places is so in the walk with each table of kinds: it never
/// keeps a book from being accepted.
pub fn laters_hold()
    ensures { LatersHold }
{}

/// A text has a tree exactly where the grammar derives one, and it is that one.
pub fn derivations_are_read()
    ensures derived { TreesAreDerived }
    ensures read { DerivedAreTrees }
{}

/// An expression has a value, or is stuck and why, exactly as the rules of the forms say.
pub fn evaluation_is_derived()
    ensures derived { OutcomesAreDerived }
    ensures read { DerivedAreOutcomes }
{}

/// What a Start evaluates comes to calls, or is stuck and why, exactly as the rules say. The
/// machine's step hands out these calls, or marks the state and changes nothing else.
pub fn start_is_derived()
    ensures derived { PlansAreDerived }
    ensures read { DerivedArePlans }
    ensures stuck { StuckStartMarks }
    ensures fine { StartHandsOut }
{}

/// What the keywords of a Give come to is results, or why it is stuck, exactly as the rules say;
/// and so are the handlers that it notifies.
pub fn give_is_derived()
    ensures derived { ResultsAreDerived }
    ensures read { DerivedAreResults }
    ensures handlers_derived { NotifiedAreDerived }
    ensures handlers_read { DerivedAreNotified }
{}

/// The machine's Give does what these come to: it hands out the same calls again, ends the task
/// with its results and handlers, or marks the state, and changes nothing else. A task without
/// `until` never asks again.
pub fn give_is_stepped()
    ensures stuck { StuckGiveMarks }
    ensures again { GiveAsksAgain }
    ensures fine { GiveSettles }
    ensures once { AskedOnce }
{}

/// What reads no other host and not who is active, as V09 asks it of `changed_when`, `failed_when`
/// and `until`, comes to the same at each Give as at the Start. So it is in every run of an
/// accepted book, whatever happens to other hosts in between.
pub fn give_reads_its_start()
    ensures outcomes { SameOutcomes }
    ensures results { SameResults }
    ensures worlds { SameAtGive }
    ensures accepted { GivesReadTheirStart }
{}

/// A flush asks its handlers one after the other, each once. Where none notifies itself or an
/// earlier one, as V12 asks it, this is the first notified handler, then the same flush. So it is
/// at every flush of an accepted book.
pub fn flush_is_repeated()
    ensures machine { FlushAsks }
    ensures numbered { HandlersAreNumbered }
    ensures later { OrderNotifiesLater }
    ensures asks { AskingRepeats }
    ensures repeats { RepeatingAsks }
    ensures accepted { AcceptedRepeats }
{}

/// What an inventory says, its groups, their hosts, variables and children, and the variables of
/// hosts, is read back from the plainest form in which it is printed.
pub fn documents_are_read_back()
    ensures { DocumentsAreReadBack }
{}
