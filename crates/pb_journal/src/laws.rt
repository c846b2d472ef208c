// Laws of journals, on functions that do nothing.
ghost use Rattle.pb_journal.specs.Laws.{FirstEventsHappen, LooksAtWhatIsSaid};

/// Where each of some events can happen in its turn, so can each of the first of them: a run that
/// is made anew by what a crash left of its journal has just these events.
pub fn first_events_happen()
    ensures { FirstEventsHappen }
{}

/// A run that is made anew looks at nothing of an event but what its line says.
pub fn looks_at_what_is_said()
    ensures { LooksAtWhatIsSaid }
{}
