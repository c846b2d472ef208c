// The laws of plays whose texts don't read some variables of other hosts: where only these change,
// all walks stay as they are. Each stands on a function that does nothing.
#![tactic(auto)]

ghost use Rattle.pb_others.specs.Laws.{BooksReadTheirs, ReadRoundIsLast};

/// Where no text of a book reads one of some variables of another host, no task of its plays does.
pub fn books_read_theirs()
    ensures { BooksReadTheirs }
{}

/// A round of the tables is the last where no text reads a variable of another host that it
/// changes.
pub fn read_round_is_last()
    ensures { ReadRoundIsLast }
{}
