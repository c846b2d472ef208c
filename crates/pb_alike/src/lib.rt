// The laws of hosts that look alike to plays: they are walked alike. Each stands on a function that
// does nothing.
#![tactic(auto)]

ghost use Rattle.pb_alike.specs.Laws.{AlikeCalls, AlikeNameHandlers, AlikeOffence, AlikeSettled};
ghost use Rattle.pb_alike.specs.Laws.{AlikeWrites, WalkedAlike};
ghost use Rattle.pb_alike.specs.Named.{BooksReadNoName};

/// Where no text of a book reads the host's own name, no task of its plays does.
pub fn books_read_no_name()
    ensures { BooksReadNoName }
{}

/// In plays that read no other host and not the host's own name, hosts that look alike are walked
/// alike.
pub fn hosts_walk_alike()
    ensures { WalkedAlike }
{}

/// Walks that are alike have the same calls, the same first offence but for the host, the same
/// writes and answer to whether these are settled; their texts name handlers alike.
pub fn alike_walks_give_the_same()
    ensures calls { AlikeCalls }
    ensures offence { AlikeOffence }
    ensures writes { AlikeWrites }
    ensures settled { AlikeSettled }
    ensures handlers { AlikeNameHandlers }
{}
