// The law of rules, on a function that does nothing.
ghost use Rattle.pb_rules.specs.Rules.{FirstIsTold};

/// What the rules say of a book one by one, each at its first line, is the first line that breaks
/// some rule, with the first such rule in the order of `Rule`.
pub fn first_is_told()
    ensures { FirstIsTold }
{}
