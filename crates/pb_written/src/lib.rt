// What the task of a host at work writes, in every run: nothing but the variables that it registers
// or sets by its text. The law stands on a function that does nothing.
#![tactic(auto)]

ghost use Rattle.pb_written.specs.Laws.{WritesItsOwn};

/// Whatever has happened, and whatever a job's answers come to, the names that the task then writes
/// are among those that it registers or sets.
pub fn writes_its_own()
    ensures { WritesItsOwn }
{}
