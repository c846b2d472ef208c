// The laws of what files of signatures say, each on a function that does nothing.
ghost use Rattle.pb_sig.specs.Printed.{ModulesAreReadBack};

/// A module, with its parameters and both its shapes, is read back from the plainest form in which
/// it is printed.
pub fn modules_are_read_back()
    ensures { ModulesAreReadBack }
{}
