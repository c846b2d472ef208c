// Variables in slots: the law, on a function that does nothing.
ghost use Rattle.pb_facts.specs.Words.{VariablesArePut, VariablesAreRead};

/// Let a host's variables be a record, with the values of slots put over it, each under its name.
/// Then a variable is read from its slot, and setting a slot puts its variable.
pub fn slots_are_variables()
    ensures read { VariablesAreRead }
    ensures put { VariablesArePut }
{}
