// The law of readings, on a function that does nothing.
ghost use Rattle.pb_machine.specs.Run.{FlatState};
ghost use Rattle.pb_core.specs.Readings.{Agree, Reading};
ghost use Rattle.pb_core.specs.Cores.{IsCore};
ghost use Rattle.pb_core.specs.declared.run.RunCore.{RunCore};

/// Of which states a core is says no more of a reading than what it reads.
pub fn readings_agree<P>()
    ensures { (a b : Reading P) → Agree a b → (c : RunCore P) (s : FlatState) → IsCore a c s
        → IsCore b c s }
{}
