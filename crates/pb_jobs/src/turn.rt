// How the machine of a run goes on to the next batch, and how it stops.
ghost use Rattle.std.specs.Prelude.{◌≡◌, IfErr, IfOk, None, OnErr, OnOk};
ghost use Rattle.pb_language.specs.Machine.{turn};
ghost use Rattle.pb_core.specs.Words.{IsDisabled, tickets_of};
ghost use Rattle.pb_jobs.specs.Machines.{CountsNone, IsBefore, IsSameBut, StopsAs, TurnsAllAs};
ghost use Rattle.pb_jobs.specs.Machines.{TurnsAs};

use crate::begin::know;
use crate::machine::Machine;
use pb_core::{CoreFault, Turned};

impl Machine<'_> {
    /// One Turn happens: the next batch begins, or the run ends.
    ///
    /// # Errors
    ///
    /// Want of memory; `NotThere` where the batch isn't over. Nothing has happened then.
    pub fn turn(&mut self) -> Result<(), CoreFault>
        ensures turns { OnOk result (TurnsAs self.old self.new) }
        ensures tickets { OnOk result (tickets_of self.new.core ≡ tickets_of self.old.core) }
        ensures counts { OnOk result (CountsNone self.old self.new) }
        ensures err { OnErr result (IsSameBut self.old self.new) }
        ensures there { IfErr result (λ e. e ≡ CoreFault.NotThere
            → IsDisabled turn self.old.core) }
        ensures full { IfErr result (λ e. e ≡ CoreFault.Full → ⊥) }
    {
        self.core.turn()?;
        know(&mut self.batch, None);
        Ok(())
    }

    /// All Turns that can happen now, one after the other.
    ///
    /// # Errors
    ///
    /// Want of memory; `NotThere` where the batch isn't over. Nothing has happened then.
    pub fn turn_all(&mut self) -> Result<Turned, CoreFault>
        ensures turns { IfOk result (λ t. TurnsAllAs t.turns self.old self.new) }
        ensures back { IfOk result (λ t. IsBefore t self.new self.old) }
        ensures err { OnErr result (IsSameBut self.old self.new) }
        ensures there { IfErr result (λ e. e ≡ CoreFault.NotThere
            → IsDisabled turn self.old.core) }
        ensures full { IfErr result (λ e. e ≡ CoreFault.Full → ⊥) }
    {
        let turned = self.core.turn_all()?;
        know(&mut self.batch, None);
        Ok(turned)
    }

    /// Those Turns, the last that happened, are taken back.
    pub fn turn_back(&mut self, turned: Turned)
        ensures back { IsBefore turned self.old self.new }
        ensures batch { self.new.batch ≡ None }
    {
        self.core.turn_back(turned);
        know(&mut self.batch, None);
    }

    /// Nothing is to happen any more.
    pub fn stop(&mut self)
        ensures stops { StopsAs self.old self.new }
        ensures tickets { tickets_of self.new.core ≡ tickets_of self.old.core }
        ensures counts { CountsNone self.old self.new }
    {
        self.core.stop();
    }
}
