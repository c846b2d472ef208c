// Environments with steps are a lattice.
ghost use Rattle.std.specs.Prelude.{◌≡◌, ◌↔◌, IfOk, IsTrue};
ghost use Rattle.pb_language.specs.Judgement.{Exit};
ghost use Rattle.pb_language.specs.Ordered.{ExitLe};
ghost use Rattle.pb_language.specs.Wells.{WellExit};
ghost use Rattle.pb_lattice.specs.Environments.{Stands, exit_of};
ghost use Rattle.pb_lattice.specs.Space.{Extends};

use crate::environment::{self, Environment, Environments};
use crate::lattice::Lattice;
use std::alloc::{AllocError, Global};
use std::marker::PhantomData;

/// What may be done to what is known.
pub trait Steps {
    /// What the step makes of it.
    ghost carried: { Self → Exit → Exit };
}

/// An environment to which such steps are done.
#[derive(Clone, Copy)]
pub struct Flowing<S: Steps> {
    pub at: Environment,
    steps: PhantomData<S>,
}

impl<S: Steps> Flowing<S> {
    /// That environment.
    pub fn of(at: Environment) -> Flowing<S>
        ensures { result.at ≡ at }
    {
        Flowing {
            at,
            steps: PhantomData,
        }
    }
}

/// Environments of one table are in the order of what is known there, name by name, and one to
/// which no way leads is the lowest. Two come to the same where each is at most the other.
impl<S: Steps> Lattice for Flowing<S> {
    type Space = Environments;

    type Step = S;

    ghost Meaning = { Exit };

    ghost meaning = { λ s e. exit_of s e.at };

    ghost stands = { λ s e. Stands s e.at };

    ghost well = { WellExit };

    ghost below = { ExitLe };

    ghost same = { λ e f. ExitLe e f × ExitLe f e };

    ghost carried = { S.carried };

    fn bottom(_space: &Environments) -> Flowing<S> {
        Flowing::of(Environment::dead())
    }

    fn join(
        &self,
        alloc: Global,
        other: &Flowing<S>,
        space: &mut Environments,
    ) -> Result<Flowing<S>, AllocError> {
        let at = environment::join(alloc, space, self.at, other.at)?;
        Ok(Flowing::of(at))
    }

    fn le(&self, other: &Flowing<S>, space: &Environments) -> bool {
        environment::is_below(space, self.at, other.at)
    }

    fn stands_well() {}

    fn below_itself() {}

    fn below_through() {}

    fn same_both_ways() {}
}
