// Environments with steps, of a table whose names stay.
ghost use Rattle.std.specs.Prelude.{◌≡◌, IfOk, map};

use pb_lattice::environment::{self, Environment, Environments};
use pb_lattice::{Lattice, Steps};
use std::alloc::{AllocError, Global};
use std::marker::PhantomData;

/// An environment of a table, to which such steps are done. What it means has the names of the
/// table, so that whatever keeps its meaning keeps them.
#[derive(Clone, Copy)]
pub struct Tabled<S: Steps> {
    pub at: Environment,
    steps: PhantomData<S>,
}

impl<S: Steps> Tabled<S> {
    /// That environment.
    pub fn of(at: Environment) -> Tabled<S>
        ensures { result.at ≡ at }
    {
        Tabled {
            at,
            steps: PhantomData,
        }
    }
}

/// The environments of values.
pub fn environments_of<S: Steps>(
    alloc: Global,
    values: &[Tabled<S>],
) -> Result<Vec<Environment>, AllocError>
    ensures { IfOk result (λ es. es.items ≡ map (λ v. v.at) values.now) }
{
    let mut environments = Vec::with_capacity(alloc, values.len())?;
    for value in values {
        environments.push(value.at)?;
    }
    Ok(environments)
}

/// They are in the order of what is known there, name by name, and one to which no way leads is the
/// lowest.
impl<S: Steps> Lattice for Tabled<S> {
    ghost use Rattle.pb_language.specs.Ordered.{ExitLe};
    ghost use Rattle.pb_language.specs.Wells.{WellExit};
    ghost use Rattle.pb_lattice.specs.Words.{Stands};
    ghost use Rattle.pb_way.specs.Tabled.{Known, known_in};

    type Space = Environments;

    type Step = S;

    ghost Meaning = { Known };

    ghost meaning = { λ s e. known_in s e.at };

    ghost stands = { λ s e. Stands s e.at };

    ghost well = { λ k. WellExit k.exit };

    ghost below = { λ k m. ExitLe k.exit m.exit };

    ghost same = { λ k m. ExitLe k.exit m.exit × ExitLe m.exit k.exit };

    ghost carried = { λ s k. record k { exit = S.carried s k.exit } };

    fn bottom(_space: &Environments) -> Tabled<S> {
        Tabled::of(Environment::dead())
    }

    fn join(
        &self,
        alloc: Global,
        other: &Tabled<S>,
        space: &mut Environments,
    ) -> Result<Tabled<S>, AllocError> {
        let at = environment::join(alloc, space, self.at, other.at)?;
        Ok(Tabled::of(at))
    }

    fn le(&self, other: &Tabled<S>, space: &Environments) -> bool {
        environment::is_below(space, self.at, other.at)
    }

    fn stands_well() {}

    fn below_itself() {}

    fn below_through() {}

    fn same_both_ways() {}
}
