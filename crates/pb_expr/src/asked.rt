// What was asked of names of `vars`, so that the tree of each is asked once where the same is
// taught.
ghost use Rattle.std.specs.Prelude.{◌≡◌, IfOk, IfSome, OnOk, Some, string_bytes, suc};
ghost use Rattle.pb_language.specs.Expression.{Expression};
ghost use Rattle.pb_language.specs.Scope.{Scope};
ghost use Rattle.pb_syntax.specs.Aliases.{Trees};
ghost use Rattle.pb_taught.specs.Before.{Before};
ghost use Rattle.pb_expr.specs.Found.{AreRight, IsFound, IsFoundOf, IsRight};
ghost use Rattle.pb_taught.specs.TaughtView.{scope_view};

use pb_forms::inferred::{Inferred, found_copied};
use pb_taught::known::Known;
use pb_taught::scope::Taught;
use std::alloc::{AllocError, Global};
use std::cell::Cell;
use std::collections::BTreeMap;

// A chain leads through at most so many names of `vars`.
const MOST_NAMES: usize = 8;

// So many trees of names of `vars` are asked for one expression; past them it is want of memory,
// since each test may ask all of them anew.
const MOST_TURNS: usize = 65_536;

// What an expression is asked against.
#[derive(Drop)]
pub(crate) struct Inquiry<'k, K: Known> {
    pub known: &'k K,
    // How many names of `vars` a chain may lead through from here.
    pub chain: usize,
    // How many trees may still be asked.
    pub turns: &'k Cell<usize>,
}

impl<'k, K: Known> Inquiry<'k, K> {
    // What the tree of a name is asked against; want of memory where the chain would be too long.
    pub(crate) fn deeper(&self) -> Result<Inquiry<'k, K>, AllocError>
        ensures known { IfOk result (λ i. i.known ≡ self.now.known) }
        ensures chain { IfOk result (λ i. suc i.chain ≡ self.now.chain) }
    {
        if self.chain == 0 {
            return Err(AllocError);
        }
        self.turn()?;
        Ok(Inquiry {
            known: self.known,
            chain: self.chain - 1,
            turns: self.turns,
        })
    }

    // One turn more; want of memory where none is left.
    fn turn(&self) -> Result<(), AllocError> {
        let turns = self.turns.get();
        if turns == 0 {
            return Err(AllocError);
        }
        self.turns.set(turns - 1);
        Ok(())
    }
}

pub(crate) fn inquiry_of<'k, K: Known>(known: &'k K, turns: &'k Cell<usize>) -> Inquiry<'k, K>
    ensures { result.known.now ≡ known.now }
{
    Inquiry {
        known,
        chain: MOST_NAMES,
        turns,
    }
}

pub(crate) fn all_turns() -> Cell<usize> {
    Cell::new(MOST_TURNS)
}

// What was found of the trees of names of `vars`.
#[derive(Drop)]
pub(crate) struct Asked {
    pub found: BTreeMap<String, Inferred>,
}

impl Asked {
    pub(crate) fn nothing(alloc: Global) -> Asked
        ensures { (c : Scope) (f : Trees) → AreRight c f result.found.entries }
    {
        Asked {
            found: BTreeMap::new(alloc),
        }
    }

    // A copy that shares what lies inside.
    pub(crate) fn copy(&self, alloc: Global) -> Result<Asked, AllocError>
        ensures { IfOk result (λ a. (c : Scope) (f : Trees)
            → AreRight c f self.now.found.entries → AreRight c f a.found.entries) }
    {
        let mut found = BTreeMap::new(alloc);
        for (name, inferred) in self.found.iter() {
            let copy = found_copied(inferred)?;
            drop(found.insert(name.clone()?, copy)?);
        }
        Ok(Asked { found })
    }

    pub(crate) fn find(&self, name: &str) -> Option<&Inferred>
        ensures { (c : Scope) (f : Trees) → AreRight c f self.now.found.entries
            → IfSome result (λ i. IsFoundOf c (f name.now) i.now) }
    {
        self.found.get(name)
    }

    pub(crate) fn put(&mut self, name: &String, found: &Inferred) -> Result<(), AllocError>
        ensures { OnOk result ((c : Scope) (f : Trees) → AreRight c f self.old.found.entries
            → IsFoundOf c (f (string_bytes name.now)) found.now
            → AreRight c f self.new.found.entries) }
    {
        let copy = found_copied(found)?;
        drop(self.found.insert(name.clone()?, copy)?);
        Ok(())
    }
}

// What is taught at a place of a chain, and what was asked there.
#[derive(Drop)]
pub(crate) struct Here {
    pub taught: Taught,
    pub asked: Asked,
}

impl Here {
    pub(crate) fn copy(alloc: Global, taught: &Taught, asked: &Asked) -> Result<Here, AllocError>
        ensures taught { IfOk result
            (λ h. (b : Before) → scope_view b h.taught ≡ scope_view b taught.now) }
        ensures right { IfOk result
            (λ h. (b : Before) → IsRight b taught.now asked.now → IsRight b h.taught h.asked) }
    {
        let taught = taught.copy(alloc)?;
        let asked = asked.copy(alloc)?;
        Ok(Here { taught, asked })
    }
}

// What is taught and was asked where a test was true, and where it was false.
#[derive(Drop)]
pub(crate) struct Ways {
    pub holds: Here,
    pub fails: Here,
}

// Of the other answer.
pub(crate) fn turned(ways: Ways) -> Ways
    ensures { result ≡ record { holds = ways.fails; fails = ways.holds } }
{
    let Ways { holds, fails } = ways;
    Ways {
        holds: fails,
        fails: holds,
    }
}

// Where more was taught, of which nothing was asked yet.
pub(crate) fn here_anew(alloc: Global, taught: Taught) -> Here
    ensures taught { result.taught ≡ taught }
    ensures right { (b : Before) → IsRight b result.taught result.asked }
{
    Here {
        taught,
        asked: Asked::nothing(alloc),
    }
}
