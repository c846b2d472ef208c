// The results of tasks that do the same in one manner, worked out once.
ghost use Rattle.std.specs.Prelude.{◌≡◌, IfOk, IfSome, option_map, true};
ghost use Rattle.pb_kind.specs.Words.{kind_view};
ghost use Rattle.pb_language.specs.Cases.{action_name, answered_cases};
ghost use Rattle.pb_language.specs.Expression.{no_parts};
ghost use Rattle.pb_language.specs.Task.{Task, call_of};
ghost use Rattle.pb_sig.specs.Words.{known_view};
ghost use Rattle.pb_judgement.specs.Ends.{Does};
ghost use Rattle.pb_judgement.specs.Results.{AreAlike, AreResults};

use crate::ends::{Ends, Manner, ends_of};
use crate::own::{Own, own_of};
use pb_kind::Kind;
use pb_kind::same::is_same;
use pb_sig::{Known, Module};
use pb_task::Work;
use std::alloc::{AllocError, Global};
use std::marker::Model;

// How many are kept.
const MOST_KEPT: usize = 64;

/// Of which kinds the results of a task are.
#[derive(Drop)]
pub struct Results {
    pub ends: Ends,
    pub own: Own,
}

// Those of each task that does the work, in that manner.
#[derive(Drop)]
pub(crate) struct Made<'p> {
    work: &'p Work,
    manner: Manner,
    results: Results,
}

/// The results that were worked out, of which each further task that does the same in the same
/// manner has copies, which share what lies inside.
#[derive(Drop)]
pub struct SharedResults<'p> {
    made: Vec<Made<'p>>,
}

impl<'p> Model for SharedResults<'p> {
    ghost use Rattle.std.specs.Prelude.{All, List};
    ghost use Rattle.std.specs.Coded.{codes};
    ghost use Rattle.pb_kind.specs.contracts.kind.Kind as kind;
    ghost use Rattle.pb_value.specs.contracts.value.Value as value;
    ghost use Rattle.pb_syntax.specs.contracts.expr.Expr as expr;
    ghost use Rattle.pb_judgement.specs.declared.results.Made.{Made};

    ghost Value = { List Made };

    ghost coded = { Prim.hlevel (
      codes,
      kind.the_row.coded,
      value.the_row.coded,
      expr.the_row.coded,
    ) };

    ghost use Rattle.pb_judgement.specs.Results.{IsMade};

    ghost view = { λ w. w.made.items };

    ghost invariant = { λ w. All IsMade w.made.items };
}

impl<'p> SharedResults<'p> {
    /// Of no task yet.
    pub fn nothing(alloc: Global) -> SharedResults<'p> {
        SharedResults {
            made: Vec::new(alloc),
        }
    }

    /// The results of a task that does this work, in that manner, and what is kept from then on.
    ///
    /// # Errors
    ///
    /// Want of memory.
    pub fn results_of(
        self,
        alloc: Global,
        work: &'p Work,
        manner: Manner,
    ) -> Result<(Results, SharedResults<'p>), AllocError>
        ensures { IfOk result (λ r. AreResults work.now manner r.0) }
    {
        if let Some(results) = self.found(work, manner) {
            let copy = results.copy()?;
            return Ok((copy, self));
        }
        let results = worked_out(alloc, work, manner)?;
        if self.made.len() >= MOST_KEPT {
            return Ok((results, self));
        }
        let copy = results.copy()?;
        let shared = self.with(work, manner, copy)?;
        Ok((results, shared))
    }

    // Those of a task that does the same in the same manner.
    fn found(&self, work: &Work, manner: Manner) -> Option<&Results>
        ensures { IfSome result (λ r. AreResults work.now manner r.now) }
    {
        for made in &self.made {
            if made.manner == manner && do_the_same(made.work, work) {
                return Some(&made.results);
            }
        }
        None
    }

    fn with(
        self,
        work: &'p Work,
        manner: Manner,
        results: Results,
    ) -> Result<SharedResults<'p>, AllocError>
        requires { AreResults work.now manner results }
    {
        let mut made = self.made;
        made.push(Made {
            work,
            manner,
            results,
        })?;
        Ok(SharedResults { made })
    }
}

impl Results {
    // They share what lies inside.
    fn copy(&self) -> Result<Results, AllocError>
        ensures { IfOk result (λ r. AreAlike r self.now) }
    {
        let ends = Ends {
            going: copy_of(&self.ends.going)?,
            failing: copy_of(&self.ends.failing)?,
            all: self.ends.all.clone()?,
        };
        let own = Own {
            answered: self.own.answered.clone()?,
            judged: self.own.judged.clone()?,
        };
        Ok(Results { ends, own })
    }
}

/// The kind once more, where there is one; it shares what lies inside.
///
/// # Errors
///
/// Want of memory.
pub fn copy_of(kind: &Option<Kind>) -> Result<Option<Kind>, AllocError>
    ensures { IfOk result (λ o. option_map kind_view o ≡ option_map kind_view kind.now) }
{
    match kind {
        Some(kind) => Ok(Some(kind.clone()?)),
        None => Ok(None),
    }
}

fn worked_out(alloc: Global, work: &Work, manner: Manner) -> Result<Results, AllocError>
    ensures { IfOk result (λ r. AreResults work.now manner r) }
{
    let ends = ends_of(alloc, work, manner)?;
    let own = own_of(alloc, work, manner)?;
    Ok(Results { ends, own })
}

// Whether a task that does the second does the first, as far as its results go.
fn do_the_same(first: &Work, second: &Work) -> bool
    ensures { result ≡ true → (t : Task) → Does second.now t → Does first.now t }
{
    match (first, second) {
        (Work::Module(one), Work::Module(other)) => answer_the_same(one, other),
        (Work::Debug, Work::Debug) => true,
        (Work::SetFact, Work::SetFact) => true,
        (Work::Assert(_), Work::Assert(_)) => true,
        (Work::Fail, Work::Fail) => true,
        _ => false,
    }
}

// Whether calls of both modules have the same results.
fn answer_the_same(one: &Known, other: &Known) -> bool
    ensures name { result ≡ true → (known_view one.now).name ≡ (known_view other.now).name }
    ensures cases { result ≡ true → answered_cases (call_of (known_view one.now) no_parts)
        ≡ answered_cases (call_of (known_view other.now) no_parts) }
{
    one.name() == other.name()
        && is_same(one.ok_shape(), other.ok_shape())
        && is_same(one.fail_shape(), other.fail_shape())
}
