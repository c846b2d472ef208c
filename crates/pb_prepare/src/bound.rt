// Copies of what a task evaluates, whose paths look at the slots of their variables.
ghost use Rattle.std.specs.Prelude.{◌≡◌, IfOk, OnOk, map, option_map, true};
ghost use Rattle.pb_language.specs.Plays.{action_of, append_expressions, conditions_of};
ghost use Rattle.pb_language.specs.Expansion.{part_named};
ghost use Rattle.pb_reads.specs.Round.{conditions_round};
ghost use Rattle.pb_route.specs.Station.{lone_registry};
ghost use Rattle.pb_start.specs.Words.{action_view};
ghost use Rattle.pb_syntax.specs.Aliases.{Trees};
ghost use Rattle.pb_syntax.specs.Words.{expr_view, exprs_view, parts_view};
ghost use Rattle.pb_task.specs.Words.{asserted_view, attempts_view, task_view};
ghost use Rattle.pb_template.specs.Words.{are_ascending, entries_view, entry_names};
ghost use Rattle.pb_vars.specs.Borrowed.{borrowed_view};
ghost use Rattle.pb_prepare.specs.Order.{has_order};

use pb_flow::Around;
use pb_slots::SlotsInScope;
use pb_start::Action;
use pb_syntax::Expr;
use pb_task::{Asserted, Attempts, Task, Work};
use pb_template::{Entry, value_named};
use std::alloc::{AllocError, Global};
use std::collections::BTreeMap;

// Makes copies whose paths look at these slots.
#[derive(Drop)]
pub(crate) struct Bound<'s, 'p> {
    pub(crate) alloc: Global,
    pub(crate) seen: SlotsInScope<'s, 'p>,
}

impl Bound<'_, '_> {
    // The names with their values.
    pub(crate) fn names(&self, entries: &[&Entry]) -> Result<Vec<(String, Expr)>, AllocError>
        ensures { IfOk result (λ ns. parts_view ns.items ≡ borrowed_view entries.now) }
    {
        let mut names = Vec::with_capacity(self.alloc, entries.len())?;
        for entry in entries {
            let name = String::from_str(self.alloc, entry.name.as_str())?;
            let value = entry.value.bind(self.alloc, &self.seen)?;
            names.push((name, value))?;
        }
        Ok(names)
    }

    // The conditions of the blocks round a task, the outermost first, and its own.
    pub(crate) fn conditions(
        &self,
        around: &Around<'_>,
        when: &[Expr],
    ) -> Result<Vec<Expr>, AllocError>
        ensures { IfOk result (λ es. exprs_view es.items
            ≡ append_expressions (conditions_round around.now) (exprs_view when.now)) }
    {
        let mut all = Vec::new(self.alloc);
        for head in &around.blocks {
            self.put_all(&head.when, &mut all)?;
        }
        self.put_all(when, &mut all)?;
        Ok(all)
    }

    fn put_all(&self, exprs: &[Expr], all: &mut Vec<Expr>) -> Result<(), AllocError>
        ensures { OnOk result (exprs_view all.new.items
            ≡ append_expressions (exprs_view all.old.items) (exprs_view exprs.now)) }
    {
        for expr in exprs {
            let bound = expr.bind(self.alloc, &self.seen)?;
            all.push(bound)?;
        }
        Ok(())
    }

    fn all(&self, exprs: &[Expr]) -> Result<Vec<Expr>, AllocError>
        ensures { IfOk result (λ es. exprs_view es.items ≡ exprs_view exprs.now) }
    {
        let mut all = Vec::with_capacity(self.alloc, exprs.len())?;
        self.put_all(exprs, &mut all)?;
        Ok(all)
    }

    pub(crate) fn list(&self, exprs: &Option<Vec<Expr>>) -> Result<Option<Vec<Expr>>, AllocError>
        ensures { IfOk result (λ o. option_map (λ es. exprs_view es.items) o
            ≡ option_map (λ es. exprs_view es.items) exprs.now) }
    {
        match exprs {
            Some(exprs) => Ok(Some(self.all(exprs)?)),
            None => Ok(None),
        }
    }

    pub(crate) fn option(&self, expr: Option<&Expr>) -> Result<Option<Expr>, AllocError>
        ensures { IfOk result (λ o. option_map expr_view o
            ≡ option_map (λ e. expr_view e.now) expr.entry) }
    {
        match expr {
            Some(expr) => Ok(Some(expr.bind(self.alloc, &self.seen)?)),
            None => Ok(None),
        }
    }

    pub(crate) fn attempts(
        &self,
        attempts: &Option<Attempts>,
    ) -> Result<Option<Attempts>, AllocError>
        ensures { IfOk result
            (λ o. option_map attempts_view o ≡ option_map attempts_view attempts.now) }
    {
        match attempts {
            Some(attempts) => Ok(Some(Attempts {
                until: self.all(&attempts.until)?,
                retries: attempts.retries,
            })),
            None => Ok(None),
        }
    }

    // What the task does.
    pub(crate) fn action(&self, task: &Task) -> Result<Action, AllocError>
        ensures { IfOk result (λ a. (f : Trees)
            → has_order (action_of (lone_registry task.now.work) f (task_view task.now).work) ≡ true
            → action_view f a
            ≡ action_of (lone_registry task.now.work) f (task_view task.now).work) }
    {
        match &task.work {
            Work::Module(module) => {
                let arguments = self.arguments(&task.arguments)?;
                let module = module.clone()?;
                Ok(Action::Call { module, arguments })
            }
            Work::Debug => Ok(Action::Debug(self.named(task, "msg")?)),
            Work::SetFact => Ok(Action::SetFact(self.arguments(&task.arguments)?)),
            Work::Assert(asserted) => {
                let conditions = self.asserted(asserted)?;
                let message = self.named(task, "fail_msg")?;
                Ok(Action::Assert {
                    conditions,
                    message,
                })
            }
            Work::Fail => Ok(Action::Fail(self.named(task, "msg")?)),
        }
    }

    // The argument of that name, where it is given.
    fn named(&self, task: &Task, name: &str) -> Result<Option<Expr>, AllocError>
        ensures { IfOk result (λ o. option_map expr_view o
            ≡ part_named name.now (entries_view task.now.arguments.items)) }
    {
        self.option(value_named(&task.arguments, name))
    }

    fn asserted(&self, asserted: &Asserted) -> Result<Vec<Expr>, AllocError>
        ensures { IfOk result (λ es. exprs_view es.items
            ≡ conditions_of (asserted_view asserted.now)) }
    {
        match asserted {
            Asserted::Conditions(conditions) => self.all(conditions),
            Asserted::NotGiven | Asserted::Malformed => Ok(Vec::new(self.alloc)),
        }
    }

    // The arguments by their names, where they stand in the order of these.
    fn arguments(&self, entries: &[Entry]) -> Result<BTreeMap<String, Expr>, AllocError>
        ensures { IfOk result (λ m. are_ascending (entry_names entries.now) ≡ true
            → parts_view m.entries ≡ entries_view entries.now) }
    {
        let mut arguments = BTreeMap::new(self.alloc);
        for entry in entries {
            let name = String::from_str(self.alloc, entry.name.as_str())?;
            let value = entry.value.bind(self.alloc, &self.seen)?;
            drop(arguments.insert(name, value)?);
        }
        Ok(arguments)
    }
}
