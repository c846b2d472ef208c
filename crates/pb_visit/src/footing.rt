// What is found of the parts of a task on its ground.
ghost use Rattle.std.specs.Prelude.{◌≡◌, Bool, IfOk, Some, map, option_map, true};
ghost use Rattle.pb_language.specs.Book.{Registry};
ghost use Rattle.pb_language.specs.Expansion.{all_expanded, expanded, parts_expanded, trees};
ghost use Rattle.pb_language.specs.Expression.{no_expressions};
ghost use Rattle.pb_language.specs.Judgement.{keyword_fault, loop_fault};
ghost use Rattle.pb_language.specs.Narrow.{narrow_each};
ghost use Rattle.pb_language.specs.Plays.{action_of, append_expressions, expanded_list};
ghost use Rattle.pb_language.specs.Words.{action_fault, conditions_fault, kind_of, parts_set};
ghost use Rattle.pb_lattice.specs.Words.{exit_of};
ghost use Rattle.pb_kind.specs.Words.{kind_view};
ghost use Rattle.pb_syntax.specs.Words.{expr_view, exprs_view};
ghost use Rattle.pb_task.specs.Words.{Resolves, work_view};
ghost use Rattle.pb_template.specs.Words.{entries_view};
ghost use Rattle.pb_forms.specs.Words.{fault_view};
ghost use Rattle.pb_taught.specs.Words.{scope_view, untaught};
ghost use Rattle.pb_fit.specs.Words.{sets_view as found_view};
ghost use Rattle.pb_flow.specs.Nodes.{conditions_after as conditions_round};
ghost use Rattle.pb_visit.specs.Footing.{before_on, end_on, footing, item_on, loop_on};

use pb_expr::{Inferred, Known, Taught, Unfit};
use pb_fit::{Held, Set, action_unfit, conditions_after, keyword_unfit, loop_of, sets_of};
use pb_flow::Around;
use pb_kind::Kind;
use pb_outlook::{Ground, Outlook, Standing, item_of, own_result};
use pb_syntax::Expr;
use pb_task::Task;
use std::alloc::{AllocError, Global};

// The kind of a loop over that, and its fault.
pub(crate) fn loop_found<O: Outlook>(
    alloc: Global,
    list: &Expr,
    ground: &Ground<'_, O>,
) -> Result<Inferred, AllocError>
    ensures kind { let g = ground.now in let f = footing (O.setting g.outlook.now) g.vars.now
        (exit_of g.space.now g.at) g.place g.depth in
        IfOk result (λ i. kind_view i.kind
        ≡ kind_of (loop_on f) (expanded (trees f.vars) (expr_view list.now))) }
    ensures fault { let g = ground.now in let f = footing (O.setting g.outlook.now) g.vars.now
        (exit_of g.space.now g.at) g.place g.depth in
        IfOk result (λ i. option_map fault_view i.unfit
        ≡ loop_fault (loop_on f) (Some (expanded (trees f.vars) (expr_view list.now)))) }
{
    let start = Standing {
        ground,
        item: None,
        result: None,
        is_start: true,
    };
    loop_of(alloc, list, &start, &Taught::nothing(alloc))
}

// What is found of the conditions of the blocks round a task, and then of its own.
fn conditions_found<K: Known>(
    alloc: Global,
    task: &Task,
    around: &Around<'_>,
    known: &K,
) -> Result<Held, AllocError>
    ensures fault { let b = K.before known.now in
        IfOk result (λ h. option_map fault_view h.unfit ≡ conditions_fault (untaught b.scope)
        (all_expanded b.trees (append_expressions
        (conditions_round no_expressions (map (λ b. b.now) around.now.blocks.items))
        (exprs_view task.now.when.items)))) }
    ensures taught { let b = K.before known.now in
        IfOk result (λ h. scope_view b h.taught ≡ narrow_each (untaught b.scope)
        (all_expanded b.trees (append_expressions
        (conditions_round no_expressions (map (λ b. b.now) around.now.blocks.items))
        (exprs_view task.now.when.items))) true) }
{
    let mut held = Held {
        unfit: None,
        taught: Taught::nothing(alloc),
    };
    for block in &around.blocks {
        held = conditions_after(alloc, held, &block.when, known)?;
    }
    conditions_after(alloc, held, &task.when, known)
}

// What is found of them where each item is of a loop over that kind.
pub(crate) fn item_conditions<O: Outlook>(
    alloc: Global,
    task: &Task,
    around: &Around<'_>,
    ground: &Ground<'_, O>,
    over: Option<&Kind>,
) -> Result<Held, AllocError>
    ensures fault { let g = ground.now in let f = footing (O.setting g.outlook.now) g.vars.now
        (exit_of g.space.now g.at) g.place g.depth in
        IfOk result (λ h. option_map fault_view h.unfit
        ≡ conditions_fault (item_on f (option_map (λ k. kind_view k.now) over.entry))
        (all_expanded (trees f.vars) (append_expressions
        (conditions_round no_expressions (map (λ b. b.now) around.now.blocks.items))
        (exprs_view task.now.when.items)))) }
    ensures taught { let g = ground.now in let f = footing (O.setting g.outlook.now) g.vars.now
        (exit_of g.space.now g.at) g.place g.depth in
        let k = option_map (λ k. kind_view k.now) over.entry in
        IfOk result (λ h. scope_view (before_on f k) h.taught ≡ narrow_each (item_on f k)
        (all_expanded (trees f.vars) (append_expressions
        (conditions_round no_expressions (map (λ b. b.now) around.now.blocks.items))
        (exprs_view task.now.when.items))) true) }
{
    let item = item_of(over)?;
    let start = Standing {
        ground,
        item,
        result: None,
        is_start: true,
    };
    conditions_found(alloc, task, around, &start)
}

// The first fault of what the task does, where tests have taught that of an item.
pub(crate) fn action_found<O: Outlook>(
    alloc: Global,
    task: &Task,
    ground: &Ground<'_, O>,
    over: Option<&Kind>,
    taught: &Taught,
) -> Result<Option<Unfit>, AllocError>
    ensures { let g = ground.now in let f = footing (O.setting g.outlook.now) g.vars.now
        (exit_of g.space.now g.at) g.place g.depth in
        let b = before_on f (option_map (λ k. kind_view k.now) over.entry) in
        IfOk result (λ u. (ms : Registry) → Resolves ms task.now.work
        → option_map fault_view u ≡ action_fault (scope_view b taught.now) (action_of ms
        (trees f.vars) (work_view task.now.work (entries_view task.now.arguments.items)))) }
{
    let item = item_of(over)?;
    let start = Standing {
        ground,
        item,
        result: None,
        is_start: true,
    };
    action_unfit(alloc, &task.work, &task.arguments, &start, taught)
}

// The names that a `set_fact` sets there.
pub(crate) fn sets_found<O: Outlook>(
    alloc: Global,
    task: &Task,
    ground: &Ground<'_, O>,
    over: Option<&Kind>,
    taught: &Taught,
) -> Result<Vec<Set>, AllocError>
    ensures { let g = ground.now in let f = footing (O.setting g.outlook.now) g.vars.now
        (exit_of g.space.now g.at) g.place g.depth in
        let b = before_on f (option_map (λ k. kind_view k.now) over.entry) in
        IfOk result (λ v. (a : Bool) → found_view a v.items
        ≡ parts_set (scope_view b taught.now) a
        (parts_expanded (trees f.vars) (entries_view task.now.arguments.items))) }
{
    let item = item_of(over)?;
    let start = Standing {
        ground,
        item,
        result: None,
        is_start: true,
    };
    sets_of(alloc, &task.arguments, &start, taught)
}

// The first fault of conditions that judge a result of that kind, where it is registered.
pub(crate) fn keyword_found<'g, O: Outlook>(
    alloc: Global,
    conditions: Option<&[Expr]>,
    ground: &'g Ground<'_, O>,
    over: Option<&Kind>,
    register: Option<&'g str>,
    kind: &Kind,
) -> Result<Option<Unfit>, AllocError>
    ensures { let g = ground.now in let f = footing (O.setting g.outlook.now) g.vars.now
        (exit_of g.space.now g.at) g.place g.depth in
        IfOk result (λ u. option_map fault_view u
        ≡ keyword_fault (end_on f (option_map (λ k. kind_view k.now) over.entry)
        (option_map (λ n. n.now) register.entry) (kind_view kind.now))
        (expanded_list (trees f.vars) (option_map (λ es. exprs_view es.now) conditions.entry))) }
{
    let item = item_of(over)?;
    let result = own_result(register, kind)?;
    let end = Standing {
        ground,
        item,
        result,
        is_start: false,
    };
    keyword_unfit(alloc, conditions, &end)
}
