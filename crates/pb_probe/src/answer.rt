// What a question is answered with.
//
// A question is a record: `text`; `template`, true where it is one; `host`, the name of the one
// host; `known`, its variables with the values that are known of them; `registered`, variables with
// the modules whose results they are; `values`, what variables hold beside what is known; `set`, a
// list of records of a `name` and a `text`, facts that are set one after the other before the text
// is asked; `then`, an expression that is asked behind the text; `repeat`, how many times more than
// the once each step is done. Or it is a record of a text under `inventory`, which is told; or of a
// book under `plan` with its inventory under `hosts`, whose plan is told.
ghost use Rattle.std.specs.Prelude.{◌≡◌, cond};
ghost use Rattle.pb_semantics.specs.Words.{Gives};
ghost use Rattle.pb_language.specs.Words.{expression_of, template_of};
ghost use Rattle.pb_syntax.specs.ExprView.{expr_view};
ghost use Rattle.pb_syntax.specs.Trees.{no_tree};

use crate::inventory::told_of;
use crate::lines::line_for;
use crate::plan::plan_told;
use crate::question::{fields_at, flag_at, items_at, text_at};
use crate::records::{put, put_record, said};
use crate::repeat::repeat;
use crate::scene::Scene;
use crate::words::{fault_word, sort_word};
use pb_eval::eval::eval;
use pb_expr::narrow::narrow;
use pb_expr::{Expr, ExprFault, KindFault, Taught, kind_of, parse_expr, parse_template};
use pb_kind::Kind;
use pb_value::{Fields, Value};
use std::alloc::{AllocError, Global};

/// The line of the answer, without its end.
pub fn line_of(alloc: Global, question: &Value) -> Result<String, AllocError> {
    let answer = match question {
        Value::Rec(asked) => answer_of(alloc, asked)?,
        _ => said(alloc, "refused", "question")?,
    };
    line_for(alloc, &answer)
}

fn answer_of(alloc: Global, asked: &Fields) -> Result<Fields, AllocError> {
    if let Some(text) = text_at(asked, "inventory") {
        return told_of(alloc, text);
    }
    match text_at(asked, "plan") {
        Some(book) => plan_told(alloc, asked, book),
        None => expression_told(alloc, asked),
    }
}

fn expression_told(alloc: Global, asked: &Fields) -> Result<Fields, AllocError> {
    let Some(text) = text_at(asked, "text") else {
        return said(alloc, "refused", "question");
    };
    let mut scene = scene_of(alloc, asked)?;
    let facts = items_at(asked, "set").unwrap_or(&[]);
    if let Some(answer) = set_all(alloc, facts, &mut scene)? {
        return Ok(answer);
    }
    match tree_of(alloc, text, flag_at(asked, "template")) {
        Ok(expr) => {
            repeat(alloc, asked, text, &expr, &scene)?;
            answer_for(alloc, asked, &expr, &scene)
        }
        Err(fault) => refused(alloc, &fault),
    }
}

fn scene_of(alloc: Global, asked: &Fields) -> Result<Scene, AllocError> {
    let mut scene = Scene::new(alloc, text_at(asked, "host").unwrap_or(""))?;
    if let Some(values) = fields_at(asked, "known") {
        scene.know(alloc, values)?;
    }
    if let Some(modules) = fields_at(asked, "registered") {
        scene.register(alloc, modules)?;
    }
    if let Some(values) = fields_at(asked, "values") {
        scene.hold(values)?;
    }
    Ok(scene)
}

// Sets the facts one after the other; where one can't be set, the answer that says so.
fn set_all(
    alloc: Global,
    items: &[Value],
    scene: &mut Scene,
) -> Result<Option<Fields>, AllocError> {
    for item in items {
        if let Some(answer) = set_one(alloc, item, scene)? {
            return Ok(Some(answer));
        }
    }
    Ok(None)
}

fn set_one(alloc: Global, item: &Value, scene: &mut Scene) -> Result<Option<Fields>, AllocError> {
    let Some((name, text)) = fact_in(item) else {
        return Ok(Some(said(alloc, "refused", "question")?));
    };
    match tree_of(alloc, text, true) {
        Ok(expr) => set_fact(alloc, name, &expr, scene),
        Err(fault) => Ok(Some(refused(alloc, &fault)?)),
    }
}

// The name and the text of a fact that is to be set.
fn fact_in(item: &Value) -> Option<(&str, &str)> {
    match item {
        Value::Rec(fact) => {
            let name = text_at(fact, "name")?;
            let text = text_at(fact, "text")?;
            Some((name, text))
        }
        _ => None,
    }
}

fn set_fact(
    alloc: Global,
    name: &str,
    expr: &Expr,
    scene: &mut Scene,
) -> Result<Option<Fields>, AllocError> {
    match kind_of(alloc, expr, scene, &Taught::nothing(alloc)) {
        Ok(kind) => {
            let value = eval(alloc, expr, &scene.values)?;
            scene.set(&String::from_str(alloc, name)?, kind, &value)?;
            Ok(None)
        }
        Err(fault) => Ok(Some(unfit(alloc, fault)?)),
    }
}

// The expression that the text is, or that it may hold.
pub(crate) fn tree_of(alloc: Global, text: &str, is_template: bool) -> Result<Expr, ExprFault>
    ensures { Gives (λ e. Some (expr_view e)) no_tree result
        (cond is_template (template_of text.now) (expression_of text.now)) }
{
    if is_template {
        parse_template(alloc, text)
    } else {
        parse_expr(alloc, text)
    }
}

// What is said of an expression that was read: its kind and its value, or its first fault.
fn answer_for(
    alloc: Global,
    asked: &Fields,
    expr: &Expr,
    scene: &Scene,
) -> Result<Fields, AllocError> {
    let taught = Taught::nothing(alloc);
    let mut answer = kind_said(alloc, kind_of(alloc, expr, scene, &taught))?;
    if answer.contains_key("kind") {
        match eval(alloc, expr, &scene.values)? {
            Value::Opaque => {}
            value => put(alloc, &mut answer, "value", value)?,
        }
    }
    if let Some(text) = text_at(asked, "then") {
        add_then(alloc, &mut answer, expr, text, scene)?;
    }
    Ok(answer)
}

// Adds what is known of the text behind the expression, where that is true and where it is false.
fn add_then(
    alloc: Global,
    answer: &mut Fields,
    expr: &Expr,
    text: &str,
    scene: &Scene,
) -> Result<(), AllocError> {
    match tree_of(alloc, text, false) {
        Ok(then) => {
            let holds = said_behind(alloc, expr, true, &then, scene)?;
            put_record(alloc, answer, "if_true", holds)?;
            let fails = said_behind(alloc, expr, false, &then, scene)?;
            put_record(alloc, answer, "if_false", fails)
        }
        Err(fault) => put_record(alloc, answer, "then", refused(alloc, &fault)?),
    }
}

fn said_behind(
    alloc: Global,
    expr: &Expr,
    holds: bool,
    then: &Expr,
    scene: &Scene,
) -> Result<Fields, AllocError> {
    let taught = narrow(alloc, expr, holds, scene, Taught::nothing(alloc))?;
    kind_said(alloc, kind_of(alloc, then, scene, &taught))
}

fn kind_said(alloc: Global, found: Result<Kind, KindFault>) -> Result<Fields, AllocError> {
    match found {
        Ok(kind) => said(alloc, "kind", sort_word(&kind)),
        Err(fault) => unfit(alloc, fault),
    }
}

fn unfit(alloc: Global, fault: KindFault) -> Result<Fields, AllocError> {
    match fault {
        KindFault::Unfit(unfit) => said(alloc, "fault", fault_word(unfit)),
        KindFault::NoMemory => Err(AllocError),
    }
}

fn refused(alloc: Global, fault: &ExprFault) -> Result<Fields, AllocError> {
    match fault {
        ExprFault::Unreadable { at } => {
            let mut answer = said(alloc, "refused", "E01")?;
            let place = i64::try_from(*at).unwrap_or(i64::MAX);
            put(alloc, &mut answer, "at", Value::Int(place))?;
            Ok(answer)
        }
        ExprFault::TooDeep => said(alloc, "refused", "E02"),
        ExprFault::NoMemory => Err(AllocError),
    }
}
