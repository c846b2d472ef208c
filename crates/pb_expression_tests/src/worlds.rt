// What expressions are worth that read other hosts, the batch and the groups: their trees are made
// by hand.
ghost use Rattle.pb_value.specs.Words.{fields_view};
ghost use Rattle.pb_syntax.specs.Words.{no_trees};
ghost use Rattle.pb_expression_tests.specs.Numbers.{numbers};
ghost use Rattle.pb_expression_tests.specs.TwoHosts.{two_hosts};

use pb_eval::eval::eval;
use pb_eval::{Vars, values_of};
use pb_syntax::{Expr, Member, Names, Path, Root, SlotNames, Status, Term};
use pb_value::{Fields, Value, field_of, read_json};
use std::alloc::Global;
use std::test::Fail;

// `alpha`, which is asked, and `beta`, both in the group `web`; `alpha` alone is active.
#[derive(Drop)]
struct TwoHosts {
    mine: Fields,
    first: Fields,
    second: Fields,
}

impl Vars for TwoHosts {
    ghost world = { λ w. two_hosts (fields_view w.mine.entries) (fields_view w.first.entries)
        (fields_view w.second.entries) };

    ghost trees = { λ _. no_trees };

    fn alias(&self, _: &str) -> Option<&Value> {
        None
    }

    fn value(&self, name: &str) -> Option<&Value> {
        field_of(&self.mine, name)
    }

    fn this(&self) -> &str {
        "alpha"
    }

    fn other(&self, host: &str, name: &str) -> Option<&Value> {
        if host == "alpha" {
            return field_of(&self.first, name);
        }
        if host == "beta" {
            return field_of(&self.second, name);
        }
        None
    }

    fn is_active(&self, host: &str) -> bool {
        host == "alpha"
    }

    fn member(&self, group: &str, place: usize) -> Option<&str> {
        if group != "web" {
            return None;
        }
        match place {
            0 => Some("beta"),
            1 => Some("alpha"),
            _ => None,
        }
    }
}

// `port` stands at slot 3, `out` at 5; here a name of `vars` hides `out`.
struct Numbers;

impl SlotNames for Numbers {
    ghost slots = { λ _. numbers };

    fn own(&self, name: &str) -> Option<u32> {
        if name == "port" { Some(3) } else { None }
    }

    fn other(&self, name: &str) -> Option<u32> {
        if name == "port" {
            Some(3)
        } else if name == "out" {
            Some(5)
        } else {
            None
        }
    }
}

fn fields(alloc: Global, json: &str) -> Result<Fields, Fail> {
    match &read_json(alloc, json.as_bytes())? {
        Value::Rec(fields) => {
            let shared: &Fields = fields;
            Ok(shared.clone()?)
        }
        _ => Err("no fields")?,
    }
}

// The world where the loop stands at that item.
fn world(alloc: Global, mine: &str) -> Result<TwoHosts, Fail> {
    let first = fields(alloc, r#"{"port": 80}"#)?;
    let out = r#"{"port": 81, "out": {"changed": false, "failed": true, "rc": 2}}"#;
    let second = fields(alloc, out)?;
    let mine = fields(alloc, mine)?;
    Ok(TwoHosts {
        mine,
        first,
        second,
    })
}

// The expression has that value, and where the text is empty none; so has its bound copy.
fn is_worth(alloc: Global, mine: &str, expr: &Expr, expected: &str) -> Result<(), Fail> {
    let world = world(alloc, mine)?;
    is_found(alloc, eval(alloc, expr, &world)?, expected)?;
    let bound = expr.bind(alloc, &Numbers)?;
    is_found(alloc, eval(alloc, &bound, &world)?, expected)
}

fn is_found(alloc: Global, found: Value, expected: &str) -> Result<(), Fail> {
    if expected == "" {
        return match found {
            Value::Opaque => Ok(()),
            _ => Err("a value")?,
        };
    }
    if pb_eval::equal::equal(&found, &read_json(alloc, expected.as_bytes())?) {
        Ok(())
    } else {
        Err("another value")?
    }
}

fn text(alloc: Global, letters: &str) -> Result<String, Fail> {
    Ok(String::from_str(alloc, letters)?)
}

fn named(alloc: Global, host: &str) -> Result<Term, Fail> {
    Ok(Term::Named(text(alloc, host)?))
}

// `groups['web'][place]`, or another group.
fn member(alloc: Global, group: &str, place: usize) -> Result<Member, Fail> {
    let group = text(alloc, group)?;
    Ok(Member { group, place })
}

fn in_web(alloc: Global, place: usize) -> Result<Term, Fail> {
    Ok(Term::Member(member(alloc, "web", place)?))
}

// `hostvars[host].name.step`, or without the step where it is empty.
fn path(alloc: Global, host: Term, name: &str, step: &str) -> Result<Path, Fail> {
    let steps = step_alone(alloc, step)?;
    let root = Root::Other(host, text(alloc, name)?);
    let slot = None;
    Ok(Path { root, steps, slot })
}

// The one step, or none where it is empty.
fn step_alone(alloc: Global, step: &str) -> Result<Names, Fail> {
    let mut steps = Names::new(alloc);
    if step != "" {
        steps.push(text(alloc, step)?)?;
    }
    Ok(steps)
}

fn port(alloc: Global, host: Term) -> Result<Expr, Fail> {
    Ok(Expr::Path(path(alloc, host, "port", "")?))
}

// `groups[group][place]`
fn name_of(alloc: Global, group: &str, place: usize) -> Result<Path, Fail> {
    let steps = Names::new(alloc);
    let root = Root::Member(member(alloc, group, place)?);
    let slot = None;
    Ok(Path { root, steps, slot })
}

const NONE: &str = "{}";

const BETA: &str = r#"{"item": "beta"}"#;

const NUMBER: &str = r#"{"item": 7}"#;

#[test]
fn variables_of_hosts(rt: HostRuntime) -> Result<(), Fail> {
    let alloc = rt.alloc();
    is_worth(alloc, NONE, &port(alloc, named(alloc, "beta")?)?, "81")?;
    is_worth(alloc, NONE, &port(alloc, named(alloc, "gamma")?)?, "")?;
    is_worth(alloc, NONE, &port(alloc, Term::This)?, "80")?;
    is_worth(alloc, BETA, &port(alloc, Term::Item)?, "81")?;
    is_worth(alloc, NUMBER, &port(alloc, Term::Item)?, "")?;
    is_worth(alloc, NONE, &port(alloc, Term::Item)?, "")?;
    is_worth(alloc, NONE, &port(alloc, in_web(alloc, 0)?)?, "81")?;
    is_worth(alloc, NONE, &port(alloc, in_web(alloc, 2)?)?, "")
}

#[test]
fn names_of_members(rt: HostRuntime) -> Result<(), Fail> {
    let alloc = rt.alloc();
    is_worth(
        alloc,
        NONE,
        &Expr::Path(name_of(alloc, "web", 1)?),
        r#""alpha""#,
    )?;
    is_worth(alloc, NONE, &Expr::Path(name_of(alloc, "web", 2)?), "")?;
    is_worth(alloc, NONE, &Expr::Path(name_of(alloc, "db", 0)?), "")?;
    is_worth(
        alloc,
        NONE,
        &Expr::Defined(name_of(alloc, "web", 0)?),
        "true",
    )?;
    is_worth(
        alloc,
        NONE,
        &Expr::Defined(name_of(alloc, "web", 2)?),
        "false",
    )
}

#[test]
fn hosts_in_the_batch(rt: HostRuntime) -> Result<(), Fail> {
    let alloc = rt.alloc();
    is_worth(alloc, NONE, &Expr::InBatch(named(alloc, "alpha")?), "true")?;
    is_worth(alloc, NONE, &Expr::InBatch(named(alloc, "beta")?), "false")?;
    is_worth(alloc, NONE, &Expr::InBatch(Term::This), "true")?;
    is_worth(alloc, BETA, &Expr::InBatch(Term::Item), "false")?;
    is_worth(alloc, NUMBER, &Expr::InBatch(Term::Item), "false")?;
    is_worth(alloc, r#"{"item": 1.5}"#, &Expr::InBatch(Term::Item), "")?;
    is_worth(alloc, NONE, &Expr::InBatch(Term::Item), "")?;
    is_worth(alloc, NONE, &Expr::InBatch(in_web(alloc, 1)?), "true")?;
    is_worth(alloc, NONE, &Expr::InBatch(in_web(alloc, 2)?), "")?;
    is_worth(alloc, NONE, &Expr::Hostvars(None), "")?;
    is_worth(alloc, NONE, &Expr::Hostvars(Some(Term::This)), "")
}

#[test]
fn tests_of_other_hosts(rt: HostRuntime) -> Result<(), Fail> {
    let alloc = rt.alloc();
    let rc = path(alloc, named(alloc, "beta")?, "out", "rc")?;
    is_worth(alloc, NONE, &Expr::Defined(rc), "true")?;
    let stdout = path(alloc, named(alloc, "beta")?, "out", "stdout")?;
    is_worth(alloc, NONE, &Expr::Defined(stdout), "false")?;
    let unnamed = path(alloc, Term::Item, "out", "")?;
    is_worth(alloc, NUMBER, &Expr::Defined(unnamed), "")?;
    let out = path(alloc, in_web(alloc, 0)?, "out", "")?;
    is_worth(alloc, NONE, &Expr::PathStatus(Status::Failed, out), "true")?;
    let none = path(alloc, Term::This, "out", "")?;
    is_worth(alloc, NONE, &Expr::PathStatus(Status::Failed, none), "")
}

// `hostvars[host].out.rc | default(5)`
fn default(alloc: Global, host: Term) -> Result<Expr, Fail> {
    let five = Box::new(alloc, Expr::Literal(Value::Int(5)))?;
    Ok(Expr::PathOr(path(alloc, host, "out", "rc")?, five))
}

#[test]
fn defaults_of_other_hosts(rt: HostRuntime) -> Result<(), Fail> {
    let alloc = rt.alloc();
    is_worth(alloc, NONE, &default(alloc, named(alloc, "beta")?)?, "2")?;
    is_worth(alloc, NONE, &default(alloc, Term::This)?, "5")?;
    is_worth(alloc, NONE, &default(alloc, named(alloc, "gamma")?)?, "5")?;
    is_worth(alloc, NUMBER, &default(alloc, Term::Item)?, "")
}

// `first and hostvars`, or with `or`
fn chain(alloc: Global, first: Expr) -> Result<Vec<Expr>, Fail> {
    let mut operands = Vec::new(alloc);
    operands.push(first)?;
    operands.push(Expr::Hostvars(None))?;
    Ok(operands)
}

#[test]
fn chains_stop_early(rt: HostRuntime) -> Result<(), Fail> {
    let alloc = rt.alloc();
    let absent = Expr::InBatch(named(alloc, "beta")?);
    is_worth(alloc, NONE, &Expr::And(chain(alloc, absent)?), "false")?;
    let active = Expr::InBatch(Term::This);
    is_worth(alloc, NONE, &Expr::And(chain(alloc, active)?), "")?;
    let known = Expr::InBatch(Term::This);
    is_worth(alloc, NONE, &Expr::Or(chain(alloc, known)?), "true")
}

// With these names of `vars`, the expression has that value.
fn is_worth_over(
    alloc: Global,
    names: &[(String, Expr)],
    expr: &Expr,
    expected: &str,
) -> Result<(), Fail> {
    let world = world(alloc, r#"{"port": 79}"#)?;
    let known = values_of(alloc, names, &world)?;
    is_found(alloc, eval(alloc, expr, &known)?, expected)
}

// `name.step`, or without the step where it is empty.
fn own(alloc: Global, name: &str, step: &str) -> Result<Path, Fail> {
    let steps = step_alone(alloc, step)?;
    let root = Root::Variable(text(alloc, name)?);
    let slot = None;
    Ok(Path { root, steps, slot })
}

// `name and name and ..`, seven times.
fn seven_reads(alloc: Global, name: &str) -> Result<Expr, Fail> {
    let mut reads = Vec::new(alloc);
    for _ in 0..7 {
        reads.push(Expr::Path(own(alloc, name, "")?))?;
    }
    Ok(Expr::And(reads))
}

const CHAIN: [&str; 12] = ["a", "b", "c", "d", "e", "f", "g", "h", "i", "j", "k", "l"];

// Read along each way through the chain it would be read some ten thousand million times.
#[test]
fn each_name_is_worked_out_once(rt: HostRuntime) -> Result<(), Fail> {
    let alloc = rt.alloc();
    let mut names = Vec::new(alloc);
    let mut before = "a";
    names.push((text(alloc, before)?, Expr::Literal(Value::Bool(true))))?;
    for name in &CHAIN[1..] {
        names.push((text(alloc, name)?, seven_reads(alloc, before)?))?;
        before = name;
    }
    is_worth_over(alloc, &names, &seven_reads(alloc, "h")?, "true")?;
    is_worth_over(alloc, &names, &seven_reads(alloc, "l")?, "true")
}

// `port`, which hides the variable, with a field `web`, and `none`, which has no value.
fn two_names(alloc: Global) -> Result<Vec<(String, Expr)>, Fail> {
    let mut names = Vec::new(alloc);
    let ports = Expr::Literal(read_json(alloc, br#"{"web": 8080}"#)?);
    names.push((text(alloc, "port")?, ports))?;
    let none = port(alloc, named(alloc, "gamma")?)?;
    names.push((text(alloc, "none")?, none))?;
    Ok(names)
}

// `path | default(5)`
fn or_five(alloc: Global, path: Path) -> Result<Expr, Fail> {
    let five = Box::new(alloc, Expr::Literal(Value::Int(5)))?;
    Ok(Expr::PathOr(path, five))
}

#[test]
fn names_with_a_value(rt: HostRuntime) -> Result<(), Fail> {
    let alloc = rt.alloc();
    let names = two_names(alloc)?;
    let web = Expr::Path(own(alloc, "port", "web")?);
    is_worth_over(alloc, &names, &web, "8080")?;
    let defined = Expr::Defined(own(alloc, "port", "")?);
    is_worth_over(alloc, &names, &defined, "true")?;
    let missing = Expr::Defined(own(alloc, "port", "db")?);
    is_worth_over(alloc, &names, &missing, "false")?;
    let given = or_five(alloc, own(alloc, "port", "db")?)?;
    is_worth_over(alloc, &names, &given, "5")?;
    let others = port(alloc, named(alloc, "beta")?)?;
    is_worth_over(alloc, &names, &others, "81")
}

#[test]
fn names_without_a_value(rt: HostRuntime) -> Result<(), Fail> {
    let alloc = rt.alloc();
    let names = two_names(alloc)?;
    let read = Expr::Path(own(alloc, "none", "")?);
    is_worth_over(alloc, &names, &read, "")?;
    let defined = Expr::Defined(own(alloc, "none", "")?);
    is_worth_over(alloc, &names, &defined, "")?;
    let given = or_five(alloc, own(alloc, "none", "")?)?;
    is_worth_over(alloc, &names, &given, "")?;
    let status = Expr::PathStatus(Status::Failed, own(alloc, "none", "")?);
    is_worth_over(alloc, &names, &status, "")?;
    let unknown = or_five(alloc, own(alloc, "gone", "")?)?;
    is_worth_over(alloc, &names, &unknown, "5")
}

// The bound copy of the path has that slot.
fn has_slot(alloc: Global, path: Path, expected: Option<u32>) -> Result<(), Fail> {
    match &Expr::Defined(path).bind(alloc, &Numbers)? {
        Expr::Defined(path) if path.slot == expected => Ok(()),
        _ => Err("another slot")?,
    }
}

#[test]
fn slots_of_paths(rt: HostRuntime) -> Result<(), Fail> {
    let alloc = rt.alloc();
    has_slot(alloc, own(alloc, "port", "")?, Some(3))?;
    has_slot(alloc, own(alloc, "out", "rc")?, None)?;
    has_slot(alloc, path(alloc, Term::This, "out", "rc")?, Some(5))?;
    has_slot(alloc, path(alloc, Term::Item, "port", "")?, Some(3))?;
    has_slot(alloc, path(alloc, Term::This, "mode", "")?, None)?;
    has_slot(alloc, name_of(alloc, "web", 0)?, None)
}
