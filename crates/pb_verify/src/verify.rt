// The verdict on a book.
ghost use Rattle.std.specs.Prelude.{◌≡◌, IfOk, None, length, map};
ghost use Rattle.pb_semantics.specs.Words.{Gives};
ghost use Rattle.pb_language.specs.Plays.{program_of};
ghost use Rattle.pb_language.specs.Rules.{rules_offence};
ghost use Rattle.pb_language.specs.Verdict.{flow_verdict};
ghost use Rattle.pb_language.specs.Words.{accepted, judged};
ghost use Rattle.pb_sig.specs.Words.{modules_of};
ghost use Rattle.pb_inventory.specs.Words.{inventory_view};
ghost use Rattle.pb_play.specs.Words.{AreSound, all_tasks, play_view};
ghost use Rattle.pb_book.specs.Words.{book_view, plays_of};
ghost use Rattle.pb_hosts.specs.Words.{views_view, views_with};
ghost use Rattle.pb_rules.specs.Broken.{code_of as rule_code, refusal_of as broken_refusal};
ghost use Rattle.pb_tables.specs.Words.{host_offence, outcome_verdict};
ghost use Rattle.pb_verify.specs.Judges.{refused_verdict};
ghost use Rattle.pb_verify.specs.Known.{IsTable};
ghost use Rattle.pb_verify.specs.Meaning.{code_number, refusal_of};
ghost use Rattle.pb_forms.specs.Words.{fault_view};
ghost use Rattle.pb_language.specs.Words.{code_of as number_of};

use crate::checked::{Accepted, Checked};
use crate::names::names_of;
use crate::reads::reads_of;
use crate::refusal::{Code, Refusal};
use crate::scenes::{gathering_tasks, scenes_of};
use pb_book::Book;
use pb_expr::Unfit;
use pb_inventory::Inventory;
use pb_kind::Slots;
use pb_play::Play;
use pb_rules::{Broken, Rule, first_broken};
use pb_sig::Registry;
use pb_tables::{HostFault, Outcome, outcome_of};
use pb_walks::handlers_are_named;
use std::alloc::{AllocError, Global};
use std::sync::Arc;

// The line of a refusal that stands at none.
const NO_LINE: u32 = 0;

/// Why there is no accepted book.
#[derive(Drop)]
pub enum VerifyFault {
    Refused(Refusal),
    NoMemory,
}

impl From<AllocError> for VerifyFault {
    ghost use Rattle.std.specs.Prelude.{◌≡◌};
    ghost use Rattle.pb_verify.specs.declared.verify.VerifyFault.TheVariants.{NoMemory};

    ghost from_gives = { λ _ e. e ≡ NoMemory };

    fn from(_: AllocError) -> VerifyFault {
        VerifyFault::NoMemory
    }
}

/// Judges a book for an inventory: accepted with its budget of module calls, or the first refusal
/// in this order: the rules that follow no host, by line; then the texts that may meet an undefined
/// variable, a missing field or a value of the wrong kind, by line, then by host, then by code;
/// then kinds that four rounds don't settle. Each module that the book names is in the registry.
///
/// # Errors
///
/// `Refused`, and `NoMemory` for want of memory.
pub fn verify(
    alloc: Global,
    book: Book,
    inventory: Inventory,
    registry: Registry,
) -> Result<Checked, VerifyFault>
    requires { AreSound (modules_of registry) (all_tasks (plays_of book)) }
    ensures handed { IfOk result
        (λ c. (c.book ≡ book) × (c.inventory ≡ inventory) × (c.registry ≡ registry)) }
    ensures verdict { Gives (λ c. accepted c.budget) refused_verdict result
        (judged (modules_of registry) (inventory_view inventory) (book_view book)) }
{
    let Findings { budget, views } = judge(alloc, book.plays(), &inventory, &registry)?;
    Ok(Checked::of(Accepted {
        book,
        inventory,
        registry,
        budget,
        views,
    }))
}

/// What is found of plays that are accepted.
#[derive(Drop)]
pub struct Findings {
    budget: u64,
    /// What is known of each host's variables to others.
    views: Vec<Arc<Slots>>,
}

// The budget of the plays, and what hosts' variables look like to others.
fn judge(
    alloc: Global,
    plays: &[Play],
    inventory: &Inventory,
    registry: &Registry,
) -> Result<Findings, VerifyFault>
    requires { AreSound (modules_of registry.now) (all_tasks plays.now) }
    ensures verdict { Gives (λ f. accepted f.budget) refused_verdict result
        (judged (modules_of registry.now) (inventory_view inventory.now)
        (map play_view plays.now)) }
    ensures table { IfOk result (λ f. IsTable (modules_of registry.now) inventory.now
        (map play_view plays.now) f.views.items) }
{
    match first_broken(alloc, registry, inventory, plays)? {
        Some(broken) => Err(VerifyFault::Refused(of_broken(broken))),
        None => judge_ways(alloc, plays, inventory, registry),
    }
}

// The refusal of a broken rule.
fn of_broken(broken: Broken) -> Refusal
    ensures { refusal_of result ≡ broken_refusal broken }
{
    Refusal {
        code: code_of(broken.rule),
        line: broken.line,
        host: None,
    }
}

fn code_of(rule: Rule) -> Code
    ensures { code_number result ≡ rule_code rule }
{
    match rule {
        Rule::Steps => Code::V13,
        Rule::Parameters => Code::V07,
        Rule::Names => Code::V08,
        Rule::Chains => Code::V10,
        Rule::Known => Code::V06,
        Rule::Notified => Code::V05,
        Rule::Order => Code::V12,
        Rule::Own => Code::V09,
    }
}

// What is found on the ways of all hosts, where the rules that follow no host are kept.
fn judge_ways(
    alloc: Global,
    plays: &[Play],
    inventory: &Inventory,
    registry: &Registry,
) -> Result<Findings, VerifyFault>
    requires sound { AreSound (modules_of registry.now) (all_tasks plays.now) }
    requires ruled { rules_offence (modules_of registry.now) (inventory_view inventory.now)
        (map play_view plays.now) ≡ None }
    ensures verdict { Gives (λ f. accepted f.budget) refused_verdict result
        (flow_verdict (program_of (modules_of registry.now) (inventory_view inventory.now)
        (map play_view plays.now)) (inventory_view inventory.now)) }
    ensures table { IfOk result (λ f. IsTable (modules_of registry.now) inventory.now
        (map play_view plays.now) f.views.items) }
{
    handlers_are_named();
    let gathering = gathering_tasks(alloc, registry, plays)?;
    let scenes = scenes_of(alloc, inventory, plays, gathering.as_slice())?;
    let names = names_of(alloc, inventory, plays)?;
    let reads = reads_of(alloc, inventory, plays)?;
    let outcome = outcome_of(alloc, inventory, scenes.as_slice(), names, reads)?;
    told(outcome)
}

// The refusal that the ways of all hosts come to, or what is found on them.
fn told(outcome: Outcome<'_>) -> Result<Findings, VerifyFault>
    ensures verdict { Gives (λ f. accepted f.budget) refused_verdict result
        (outcome_verdict outcome.entry) }
    ensures each { IfOk result (λ f. length f.views.items
        ≡ length (inventory_view outcome.entry.views.inventory.now).hosts) }
    ensures views { IfOk result (λ f.
        views_with outcome.entry.views.inventory.now f.views.items
        ≡ views_view outcome.entry.views) }
{
    let Outcome {
        fault,
        is_settled,
        calls,
        views,
    } = outcome;
    if let Some(found) = fault {
        return Err(VerifyFault::Refused(of_fault(found)));
    }
    if !is_settled {
        return Err(VerifyFault::Refused(Refusal {
            code: Code::V11,
            line: NO_LINE,
            host: None,
        }));
    }
    Ok(Findings {
        budget: calls,
        views: views.into_hosts(),
    })
}

// The refusal of what a host may meet.
fn of_fault(found: HostFault) -> Refusal
    ensures { refusal_of result ≡ host_offence found }
{
    Refusal {
        code: fault_code(found.fault.unfit),
        line: found.fault.line,
        host: Some(found.host),
    }
}

fn fault_code(unfit: Unfit) -> Code
    ensures { code_number result ≡ number_of (fault_view unfit) }
{
    match unfit {
        Unfit::Undefined => Code::V01,
        Unfit::UndefinedThere => Code::V02,
        Unfit::MissingField => Code::V03,
        Unfit::WrongKind => Code::V04,
        Unfit::UnknownName => Code::V06,
    }
}
