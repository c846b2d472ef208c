// Tasks give the parameters that they may, and all that they must (V07).
ghost use Rattle.std.specs.Prelude.{[], ◌&&◌, ◌∷◌, ◌≡◌, List, codes, map};
ghost use Rattle.pb_language.specs.Book.{Registry};
ghost use Rattle.pb_language.specs.Rules.{are_known, are_parameters, breaks_parameters, can_be_set};
ghost use Rattle.pb_language.specs.Rules.{has_part, has_required, is_parameter, is_well_asserted};
ghost use Rattle.pb_language.specs.Rules.{is_well_formed};
ghost use Rattle.pb_sig.specs.Words.{parameter_view};
ghost use Rattle.pb_template.specs.Words.{entries_view};
ghost use Rattle.pb_task.specs.Words.{Resolves, asserted_view, work_view};
ghost use Rattle.pb_rules.specs.Parameters.{are_variables};
ghost use Rattle.pb_rules.specs.Sites.{IsResolvedThere, site_view, task_of};

use crate::site::Site;
use pb_sig::{Module, Parameter, is_variable};
use pb_task::{Asserted, Work};
use pb_template::Entry;

// An unknown, missing or malformed parameter stands at the line.
pub(crate) fn breaks_parameters(site: &Site<'_>) -> bool
    ensures { (ms : Registry) → IsResolvedThere ms (task_of site.now.thing)
        → result ≡ breaks_parameters ms (site_view site.now) }
{
    match site.task() {
        Some(task) => !is_well_formed(&task.work, &task.arguments),
        None => false,
    }
}

fn is_well_formed(work: &Work, arguments: &[Entry]) -> bool
    ensures { (ms : Registry) → Resolves ms work.now
        → result ≡ is_well_formed ms (work_view work.now (entries_view arguments.now)) }
{
    match work {
        Work::Module(module) => fills(arguments, module.params()),
        Work::Debug => is_given("msg", arguments) && all_are("msg", arguments),
        Work::SetFact => are_variables(arguments),
        Work::Assert(asserted) => is_well_asserted(asserted) && all_are("fail_msg", arguments),
        Work::Fail => all_are("msg", arguments),
    }
}

fn is_well_asserted(asserted: &Asserted) -> bool
    ensures { result ≡ is_well_asserted (asserted_view asserted.now) }
{
    match asserted {
        Asserted::Conditions(_) => true,
        Asserted::NotGiven | Asserted::Malformed => false,
    }
}

// Each argument is a parameter, and each parameter that is required is given.
fn fills(arguments: &[Entry], parameters: &[Parameter]) -> bool
    ensures { result ≡ are_parameters (map parameter_view parameters.now)
        (entries_view arguments.now)
        && has_required (map parameter_view parameters.now) (entries_view arguments.now) }
{
    are_parameters(arguments, parameters) && all_given(parameters, arguments)
}

fn are_parameters(arguments: &[Entry], parameters: &[Parameter]) -> bool
    ensures { result ≡ are_parameters (map parameter_view parameters.now)
        (entries_view arguments.now) }
{
    for argument in arguments {
        if !is_parameter(argument.name.as_str(), parameters) {
            return false;
        }
    }
    true
}

fn is_parameter(name: &str, parameters: &[Parameter]) -> bool
    ensures { result ≡ is_parameter name.now (map parameter_view parameters.now) }
{
    for parameter in parameters {
        if name == parameter.name.as_str() {
            return true;
        }
    }
    false
}

fn all_given(parameters: &[Parameter], arguments: &[Entry]) -> bool
    ensures { result ≡ has_required (map parameter_view parameters.now)
        (entries_view arguments.now) }
{
    for parameter in parameters {
        if parameter.required && !is_given(parameter.name.as_str(), arguments) {
            return false;
        }
    }
    true
}

fn is_given(name: &str, arguments: &[Entry]) -> bool
    ensures { result ≡ has_part name.now (entries_view arguments.now) }
{
    for argument in arguments {
        if name == argument.name.as_str() {
            return true;
        }
    }
    false
}

// Whether no other argument is given.
fn all_are(name: &str, arguments: &[Entry]) -> bool
    ensures { result ≡ are_known (name.now ∷ []) (entries_view arguments.now) }
{
    for argument in arguments {
        if argument.name.as_str() != name {
            return false;
        }
    }
    true
}

// At least one name, and each can be set.
fn are_variables(arguments: &[Entry]) -> bool
    ensures { result ≡ are_variables (entries_view arguments.now) }
{
    !arguments.is_empty() && can_be_set(arguments)
}

fn can_be_set(arguments: &[Entry]) -> bool
    ensures { result ≡ can_be_set (entries_view arguments.now) }
{
    for argument in arguments {
        let name = argument.name.as_str();
        if !is_variable(name) || name == "cacheable" {
            return false;
        }
    }
    true
}
