// Whether names of `vars` read the item of a loop.
ghost use Rattle.std.specs.Prelude.{◌≡◌, IfOk, not};
ghost use Rattle.pb_syntax.specs.Words.{root_view, term_view};
ghost use Rattle.pb_vars.specs.Borrowed.{borrowed_view};
ghost use Rattle.pb_start.specs.Words.{is_other_host, is_other_root, read_no_item};

use pb_syntax::{Root, Term};
use pb_template::Entry;
use pb_vars::{InScope, Question, Read};
use std::alloc::{AllocError, Global};

// Whether the value of one of these names reads it, or a variable of the host that it names.
pub(crate) fn read_item(alloc: Global, names: &[&Entry]) -> Result<bool, AllocError>
    ensures { IfOk result (λ b. b ≡ not (read_no_item (borrowed_view names.now))) }
{
    let nothing = InScope::nothing(alloc);
    let answers = nothing.answers(alloc, &IsOther)?;
    for name in names {
        if !nothing.holds(&IsOther, &answers, &name.value) {
            return Ok(true);
        }
    }
    Ok(false)
}

// Whether something else is read.
struct IsOther;

impl Question for IsOther {
    ghost use Rattle.pb_start.specs.Words.{is_other};

    ghost holds = { λ _. is_other };

    fn holds(&self, read: Read<'_>) -> bool {
        match read {
            Read::Value(root, _) | Read::Tested(root) => is_other_root(root),
            Read::Hostvars(_) => true,
            Read::InBatch(host) => is_other_host(host),
        }
    }
}

fn is_other_root(root: &Root) -> bool
    ensures { result ≡ is_other_root (root_view root.now) }
{
    match root {
        Root::Variable(name) => name.as_str() != "item",
        Root::Other(host, _) => is_other_host(host),
        Root::Member(_) => true,
    }
}

fn is_other_host(host: &Term) -> bool
    ensures { result ≡ is_other_host (term_view host.now) }
{
    !matches!(host, Term::Item)
}
