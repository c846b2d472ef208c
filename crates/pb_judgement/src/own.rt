// The task's own result, as what is asked of it sees it.
ghost use Rattle.std.specs.Prelude.{◌≡◌, IfOk};
ghost use Rattle.pb_language.specs.Cases.{answered_cases, judged_cases};
ghost use Rattle.pb_language.specs.Narrow.{results_of};
ghost use Rattle.pb_language.specs.Task.{Task};
ghost use Rattle.pb_kind.specs.Words.{kind_view};
ghost use Rattle.pb_judgement.specs.Ends.{Does, IsJudgedIn};

use crate::answers::{answered_cases, name_of};
use crate::ends::{Manner, judged_in, result_of};
use crate::status::copies;
use pb_kind::Kind;
use pb_task::Work;
use std::alloc::{AllocError, Global};

/// Of which kinds the own result of a task is that is asked about.
#[derive(Drop)]
pub struct Own {
    /// As it was answered: so `changed_when` and `failed_when` see it.
    pub answered: Kind,
    /// With its statuses: so `until` sees it.
    pub judged: Kind,
}

/// The own result of a task that does this work, in that manner.
///
/// # Errors
///
/// Want of memory.
pub fn own_of(alloc: Global, work: &Work, manner: Manner) -> Result<Own, AllocError>
    ensures answered { IfOk result (λ o. (t : Task) → Does work.now t
        → kind_view o.answered ≡ results_of (answered_cases t.action)) }
    ensures judged { IfOk result (λ o. (t : Task) → Does work.now t → IsJudgedIn manner t
        → kind_view o.judged ≡ results_of (judged_cases t.action t.failed_when)) }
{
    let action = name_of(alloc, work)?;
    let cases = answered_cases(alloc, &action, work)?;
    let answered = result_of(alloc, copies(alloc, &cases)?)?;
    let cases = judged_in(alloc, manner, cases)?;
    let judged = result_of(alloc, cases)?;
    Ok(Own { answered, judged })
}
