// How many of a host's tasks ended in each way.
ghost use Rattle.std.specs.Prelude.{◌<◌, ◌^◌, ◌≡◌, All, IfSome, IsSome, suc};
ghost use Rattle.pb_language.specs.Machine.{empty_recap};
ghost use Rattle.pb_core.specs.Hosts.{counts_of, left_recap, recap_after, recap_view};

use crate::outcome::TaskStatus;

/// How many of a host's tasks ended in each way.
#[derive(Clone, Copy, PartialEq, Eq, Debug)]
pub struct Recap {
    pub ok: u64,
    pub changed: u64,
    pub unreachable: u64,
    pub failed: u64,
    pub skipped: u64,
    pub rescued: u64,
    pub ignored: u64,
}

impl Recap {
    /// Of no task.
    pub fn empty() -> Recap
        ensures { recap_view result ≡ empty_recap }
    {
        Recap {
            ok: 0,
            changed: 0,
            unreachable: 0,
            failed: 0,
            skipped: 0,
            rescued: 0,
            ignored: 0,
        }
    }

    /// With one more task that ended so; none where a count is full.
    pub fn after(&self, status: TaskStatus) -> Option<Recap>
        ensures counts { IfSome result (λ r. recap_view r
            ≡ recap_after status (recap_view self.now)) }
        ensures room { All (λ n. suc n < 2 ^ 64) (counts_of self.now) → IsSome result }
    {
        let mut recap = *self;
        if status.is_skipped {
            recap.skipped = recap.skipped.checked_add(1)?;
            return Some(recap);
        }
        if !status.has_failed || status.is_ignored {
            recap.ok = recap.ok.checked_add(1)?;
            if status.is_changed {
                recap.changed = recap.changed.checked_add(1)?;
            }
            if status.has_failed {
                recap.ignored = recap.ignored.checked_add(1)?;
            }
        } else if status.is_rescued {
            recap.rescued = recap.rescued.checked_add(1)?;
        } else {
            recap.failed = recap.failed.checked_add(1)?;
        }
        Some(recap)
    }

    /// With one more task whose host left: an answer broke its word, or the host wasn't reached;
    /// none where a count is full.
    pub fn left(&self, is_reached: bool) -> Option<Recap>
        ensures counts { IfSome result (λ r. recap_view r
            ≡ left_recap is_reached (recap_view self.now)) }
        ensures room { All (λ n. suc n < 2 ^ 64) (counts_of self.now) → IsSome result }
    {
        let mut recap = *self;
        if is_reached {
            recap.failed = recap.failed.checked_add(1)?;
        } else {
            recap.unreachable = recap.unreachable.checked_add(1)?;
        }
        Some(recap)
    }
}
