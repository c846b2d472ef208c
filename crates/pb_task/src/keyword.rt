// Which keys of a task are its keywords, and which are left out.
ghost use Rattle.std.specs.Prelude.{◌++◌, ◌==◌, ◌≡◌, codes};
ghost use Rattle.std.specs.List.{starts_with};
ghost use Rattle.pb_semantics.specs.Words.{is_among};
ghost use Rattle.pb_language.specs.Keywords.{is_left_out, keywords_of, left_out_words};
ghost use Rattle.pb_language.specs.Keywords.{misplaced_words, task_keywords};
ghost use Rattle.pb_language.specs.TaskForm.{has_left_out};
ghost use Rattle.pb_value.specs.Words.{fields_view};
ghost use Rattle.pb_task.specs.Standings.{standing_view};

use pb_sig::is_one_of;
use pb_value::Fields;

// The keywords of a task, which a handler has too.
const TASK_KEYWORDS: [&str; 11] = [
    "name",
    "when",
    "loop",
    "register",
    "vars",
    "notify",
    "changed_when",
    "failed_when",
    "ignore_errors",
    "until",
    "retries",
];

// The keywords of Ansible that are left out, but for those that begin with `with_`.
const LEFT_OUT: [&str; 30] = [
    "action",
    "any_errors_fatal",
    "args",
    "async",
    "become",
    "become_exe",
    "become_flags",
    "become_method",
    "become_user",
    "check_mode",
    "collections",
    "connection",
    "debugger",
    "delay",
    "delegate_facts",
    "delegate_to",
    "diff",
    "environment",
    "ignore_unreachable",
    "local_action",
    "loop_control",
    "module_defaults",
    "no_log",
    "poll",
    "port",
    "remote_user",
    "run_once",
    "tags",
    "throttle",
    "timeout",
];

/// Where a task stands: at the top of a section, in a part of a block, or among the handlers.
#[derive(Clone, Copy, PartialEq, Eq, Debug)]
pub enum Standing {
    AtTop,
    InBlock,
    AsHandler,
}

/// Whether it is a keyword of a task that stands there.
pub fn is_keyword(standing: Standing, key: &str) -> bool
    ensures { result ≡ is_among key.now (keywords_of (standing_view standing)) }
{
    match standing {
        Standing::AsHandler => key == "listen" || is_task_keyword(key),
        Standing::AtTop | Standing::InBlock => is_task_keyword(key),
    }
}

fn is_task_keyword(key: &str) -> bool
    ensures { result ≡ is_among key.now task_keywords }
{
    is_one_of(key, &TASK_KEYWORDS)
}

/// Whether it is a keyword of Ansible that is left out, or one of another row.
pub fn is_left_out(standing: Standing, key: &str) -> bool
    ensures { result ≡ is_left_out (standing_view standing) key.now }
{
    is_left_out_word(standing, key) || is_older_loop(key)
}

// Whether it is a loop by a plugin of look-ups.
fn is_older_loop(key: &str) -> bool
    ensures { result ≡ starts_with (λ a b. a == b) key.now (codes "with_") }
{
    key.starts_with("with_")
}

fn is_left_out_word(standing: Standing, key: &str) -> bool
    ensures { result
        ≡ is_among key.now (left_out_words ++ misplaced_words (standing_view standing)) }
{
    is_one_of(key, &LEFT_OUT) || is_misplaced(standing, key)
}

// Whether it is a keyword of blocks or of handlers, where neither stands.
fn is_misplaced(standing: Standing, key: &str) -> bool
    ensures { result ≡ is_among key.now (misplaced_words (standing_view standing)) }
{
    match standing {
        Standing::AsHandler => is_one_of(key, &["block", "rescue", "always"]),
        Standing::AtTop | Standing::InBlock => is_one_of(key, &["rescue", "always", "listen"]),
    }
}

// Whether some key is left out.
pub(crate) fn has_left_out(standing: Standing, fields: &Fields) -> bool
    ensures { result ≡ has_left_out (standing_view standing) (fields_view fields.now.entries) }
{
    for (key, _) in fields.iter() {
        if is_left_out(standing, key.as_str()) {
            return true;
        }
    }
    false
}
