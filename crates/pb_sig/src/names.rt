// Names of variables and of modules.
ghost use Rattle.std.specs.Prelude.{◌≡◌, map};
ghost use Rattle.pb_semantics.specs.Words.{is_among};
ghost use Rattle.pb_language.specs.TaskForm.{without_prefix};
ghost use Rattle.pb_language.specs.Words.{are_name_bytes, is_digit as is_name_digit};
ghost use Rattle.pb_language.specs.Words.{is_letter as is_name_letter, is_variable_name};
ghost use Rattle.pb_sig.specs.Signatures.{are_module_bytes, has_taken_prefix as has_prefix};
ghost use Rattle.pb_sig.specs.Signatures.{is_module_byte, is_module_name, is_small_letter};
ghost use Rattle.pb_sig.specs.Signatures.{taken_names};

// The most bytes of a variable's name.
const MOST_VARIABLE_BYTES: usize = 128;

// The most bytes of a module's name.
const MOST_MODULE_BYTES: usize = 64;

// What may stand before the name of a module or an action.
const BUILTIN_PREFIX: &str = "ansible.builtin.";

// The names that no module of a file can have: those of the built-in modules and the actions,
// `meta`, and what a play, a block, a task or a handler can have as a key, built or left out.
const TAKEN: [&str; 67] = [
    "ping",
    "command",
    "shell",
    "stat",
    "copy",
    "file",
    "service",
    "setup",
    "debug",
    "set_fact",
    "assert",
    "fail",
    "meta",
    "hosts",
    "name",
    "gather_facts",
    "vars",
    "strategy",
    "serial",
    "pre_tasks",
    "tasks",
    "post_tasks",
    "handlers",
    "force_handlers",
    "block",
    "rescue",
    "always",
    "when",
    "ignore_errors",
    "loop",
    "register",
    "notify",
    "changed_when",
    "failed_when",
    "until",
    "retries",
    "listen",
    "action",
    "any_errors_fatal",
    "args",
    "async",
    "become",
    "become_exe",
    "become_flags",
    "become_method",
    "become_user",
    "check_mode",
    "collections",
    "connection",
    "debugger",
    "delay",
    "delegate_facts",
    "delegate_to",
    "diff",
    "environment",
    "ignore_unreachable",
    "local_action",
    "loop_control",
    "module_defaults",
    "no_log",
    "poll",
    "port",
    "remote_user",
    "run_once",
    "tags",
    "throttle",
    "timeout",
];

/// Whether a variable can have that name: 1 to 128 ASCII letters, digits or `_`, the first no
/// digit.
pub fn is_variable(name: &str) -> bool
    ensures { result ≡ is_variable_name name.now }
{
    match name.as_bytes() {
        [] => false,
        [first, rest @ ..] => {
            is_letter(*first) && are_bytes_of_names(rest) && rest.len() < MOST_VARIABLE_BYTES
        }
    }
}

fn are_bytes_of_names(bytes: &[u8]) -> bool
    ensures { result ≡ are_name_bytes bytes.now }
{
    for byte in bytes {
        if !is_letter(*byte) && !is_digit(*byte) {
            return false;
        }
    }
    true
}

fn is_letter(byte: u8) -> bool
    ensures { result ≡ is_name_letter byte }
{
    matches!(byte, b'A'..=b'Z' | b'a'..=b'z' | b'_')
}

fn is_digit(byte: u8) -> bool
    ensures { result ≡ is_name_digit byte }
{
    byte.is_ascii_digit()
}

// Whether a module of a file can have that name: 1 to 64 letters from `a` to `z`, digits, `_` or
// `.`, the first a letter.
pub(crate) fn is_module(name: &str) -> bool
    ensures { result ≡ is_module_name name.now }
{
    let bytes = name.as_bytes();
    match bytes {
        [] => false,
        [first, ..] => {
            is_small(*first) && bytes.len() <= MOST_MODULE_BYTES && are_bytes_of_modules(bytes)
        }
    }
}

fn are_bytes_of_modules(bytes: &[u8]) -> bool
    ensures { result ≡ are_module_bytes bytes.now }
{
    for byte in bytes {
        if !is_byte_of_modules(*byte) {
            return false;
        }
    }
    true
}

fn is_byte_of_modules(byte: u8) -> bool
    ensures { result ≡ is_module_byte byte }
{
    matches!(byte, b'a'..=b'z' | b'0'..=b'9' | b'_' | b'.')
}

fn is_small(byte: u8) -> bool
    ensures { result ≡ is_small_letter byte }
{
    byte.is_ascii_lowercase()
}

// Whether no module of a file can have that name.
pub(crate) fn is_taken_word(name: &str) -> bool
    ensures { result ≡ is_among name.now taken_names }
{
    is_one_of(name, &TAKEN)
}

// Whether the name begins with `ansible.` or `with_`.
pub(crate) fn has_taken_prefix(name: &str) -> bool
    ensures { result ≡ has_prefix name.now }
{
    name.starts_with("ansible.") || name.starts_with("with_")
}

/// The name of a module or an action as a task gives it, from which the prefix `ansible.builtin.`
/// is taken once.
pub fn without_prefix(name: &str) -> &str
    ensures { result.now ≡ without_prefix name.now }
{
    match name.strip_prefix(BUILTIN_PREFIX) {
        Some(rest) => rest,
        None => name,
    }
}

/// Whether the name is one of the words.
pub fn is_one_of(name: &str, words: &[&str]) -> bool
    ensures { result ≡ is_among name.now (map (λ w. w.now) words.now) }
{
    for word in words {
        if name == *word {
            return true;
        }
    }
    false
}
