// What a file is written in that is no JSON, as far as its first line tells.

/// What the front end for YAML reads.
#[derive(Clone, Copy)]
pub enum Form {
    Yaml,
    Ini,
}

impl Form {
    pub fn name(self) -> &'static str {
        match self {
            Form::Yaml => "YAML",
            Form::Ini => "INI",
        }
    }
}

/// What its first line looks like that is neither blank nor a comment; none where it looks like
/// neither, as the beginning of a JSON text does.
pub fn form_of(bytes: &[u8]) -> Option<Form> {
    let Ok(text) = std::str::from_utf8(bytes) else {
        return None;
    };
    for line in text.lines() {
        let line = line.trim();
        if line.is_empty() || line.starts_with('#') {
            continue;
        }
        return form_of_line(line);
    }
    None
}

fn form_of_line(line: &str) -> Option<Form> {
    if line == "---" || line.starts_with("--- ") || line.starts_with("- ") {
        return Some(Form::Yaml);
    }
    if is_section(line) {
        return Some(Form::Ini);
    }
    if let Some((key, value)) = line.split_once(':') {
        if is_name(key) && (value.is_empty() || value.starts_with(' ')) {
            return Some(Form::Yaml);
        }
    }
    if let Some((words, _)) = line.split_once('=') {
        if words.split(' ').all(is_name) {
            return Some(Form::Ini);
        }
    }
    None
}

// A name in brackets, as `[web]` and `[web:vars]`.
fn is_section(line: &str) -> bool {
    let Some(rest) = line.strip_prefix('[') else {
        return false;
    };
    let Some(name) = rest.strip_suffix(']') else {
        return false;
    };
    name.split(':').all(is_name)
}

// What a host, a group or a variable may be called, and no number.
fn is_name(text: &str) -> bool {
    let bytes = text.as_bytes();
    match bytes.first() {
        Some(first) => begins_name(*first) && bytes.iter().all(|byte| is_in_name(*byte)),
        None => false,
    }
}

fn begins_name(byte: u8) -> bool {
    byte.is_ascii_alphabetic() || byte == b'_'
}

fn is_in_name(byte: u8) -> bool {
    byte.is_ascii_alphanumeric() || matches!(byte, b'_' | b'-' | b'.')
}
