// Names from files, and what the system says, as they are shown on standard error.
use std::fmt::{Display, Formatter};
use std::{fmt, io};

/// A name, with what a terminal or a log would take for more than a letter written out: control
/// characters and line ends as `\x1b`, marks of the direction of text as `\u202e`.
#[derive(Clone, Copy)]
pub struct Visible<'a>(pub &'a str);

impl<'a> Display for Visible<'a> {
    fn fmt<W: fmt::Write>(&self, f: &mut Formatter<W>) -> fmt::Result {
        for letter in self.0.chars() {
            let code = letter as u32;
            if is_control(code) {
                write!(f, "\\x{code:02x}")?;
            } else if is_mark(code) {
                write!(f, "\\u{code:04x}")?;
            } else {
                f.write_char(letter)?;
            }
        }
        Ok(())
    }
}

// C0, DEL and C1.
fn is_control(code: u32) -> bool {
    code < 32 || (127 <= code && code < 160)
}

// What turns the direction of text, ends a line or has no width.
fn is_mark(code: u32) -> bool {
    matches!(code, 0x61c | 0x200b..=0x200f | 0x2028..=0x202e | 0x2060..=0x2069 | 0xfeff)
}

/// Why a call of the system failed, in the system's words alone.
#[derive(Clone, Copy)]
pub struct Reason<'a>(pub &'a io::Error);

impl<'a> Display for Reason<'a> {
    fn fmt<W: fmt::Write>(&self, f: &mut Formatter<W>) -> fmt::Result {
        let Some(code) = self.0.raw_os_error() else {
            return Display::fmt(self.0, f);
        };
        let mut text = [0u8; 128];
        let length = os::error_text(code, &mut text);
        f.write_str(std::str::from_utf8(&text[..length]).unwrap_or("unknown error"))
    }
}
