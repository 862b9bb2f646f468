//! The written forms of values, trees and errors.

use std::alloc::AllocError;

/// What has a written form.
pub trait Shown {
    /// Writes it after the text.
    fn show(&self, out: &mut String) -> Result<(), AllocError>;
}

/// This many bytes are written in full.
const WHOLE: usize = 100;

impl Shown for () {
    fn show(&self, out: &mut String) -> Result<(), AllocError> {
        out.push_str("ok")
    }
}

impl Shown for bool {
    fn show(&self, out: &mut String) -> Result<(), AllocError> {
        write!(out, "{self}")
    }
}

impl Shown for u8 {
    fn show(&self, out: &mut String) -> Result<(), AllocError> {
        write!(out, "{self:02x}")
    }
}

impl Shown for i32 {
    fn show(&self, out: &mut String) -> Result<(), AllocError> {
        write!(out, "{self}")
    }
}

impl Shown for i64 {
    fn show(&self, out: &mut String) -> Result<(), AllocError> {
        write!(out, "{self}")
    }
}

impl Shown for usize {
    fn show(&self, out: &mut String) -> Result<(), AllocError> {
        write!(out, "{self}")
    }
}

fn show_character(character: char, out: &mut String) -> Result<(), AllocError> {
    match character {
        '\0' => out.push_str("\\0"),
        '"' => out.push_str("\\\""),
        '\\' => out.push_str("\\\\"),
        '\u{1}'..=' ' | '\u{7f}' => write!(out, "\\x{:02x}", u32::from(character)),
        _ => Ok(out.push(character)?),
    }
}

impl Shown for &str {
    fn show(&self, out: &mut String) -> Result<(), AllocError> {
        out.push_str("\"")?;
        for character in self.chars() {
            show_character(character, out)?;
        }
        out.push_str("\"")
    }
}

impl Shown for String {
    fn show(&self, out: &mut String) -> Result<(), AllocError> {
        self.as_str().show(out)
    }
}

fn show_digits(bytes: &[u8], out: &mut String) -> Result<(), AllocError> {
    for byte in bytes {
        write!(out, "{byte:02x}")?;
    }
    Ok(())
}

impl Shown for &[u8] {
    fn show(&self, out: &mut String) -> Result<(), AllocError> {
        let len = self.len();
        if len == 0 {
            return out.push_str("-");
        }
        if len <= WHOLE {
            return show_digits(self, out);
        }
        show_digits(&self[..4], out)?;
        write!(out, "... ({len} bytes)")
    }
}

impl Shown for Vec<u8> {
    fn show(&self, out: &mut String) -> Result<(), AllocError> {
        self.as_slice().show(out)
    }
}

impl<T: Shown> Shown for Option<T> {
    fn show(&self, out: &mut String) -> Result<(), AllocError> {
        match self {
            Some(value) => value.show(out),
            None => out.push_str("None"),
        }
    }
}

impl<T: Shown, E: Shown> Shown for Result<T, E> {
    fn show(&self, out: &mut String) -> Result<(), AllocError> {
        match self {
            Ok(value) => value.show(out),
            Err(error) => {
                out.push_str("Err ")?;
                error.show(out)
            }
        }
    }
}
