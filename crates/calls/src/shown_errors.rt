//! The written forms of errors: kind, key, and the text that is printed of them.

use crate::shown::Shown;
use raw_bson::{
    AnyError, BorrowedError, Breach, Error, ErrorKind, NoDocument, NoMemory, ValueAccessError,
    ValueAccessErrorKind,
};
use raw_shelf::PutError;
use std::alloc::AllocError;

fn kind_of(kind: &ErrorKind) -> &'static str {
    match kind {
        ErrorKind::MalformedValue { .. } => "malformed",
        ErrorKind::Utf8EncodingError(_) => "utf8",
        ErrorKind::OutOfMemory => "out-of-memory",
    }
}

/// Writes the kind and the key of an error.
fn show_kind(kind: &ErrorKind, key: Option<&str>, out: &mut String) -> Result<(), AllocError> {
    out.push_str(kind_of(kind))?;
    match key {
        Some(key) => {
            out.push_str(" ")?;
            key.show(out)
        }
        None => out.push_str(" none"),
    }
}

/// Writes what is printed of an error, with escapes for what a line can't have.
fn show_printed(printed: &str, out: &mut String) -> Result<(), AllocError> {
    out.push_str(": ")?;
    for character in printed.chars() {
        match character {
            '\0'..='\u{1f}' | '\u{7f}' => write!(out, "\\x{:02x}", u32::from(character))?,
            _ => out.push(character)?,
        }
    }
    Ok(())
}

impl Shown for Error {
    fn show(&self, out: &mut String) -> Result<(), AllocError> {
        show_kind(&self.kind, self.key(), out)?;
        let printed = self.to_string(*out.allocator())?;
        show_printed(printed.as_str(), out)
    }
}

impl Shown for ErrorKind {
    fn show(&self, out: &mut String) -> Result<(), AllocError> {
        out.push_str(kind_of(self))
    }
}

impl Shown for ValueAccessErrorKind {
    fn show(&self, out: &mut String) -> Result<(), AllocError> {
        match self {
            ValueAccessErrorKind::NotPresent => out.push_str("not-present"),
            ValueAccessErrorKind::UnexpectedType { expected, actual } => {
                write!(
                    out,
                    "unexpected-type expected {expected:?} actual {actual:?}"
                )
            }
            ValueAccessErrorKind::InvalidBson(error) => {
                out.push_str("invalid-bson ")?;
                show_kind(&error.kind, error.key(), out)
            }
            ValueAccessErrorKind::OutOfMemory => out.push_str("out-of-memory"),
        }
    }
}

impl Shown for ValueAccessError {
    fn show(&self, out: &mut String) -> Result<(), AllocError> {
        self.key().show(out)?;
        out.push_str(" ")?;
        self.kind.show(out)?;
        let printed = self.to_string(*out.allocator())?;
        show_printed(printed.as_str(), out)
    }
}

impl Shown for AnyError {
    fn show(&self, out: &mut String) -> Result<(), AllocError> {
        match self {
            AnyError::Raw(error) => error.show(out),
            AnyError::Access(error) => error.show(out),
        }
    }
}

impl Shown for NoMemory {
    fn show(&self, out: &mut String) -> Result<(), AllocError> {
        write!(out, "{self}")
    }
}

impl Shown for AllocError {
    fn show(&self, out: &mut String) -> Result<(), AllocError> {
        out.push_str("out of memory")
    }
}

impl Shown for Breach {
    fn show(&self, out: &mut String) -> Result<(), AllocError> {
        let cause = self.cause;
        let path = &self.path;
        write!(out, "breach {cause} {path:?}")
    }
}

impl Shown for PutError {
    fn show(&self, out: &mut String) -> Result<(), AllocError> {
        match self {
            PutError::Breach(breach) => breach.show(out),
            PutError::OutOfMemory => out.push_str("out of memory"),
        }
    }
}
