//! Errors: why bytes are malformed, how a call fails, and at which key.
ghost use Rattle.std.specs.Prelude.{◌≡◌, None};
ghost use Rattle.std.specs.Option.{option_copied};
ghost use Rattle.raw_view.specs.Errors.{IsReadingKind, IsReadingReason};

use bson_model::NoMemory;
use std::alloc::{AllocError, AllocFailed, Global};
use std::fmt;
use std::str::Utf8Error;

/// What a call of this crate returns: a value, or an `Error`.
pub type Result<T> = std::result::Result<T, Error>;

/// Why bytes are malformed. Numbers count bytes.
#[derive(Clone, Copy, Debug, PartialEq, Eq)]
pub enum Reason {
    /// A document has under five bytes.
    TooShort,
    /// A document's header isn't its length.
    LengthIncorrect,
    /// A document's last byte isn't 0.
    NotTerminated,
    /// No byte is left where an element or the final 0 should be.
    Overflowed,
    /// No kind has this tag.
    InvalidTag(u8),
    /// A string has only this many bytes left for its length, fewer than four.
    StringHeadShort(usize),
    /// A declared length is under 0.
    NegativeLength,
    /// A string's declared length is 0.
    StringTooSmall,
    /// A string takes the first number of bytes, and only the second number is left.
    StringPastEnd(usize, usize),
    /// A string's last byte isn't 0.
    StringNotTerminated,
    /// A payload takes the first number of bytes, and only the second number is left.
    PastEnd(usize, usize),
    /// A nested document's declared length is this, less than 5.
    DocumentTooSmall(usize),
    /// A nested document's last byte isn't 0.
    NestedNotTerminated,
    /// A declared length has only this many bytes left, fewer than four.
    LengthHeadShort(usize),
    /// A pattern or options have no 0 that ends them.
    NoTerminator,
    /// A boolean is this byte, neither 0 nor 1.
    BadBoolean(u8),
    /// An old binary has fewer than four bytes, so no inner length.
    OldNoInner,
    /// An old binary's inner length is from -4 to -1.
    AddOverflow,
    /// An old binary's inner length isn't its outer length less four.
    OldWrongInner,
    /// A code with scope has fewer than 14 bytes.
    CodeTooSmall,
    /// A key, a pattern or options to be written contain a 0.
    InteriorNul,
    /// A document to be written would have more than 2147483647 bytes.
    TooLong,
    /// A document has more bytes than the caller allows.
    TooManyBytes,
    /// Documents, arrays and scopes are nested deeper than the caller allows.
    TooDeep,
}

impl fmt::Display for Reason {
    fn fmt<W: fmt::Write>(&self, f: &mut fmt::Formatter<W>) -> fmt::Result {
        match self {
            Reason::TooShort => f.write_str("document too short"),
            Reason::LengthIncorrect => f.write_str("document length incorrect"),
            Reason::NotTerminated => f.write_str("document not null-terminated"),
            Reason::Overflowed => f.write_str("iteration overflowed document"),
            Reason::InvalidTag(tag) => write!(f, "invalid tag: {tag}"),
            Reason::StringHeadShort(left) => write!(
                f,
                "expected buffer with string to contain at least 4 bytes, but it only has {left}"
            ),
            Reason::NegativeLength => f.write_str("lengths can't be negative"),
            Reason::StringTooSmall => {
                f.write_str(
                    "BSON length encoded string needs to be at least 5 bytes, instead got 4",
                )
            }
            Reason::StringPastEnd(size, left) => write!(
                f,
                "expected buffer to contain at least {size} bytes, but it only has {left}"
            ),
            Reason::StringNotTerminated => f.write_str("expected string to be null-terminated"),
            Reason::PastEnd(size, left) => write!(
                f,
                "length exceeds remaining length of buffer: {size} vs {left}"
            ),
            Reason::DocumentTooSmall(size) => write!(f, "document too small: {size} bytes"),
            Reason::NestedNotTerminated => f.write_str("not null terminated"),
            Reason::LengthHeadShort(left) => {
                write!(f, "expected 4 bytes to read i32, instead got {left}")
            }
            Reason::NoTerminator => f.write_str("expected null terminator"),
            Reason::BadBoolean(byte) => {
                write!(f, "boolean must be stored as 0 or 1, got {byte}")
            }
            Reason::OldNoInner => f.write_str("old binary subtype has no inner declared length"),
            Reason::AddOverflow => f.write_str("attempted to add with overflow"),
            Reason::OldWrongInner => {
                f.write_str("old binary subtype has wrong inner declared length")
            }
            Reason::CodeTooSmall => f.write_str("code with scope length too small"),
            Reason::InteriorNul => f.write_str("interior NUL"),
            Reason::TooLong => f.write_str("document too long"),
            Reason::TooManyBytes => f.write_str("more bytes than allowed"),
            Reason::TooDeep => f.write_str("deeper than allowed"),
        }
    }
}

/// How a call fails.
/// ```
/// let short = RawDocument::from_bytes(b"").map_err(|error| error.kind);
/// assert_eq!(rt; short, Err(ErrorKind::MalformedValue { reason: Reason::TooShort }));
/// ```
#[derive(Debug, PartialEq, Eq, Drop)]
pub enum ErrorKind {
    /// The bytes aren't what BSON says.
    MalformedValue {
        /// what is wrong with them
        reason: Reason,
    },
    /// A text isn't UTF-8.
    Utf8EncodingError(Utf8Error),
    /// Memory ran out, for the key of the error or for the result.
    OutOfMemory,
}

/// Why a call failed, and at which key if that is known.
/// ```
/// let document = RawDocument::from_bytes(b"\x09\0\0\0\x08a\0\x02\0")?;
/// let Err(error) = document.get(alloc, "a") else { unreachable!() };
/// assert_eq!(rt; error.key(), Some("a"));
/// ```
#[derive(Debug, PartialEq, Eq, Drop)]
pub struct Error {
    /// how it failed
    pub kind: ErrorKind,
    key: Option<String>,
}

impl Error {
    ghost use Rattle.raw_view.specs.Errors.{key_of, IsOutOfMemory};

    /// An error of this kind, without a key.
    pub fn new(kind: ErrorKind) -> Error
        ensures kind { result.kind ≡ kind }
        ensures no_key { key_of result ≡ None }
    {
        Error { kind, key: None }
    }

    /// Malformed for this reason, without a key.
    #[cold]
    #[inline(never)]
    pub fn malformed(reason: Reason) -> Error
        ensures kind { result.kind ≡ ErrorKind.MalformedValue reason }
        ensures no_key { key_of result ≡ None }
    {
        Error::new(ErrorKind::MalformedValue { reason })
    }

    /// Out of memory, without a key.
    #[cold]
    #[inline(never)]
    pub fn out_of_memory() -> Error
        ensures { IsOutOfMemory result }
    {
        Error::new(ErrorKind::OutOfMemory)
    }

    pub(crate) fn into_kind(self) -> ErrorKind
        ensures { result ≡ self.kind }
    {
        self.kind
    }

    /// The key of the element at which the call failed, if the error carries one.
    pub fn key(&self) -> Option<&str>
        ensures { option_copied result ≡ key_of self.now }
    {
        match &self.key {
            None => None,
            Some(key) => Some(key.as_str()),
        }
    }
}

impl Clone for ErrorKind {
    ghost use Rattle.std.specs.Prelude.{◌≡◌};

    ghost is_clone = { λ s t. t ≡ s };

    fn clone(&self) -> std::result::Result<ErrorKind, AllocError> {
        match self {
            ErrorKind::MalformedValue { reason } => Ok(ErrorKind::MalformedValue {
                reason: *reason,
            }),
            ErrorKind::Utf8EncodingError(error) => Ok(ErrorKind::Utf8EncodingError(*error)),
            ErrorKind::OutOfMemory => Ok(ErrorKind::OutOfMemory),
        }
    }
}

impl Clone for Error {
    ghost use Rattle.std.specs.Prelude.{◌≡◌};
    ghost use Rattle.raw_view.specs.Errors.{key_of};

    ghost is_clone = { λ s t. (t.kind ≡ s.kind) × (key_of t ≡ key_of s) };

    fn clone(&self) -> std::result::Result<Error, AllocError> {
        let kind = self.kind.clone()?;
        let key = match &self.key {
            None => None,
            Some(key) => Some(key.clone()?),
        };
        Ok(Error { kind, key })
    }
}

/// An error that borrows its key, from a step that copies nothing. It is never out of memory.
#[derive(Debug, Drop)]
pub struct BorrowedError<'a> {
    /// how the step failed
    pub kind: ErrorKind,
    /// the key of the element at which it failed, if the fault has one
    pub key: Option<&'a str>,
    ghost reading: { IsReadingKind kind },
}

impl<'a> BorrowedError<'a> {
    ghost use Rattle.raw_view.specs.Errors.{HasKeyCopy};
    ghost use Rattle.raw_view.specs.Frame.Front.{TellsBorrowed};
    ghost use Rattle.raw_view.specs.Meaning.{malformed, malformed_at};

    /// Malformed, without a key.
    pub(crate) fn malformed(reason: Reason) -> BorrowedError<'a>
        requires { IsReadingReason reason }
        ensures kind { result.kind ≡ ErrorKind.MalformedValue reason }
        ensures key { result.key ≡ None }
        ensures tells { TellsBorrowed result (malformed reason) }
    {
        BorrowedError {
            kind: ErrorKind::MalformedValue { reason },
            key: None,
        }
    }

    /// Malformed, at this key.
    pub(crate) fn malformed_at(reason: Reason, key: &'a str) -> BorrowedError<'a>
        requires { IsReadingReason reason }
        ensures kind { result.kind ≡ ErrorKind.MalformedValue reason }
        ensures key { option_copied result.key ≡ Some key.now }
        ensures tells { TellsBorrowed result (malformed_at reason key.now) }
    {
        BorrowedError {
            kind: ErrorKind::MalformedValue { reason },
            key: Some(key),
        }
    }

    /// The error with a copy of the key. If there is no memory for the copy, the error is out of memory and
    /// has no key.
    #[cold]
    #[inline(never)]
    pub fn into_error(self, alloc: Global) -> Error
        ensures { HasKeyCopy self.entry.kind (option_copied self.entry.key) result }
    {
        let Some(key) = self.key else {
            return Error::new(self.kind);
        };
        match String::from_str(alloc, key) {
            Ok(key) => Error {
                kind: self.kind,
                key: Some(key),
            },
            Err(AllocError) => Error::out_of_memory(),
        }
    }
}

impl fmt::Display for Error {
    fn fmt<W: fmt::Write>(&self, f: &mut fmt::Formatter<W>) -> fmt::Result {
        if let Some(key) = &self.key {
            write!(f, "error at key \"{key}\": ")?;
        }
        match &self.kind {
            ErrorKind::MalformedValue { reason } => write!(f, "malformed value: \"{reason}\""),
            ErrorKind::Utf8EncodingError(error) => write!(f, "utf-8 encoding error: {error}"),
            ErrorKind::OutOfMemory => write!(f, "out of memory"),
        }
    }
}

impl std::error::Error for Error {}

impl From<AllocError> for Error {
    ghost use Rattle.raw_view.specs.Errors.{IsOutOfMemory};

    ghost from_gives = { λ _ e. IsOutOfMemory e };

    fn from(_error: AllocError) -> Error {
        Error::out_of_memory()
    }
}

impl From<NoMemory> for Error {
    ghost use Rattle.raw_view.specs.Errors.{IsOutOfMemory};

    ghost from_gives = { λ _ e. IsOutOfMemory e };

    fn from(_error: NoMemory) -> Error {
        Error::out_of_memory()
    }
}

impl<T: Drop> From<AllocFailed<T>> for Error {
    ghost use Rattle.raw_view.specs.Errors.{IsOutOfMemory};

    ghost from_gives = { λ _ e. IsOutOfMemory e };

    fn from(_failed: AllocFailed<T>) -> Error {
        Error::out_of_memory()
    }
}
