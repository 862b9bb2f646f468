//! The errors of typed getters.
ghost use Rattle.std.specs.Prelude.{◌≡◌, ◌⊎◌, []};

use crate::element_type::ElementType;
use crate::error::Error;
use std::alloc::{AllocError, Global};
use std::fmt;

/// What a typed getter returns: a value, or a `ValueAccessError`.
pub type ValueAccessResult<T> = std::result::Result<T, ValueAccessError>;

/// Why a typed getter has no value.
/// ```
/// let document = RawDocument::from_bytes(b"\x0C\0\0\0\x10a\0\x01\0\0\0\0")?;
/// let missing = document.get_i32(alloc, "b").map_err(|error| error.kind);
/// assert_eq!(rt; missing, Err(ValueAccessErrorKind::NotPresent));
/// ```
#[derive(Debug, PartialEq, Eq, Drop)]
pub enum ValueAccessErrorKind {
    /// Nothing is at the key.
    NotPresent,
    /// Another kind of value is there.
    UnexpectedType {
        /// the kind that was asked for
        expected: ElementType,
        /// the kind that is there
        actual: ElementType,
    },
    /// The look-up found a fault.
    InvalidBson(Error),
    /// Memory ran out.
    OutOfMemory,
}

/// Why a typed getter has no value, with the key or the index in decimal that was asked for.
/// ```
/// let document = RawDocument::from_bytes(b"\x0C\0\0\0\x10a\0\x01\0\0\0\0")?;
/// let Err(error) = document.get_str(alloc, "a") else { unreachable!() };
/// assert_eq!(rt; error.key(), "a");
/// ```
#[derive(Debug, PartialEq, Eq, Drop)]
pub struct ValueAccessError {
    /// why there is no value
    pub kind: ValueAccessErrorKind,
    key: String,
}

impl ValueAccessError {
    ghost use Rattle.std.specs.Fmt.{decimal};
    ghost use Rattle.raw_view.specs.Errors.Access.{key_asked, HasKeyAsked};
    ghost use Rattle.raw_view.specs.declared.access.ValueAccessErrorKind.TheVariants as access;

    /// The key that was asked for, or the index in decimal. It is empty if memory ran out.
    pub fn key(&self) -> &str
        ensures { result.now ≡ key_asked self.now }
    {
        self.key.as_str()
    }

    /// An error with a copy of the key. If there is no memory for the copy, the error is out of memory and
    /// has the empty key.
    pub(crate) fn new(alloc: Global, kind: ValueAccessErrorKind, key: &str) -> ValueAccessError
        ensures { HasKeyAsked kind key.now result }
    {
        if matches!(kind, ValueAccessErrorKind::OutOfMemory) {
            return ValueAccessError::out_of_memory(alloc);
        }
        match String::from_str(alloc, key) {
            Ok(key) => ValueAccessError { kind, key },
            Err(AllocError) => ValueAccessError::out_of_memory(alloc),
        }
    }

    /// An error with the index in decimal. If there is no memory for the text, the error is out of memory and
    /// has the empty key.
    pub(crate) fn at_index(
        alloc: Global,
        kind: ValueAccessErrorKind,
        index: usize,
    ) -> ValueAccessError
        ensures { HasKeyAsked kind (decimal index) result }
    {
        if matches!(kind, ValueAccessErrorKind::OutOfMemory) {
            return ValueAccessError::out_of_memory(alloc);
        }
        match index.to_string(alloc) {
            Ok(key) => ValueAccessError { kind, key },
            Err(AllocError) => ValueAccessError::out_of_memory(alloc),
        }
    }

    fn out_of_memory(alloc: Global) -> ValueAccessError
        ensures { (result.kind ≡ access.OutOfMemory) × (key_asked result ≡ []) }
    {
        ValueAccessError {
            kind: ValueAccessErrorKind::OutOfMemory,
            key: String::new(alloc),
        }
    }
}

impl fmt::Display for ValueAccessError {
    fn fmt<W: fmt::Write>(&self, f: &mut fmt::Formatter<W>) -> fmt::Result {
        let key = self.key();
        write!(f, "error at key: \"{key}\": ")?;
        match &self.kind {
            ValueAccessErrorKind::NotPresent => write!(f, "value not present"),
            ValueAccessErrorKind::UnexpectedType { expected, actual } => write!(
                f,
                " unexpected element type: {actual:?}, expected: {expected:?}"
            ),
            ValueAccessErrorKind::InvalidBson(error) => write!(f, ": {error}"),
            ValueAccessErrorKind::OutOfMemory => write!(f, "out of memory"),
        }
    }
}

impl std::error::Error for ValueAccessError {}

impl Clone for ValueAccessErrorKind {
    ghost use Rattle.raw_view.specs.Errors.Access.{IsSameAccess};

    ghost is_clone = { IsSameAccess };

    fn clone(&self) -> std::result::Result<ValueAccessErrorKind, AllocError> {
        match self {
            ValueAccessErrorKind::NotPresent => Ok(ValueAccessErrorKind::NotPresent),
            ValueAccessErrorKind::UnexpectedType { expected, actual } => {
                Ok(ValueAccessErrorKind::UnexpectedType {
                    expected: *expected,
                    actual: *actual,
                })
            }
            ValueAccessErrorKind::InvalidBson(error) => {
                Ok(ValueAccessErrorKind::InvalidBson(error.clone()?))
            }
            ValueAccessErrorKind::OutOfMemory => Ok(ValueAccessErrorKind::OutOfMemory),
        }
    }
}

impl Clone for ValueAccessError {
    ghost use Rattle.std.specs.Prelude.{◌≡◌};
    ghost use Rattle.raw_view.specs.Errors.Access.{IsSameAccess, key_asked};

    ghost is_clone = { λ s t. IsSameAccess s.kind t.kind × (key_asked t ≡ key_asked s) };

    fn clone(&self) -> std::result::Result<ValueAccessError, AllocError> {
        let kind = self.kind.clone()?;
        let key = self.key.clone()?;
        Ok(ValueAccessError { kind, key })
    }
}
