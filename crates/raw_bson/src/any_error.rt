//! The error that every other error of the library turns into.
ghost use Rattle.std.specs.Prelude.{◌≡◌};
ghost use Rattle.std.specs.Option.{option_copied};
ghost use Rattle.raw_bson.specs.AnyErrors.{any_key};

use bson_model::NoMemory;
use raw_view::{Error, ValueAccessError};
use std::alloc::{AllocError, AllocFailed};
use std::fmt;

/// Any error of this library: of reading and writing, or of typed access. `?` turns both into it, and out of
/// memory too. No conversion takes memory.
/// ```
/// let missing = AnyError::from(RawDocumentBuf::new(alloc)?.get_i32("a").unwrap_err());
/// assert_eq!(rt; missing.key(), Some("a"));
/// ```
#[derive(Debug, PartialEq, Eq, Drop)]
pub enum AnyError {
    /// A call that reads or writes failed.
    Raw(Error),
    /// A typed getter has no value.
    Access(ValueAccessError),
}

impl AnyError {
    /// The key that the error carries: that of the element at fault, or the one that a getter was asked for.
    pub fn key(&self) -> Option<&str>
        ensures { option_copied result ≡ any_key self.now }
    {
        match self {
            AnyError::Raw(error) => error.key(),
            AnyError::Access(error) => Some(error.key()),
        }
    }
}

impl fmt::Display for AnyError {
    fn fmt<W: fmt::Write>(&self, f: &mut fmt::Formatter<W>) -> fmt::Result {
        match self {
            AnyError::Raw(error) => error.fmt(f),
            AnyError::Access(error) => error.fmt(f),
        }
    }
}

impl std::error::Error for AnyError {}

impl Clone for AnyError {
    ghost use Rattle.raw_bson.specs.AnyErrors.{IsSameAnyError};

    ghost is_clone = { IsSameAnyError };

    fn clone(&self) -> Result<AnyError, AllocError> {
        match self {
            AnyError::Raw(error) => Ok(AnyError::Raw(error.clone()?)),
            AnyError::Access(error) => Ok(AnyError::Access(error.clone()?)),
        }
    }
}

impl From<Error> for AnyError {
    ghost use Rattle.raw_bson.specs.declared.any_error.AnyError.TheVariants as variants;

    ghost from_gives = { λ error any. any ≡ variants.Raw error };

    fn from(error: Error) -> AnyError {
        AnyError::Raw(error)
    }
}

impl From<ValueAccessError> for AnyError {
    ghost use Rattle.raw_bson.specs.declared.any_error.AnyError.TheVariants as variants;

    ghost from_gives = { λ error any. any ≡ variants.Access error };

    fn from(access: ValueAccessError) -> AnyError {
        AnyError::Access(access)
    }
}

impl From<AllocError> for AnyError {
    ghost use Rattle.raw_bson.specs.AnyErrors.{IsAnyOutOfMemory};

    ghost from_gives = { λ _ any. IsAnyOutOfMemory any };

    fn from(error: AllocError) -> AnyError {
        AnyError::Raw(Error::from(error))
    }
}

impl From<NoMemory> for AnyError {
    ghost use Rattle.raw_bson.specs.AnyErrors.{IsAnyOutOfMemory};

    ghost from_gives = { λ _ any. IsAnyOutOfMemory any };

    fn from(error: NoMemory) -> AnyError {
        AnyError::Raw(Error::from(error))
    }
}

impl<T: Drop> From<AllocFailed<T>> for AnyError {
    ghost use Rattle.raw_bson.specs.AnyErrors.{IsAnyOutOfMemory};

    ghost from_gives = { λ _ any. IsAnyOutOfMemory any };

    fn from(error: AllocFailed<T>) -> AnyError {
        AnyError::Raw(Error::from(error))
    }
}
