//! The error of a put.
use raw_bson::Breach;
use std::error::Error;
use std::fmt;

/// Why a document wasn't put on a shelf, which is unchanged.
/// ```
/// let twice = Vec::from_slice(alloc, b"\x13\0\0\0\x10a\0\x01\0\0\0\x10a\0\x02\0\0\0\0")?;
/// let error = Shelf::new(alloc).put(RawDocumentBuf::from_bytes(twice)?).unwrap_err();
/// assert_eq!(rt; format!(in alloc; "{error}")?.as_str(), "not canonical: repeated-key at 1");
/// assert_eq!(rt; format!(in alloc; "{error:?}")?.as_str(), "Breach(Breach { path: [1], cause: RepeatedKey })");
/// ```
#[derive(Debug, PartialEq, Eq, Drop)]
pub enum PutError {
    /// It isn't canonical: its first breach.
    Breach(Breach),
    /// Memory ran out.
    OutOfMemory,
}

impl fmt::Display for PutError {
    fn fmt<W: fmt::Write>(&self, f: &mut fmt::Formatter<W>) -> fmt::Result {
        match self {
            PutError::Breach(breach) => write!(f, "not canonical: {breach}"),
            PutError::OutOfMemory => f.write_str("out of memory"),
        }
    }
}

impl Error for PutError {}
