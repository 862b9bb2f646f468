//! Checks of results that own memory.
use crate::fixtures::{Checks, is_same};
use raw_bson::{RawArrayBuf, RawBson, RawBsonRef, RawDocumentBuf, Result};

/// Checks of results that own memory.
pub(crate) trait OwnedChecks {
    /// Whether the result is a document of these bytes, or out of memory.
    fn is_document(self, answer: &Result<RawDocumentBuf>, bytes: &[u8]) -> bool;

    /// Whether the result is an array of these bytes, or out of memory.
    fn is_array(self, answer: &Result<RawArrayBuf>, bytes: &[u8]) -> bool;

    /// Whether the result is exactly these bytes, or out of memory.
    fn is_list(self, answer: &Result<Vec<u8>>, bytes: &[u8]) -> bool;

    /// Whether the result is this value, or out of memory.
    fn is_value(self, answer: &Result<RawBson>, value: RawBsonRef<'_>) -> bool;
}

impl OwnedChecks for Checks {
    fn is_document(self, answer: &Result<RawDocumentBuf>, bytes: &[u8]) -> bool {
        match answer {
            Ok(document) => document.as_bytes() == bytes,
            Err(error) => self.is_out_of_memory(error),
        }
    }

    fn is_array(self, answer: &Result<RawArrayBuf>, bytes: &[u8]) -> bool {
        match answer {
            Ok(array) => array.as_bytes() == bytes,
            Err(error) => self.is_out_of_memory(error),
        }
    }

    fn is_list(self, answer: &Result<Vec<u8>>, bytes: &[u8]) -> bool {
        match answer {
            Ok(list) => list.as_slice() == bytes,
            Err(error) => self.is_out_of_memory(error),
        }
    }

    fn is_value(self, answer: &Result<RawBson>, value: RawBsonRef<'_>) -> bool {
        match answer {
            Ok(owned) => is_same(owned, value),
            Err(error) => self.is_out_of_memory(error),
        }
    }
}
