//! Checks of the calls that write trees and forms.

use raw_bson::Result;

/// Whether the result is these bytes.
pub(crate) fn is_written(answer: &Result<Vec<u8>>, bytes: &[u8]) -> bool {
    match answer {
        Ok(written) => written.as_slice() == bytes,
        Err(_) => false,
    }
}
