//! Nulls that are counted in a document.
ghost use Rattle.std.specs.Prelude.{◌≡◌, ◌<◌, ◌+◌, ◌^◌};
ghost use Rattle.raw_bson.specs.Document.{bytes_of};
ghost use Rattle.raw_bson.specs.Folds.{FoldsEach};
ghost use Rattle.raw_bson.specs.Value.{value_of};
ghost use Rattle.bson_uses.specs.Nulls.{CountsNull, with_null};

use raw_bson::{RawBsonRef, RawDocument, Result};
use std::alloc::Global;

/// The count, plus one if the value is null.
fn plus_null(nulls: usize, value: RawBsonRef<'_>) -> usize
    requires { nulls + 1 < 2 ^ 64 }
    ensures { result ≡ with_null nulls (value_of value.entry) }
{
    match value {
        RawBsonRef::Null => nulls + 1,
        _ => nulls,
    }
}

/// The number of null values of the document, or its first fault, nested documents aside.
/// ```
/// let document = RawDocument::from_bytes(b"\x0B\0\0\0\x0Aa\0\x0Ab\0\0")?;
/// assert_eq!(rt; count_nulls(alloc, document)?, 2);
/// ```
pub fn count_nulls(alloc: Global, document: RawDocument<'_>) -> Result<usize>
    ensures { FoldsEach (λ e. e) CountsNull 0 (bytes_of document.entry) result }
{
    let mut nulls = 0;
    for item in document.iter(alloc) {
        let (_, value) = item?;
        nulls = plus_null(nulls, value);
    }
    Ok(nulls)
}
