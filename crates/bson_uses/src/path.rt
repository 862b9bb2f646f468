//! Look-up in nested documents.
ghost use Rattle.std.specs.Prelude.{Option};
ghost use Rattle.raw_bson.specs.Answers.{TellsFound};
ghost use Rattle.raw_bson.specs.Meaning.{Meaning};
ghost use Rattle.raw_bson.specs.Value.{value_of};
ghost use Rattle.bson_uses.specs.Path.{GoesDown, keys_of};

use raw_bson::{RawBsonRef, Result};
use std::alloc::Global;

/// The value under these keys, one inside the other; without keys it is this value itself. In a value that is no
/// document there is none.
/// ```
/// let document = RawDocument::from_bytes(b"\x10\0\0\0\x03a\0\x08\0\0\0\x0Ab\0\0\0")?;
/// let here = RawBsonRef::Document(document);
/// assert_eq!(rt; find_path(alloc, here, &["a", "b"])?, Some(RawBsonRef::Null));
/// assert_eq!(rt; find_path(alloc, here, &["a", "c"])?, None);
/// ```
pub fn find_path<'a>(
    alloc: Global,
    here: RawBsonRef<'a>,
    path: &[&str],
) -> Result<Option<RawBsonRef<'a>>>
    ensures { (found : Option Meaning) × GoesDown (value_of here.entry) (keys_of path.now) found
        × TellsFound result found }
{
    let Some((key, keys)) = path.split_first() else {
        return Ok(Some(here));
    };
    let RawBsonRef::Document(document) = here else {
        return Ok(None);
    };
    match document.get(alloc, key)? {
        Some(below) => find_path(alloc, below, keys),
        None => Ok(None),
    }
}
