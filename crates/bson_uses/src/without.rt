//! A copy of a document without some elements.
ghost use Rattle.std.specs.Prelude.{IfOk, IfErr};
ghost use Rattle.raw_bson.specs.Copying.{IsCopy};
ghost use Rattle.raw_bson.specs.Document.{bytes_of};
ghost use Rattle.bson_uses.specs.Without.{LeavesOut, RefusesCopy};

use raw_bson::{RawDocument, RawDocumentBuf, Result};
use std::alloc::Global;

/// A copy of the document without the elements of this key, whose values aren't decoded; or the fault at which the
/// document stops, or out of memory.
/// ```
/// // the numbers 1, 2 and 3 under `a`, `b` and `a`
/// let bytes = b"\x1A\0\0\0\x10a\0\x01\0\0\0\x10b\0\x02\0\0\0\x10a\0\x03\0\0\0\0";
/// let copy = copy_without(alloc, RawDocument::from_bytes(bytes)?, "a")?;
/// assert_eq!(rt; copy.as_bytes(), b"\x0C\0\0\0\x10b\0\x02\0\0\0\0".as_slice());
/// ```
pub fn copy_without(alloc: Global, document: RawDocument<'_>, key: &str) -> Result<RawDocumentBuf>
    ensures copied { IfOk result (IsCopy (LeavesOut key.now) (bytes_of document.entry)) }
    ensures refused { IfErr result (RefusesCopy (bytes_of document.entry)) }
{
    let mut copy = RawDocumentBuf::new(alloc)?;
    for element in document.iter_elements(alloc) {
        let element = element?;
        if element.key() != key {
            copy.append_element(element)?;
        }
    }
    Ok(copy)
}
