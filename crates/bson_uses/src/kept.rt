ghost use Rattle.std.specs.Prelude.{◌≡◌, IfErr, IfOk, OnErr};
ghost use Rattle.raw_bson.specs.Conversion.{RefusesForm};
ghost use Rattle.bson_uses.specs.Keeping.{IsKept};

use raw_bson::{Error, RawDocumentBuf, Result, canonical_bytes};
use raw_shelf::{PutError, Shelf};
use std::alloc::Global;

/// Keeps a document in its canonical form, unless a document with the same tree is there. Returns whether it was new. It
/// fails as `canonical_bytes` does, and then leaves the shelf as it was.
/// ```
/// let mut shelf = Shelf::new(alloc);
/// assert!(rt; keep(alloc, &mut shelf, b"\x13\0\0\0\x10a\0\x01\0\0\0\x10a\0\x02\0\0\0\0")?);
/// assert!(rt; !keep(alloc, &mut shelf, b"\x0C\0\0\0\x10a\0\x02\0\0\0\0")?);
/// assert!(rt; keep(alloc, &mut shelf, b"\x05\0\0\0\0")? && shelf.len() == 2);
/// ```
pub fn keep(alloc: Global, shelf: &mut Shelf, bytes: &[u8]) -> Result<bool>
    ensures kept { IfOk result (λ is_new. IsKept shelf.old bytes.now is_new shelf.new) }
    ensures left { OnErr result (shelf.new ≡ shelf.old) }
    ensures refused { IfErr result (RefusesForm bytes.now) }
{
    let form = RawDocumentBuf::from_bytes(canonical_bytes(alloc, bytes)?)?;
    match shelf.put(form) {
        Ok(is_new) => Ok(is_new),
        Err(PutError::OutOfMemory) => Err(Error::out_of_memory()),
        Err(PutError::Breach(_)) => unreachable!(),
    }
}
