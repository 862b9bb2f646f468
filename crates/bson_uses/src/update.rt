//! Updates: a copy of a document with one value changed.
ghost use Rattle.std.specs.Prelude.{IfOk, IfErr};
ghost use Rattle.raw_bson.specs.Copying.{IsCopy};
ghost use Rattle.raw_bson.specs.Document.{bytes_of};
ghost use Rattle.raw_bson.specs.ElementSteps.{frame_of};
ghost use Rattle.raw_bson.specs.Value.{value_of};
ghost use Rattle.bson_uses.specs.Path.{keys_of};
ghost use Rattle.bson_uses.specs.Updates.{IsChange, RefusesSet, Sets, TellsInside};

use raw_bson::{RawBsonRef, RawDocument, RawDocumentBuf, RawElement, Result};
use std::alloc::Global;

/// What becomes of an element.
#[derive(Clone, Copy)]
enum Change<'a, 'p, 'k> {
    /// it stays as it is
    Keep,
    /// it has the new value
    Put,
    /// it is a document, in which a value is set under these keys
    Below(RawDocument<'a>, &'p [&'k str]),
}

/// The document that the element means, if it means one.
fn document_in<'a>(alloc: Global, element: RawElement<'a>) -> Option<RawDocument<'a>>
    ensures { TellsInside (frame_of element.entry) result }
{
    match element.value(alloc) {
        Ok(value) => value.as_document(),
        Err(_) => None,
    }
}

/// What becomes of the element if a value is set under these keys.
fn change_of<'a, 'p, 'k>(
    alloc: Global,
    element: RawElement<'a>,
    path: &'p [&'k str],
) -> Change<'a, 'p, 'k>
    ensures { IsChange (keys_of path.now) (frame_of element.entry) result }
{
    let Some((key, keys)) = path.split_first() else {
        return Change::Keep;
    };
    if element.key() != *key {
        return Change::Keep;
    }
    let Some(_) = keys.split_first() else {
        return Change::Put;
    };
    match document_in(alloc, element) {
        Some(document) => Change::Below(document, keys),
        None => Change::Keep,
    }
}

/// A copy of the document in which each value under these keys, one inside the other, is replaced by this one; all
/// other bytes are unchanged. If nothing is under the keys, the copy has the same elements.
/// ```
/// // under `b` the number 2 under `c`, and under `d` a boolean that is neither 0 nor 1
/// let bytes = b"\x1F\0\0\0\x10a\0\x01\0\0\0\x03b\0\x10\0\0\0\x10c\0\x02\0\0\0\x08d\0\x02\0\0";
/// let set = set_path(alloc, RawDocument::from_bytes(bytes)?, &["b", "c"], RawBsonRef::Null)?;
/// let wanted = b"\x1B\0\0\0\x10a\0\x01\0\0\0\x03b\0\x0C\0\0\0\x0Ac\0\x08d\0\x02\0\0";
/// assert_eq!(rt; set.as_bytes(), wanted.as_slice());
/// ```
pub fn set_path(
    alloc: Global,
    document: RawDocument<'_>,
    path: &[&str],
    value: RawBsonRef<'_>,
) -> Result<RawDocumentBuf>
    ensures copied { IfOk result (IsCopy (Sets (keys_of path.now) (value_of value.entry)) (bytes_of document.entry)) }
    ensures refused { IfErr result (RefusesSet (keys_of path.now) (value_of value.entry) (bytes_of document.entry)) }
{
    let mut copy = RawDocumentBuf::new(alloc)?;
    for element in document.iter_elements(alloc) {
        let element = element?;
        match change_of(alloc, element, path) {
            Change::Keep => copy.append_element(element)?,
            Change::Put => copy.append_ref(element.key(), value)?,
            Change::Below(inside, keys) => {
                let below = set_path(alloc, inside, keys, value)?;
                copy.append_ref(element.key(), RawBsonRef::from(&below))?;
            }
        }
    }
    Ok(copy)
}
