//! The calls of documents and arrays that are borrowed or owned.

use crate::failure::Failure;
use crate::put::put;
use crate::store::{Store, named};
use crate::words::Words;
use raw_bson::{CowRawArray, CowRawDocument};

/// The document that `from` makes of what the next words say.
fn document<'a>(
    store: &'a Store,
    words: &mut Words<'_, '_>,
) -> Result<CowRawDocument<'a>, Failure> {
    match words.next()? {
        "RawDocument" => Ok(CowRawDocument::from(store.view(words.next()?)?)),
        "&RawDocumentBuf" => Ok(CowRawDocument::from(named(&store.documents, words.next()?)?)),
        "RawDocumentBuf" => {
            let document = named(&store.documents, words.next()?)?;
            Ok(CowRawDocument::from(document.clone()?))
        }
        _ => Err(Failure::Form),
    }
}

/// The array that `from` makes of what the next words say.
fn array<'a>(store: &'a Store, words: &mut Words<'_, '_>) -> Result<CowRawArray<'a>, Failure> {
    match words.next()? {
        "RawArray" => Ok(CowRawArray::from(named(&store.arrays, words.next()?)?.as_ref())),
        "&RawArrayBuf" => Ok(CowRawArray::from(named(&store.arrays, words.next()?)?)),
        "RawArrayBuf" => {
            let array = named(&store.arrays, words.next()?)?;
            Ok(CowRawArray::from(array.clone()?))
        }
        _ => Err(Failure::Form),
    }
}

/// Runs a call of `CowRawDocument`.
pub fn of_document(
    store: &Store,
    call: &str,
    words: &mut Words<'_, '_>,
    out: &mut String,
) -> Result<(), Failure> {
    let document = document(store, words)?;
    match call {
        "from" => put(out, document),
        "as_ref" => put(out, document.as_ref()),
        _ => Err(Failure::Unknown),
    }
}

/// Runs a call of `CowRawArray`.
pub fn of_array(
    store: &Store,
    call: &str,
    words: &mut Words<'_, '_>,
    out: &mut String,
) -> Result<(), Failure> {
    let array = array(store, words)?;
    match call {
        "from" => put(out, array),
        "as_ref" => put(out, array.as_ref()),
        _ => Err(Failure::Unknown),
    }
}
