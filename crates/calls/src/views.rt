//! The calls of views of documents, and of arrays: the array of a document's bytes, its keys ignored.

use crate::failure::Failure;
use crate::getters::{of_array_view, of_view};
use crate::put::{put, put_items};
use crate::store::Store;
use crate::words::Words;
use raw_bson::{BorrowedError, NoDocument, RawArray, RawDocument};
use std::alloc::Global;

/// Runs a call of `RawDocument`.
pub fn of_document(
    alloc: Global,
    store: &Store,
    call: &str,
    words: &mut Words<'_, '_>,
    out: &mut String,
) -> Result<(), Failure> {
    match call {
        "from_bytes" => put(out, RawDocument::from_bytes(&words.all_bytes(alloc)?)),
        "split_first" => split_first(&words.all_bytes(alloc)?, out),
        "eq" => {
            let view = store.view(words.next()?)?;
            let other = store.view(words.next()?)?;
            put(out, view == other)
        }
        _ => {
            let view = store.view(words.next()?)?;
            of_view_alone(alloc, view, call, words, out)
        }
    }
}

/// Writes the document at the front of bytes, and how many bytes are after it.
fn split_first(bytes: &[u8], out: &mut String) -> Result<(), Failure> {
    match RawDocument::split_first(bytes) {
        Ok((document, behind)) => {
            put(out, document)?;
            put(out, behind)
        }
        Err(NoDocument::TooShort) => Ok(out.push_str("Err TooShort\n")?),
        Err(NoDocument::LengthIncorrect) => Ok(out.push_str("Err LengthIncorrect\n")?),
        Err(NoDocument::NotTerminated(len)) => Ok(writeln!(out, "Err NotTerminated({len})")?),
    }
}

fn of_view_alone(
    alloc: Global,
    view: RawDocument<'_>,
    call: &str,
    words: &mut Words<'_, '_>,
    out: &mut String,
) -> Result<(), Failure> {
    match call {
        "as_bytes" => put(out, view.as_bytes()),
        "is_empty" => put(out, view.is_empty()),
        "iter" => put_items(out, view.iter(alloc)),
        "iter_elements" => put_items(out, view.iter_elements(alloc)),
        "count" => put(out, owned_fault(alloc, view.count())),
        "element_at" => put(out, owned_fault(alloc, view.element_at(words.number()?))),
        "fmt" => Ok(writeln!(out, "{view:?}")?),
        _ => by_key(alloc, view, call, words.text(alloc)?, out),
    }
}

fn by_key(
    alloc: Global,
    view: RawDocument<'_>,
    call: &str,
    key: String,
    out: &mut String,
) -> Result<(), Failure> {
    let key = key.as_str();
    match call {
        "get" => put(out, view.get(alloc, key)),
        "contains_key" => put(out, view.contains_key(alloc, key)),
        "get_element" => put(out, owned_fault(alloc, view.get_element(key))),
        _ => of_view(view, call, out, alloc, key),
    }
}

/// What a call returned, with an error that has a copy of the key.
pub fn owned_fault<T: Drop>(
    alloc: Global,
    outcome: Result<T, BorrowedError<'_>>,
) -> raw_bson::Result<T> {
    match outcome {
        Ok(value) => Ok(value),
        Err(error) => Err(error.into_error(alloc)),
    }
}

/// Runs a call of `RawArray`.
pub fn of_array(
    alloc: Global,
    store: &Store,
    call: &str,
    words: &mut Words<'_, '_>,
    out: &mut String,
) -> Result<(), Failure> {
    let view = RawArray::from_doc(store.view(words.next()?)?);
    match call {
        "eq" => put(out, view == RawArray::from_doc(store.view(words.next()?)?)),
        "as_doc" => put(out, view.as_doc()),
        "as_bytes" => put(out, view.as_bytes()),
        "is_empty" => put(out, view.is_empty()),
        "iter" => put_items(out, view.iter(alloc)),
        "fmt" => Ok(writeln!(out, "{view:?}")?),
        "get" => put(out, view.get(alloc, words.number()?)),
        _ => of_array_view(view, call, out, alloc, words.number()?),
    }
}
