//! The laws: what is equal, and what a contract may say of any value.

use crate::failure::Failure;
use crate::owned::{code, owned};
use crate::put::put;
use crate::store::{Store, named};
use crate::tree::{LEVELS, document, list, tree};
use crate::words::Words;
use raw_bson::RawArray;
use raw_bson::laws::{
    attest_bytes, attest_document, attest_element, attest_list, attest_one_tree, attest_u32,
    attest_u64, attest_value, attest_view, is_same_array_buf, is_same_array_view, is_same_code,
    is_same_document, is_same_document_buf, is_same_tree, is_same_value, is_same_value_ref,
    is_same_view,
};
use std::alloc::Global;

/// Runs a law on what has a name.
pub fn of_named(
    alloc: Global,
    store: &Store,
    call: &str,
    words: &mut Words<'_, '_>,
    out: &mut String,
) -> Result<(), Failure> {
    match call {
        "is_same_view" => {
            let view = store.view(words.next()?)?;
            put(out, is_same_view(view, store.view(words.next()?)?))
        }
        "is_same_array_view" => {
            let view = RawArray::from_doc(store.view(words.next()?)?);
            let other = RawArray::from_doc(store.view(words.next()?)?);
            put(out, is_same_array_view(view, other))
        }
        "is_same_document_buf" => {
            let document = named(&store.documents, words.next()?)?;
            put(
                out,
                is_same_document_buf(document, named(&store.documents, words.next()?)?),
            )
        }
        "is_same_array_buf" => {
            let array = named(&store.arrays, words.next()?)?;
            put(
                out,
                is_same_array_buf(array, named(&store.arrays, words.next()?)?),
            )
        }
        "attest_element" => match store.view(words.next()?)?.element_at(words.number()?) {
            Ok(Some(element)) => {
                attest_element(element);
                put(out, ())
            }
            _ => Err(Failure::Form),
        },
        _ => of_values(alloc, store, call, words, out),
    }
}

/// Runs a law on values.
fn of_values(
    alloc: Global,
    store: &Store,
    call: &str,
    words: &mut Words<'_, '_>,
    out: &mut String,
) -> Result<(), Failure> {
    match call {
        "is_same_value" => {
            let value = owned(alloc, store, words)?;
            put(out, is_same_value(&value, &owned(alloc, store, words)?))
        }
        "is_same_value_ref" => {
            let value = owned(alloc, store, words)?;
            let other = owned(alloc, store, words)?;
            put(
                out,
                is_same_value_ref(value.as_raw_bson_ref(), other.as_raw_bson_ref()),
            )
        }
        "is_same_code" => {
            let value = code(alloc, store, words)?;
            put(out, is_same_code(&value, &code(alloc, store, words)?))
        }
        "attest_view" => {
            attest_view(owned(alloc, store, words)?.as_raw_bson_ref());
            put(out, ())
        }
        "attest_one_tree" => {
            attest_one_tree(&owned(alloc, store, words)?);
            put(out, ())
        }
        _ => of_trees(alloc, call, words, out),
    }
}

/// Runs a law on trees.
fn of_trees(
    alloc: Global,
    call: &str,
    words: &mut Words<'_, '_>,
    out: &mut String,
) -> Result<(), Failure> {
    match call {
        "is_same_tree" => {
            let value = tree(LEVELS, alloc, words)?;
            put(out, is_same_tree(&value, &tree(LEVELS, alloc, words)?))
        }
        "is_same_document" => {
            let value = document(LEVELS, alloc, words)?;
            put(
                out,
                is_same_document(&value, &document(LEVELS, alloc, words)?),
            )
        }
        "attest_value" => {
            attest_value(&tree(LEVELS, alloc, words)?);
            put(out, ())
        }
        "attest_document" => {
            attest_document(&document(LEVELS, alloc, words)?);
            put(out, ())
        }
        "attest_list" => {
            attest_list(&list(LEVELS, alloc, words)?);
            put(out, ())
        }
        _ => of_numbers(alloc, call, words, out),
    }
}

/// Runs a law on bytes and numbers.
fn of_numbers(
    alloc: Global,
    call: &str,
    words: &mut Words<'_, '_>,
    out: &mut String,
) -> Result<(), Failure> {
    match call {
        "attest_bytes" => attest_bytes(&words.bytes(alloc)?),
        "attest_u32" => attest_u32(words.unsigned()?),
        "attest_u64" => attest_u64(words.number()? as u64),
        _ => return Err(Failure::Unknown),
    }
    put(out, ())
}
