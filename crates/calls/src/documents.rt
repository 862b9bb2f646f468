//! The calls of documents that own their bytes.

use crate::failure::Failure;
use crate::getters::of_document;
use crate::nests::nest;
use crate::owned::owned;
use crate::put::{put, put_items};
use crate::store::{Store, named, named_mut};
use crate::tree::{LEVELS, document};
use crate::words::Words;
use raw_bson::{
    RawBson, RawDocumentBuf, Result as BsonResult, ToRawDocumentBuf, canonical_bytes, encode,
};
use std::alloc::Global;

/// Whether a call makes a document that a line may name.
pub fn is_made(call: &str) -> bool {
    matches!(
        call,
        "RawDocumentBuf::new"
            | "RawDocumentBuf::from_bytes"
            | "RawDocumentBuf::from_iter"
            | "RawDocumentBuf::from_document"
            | "RawDocumentBuf::try_from_document"
            | "RawDocumentBuf::clone"
            | "RawDocument::to_raw_document_buf"
            | "canonical_bytes"
            | "encode"
            | "nest"
    )
}

/// The document of bytes.
fn of_bytes(bytes: BsonResult<Vec<u8>>) -> BsonResult<RawDocumentBuf> {
    RawDocumentBuf::from_bytes(bytes?)
}

/// The document that a call makes.
pub fn made(
    alloc: Global,
    store: &Store,
    call: &str,
    words: &mut Words<'_, '_>,
) -> Result<BsonResult<RawDocumentBuf>, Failure> {
    match call {
        "RawDocumentBuf::new" => Ok(RawDocumentBuf::new(alloc)),
        "RawDocumentBuf::from_bytes" => Ok(RawDocumentBuf::from_bytes(words.all_bytes(alloc)?)),
        "RawDocumentBuf::from_iter" => from_iter(alloc, store, words),
        "RawDocumentBuf::clone" => { Ok(Ok(named(&store.documents, words.next()?)?.clone()?)) }
        "RawDocument::to_raw_document_buf" => {
            Ok(store.view(words.next()?)?.to_raw_document_buf(alloc))
        }
        "canonical_bytes" => {
            let view = store.view(words.next()?)?;
            Ok(of_bytes(canonical_bytes(alloc, view.as_bytes())))
        }
        "nest" => Ok(RawDocumentBuf::from_bytes(nest(alloc, words)?)),
        _ => of_tree(alloc, store, call, words),
    }
}

/// The document that a call makes of a tree: one that has a name, or is written.
fn of_tree(
    alloc: Global,
    store: &Store,
    call: &str,
    words: &mut Words<'_, '_>,
) -> Result<BsonResult<RawDocumentBuf>, Failure> {
    if words.is_next("{") {
        let tree = document(LEVELS, alloc, words)?;
        return written(alloc, &tree, call);
    }
    written(alloc, named(&store.trees, words.next()?)?, call)
}

fn written(
    alloc: Global,
    tree: &raw_bson::Document,
    call: &str,
) -> Result<BsonResult<RawDocumentBuf>, Failure> {
    match call {
        "RawDocumentBuf::from_document" => Ok(RawDocumentBuf::from_document(alloc, tree)),
        "RawDocumentBuf::try_from_document" => Ok(RawDocumentBuf::try_from_document(alloc, tree)),
        "encode" => Ok(of_bytes(encode(alloc, tree))),
        _ => Err(Failure::Unknown),
    }
}

/// The keys and values of pairs between braces.
fn pairs(
    alloc: Global,
    store: &Store,
    words: &mut Words<'_, '_>,
) -> Result<(Vec<String>, Vec<RawBson>), Failure> {
    let mut keys = Vec::new(alloc);
    let mut values = Vec::new(alloc);
    for _ in 0..words.len() {
        if words.skip("}") {
            return Ok((keys, values));
        }
        keys.push(words.text(alloc)?)?;
        values.push(owned(alloc, store, words)?)?;
    }
    Err(Failure::Form)
}

fn from_iter(
    alloc: Global,
    store: &Store,
    words: &mut Words<'_, '_>,
) -> Result<BsonResult<RawDocumentBuf>, Failure> {
    if !words.skip("{") {
        return Err(Failure::Form);
    }
    let (keys, values) = pairs(alloc, store, words)?;
    let mut given = Vec::new(alloc);
    for (key, value) in keys.iter().zip(values) {
        given.push((key.as_str(), value))?;
    }
    Ok(RawDocumentBuf::from_iter(alloc, given.into_iter()))
}

/// Runs a call of `RawDocumentBuf` that makes none.
pub fn run(
    alloc: Global,
    store: &mut Store,
    call: &str,
    words: &mut Words<'_, '_>,
    out: &mut String,
) -> Result<(), Failure> {
    match call {
        "append" => append(alloc, store, words, out),
        "append_ref" => append_ref(alloc, store, words, out),
        "append_element" => append_element(alloc, store, words, out),
        "eq" => {
            let document = named(&store.documents, words.next()?)?;
            put(out, document == named(&store.documents, words.next()?)?)
        }
        _ => read(
            alloc,
            named(&store.documents, words.next()?)?,
            call,
            words,
            out,
        ),
    }
}

fn append(
    alloc: Global,
    store: &mut Store,
    words: &mut Words<'_, '_>,
    out: &mut String,
) -> Result<(), Failure> {
    let name = words.next()?;
    let key = words.text(alloc)?;
    let value = owned(alloc, store, words)?;
    put(
        out,
        named_mut(&mut store.documents, name)?.append(key.as_str(), value),
    )
}

fn append_ref(
    alloc: Global,
    store: &mut Store,
    words: &mut Words<'_, '_>,
    out: &mut String,
) -> Result<(), Failure> {
    let name = words.next()?;
    let key = words.text(alloc)?;
    let value = owned(alloc, store, words)?;
    let document = named_mut(&mut store.documents, name)?;
    put(
        out,
        document.append_ref(key.as_str(), value.as_raw_bson_ref()),
    )
}

/// Appends the element of a number of another document.
fn append_element(
    alloc: Global,
    store: &mut Store,
    words: &mut Words<'_, '_>,
    out: &mut String,
) -> Result<(), Failure> {
    let name = words.next()?;
    let other = named(&store.documents, words.next()?)?.clone()?;
    let number = words.number()?;
    let document = named_mut(&mut store.documents, name)?;
    match other.as_ref().element_at(number) {
        Ok(Some(element)) => put(out, document.append_element(element)),
        _ => Err(Failure::Form),
    }
}

fn read(
    alloc: Global,
    document: &RawDocumentBuf,
    call: &str,
    words: &mut Words<'_, '_>,
    out: &mut String,
) -> Result<(), Failure> {
    match call {
        "as_bytes" => put(out, document.as_bytes()),
        "as_ref" => put(out, document.as_ref()),
        "into_bytes" => put(out, document.clone()?.into_bytes()),
        "is_empty" => put(out, document.is_empty()),
        "iter" => put_items(out, document.iter()),
        "iter_elements" => put_items(out, document.iter_elements()),
        "fmt" => Ok(writeln!(out, "{document:?}")?),
        _ => by_key(document, call, words.text(alloc)?, out),
    }
}

fn by_key(
    document: &RawDocumentBuf,
    call: &str,
    key: String,
    out: &mut String,
) -> Result<(), Failure> {
    let key = key.as_str();
    match call {
        "get" => put(out, document.get(key)),
        "contains_key" => put(out, document.contains_key(key)),
        _ => of_document(document, call, out, key),
    }
}
