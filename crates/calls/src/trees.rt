//! The calls that read trees, and those of trees.

use crate::failure::Failure;
use crate::put::{put, put_items};
use crate::store::{Store, named, named_mut};
use crate::tree::{LEVELS, document, tree};
use crate::words::Words;
use raw_bson::{
    Document, Limits, RawArray, Result as BsonResult, document_from_raw, document_from_raw_counted,
    document_from_raw_within, list_from_raw, validate,
};
use std::alloc::Global;

/// Whether a call makes a tree that a line may name.
pub fn is_made(call: &str) -> bool {
    matches!(
        call,
        "document_from_raw"
            | "document_from_raw_within"
            | "RawDocumentBuf::to_document"
            | "RawDocumentBuf::to_document_within"
            | "RawDocumentBuf::into_document"
            | "Document::new"
            | "Document::from_columns"
            | "tree"
    )
}

/// This many bytes, and this many levels.
fn limits(words: &mut Words<'_, '_>) -> Result<Limits, Failure> {
    let bytes = words.number()?;
    let depth = words.number()?;
    Ok(Limits { bytes, depth })
}

/// The tree that a call makes.
pub fn made(
    alloc: Global,
    store: &Store,
    call: &str,
    words: &mut Words<'_, '_>,
) -> Result<BsonResult<Document>, Failure> {
    match call {
        "Document::new" => Ok(Ok(Document::new(alloc))),
        "Document::from_columns" => from_columns(alloc, words),
        "tree" => Ok(Ok(document(LEVELS, alloc, words)?)),
        _ => read(alloc, store, call, words),
    }
}

fn read(
    alloc: Global,
    store: &Store,
    call: &str,
    words: &mut Words<'_, '_>,
) -> Result<BsonResult<Document>, Failure> {
    let document = named(&store.documents, words.next()?)?;
    match call {
        "document_from_raw" => Ok(document_from_raw(alloc, document.as_ref())),
        "document_from_raw_within" => Ok(document_from_raw_within(
            alloc,
            document.as_ref(),
            limits(words)?,
        )),
        "RawDocumentBuf::to_document" => Ok(document.to_document()),
        "RawDocumentBuf::to_document_within" => Ok(document.to_document_within(limits(words)?)),
        "RawDocumentBuf::into_document" => Ok(document.clone()?.into_document()),
        _ => Err(Failure::Unknown),
    }
}

/// The tree of columns: the keys and values between braces, a key of which may be there twice.
fn from_columns(alloc: Global, words: &mut Words<'_, '_>) -> Result<BsonResult<Document>, Failure> {
    if !words.skip("{") {
        return Err(Failure::Form);
    }
    let mut keys: Vec<String> = Vec::new(alloc);
    let mut values = Vec::new(alloc);
    for _ in 0..words.len() {
        if words.skip("}") {
            let keys: Vec<&str> = keys.iter().map(|key| key.as_str()).collect(alloc)?;
            return Ok(Ok(Document::from_columns(alloc, &keys, values)?));
        }
        keys.push(words.text(alloc)?)?;
        values.push(tree(LEVELS, alloc, words)?)?;
    }
    Err(Failure::Form)
}

/// Runs a call on a document that reads it as a whole.
pub fn of_whole(
    alloc: Global,
    store: &Store,
    call: &str,
    words: &mut Words<'_, '_>,
    out: &mut String,
) -> Result<(), Failure> {
    let view = store.view(words.next()?)?;
    match call {
        "document_from_raw_counted" => {
            let (tree, steps) = document_from_raw_counted(alloc, view);
            put(out, tree)?;
            put(out, steps.count())
        }
        "list_from_raw" => put(out, list_from_raw(alloc, RawArray::from_doc(view))),
        "validate" => put(out, validate(alloc, view)),
        _ => Err(Failure::Unknown),
    }
}

/// Runs a call of `Document` that makes none.
pub fn of_tree(
    alloc: Global,
    store: &mut Store,
    call: &str,
    words: &mut Words<'_, '_>,
    out: &mut String,
) -> Result<(), Failure> {
    let name = words.next()?;
    match call {
        "insert" | "put" => {
            let key = words.text(alloc)?;
            let value = tree(LEVELS, alloc, words)?;
            let document = named_mut(&mut store.trees, name)?;
            match call {
                "insert" => put(out, document.insert(key, value)),
                _ => put(out, document.put(key, value)),
            }
        }
        "eq" => {
            let document = named(&store.trees, name)?;
            put(out, document == named(&store.trees, words.next()?)?)
        }
        _ => of_pairs(alloc, named(&store.trees, name)?, call, words, out),
    }
}

fn of_pairs(
    alloc: Global,
    document: &Document,
    call: &str,
    words: &mut Words<'_, '_>,
    out: &mut String,
) -> Result<(), Failure> {
    match call {
        "len" => put(out, document.len()),
        "is_empty" => put(out, document.is_empty()),
        "get" => put(out, document.get(words.text(alloc)?.as_str())),
        "pair_at" => put(out, document.pair_at(words.number()?)),
        "iter" => put_items(out, document.iter()),
        _ => Err(Failure::Unknown),
    }
}
