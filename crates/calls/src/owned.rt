//! Owned values that words write.

use crate::failure::Failure;
use crate::leaves::{binary, boolean, double, int32, pointer, regex, sixteen, timestamp, twelve};
use crate::store::Store;
use crate::words::Words;
use raw_bson::{
    DateTime, Decimal128, ObjectId, RawArray, RawArrayBuf, RawBson, RawDocument, RawDocumentBuf,
    RawJavaScriptCodeWithScope, ToRawArrayBuf,
};
use std::alloc::Global;

/// The document of a name, or of bytes.
fn document(
    alloc: Global,
    store: &Store,
    words: &mut Words<'_, '_>,
) -> Result<RawDocumentBuf, Failure> {
    let word = words.next()?;
    if let Some(document) = store.documents.get(word) {
        return Ok(document.clone()?);
    }
    match RawDocumentBuf::from_bytes(Words::new(&[word]).bytes(alloc)?) {
        Ok(document) => Ok(document),
        Err(_) => Err(Failure::Form),
    }
}

/// The array of a name, or of bytes.
fn array(alloc: Global, store: &Store, words: &mut Words<'_, '_>) -> Result<RawArrayBuf, Failure> {
    let word = words.next()?;
    if let Some(array) = store.arrays.get(word) {
        return Ok(array.clone()?);
    }
    let bytes = Words::new(&[word]).bytes(alloc)?;
    match RawDocument::from_bytes(&bytes) {
        Ok(document) => match RawArray::from_doc(document).to_raw_array_buf(alloc) {
            Ok(array) => Ok(array),
            Err(_) => Err(Failure::NoMemory),
        },
        Err(_) => Err(Failure::Form),
    }
}

/// Code, then the document of its scope.
pub fn code(
    alloc: Global,
    store: &Store,
    words: &mut Words<'_, '_>,
) -> Result<RawJavaScriptCodeWithScope, Failure> {
    let code = words.text(alloc)?;
    let scope = document(alloc, store, words)?;
    Ok(RawJavaScriptCodeWithScope { code, scope })
}

/// A copy of the value of a name.
fn copy(store: &Store, name: &str) -> Result<RawBson, Failure> {
    match store.values.get(name) {
        Some(value) => Ok(value.clone()?),
        None => Err(Failure::Form),
    }
}

/// The value that the next words write: the name of its variant, and what it holds; or the name of a value.
pub fn owned(alloc: Global, store: &Store, words: &mut Words<'_, '_>) -> Result<RawBson, Failure> {
    let word = words.next()?;
    match word {
        "Array" => Ok(RawBson::from(array(alloc, store, words)?)),
        "Document" => Ok(RawBson::from(document(alloc, store, words)?)),
        "JavaScriptCodeWithScope" => Ok(RawBson::from(code(alloc, store, words)?)),
        "Null" => Ok(RawBson::Null),
        "Undefined" => Ok(RawBson::Undefined),
        "MaxKey" => Ok(RawBson::MaxKey),
        "MinKey" => Ok(RawBson::MinKey),
        _ => owned_text(alloc, store, word, words),
    }
}

fn owned_text(
    alloc: Global,
    store: &Store,
    word: &str,
    words: &mut Words<'_, '_>,
) -> Result<RawBson, Failure> {
    match word {
        "String" => Ok(RawBson::from(words.text(alloc)?)),
        "RegularExpression" => Ok(RawBson::from(regex(alloc, words)?)),
        "JavaScriptCode" => Ok(RawBson::JavaScriptCode(words.text(alloc)?)),
        "Symbol" => Ok(RawBson::Symbol(words.text(alloc)?)),
        "Binary" => Ok(RawBson::from(binary(alloc, words)?)),
        "DbPointer" => Ok(RawBson::from(pointer(alloc, words)?)),
        _ => owned_number(store, word, words),
    }
}

fn owned_number(store: &Store, word: &str, words: &mut Words<'_, '_>) -> Result<RawBson, Failure> {
    match word {
        "Double" => Ok(RawBson::from(double(words)?)),
        "Boolean" => Ok(RawBson::from(boolean(words)?)),
        "Int32" => Ok(RawBson::from(int32(words)?)),
        "Int64" => Ok(RawBson::from(words.signed()?)),
        "Timestamp" => Ok(RawBson::from(timestamp(words)?)),
        "ObjectId" => Ok(RawBson::from(ObjectId::from_bytes(twelve(words)?))),
        "DateTime" => Ok(RawBson::from(DateTime::from_millis(words.signed()?))),
        "Decimal128" => Ok(RawBson::from(Decimal128::from_bytes(sixteen(words)?))),
        _ => copy(store, word),
    }
}
