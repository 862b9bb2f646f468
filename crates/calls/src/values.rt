//! The calls of values, borrowed and owned, and of elements.

use crate::accessors::{of_owned, of_ref};
use crate::failure::Failure;
use crate::owned::{code, owned};
use crate::put::put;
use crate::store::{Store, named, named_mut};
use crate::tree::{LEVELS, tree};
use crate::views::owned_fault;
use crate::words::Words;
use raw_bson::{
    RawBson, RawBsonRef, RawDocument, RawElement, Result as BsonResult, ToRawBson,
    bson_from_element, bson_from_raw,
};
use std::alloc::Global;

/// Whether a call makes an owned value that a line may name.
pub fn is_made(call: &str) -> bool {
    matches!(
        call,
        "RawBson::from"
            | "RawBson::from_str"
            | "RawBson::clone"
            | "RawBson::try_from_bson"
            | "RawBsonRef::to_raw_bson"
            | "RawElement::to_raw_bson"
    )
}

/// The value that a call makes.
pub fn made(
    alloc: Global,
    store: &Store,
    call: &str,
    words: &mut Words<'_, '_>,
) -> Result<BsonResult<RawBson>, Failure> {
    match call {
        "RawBson::from" => Ok(Ok(owned(alloc, store, words)?)),
        "RawBson::from_str" => Ok(RawBson::from_str(alloc, words.text(alloc)?.as_str())),
        "RawBson::clone" => Ok(Ok(owned(alloc, store, words)?.clone()?)),
        "RawBson::try_from_bson" => Ok(RawBson::try_from_bson(alloc, tree(LEVELS, alloc, words)?)),
        "RawBsonRef::to_raw_bson" => {
            let value = owned(alloc, store, words)?;
            Ok(value.as_raw_bson_ref().to_raw_bson(alloc))
        }
        "RawElement::to_raw_bson" => {
            let view = store.view(words.next()?)?;
            Ok(element(view, words)?.to_raw_bson(alloc))
        }
        _ => Err(Failure::Unknown),
    }
}

/// The element of the number that the next word writes.
fn element<'a>(
    view: RawDocument<'a>,
    words: &mut Words<'_, '_>,
) -> Result<RawElement<'a>, Failure> {
    match view.element_at(words.number()?) {
        Ok(Some(element)) => Ok(element),
        _ => Err(Failure::Form),
    }
}

/// Runs a call of `RawElement`, or `bson_from_element`.
pub fn of_element(
    alloc: Global,
    store: &Store,
    call: &str,
    words: &mut Words<'_, '_>,
    out: &mut String,
) -> Result<(), Failure> {
    let element = element(store.view(words.next()?)?, words)?;
    match call {
        "key" => put(out, element.key()),
        "len" => put(out, element.len()),
        "payload" => put(out, element.payload()),
        "element_type" => put(out, element.element_type()),
        "resolve" => put(out, owned_fault(alloc, element.resolve())),
        "value" => put(out, element.value(alloc)),
        "try_into_ref" => put(out, element.try_into_ref(alloc)),
        "bson_from_element" => put(out, bson_from_element(alloc, element)),
        _ => Err(Failure::Unknown),
    }
}

/// The borrowed value that `From` makes of the part of a value.
fn number_from(value: RawBsonRef<'_>) -> RawBsonRef<'_> {
    match value {
        RawBsonRef::Double(x) => RawBsonRef::from(x),
        RawBsonRef::Boolean(x) => RawBsonRef::from(x),
        RawBsonRef::Int32(x) => RawBsonRef::from(x),
        RawBsonRef::Int64(x) => RawBsonRef::from(x),
        RawBsonRef::Timestamp(x) => RawBsonRef::from(x),
        RawBsonRef::ObjectId(x) => RawBsonRef::from(x),
        RawBsonRef::DateTime(x) => RawBsonRef::from(x),
        RawBsonRef::Decimal128(x) => RawBsonRef::from(x),
        _ => RawBsonRef::Null,
    }
}

fn text_from(value: RawBsonRef<'_>) -> RawBsonRef<'_> {
    match value {
        RawBsonRef::String(x) => RawBsonRef::from(x),
        RawBsonRef::Array(x) => RawBsonRef::from(x),
        RawBsonRef::Document(x) => RawBsonRef::from(x),
        RawBsonRef::RegularExpression(x) => RawBsonRef::from(x),
        RawBsonRef::JavaScriptCodeWithScope(x) => RawBsonRef::from(x),
        RawBsonRef::Binary(x) => RawBsonRef::from(x),
        _ => number_from(value),
    }
}

/// The borrowed value that `From` makes of what an owned value holds.
fn owner_from(value: &RawBson) -> RawBsonRef<'_> {
    match value {
        RawBson::Array(x) => RawBsonRef::from(x),
        RawBson::Document(x) => RawBsonRef::from(x),
        RawBson::Binary(x) => RawBsonRef::from(x),
        _ => RawBsonRef::Null,
    }
}

/// Runs a call of `RawBsonRef`, or `bson_from_raw`, on the view of an owned value.
pub fn of_borrowed(
    alloc: Global,
    store: &Store,
    call: &str,
    words: &mut Words<'_, '_>,
    out: &mut String,
) -> Result<(), Failure> {
    let owner = owned(alloc, store, words)?;
    let value = owner.as_raw_bson_ref();
    match call {
        "element_type" => put(out, value.element_type()),
        "level" => put(out, value.level()),
        "from" => put(out, text_from(value)),
        "from_owner" => put(out, owner_from(&owner)),
        "bson_from_raw" => put(out, bson_from_raw(alloc, value)),
        _ => of_ref(value, call, out),
    }
}

/// Runs a call of `RawBson` that makes none.
pub fn of_value(
    alloc: Global,
    store: &mut Store,
    call: &str,
    words: &mut Words<'_, '_>,
    out: &mut String,
) -> Result<(), Failure> {
    match call {
        "as_array_mut" => as_array_mut(alloc, store, words, out),
        "as_document_mut" => as_document_mut(alloc, store, words, out),
        "fmt" => {
            let value = owned(alloc, store, words)?;
            Ok(writeln!(out, "{value:?}")?)
        }
        "into_bson" => put(out, owned(alloc, store, words)?.into_bson(alloc)),
        "eq" => {
            let value = named(&store.values, words.next()?)?;
            put(out, *value == owned(alloc, store, words)?)
        }
        "element_type" => put(out, owned(alloc, store, words)?.element_type()),
        "as_raw_bson_ref" => {
            let value = owned(alloc, store, words)?;
            put(out, value.as_raw_bson_ref())
        }
        _ => of_owned(&owned(alloc, store, words)?, call, out),
    }
}

/// Runs a call of `RawJavaScriptCodeWithScope`.
pub fn of_code(
    alloc: Global,
    store: &Store,
    call: &str,
    words: &mut Words<'_, '_>,
    out: &mut String,
) -> Result<(), Failure> {
    let written = code(alloc, store, words)?;
    match call {
        "clone" => put(out, written.clone()?),
        _ => Err(Failure::Unknown),
    }
}

/// Pushes a value to the array that a value lends.
fn as_array_mut(
    alloc: Global,
    store: &mut Store,
    words: &mut Words<'_, '_>,
    out: &mut String,
) -> Result<(), Failure> {
    let name = words.next()?;
    let pushed = owned(alloc, store, words)?;
    match named_mut(&mut store.values, name)?.as_array_mut() {
        Some(array) => put(out, array.push(pushed)),
        None => put(out, None::<()>),
    }
}

/// Appends a value to the document that a value lends.
fn as_document_mut(
    alloc: Global,
    store: &mut Store,
    words: &mut Words<'_, '_>,
    out: &mut String,
) -> Result<(), Failure> {
    let name = words.next()?;
    let key = words.text(alloc)?;
    let value = owned(alloc, store, words)?;
    match named_mut(&mut store.values, name)?.as_document_mut() {
        Some(document) => put(out, document.append(key.as_str(), value)),
        None => put(out, None::<()>),
    }
}
