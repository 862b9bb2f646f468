//! The calls of arrays that own their bytes.

use crate::failure::Failure;
use crate::getters::of_array;
use crate::owned::owned;
use crate::put::{put, put_items};
use crate::store::{Store, named, named_mut};
use crate::tree::{LEVELS, list};
use crate::words::Words;
use raw_bson::{
    RawArray, RawArrayBuf, RawBson, RawDocumentBuf, Result as BsonResult, ToRawArrayBuf,
    encode_list,
};
use std::alloc::Global;

/// Whether a call makes an array that a line may name.
pub fn is_made(call: &str) -> bool {
    matches!(
        call,
        "RawArrayBuf::new"
            | "RawArrayBuf::from_iter"
            | "RawArrayBuf::clone"
            | "RawArray::to_raw_array_buf"
            | "encode_list"
    )
}

/// The array that a call makes.
pub fn made(
    alloc: Global,
    store: &Store,
    call: &str,
    words: &mut Words<'_, '_>,
) -> Result<BsonResult<RawArrayBuf>, Failure> {
    match call {
        "RawArrayBuf::new" => Ok(RawArrayBuf::new(alloc)),
        "RawArrayBuf::from_iter" => from_iter(alloc, store, words),
        "RawArrayBuf::clone" => Ok(Ok(named(&store.arrays, words.next()?)?.clone()?)),
        "RawArray::to_raw_array_buf" => copied(alloc, store, words.next()?),
        "encode_list" => encoded(alloc, words),
        _ => Err(Failure::Unknown),
    }
}

/// A copy of the array of a document's bytes, or of an array.
fn copied(alloc: Global, store: &Store, name: &str) -> Result<BsonResult<RawArrayBuf>, Failure> {
    match store.arrays.get(name) {
        Some(array) => Ok(array.as_ref().to_raw_array_buf(alloc)),
        None => Ok(RawArray::from_doc(store.view(name)?).to_raw_array_buf(alloc)),
    }
}

fn encoded(alloc: Global, words: &mut Words<'_, '_>) -> Result<BsonResult<RawArrayBuf>, Failure> {
    let values = list(LEVELS, alloc, words)?;
    match encode_list(alloc, &values) {
        Ok(bytes) => Ok(of_bytes(alloc, bytes)),
        Err(error) => Ok(Err(error)),
    }
}

fn of_bytes(alloc: Global, bytes: Vec<u8>) -> BsonResult<RawArrayBuf> {
    let document = RawDocumentBuf::from_bytes(bytes)?;
    RawArray::from_doc(document.as_ref()).to_raw_array_buf(alloc)
}

fn values(
    alloc: Global,
    store: &Store,
    words: &mut Words<'_, '_>,
) -> Result<Vec<RawBson>, Failure> {
    let mut values = Vec::new(alloc);
    for _ in 0..words.len() {
        if words.skip("]") {
            return Ok(values);
        }
        values.push(owned(alloc, store, words)?)?;
    }
    Err(Failure::Form)
}

fn from_iter(
    alloc: Global,
    store: &Store,
    words: &mut Words<'_, '_>,
) -> Result<BsonResult<RawArrayBuf>, Failure> {
    if !words.skip("[") {
        return Err(Failure::Form);
    }
    let values = values(alloc, store, words)?;
    Ok(RawArrayBuf::from_iter(alloc, values.into_iter()))
}

/// Runs a call of `RawArrayBuf` that makes none.
pub fn run(
    alloc: Global,
    store: &mut Store,
    call: &str,
    words: &mut Words<'_, '_>,
    out: &mut String,
) -> Result<(), Failure> {
    match call {
        "push" => push(alloc, store, words, out),
        "eq" => {
            let array = named(&store.arrays, words.next()?)?;
            put(out, array == named(&store.arrays, words.next()?)?)
        }
        _ => read(named(&store.arrays, words.next()?)?, call, words, out),
    }
}

fn push(
    alloc: Global,
    store: &mut Store,
    words: &mut Words<'_, '_>,
    out: &mut String,
) -> Result<(), Failure> {
    let name = words.next()?;
    let value = owned(alloc, store, words)?;
    put(out, named_mut(&mut store.arrays, name)?.push(value))
}

fn read(
    array: &RawArrayBuf,
    call: &str,
    words: &mut Words<'_, '_>,
    out: &mut String,
) -> Result<(), Failure> {
    match call {
        "as_bytes" => put(out, array.as_bytes()),
        "as_ref" => put(out, array.as_ref()),
        "is_empty" => put(out, array.is_empty()),
        "count" => put(out, array.count()),
        "iter" => put_items(out, array.iter()),
        "fmt" => Ok(writeln!(out, "{array:?}")?),
        "get" => put(out, array.get(words.number()?)),
        _ => of_array(array, call, out, words.number()?),
    }
}
