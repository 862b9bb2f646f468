//! The call of a line.

use crate::failure::Failure;
use crate::put::put;
use crate::store::{Store, keep};
use crate::words::Words;
use crate::{arrays, cows, documents, errors, laws, shelves, smalls, trees, values, views};
use raw_shelf::Shelf;
use std::alloc::Global;

/// Runs the call of a line, and writes what it returns. A line without words is passed by, and one that begins with `#` is written
/// as it is.
pub fn run(alloc: Global, store: &mut Store, line: &str, out: &mut String) -> Result<(), Failure> {
    if line.starts_with('#') {
        out.push_str(line)?;
        return Ok(out.push_str("\n")?);
    }
    let all: Vec<&str> = line.split_whitespace().collect(alloc)?;
    let mut words = Words::new(&all);
    if words.len() == 0 {
        return Ok(());
    }
    let first = words.next()?;
    if words.skip("=") {
        named(alloc, store, first, &mut words, out)?;
    } else {
        called(alloc, store, first, &mut words, out)?;
    }
    words.end()
}

/// Gives a name to what a call makes.
fn named(
    alloc: Global,
    store: &mut Store,
    name: &str,
    words: &mut Words<'_, '_>,
    out: &mut String,
) -> Result<(), Failure> {
    let call = words.next()?;
    if documents::is_made(call) {
        let made = documents::made(alloc, store, call, words)?;
        return keep(alloc, &mut store.documents, name, made, out);
    }
    if arrays::is_made(call) {
        let made = arrays::made(alloc, store, call, words)?;
        return keep(alloc, &mut store.arrays, name, made, out);
    }
    if values::is_made(call) {
        let made = values::made(alloc, store, call, words)?;
        return keep(alloc, &mut store.values, name, made, out);
    }
    if trees::is_made(call) {
        let made = trees::made(alloc, store, call, words)?;
        return keep(alloc, &mut store.trees, name, made, out);
    }
    if call == "Shelf::new" {
        let made: raw_bson::Result<Shelf> = Ok(Shelf::new(alloc));
        return keep(alloc, &mut store.shelves, name, made, out);
    }
    Err(Failure::Unknown)
}

/// Runs a call, and writes what it returns.
fn called(
    alloc: Global,
    store: &mut Store,
    call: &str,
    words: &mut Words<'_, '_>,
    out: &mut String,
) -> Result<(), Failure> {
    if documents::is_made(call) {
        return put(out, documents::made(alloc, store, call, words)?);
    }
    if arrays::is_made(call) {
        return put(out, arrays::made(alloc, store, call, words)?);
    }
    if values::is_made(call) {
        return put(out, values::made(alloc, store, call, words)?);
    }
    if trees::is_made(call) {
        return put(out, trees::made(alloc, store, call, words)?);
    }
    match call.split_once("::") {
        Some((owner, call)) => of_owner(alloc, store, owner, call, words, out),
        None => of_none(alloc, store, call, words, out),
    }
}

/// Runs a call that is of no type.
fn of_none(
    alloc: Global,
    store: &Store,
    call: &str,
    words: &mut Words<'_, '_>,
    out: &mut String,
) -> Result<(), Failure> {
    match call {
        "total_len" => smalls::total(words, out),
        "bson_from_raw" => values::of_borrowed(alloc, store, call, words, out),
        "bson_from_element" => values::of_element(alloc, store, call, words, out),
        "document_from_raw_counted" | "list_from_raw" | "validate" => {
            trees::of_whole(alloc, store, call, words, out)
        }
        _ => laws::of_named(alloc, store, call, words, out),
    }
}

/// Runs a call of a type.
fn of_owner(
    alloc: Global,
    store: &mut Store,
    owner: &str,
    call: &str,
    words: &mut Words<'_, '_>,
    out: &mut String,
) -> Result<(), Failure> {
    match owner {
        "RawDocument" => views::of_document(alloc, store, call, words, out),
        "RawArray" => views::of_array(alloc, store, call, words, out),
        "RawDocumentBuf" => documents::run(alloc, store, call, words, out),
        "RawArrayBuf" => arrays::run(alloc, store, call, words, out),
        "RawElement" => values::of_element(alloc, store, call, words, out),
        "RawBsonRef" => values::of_borrowed(alloc, store, call, words, out),
        "RawBson" => values::of_value(alloc, store, call, words, out),
        "Document" => trees::of_tree(alloc, store, call, words, out),
        "Shelf" => shelves::run(store, call, words, out),
        _ => of_small(alloc, store, owner, call, words, out),
    }
}

/// Runs a call of a small type.
fn of_small(
    alloc: Global,
    store: &Store,
    owner: &str,
    call: &str,
    words: &mut Words<'_, '_>,
    out: &mut String,
) -> Result<(), Failure> {
    match owner {
        "Error" if words.len() == 0 => errors::made(call, out),
        "Error"
        | "ErrorKind"
        | "ValueAccessError"
        | "ValueAccessErrorKind"
        | "AnyError"
        | "NoMemory" => errors::run(alloc, store, owner, call, words, out),
        "RawJavaScriptCodeWithScope" => values::of_code(alloc, store, call, words, out),
        "CowRawDocument" => cows::of_document(store, call, words, out),
        "CowRawArray" => cows::of_array(store, call, words, out),
        "ElementType" if call == "to_tag" => smalls::to_tag(alloc, store, words, out),
        _ => smalls::run(alloc, owner, call, words, out),
    }
}
