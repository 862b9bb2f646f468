//! The calls of errors, on those that look-ups return.

use crate::failure::Failure;
use crate::put::{put, put_error};
use crate::store::Store;
use crate::words::Words;
use raw_bson::{
    AnyError, Error, ErrorKind, NoDocument, NoMemory, RawDocument, Reason, ValueAccessError,
};
use std::alloc::{AllocError, AllocFailed, Global};

/// The error with which `get` fails at a key.
fn fault(alloc: Global, view: RawDocument<'_>, key: &str) -> Result<Error, Failure> {
    match view.get(alloc, key) {
        Err(error) => Ok(error),
        Ok(_) => Err(Failure::Form),
    }
}

/// The error with which `get_i32` fails at a key.
fn access(alloc: Global, view: RawDocument<'_>, key: &str) -> Result<ValueAccessError, Failure> {
    match view.get_i32(alloc, key) {
        Err(error) => Ok(error),
        Ok(_) => Err(Failure::Form),
    }
}

fn of_fault(error: &Error, call: &str, out: &mut String) -> Result<(), Failure> {
    match call {
        "key" => put(out, error.key()),
        "clone" => put_error(out, error.clone()?),
        _ => Err(Failure::Unknown),
    }
}

fn of_access(error: &ValueAccessError, call: &str, out: &mut String) -> Result<(), Failure> {
    match call {
        "key" => put(out, error.key()),
        "clone" => put_error(out, error.clone()?),
        _ => Err(Failure::Unknown),
    }
}

fn of_any(error: &AnyError, call: &str, out: &mut String) -> Result<(), Failure> {
    match call {
        "key" => put(out, error.key()),
        "clone" => put_error(out, error.clone()?),
        "fmt" => Ok(writeln!(out, "{error}")?),
        _ => Err(Failure::Unknown),
    }
}

/// Runs a call of an error, or of its kind, that a look-up of a key returns.
pub fn run(
    alloc: Global,
    store: &Store,
    owner: &str,
    call: &str,
    words: &mut Words<'_, '_>,
    out: &mut String,
) -> Result<(), Failure> {
    if call == "from" {
        return converted(alloc, store, owner, words, out);
    }
    if owner == "AnyError" {
        return of_any(&any(alloc, store, words)?, call, out);
    }
    let view = store.view(words.next()?)?;
    let key = words.text(alloc)?;
    let key = key.as_str();
    match owner {
        "Error" => of_fault(&fault(alloc, view, key)?, call, out),
        "ErrorKind" => put(out, fault(alloc, view, key)?.kind.clone()?),
        "ValueAccessError" => of_access(&access(alloc, view, key)?, call, out),
        "ValueAccessErrorKind" => put(out, access(alloc, view, key)?.kind.clone()?),
        _ => Err(Failure::Unknown),
    }
}

/// Any error, of what the next word says: of a look-up of a key, or of memory.
fn any(alloc: Global, store: &Store, words: &mut Words<'_, '_>) -> Result<AnyError, Failure> {
    match words.next()? {
        "AllocError" => Ok(AnyError::from(AllocError)),
        "AllocFailed" => Ok(AnyError::from(AllocFailed { value: () })),
        "NoMemory" => Ok(AnyError::from(NoMemory)),
        "Error" => {
            let view = store.view(words.next()?)?;
            Ok(AnyError::from(fault(alloc, view, words.text(alloc)?.as_str())?))
        }
        "ValueAccessError" => {
            let view = store.view(words.next()?)?;
            Ok(AnyError::from(access(alloc, view, words.text(alloc)?.as_str())?))
        }
        _ => Err(Failure::Form),
    }
}

/// Runs `from` of an error type, on what the next word says.
fn converted(
    alloc: Global,
    store: &Store,
    owner: &str,
    words: &mut Words<'_, '_>,
    out: &mut String,
) -> Result<(), Failure> {
    if owner == "AnyError" {
        return put_error(out, any(alloc, store, words)?);
    }
    match (owner, words.next()?) {
        ("Error", "AllocError") => put_error(out, Error::from(AllocError)),
        ("Error", "AllocFailed") => put_error(out, Error::from(AllocFailed { value: () })),
        ("Error", "NoMemory") => put_error(out, Error::from(NoMemory)),
        ("Error", "NoDocument") => put_error(out, Error::from(NoDocument::TooShort)),
        ("NoMemory", "AllocError") => put_error(out, NoMemory::from(AllocError)),
        ("NoMemory", "AllocFailed") => put_error(out, NoMemory::from(AllocFailed { value: () })),
        _ => Err(Failure::Form),
    }
}

/// Runs a maker of `Error`.
pub fn made(call: &str, out: &mut String) -> Result<(), Failure> {
    match call {
        "new" => put_error(out, Error::new(ErrorKind::OutOfMemory)),
        "malformed" => put_error(out, Error::malformed(Reason::InteriorNul)),
        "out_of_memory" => put_error(out, Error::out_of_memory()),
        _ => Err(Failure::Unknown),
    }
}
