//! Documents of a million levels.
use crate::fixtures::*;
use crate::trees::checks::is_written;
use raw_bson::{Bson, Document, Error, RawArrayBuf, RawBson, encode, encode_list, list_from_raw};
use std::alloc::{AllocError, Global};
use std::mem;
use std::process::Abort;

// `bin/test` runs these on a stack of 256 KiB, which is less than a byte for each of a million levels. It also
// counts what these tests request, and checks that all of it is released. `rt try --test` needs a larger stack,
// and minutes.

const MILLION: usize = 1_000_000;

/// Levels of each kind.
const IN_TURN: &[Level] = &[IN_A_DOCUMENT, IN_AN_ARRAY, IN_A_SCOPE];

/// The bytes of a million levels.
fn million(rt: &impl Abort, alloc: Global, kinds: &[Level]) -> Vec<u8> {
    nested(alloc, kinds, MILLION, EMPTY).expect(rt, "no memory for the levels")
}

/// Whether the tree has a million levels, and is written as these bytes.
fn is_million(alloc: Global, tree: &Document, bytes: &[u8]) -> bool {
    levels_inside(tree, MILLION + 1) == MILLION
        && let_go!(made = encode(alloc, tree); is_written(&made, bytes))
}

/// Whether the tree was made, and has a million levels.
fn is_million_read(alloc: Global, made: &Result<Document, Error>, bytes: &[u8]) -> bool {
    match made {
        Ok(tree) => is_million(alloc, tree, bytes),
        Err(_) => false,
    }
}

/// Whether a million levels come back, and are dropped.
fn come_back(alloc: Global, bytes: &[u8]) -> bool {
    let_go!(made = tree_of(alloc, bytes); is_million_read(alloc, &made, bytes))
}

/// Whether a million levels of these kinds come back, and are dropped.
fn are_read(rt: &impl Abort, alloc: Global, kinds: &[Level]) -> bool {
    let_go!(made = million(rt, alloc, kinds); come_back(alloc, &made))
}

#[test]
fn a_million_levels_of_each_kind_come_back(rt: HostRuntime) {
    for level in IN_TURN {
        assert!(rt; are_read(&rt, rt.alloc(), &[*level]));
    }
}

#[test]
fn a_million_levels_in_turn_come_back(rt: HostRuntime) {
    assert!(rt; are_read(&rt, rt.alloc(), IN_TURN));
}

/// Whether a million levels come back; they are never dropped.
fn are_forgotten(alloc: Global, bytes: &[u8]) -> bool {
    match tree_of(alloc, bytes) {
        Ok(tree) => {
            let is_million = is_million(alloc, &tree, bytes);
            mem::forget(tree);
            is_million
        }
        Err(_) => false,
    }
}

/// The same levels, which are never dropped: `bin/test` compares the requests for memory with these.
#[test]
fn a_million_levels_in_turn_are_forgotten(rt: HostRuntime) {
    assert!(rt;
        let_go!(made = million(&rt, rt.alloc(), IN_TURN); are_forgotten(rt.alloc(), &made))
    );
}

/// Pushes the document of these bytes.
fn push(alloc: Global, array: &mut RawArrayBuf, bytes: &[u8]) -> Result<(), Error> {
    array.push(RawBson::from(document_of(alloc, bytes)?))
}

/// Whether a thousand documents of these bytes are pushed.
fn are_pushed(alloc: Global, array: &mut RawArrayBuf, bytes: &[u8]) -> bool {
    let mut are_right = true;
    for _ in 0..1000 {
        are_right = are_right && let_go!(made = push(alloc, array, bytes); made.is_ok());
    }
    are_right
}

/// Whether the list was read, has a thousand values, and is written as the array is.
fn is_list_read(alloc: Global, read: &Result<Vec<Bson>, Error>, bytes: &[u8]) -> bool {
    match read {
        Ok(list) => (list.len() == 1000)
            && let_go!(made = encode_list(alloc, list); is_written(&made, bytes)),
        Err(_) => false,
    }
}

/// Whether a thousand documents of these bytes are pushed, and come back.
fn is_pushed_and_read(alloc: Global, array: &mut RawArrayBuf, bytes: &[u8]) -> bool {
    are_pushed(alloc, array, bytes)
        && let_go!(
            made = list_from_raw(alloc, array.as_ref());
            is_list_read(alloc, &made, array.as_bytes())
        )
}

/// Whether an array takes a thousand such documents and returns them.
fn are_deep_documents_read(
    alloc: Global,
    made: &mut Result<RawArrayBuf, Error>,
    bytes: &[u8],
) -> bool {
    match made {
        Ok(array) => is_pushed_and_read(alloc, array, bytes),
        Err(_) => false,
    }
}

#[test]
fn a_list_of_deep_documents_comes_back(rt: HostRuntime) {
    let bytes = nested(rt.alloc(), IN_TURN, 1000, EMPTY).expect(&rt, "no memory for the levels");
    assert!(rt;
        let_go!(
            mut made = RawArrayBuf::new(rt.alloc());
            are_deep_documents_read(rt.alloc(), &mut made, &bytes)
        )
    );
}

/// Whether this text is that of an owned document, with two digits for each of `len` bytes. `models::debug_texts`
/// has texts with digits.
fn is_printed_text(text: &str, len: usize) -> bool {
    match text.strip_prefix("Document(RawDocumentBuf { data: \"") {
        Some(rest) => match rest.strip_suffix("\" })") {
            Some(digits) => digits.len() == len.wrapping_mul(2),
            None => false,
        },
        None => false,
    }
}

/// Whether there is a copy, and the value is equal to it.
fn is_copy(copy: &Result<RawBson, AllocError>, value: &RawBson) -> bool {
    match copy {
        Ok(copy) => copy == value,
        Err(_) => false,
    }
}

/// Whether this was printed of a document of these bytes.
fn is_printed(made: &Result<String, AllocError>, bytes: &[u8]) -> bool {
    match made {
        Ok(text) => is_printed_text(text.as_str(), bytes.len()),
        Err(_) => false,
    }
}

/// Whether the value was made, is equal to its copy and printed as a document of these bytes.
fn is_value(alloc: Global, made: &Result<RawBson, Error>, bytes: &[u8]) -> bool {
    match made {
        Ok(value) => {
            let_go!(copy: Result<_, _> = value.clone(); is_copy(&copy, value))
                && let_go!(text = format!(in alloc; "{value:?}"); is_printed(&text, bytes))
        }
        Err(_) => false,
    }
}

/// The document of these bytes, owned.
fn owned_levels(alloc: Global, bytes: &[u8]) -> Result<RawBson, Error> {
    Ok(RawBson::from(document_of(alloc, bytes)?))
}

/// The same of the value of the document of these bytes.
fn is_owned_value(alloc: Global, bytes: &[u8]) -> bool {
    let_go!(made = owned_levels(alloc, bytes); is_value(alloc, &made, bytes))
}

#[test]
fn a_million_owned_levels_are_compared_and_printed(rt: HostRuntime) {
    assert!(rt;
        let_go!(made = million(&rt, rt.alloc(), IN_TURN); is_owned_value(rt.alloc(), &made))
    );
}
