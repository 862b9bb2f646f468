//! How many requests for memory an append and a conversion make.
use crate::fixtures::*;
use crate::memory::asserts::OwnedChecks;
use raw_bson::{RawBson, RawBsonRef, RawDocumentBuf, Result};
use std::alloc::Global;
use std::process::Abort;

// `bin/test` also counts the requests for memory of these tests.

/// What is in the document of three int32.
const NUMBERS: &[(&str, i32)] = &[("a", -1), ("b", 123), ("c", 0)];

const LONG: &str = "a text that outgrows the room of a new buffer many times over";

/// A new document, to which a long text is appended.
fn long(alloc: Global) -> Result<RawDocumentBuf> {
    let mut document = RawDocumentBuf::new(alloc)?;
    document.append_ref("text", RawBsonRef::String(LONG))?;
    Ok(document)
}

/// Whether the long text is in the document, or memory ran out.
fn has_text(checks: Checks, answer: &Result<RawDocumentBuf>) -> bool {
    match answer {
        Ok(document) => document.as_bytes().len() == 5 + 6 + 5 + LONG.len(),
        Err(error) => checks.is_out_of_memory(error),
    }
}

/// One request for the new buffer, and one for all that is appended.
#[test]
fn an_append_asks_once(rt: HostRuntime) {
    let checks = Checks::refusable(rt.alloc());
    assert!(rt; let_go!(made = long(rt.alloc()); has_text(checks, &made)));
}

/// The empty document in this room.
fn empty_in(mut room: Vec<u8>) -> Result<RawDocumentBuf> {
    room.extend_from_slice(EMPTY)?;
    RawDocumentBuf::from_bytes(room)
}

/// Whether the numbers are appended.
fn are_appended(document: &mut RawDocumentBuf) -> bool {
    let mut are_right = true;
    for (key, number) in NUMBERS {
        are_right = are_right
            && let_go!(made = document.append_ref(key, RawBsonRef::Int32(*number)); made.is_ok());
    }
    are_right && document.as_bytes() == THREE_INT32
}

/// Whether the numbers are appended to the empty document if there is room for them.
fn are_numbers_appended(room: Vec<u8>) -> bool {
    match empty_in(room) {
        Ok(mut document) => are_appended(&mut document),
        Err(_) => false,
    }
}

/// One request for the room, and none for what is appended, since there is room.
#[test]
fn an_append_with_room_asks_for_nothing(rt: HostRuntime) {
    if let Ok(room) = Vec::with_capacity(rt.alloc(), THREE_INT32.len()) {
        assert!(rt; are_numbers_appended(room));
    }
}

/// A value that becomes a tree, and a value again.
fn turned(alloc: Global, value: RawBson) -> Result<RawBson> {
    RawBson::try_from_bson(alloc, value.into_bson(alloc)?)
}

/// Whether the value is what it was before.
pub(crate) fn is_turned(checks: Checks, value: RawBson, want: RawBsonRef<'_>) -> bool {
    let_go!(made = turned(checks.alloc, value); checks.is_value(&made, want))
}

/// One request for the text, and none for what it becomes.
#[test]
fn a_text_that_becomes_a_tree_asks_for_nothing(rt: HostRuntime) {
    let checks = Checks::ample(rt.alloc());
    if let Ok(text) = String::from_str(rt.alloc(), LONG) {
        assert!(rt; is_turned(checks, RawBson::String(text), RawBsonRef::String(LONG)));
    }
}
