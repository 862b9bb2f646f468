//! Copies of borrowed and owned values.
use crate::fixtures::*;
use crate::memory::asserts::OwnedChecks;
use crate::memory::kinds::has_memory;
use raw_bson::{
    ElementType, RawArrayBuf, RawBson, RawBsonRef, RawDocument, RawDocumentBuf, RawElement,
    ToRawBson,
};
use std::alloc::{AllocError, Global};
use std::process::Abort;

// Each copy is equal, or there is none because memory ran out, and what is copied is unchanged.

/// Whether the clone is the expected value. If there is none, memory ran out, and the value has memory of its own.
fn is_clone(
    checks: Checks,
    copy: &Result<RawBson, AllocError>,
    want: RawBsonRef<'_>,
    kind: ElementType,
) -> bool {
    match copy {
        Ok(copy) => is_same(copy, want),
        Err(_) => checks.is_refusable && has_memory(kind),
    }
}

/// Whether the value is the expected one, and can be cloned; or memory ran out for a value that has memory of its
/// own.
fn is_copy(
    checks: Checks,
    value: &raw_bson::Result<RawBson>,
    want: RawBsonRef<'_>,
    kind: ElementType,
) -> bool {
    let is_cloned = match value {
        Ok(value) =>
            let_go!(made: Result<_, _> = value.clone(); is_clone(checks, &made, want, kind)),
        Err(_) => has_memory(kind),
    };
    is_cloned && checks.is_value(value, want)
}

/// The same of a copy of this item of the document of all kinds, the value of this kind.
fn is_item_copied(
    checks: Checks,
    item: &Option<raw_bson::Result<RawElement<'_>>>,
    kind: ElementType,
) -> bool {
    match (borrowed(kind), item) {
        (Ok(want), Some(Ok(element))) => {
            let_go!(made = element.to_raw_bson(checks.alloc); is_copy(checks, &made, want, kind))
        }
        _ => false,
    }
}

/// Whether the elements of all kinds are copied, and the copies cloned.
pub(crate) fn are_copied(checks: Checks, document: RawDocument<'_>) -> bool {
    let mut elements = document.iter_elements(checks.alloc);
    let mut are_right = true;
    for (_, kind) in KINDS {
        are_right = are_right
            && let_go!(made = elements.next(); is_item_copied(checks, &made, *kind));
    }
    are_right
}

/// Whether the result is the fault of the boolean of the byte 2, or out of memory.
fn is_two(checks: Checks, answer: &raw_bson::Result<RawBson>) -> bool {
    match answer {
        Ok(_) => false,
        Err(error) => checks.is_out_of_memory(error) || is_fault(error, &TWO_AT_A),
    }
}

/// Whether the value of the first element isn't copied for that reason.
pub(crate) fn has_fault(checks: Checks, view: RawDocument<'_>) -> bool {
    match first_element(checks.alloc, view) {
        Some(element) => let_go!(made = element.to_raw_bson(checks.alloc); is_two(checks, &made)),
        None => false,
    }
}

/// Whether the value of this text is made, or memory ran out.
pub(crate) fn is_made(checks: Checks, text: &str) -> bool {
    let_go!(made = RawBson::from_str(checks.alloc, text); checks.is_value(&made, RawBsonRef::String(text)))
}

/// Whether a copy is equal, or there is none because memory ran out.
fn is_equal<T: PartialEq>(checks: Checks, copy: &Result<T, AllocError>, copied: &T) -> bool {
    match copy {
        Ok(copy) => copy == copied,
        Err(_) => checks.is_refusable,
    }
}

/// Whether a buffer of the greeting is copied, and is as it was, if there was memory for it.
fn is_document_copied(checks: Checks, made: &raw_bson::Result<RawDocumentBuf>) -> bool {
    match made {
        Ok(document) => {
            let_go!(copy: Result<_, _> = document.clone(); is_equal(checks, &copy, document))
                && document.as_bytes() == GREETING
        }
        Err(error) => checks.is_out_of_memory(error),
    }
}

/// The same of an array of a null and a stop.
fn is_array_copied(checks: Checks, made: &raw_bson::Result<RawArrayBuf>) -> bool {
    match made {
        Ok(array) => {
            let_go!(copy: Result<_, _> = array.clone(); is_equal(checks, &copy, array))
                && array.as_bytes() == SWALLOWED_TERMINATOR
        }
        Err(error) => checks.is_out_of_memory(error),
    }
}

/// Whether buffers are copied, or memory ran out.
pub(crate) fn are_buffers_copied(checks: Checks) -> bool {
    let_go!(made = document_of(checks.alloc, GREETING); is_document_copied(checks, &made))
        && let_go!(made = array_of(checks.alloc, SWALLOWED_TERMINATOR); is_array_copied(checks, &made))
}

#[test]
fn copies_or_out_of_memory(rt: HostRuntime) {
    let checks = Checks::refusable(rt.alloc());
    assert!(rt;
        are_copied(checks, view(&rt, ALL_KINDS))
            && has_fault(checks, view(&rt, BOOLEAN_TWO))
            && is_made(checks, "a")
            && are_buffers_copied(checks)
    );
}
