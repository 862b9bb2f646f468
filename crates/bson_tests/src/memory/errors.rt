//! Copies of errors.
use crate::fixtures::*;
use bson_model::DoubleBits;
use raw_view::{Error, RawBsonRef, RawDocument, ValueAccessError, ValueAccessResult};
use std::alloc::AllocError;
use std::process::Abort;

// Each copy is equal, or there is none because memory ran out. An error without a key has no memory of its own, so
// its copy always succeeds.

/// Whether this is a copy, or memory ran out, which is possible only for what has memory of its own.
fn is_copy<T: PartialEq>(copy: &Result<T, AllocError>, copied: &T, may_fail: bool) -> bool {
    match copy {
        Ok(copy) => copy == copied,
        Err(_) => may_fail,
    }
}

/// Whether the error is copied.
fn is_copied(checks: Checks, error: &Error) -> bool {
    let may_fail = checks.is_refusable && error.key().is_some();
    let_go!(made: Result<_, _> = error.clone(); is_copy(&made, error, may_fail))
}

/// Whether the look-up has an error, which is copied.
fn has_a_copy(checks: Checks, answer: &raw_view::Result<Option<RawBsonRef<'_>>>) -> bool {
    match answer {
        Ok(_) => false,
        Err(error) => is_copied(checks, error),
    }
}

/// Whether the error of this key is copied.
fn is_fault_copied(checks: Checks, document: RawDocument<'_>, key: &str) -> bool {
    let_go!(made = document.get(checks.alloc, key); has_a_copy(checks, &made))
}

/// Whether the getter's error is copied.
fn is_access_copied(checks: Checks, error: &ValueAccessError) -> bool {
    let_go!(made: Result<_, _> = error.clone(); is_copy(&made, error, checks.is_refusable))
}

/// Whether the getter has an error, which is copied.
fn has_access_copies(checks: Checks, answer: &ValueAccessResult<DoubleBits>) -> bool {
    match answer {
        Ok(_) => false,
        Err(error) => is_access_copied(checks, error),
    }
}

/// Whether the error of a getter for this key, which has no double, is copied.
fn is_no_double_copied(checks: Checks, document: RawDocument<'_>, key: &str) -> bool {
    let_go!(made = document.get_f64(checks.alloc, key); has_access_copies(checks, &made))
}

/// Whether the errors for a boolean of the byte 2 and for a missing key are copied.
pub(crate) fn are_copied(checks: Checks, two: RawDocument<'_>) -> bool {
    is_fault_copied(checks, two, "a")
        && is_no_double_copied(checks, two, "a")
        && is_no_double_copied(checks, two, "b")
}

/// The same of the error for a text that isn't UTF-8, which has no key.
pub(crate) fn is_text_copied(checks: Checks, document: RawDocument<'_>) -> bool {
    is_fault_copied(checks, document, "a") && is_no_double_copied(checks, document, "a")
}

#[test]
fn copies_or_out_of_memory(rt: HostRuntime) {
    let checks = Checks::refusable(rt.alloc());
    assert!(rt;
        are_copied(checks, view(&rt, BOOLEAN_TWO))
            && is_text_copied(checks, view(&rt, KEY_NOT_UTF8))
    );
}
