//! Appends and pushes.
use crate::fixtures::*;
use crate::memory::asserts::OwnedChecks;
use raw_bson::{
    BinarySubtype, RawArrayBuf, RawBinaryRef, RawBson, RawBsonRef, RawDocument, RawDocumentBuf,
    RawElement, Reason, Result, ToRawBson,
};
use std::alloc::Global;
use std::process::Abort;

// Each call returns what it returns with ample memory; or it returns out of memory without a key, and the buffer
// is unchanged. So the same call succeeds when it is repeated.

/// Whether new buffers are empty, or memory ran out.
pub(crate) fn are_empty(checks: Checks) -> bool {
    let_go!(made = RawDocumentBuf::new(checks.alloc); checks.is_document(&made, EMPTY))
        && let_go!(made = RawArrayBuf::new(checks.alloc); checks.is_array(&made, EMPTY))
}

/// An old binary, which is written with an inner length.
const OLD: RawBsonRef<'static> = RawBsonRef::Binary(RawBinaryRef {
    subtype: BinarySubtype::BinaryOld,
    bytes: b"\x01\x02\x03\x04",
});

/// A new buffer, to which a copy of it is appended.
fn with_copy(alloc: Global) -> Result<RawDocumentBuf> {
    let copy = OLD.to_raw_bson(alloc)?;
    let mut document = RawDocumentBuf::new(alloc)?;
    document.append("b", copy)?;
    Ok(document)
}

/// A new buffer, to which this element is appended.
fn with_element(alloc: Global, element: RawElement<'_>) -> Result<RawDocumentBuf> {
    let mut document = RawDocumentBuf::new(alloc)?;
    document.append_element(element)?;
    Ok(document)
}

/// Whether the first element of the document is appended, or memory ran out.
pub(crate) fn is_first_appended(checks: Checks, view: RawDocument<'_>) -> bool {
    match first_element(checks.alloc, view) {
        Some(element) => let_go!(
            made = with_element(checks.alloc, element);
            checks.is_document(&made, view.as_bytes())
        ),
        None => false,
    }
}

/// Whether the bytes are those after a call that succeeded; otherwise memory ran out, and they are those before.
fn is_changed(
    checks: Checks,
    answer: &Result<()>,
    found: &[u8],
    (before, after): (&[u8], &[u8]),
) -> bool {
    match answer {
        Ok(()) => found == after,
        Err(error) => checks.is_out_of_memory(error) && found == before,
    }
}

/// The numbers -1 and 123 under the keys `a` and `b`.
const TWO_INT32: &[u8] = b"\x13\0\0\0\x10a\0\xFF\xFF\xFF\xFF\x10b\0\x7B\0\0\0\0";

/// Whether the second number is appended to the first, or memory ran out.
fn is_number_appended(checks: Checks, document: &mut RawDocumentBuf) -> bool {
    let_go!(
        made = document.append_ref("b", RawBsonRef::Int32(123));
        is_changed(checks, &made, document.as_bytes(), (ONE_INT32, TWO_INT32))
    )
}

/// The same for a buffer, if there is memory for it.
fn has_number_appended(checks: Checks, made: &mut Result<RawDocumentBuf>) -> bool {
    match made {
        Ok(document) => is_number_appended(checks, document),
        Err(error) => checks.is_out_of_memory(error),
    }
}

/// A new buffer, to which the numbers of the document of three int32 are appended.
fn with_numbers(alloc: Global) -> Result<RawDocumentBuf> {
    let mut document = RawDocumentBuf::new(alloc)?;
    document.append("a", RawBson::Int32(-1))?;
    document.append("b", RawBson::Int32(123))?;
    document.append("c", RawBson::Int32(0))?;
    Ok(document)
}

/// Whether values are appended, owned and borrowed, or memory ran out.
pub(crate) fn are_appended(checks: Checks) -> bool {
    let_go!(made = with_copy(checks.alloc); checks.is_document(&made, OLD_BINARY))
        && let_go!(made = with_numbers(checks.alloc); checks.is_document(&made, THREE_INT32))
        && let_go!(
            mut made = document_of(checks.alloc, ONE_INT32);
            has_number_appended(checks, &mut made)
        )
}

/// Whether a null isn't appended for the 0 in its key, which comes before memory is asked for, and the buffer is as it was.
fn is_nul_refused(document: &mut RawDocumentBuf) -> bool {
    let_go!(
        made = document.append("a\0b", RawBson::Null);
        is_refused(&made, Reason::InteriorNul, None)
    ) && document.as_bytes() == EMPTY
}

/// The same of a buffer, if there is memory for it.
fn has_nul_refused(checks: Checks, made: &mut Result<RawDocumentBuf>) -> bool {
    match made {
        Ok(document) => is_nul_refused(document),
        Err(error) => checks.is_out_of_memory(error),
    }
}

/// The same of a new one.
pub(crate) fn is_key_refused(checks: Checks) -> bool {
    let_go!(mut made = RawDocumentBuf::new(checks.alloc); has_nul_refused(checks, &mut made))
}

#[test]
fn append_or_out_of_memory(rt: HostRuntime) {
    let checks = Checks::refusable(rt.alloc());
    assert!(rt;
        are_empty(checks)
            && are_appended(checks)
            && is_key_refused(checks)
            && is_first_appended(checks, view(&rt, ONE_INT32))
    );
}

/// Whether a null is pushed.
fn is_pushed_again(array: &mut RawArrayBuf, after: &[u8]) -> bool {
    let_go!(made = array.push(RawBson::Null); made.is_ok()) && array.as_bytes() == after
}

/// Whether a null is pushed, at once or, if memory ran out and nothing changed, the second time.
fn is_null_pushed(checks: Checks, array: &mut RawArrayBuf, around: (&[u8], &[u8])) -> bool {
    let_go!(
        made = array.push(RawBson::Null);
        is_changed(checks, &made, array.as_bytes(), around)
            && (made.is_ok() || is_pushed_again(array, around.1))
    )
}

/// The same array with two more nulls pushed.
const PUSHED_TWICE: &[u8] = b"\x0C\0\0\0\x0A\n2\0\x0A3\0\0";

/// Whether two nulls are pushed to the array, if there is memory for it.
fn has_nulls_pushed(checks: Checks, made: &mut Result<RawArrayBuf>) -> bool {
    match made {
        Ok(array) => {
            is_null_pushed(
                checks,
                array,
                (SWALLOWED_TERMINATOR, SWALLOWED_TERMINATOR_PUSHED),
            ) && is_null_pushed(checks, array, (SWALLOWED_TERMINATOR_PUSHED, PUSHED_TWICE))
        }
        Err(error) => checks.is_out_of_memory(error),
    }
}

/// The same of the array of a null and a stop.
pub(crate) fn are_pushed(checks: Checks) -> bool {
    let_go!(
        mut made = array_of(checks.alloc, SWALLOWED_TERMINATOR);
        has_nulls_pushed(checks, &mut made)
    )
}

/// The key of the next push shows that one that ran out of memory left the count unchanged.
#[test]
fn push_or_out_of_memory(rt: HostRuntime) {
    assert!(rt; are_pushed(Checks::refusable(rt.alloc())));
}

/// Whether three numbers make their document, and two their array, or memory ran out.
pub(crate) fn are_collected(checks: Checks) -> bool {
    let pairs = [
        ("a", RawBson::Int32(-1)),
        ("b", RawBson::Int32(123)),
        ("c", RawBson::Int32(0)),
    ];
    let numbers = [RawBson::Int32(-1), RawBson::Int32(123)];
    let bytes = b"\x13\0\0\0\x100\0\xFF\xFF\xFF\xFF\x101\0\x7B\0\0\0\0";
    let_go!(
        made = RawDocumentBuf::from_iter(checks.alloc, pairs.into_iter());
        checks.is_document(&made, THREE_INT32)
    ) && let_go!(
        made = RawArrayBuf::from_iter(checks.alloc, numbers.into_iter());
        checks.is_array(&made, bytes)
    )
}

#[test]
fn from_iter_or_out_of_memory(rt: HostRuntime) {
    assert!(rt; are_collected(Checks::refusable(rt.alloc())));
}
