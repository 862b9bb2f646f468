//! Calls that take no memory.
use crate::fixtures::*;
use crate::memory::requests::is_turned;
use crate::tables::rows_without_a_key;
use raw_bson::{Limits, RawBson, RawBsonRef};
use raw_form::flatten_within;
use raw_view::{ElementType, RawArray, RawDocument, RawElement, RawIter, Result};
use std::alloc::Global;
use std::process::Abort;

// None of these calls requests memory: `bin/test` counts the requests of each test, and there are none. So no run
// has one that fails.

/// Whether each getter of documents has a value under the key of its kind in the document of all kinds.
fn has_each_value(alloc: Global, document: RawDocument<'_>) -> bool {
    is_got(document.get_f64(alloc, "a"))
        && is_got(document.get_str(alloc, "b"))
        && is_got(document.get_document(alloc, "c"))
        && is_got(document.get_array(alloc, "d"))
        && is_got(document.get_binary(alloc, "e"))
        && is_got(document.get_object_id(alloc, "g"))
        && is_got(document.get_bool(alloc, "h"))
        && is_got(document.get_datetime(alloc, "i"))
        && is_got(document.get_regex(alloc, "k"))
        && is_got(document.get_i32(alloc, "p"))
        && is_got(document.get_timestamp(alloc, "q"))
        && is_got(document.get_i64(alloc, "r"))
}

/// Whether each getter of arrays has a value at its index in the array of the same bytes.
fn has_each_item(alloc: Global, array: RawArray<'_>) -> bool {
    is_got(array.get_f64(alloc, 0))
        && is_got(array.get_str(alloc, 1))
        && is_got(array.get_document(alloc, 2))
        && is_got(array.get_array(alloc, 3))
        && is_got(array.get_binary(alloc, 4))
        && is_got(array.get_object_id(alloc, 6))
        && is_got(array.get_bool(alloc, 7))
        && is_got(array.get_datetime(alloc, 8))
        && is_got(array.get_regex(alloc, 10))
        && is_got(array.get_i32(alloc, 15))
        && is_got(array.get_timestamp(alloc, 16))
        && is_got(array.get_i64(alloc, 17))
}

/// Whether typed getters have the greeting's text, and a number after another value.
fn are_found(alloc: Global, greeting: RawDocument<'_>, mixed: RawDocument<'_>) -> bool {
    greeting.get_str(alloc, "hi").ok() == Some("y'all")
        && mixed.get_i32(alloc, "i32").ok() == Some(1000000)
}

/// Whether typed getters have a value after a fault: a boolean of the byte 2, and a text that isn't UTF-8.
fn are_found_after(alloc: Global, faulty: RawArray<'_>, text: RawArray<'_>) -> bool {
    faulty.get_i32(alloc, 1).ok() == Some(7) && text.get_i32(alloc, 1).ok() == Some(7)
}

/// Whether the next item is an element of this kind, with this key and a payload of this length.
fn is_next_framed(elements: &mut RawIter<'_>, kind: ElementType, key: &str, len: usize) -> bool {
    let_go!(made = elements.next(); is_framed(&made, kind, key, len))
}

/// Whether the item is such an element.
fn is_framed(
    item: &Option<Result<RawElement<'_>>>,
    kind: ElementType,
    key: &str,
    len: usize,
) -> bool {
    match item {
        Some(Ok(element)) => {
            element.element_type() == kind && element.key() == key && element.len() == len
        }
        _ => false,
    }
}

/// Whether the item is the stop at which no byte is left.
fn is_overflow(item: &Option<Result<RawElement<'_>>>) -> bool {
    match item {
        Some(Err(error)) => is_fault(error, &OVERFLOWED),
        _ => false,
    }
}

/// Whether the elements of the empty document, of the greeting and of the swallowed terminator are framed, and then the stop of the last.
fn are_framed(
    mut empty: RawIter<'_>,
    mut greeting: RawIter<'_>,
    mut swallowed: RawIter<'_>,
) -> bool {
    let_go!(made = empty.next(); made.is_none())
        && is_next_framed(&mut greeting, ElementType::String, "hi", 10)
        && let_go!(made = greeting.next(); made.is_none())
        && is_next_framed(&mut swallowed, ElementType::Null, "", 0)
        && let_go!(made = swallowed.next(); is_overflow(&made))
        && let_go!(made = swallowed.next(); made.is_none())
}

#[test]
fn reading_takes_no_memory(rt: HostRuntime) {
    let checks = Checks::ample(rt.alloc());
    rows_without_a_key(checks, &rt);
    assert!(rt;
        has_each_value(rt.alloc(), view(&rt, ALL_KINDS))
            && has_each_item(rt.alloc(), view_of_array(&rt, ALL_KINDS))
            && are_framed(
                view(&rt, EMPTY).iter_elements(rt.alloc()),
                view(&rt, GREETING).iter_elements(rt.alloc()),
                view(&rt, SWALLOWED_TERMINATOR).iter_elements(rt.alloc())
            )
            && are_found(rt.alloc(), view(&rt, GREETING), view(&rt, BOOL_AND_INT32))
            && are_found_after(
                rt.alloc(),
                view_of_array(&rt, FAULT_BEFORE_A_NUMBER),
                view_of_array(&rt, ARRAY_WITH_TEXT_NOT_UTF8)
            )
    );
}

/// The limits of the document.
const LIMITS: Limits = Limits {
    bytes: 19,
    depth: 2,
};

/// Whether the document, of one level, is one token.
fn is_one_token(alloc: Global, document: RawDocument<'_>) -> bool {
    flatten_within(alloc, document, LIMITS, &mut []).ok() == Some(1)
}

#[test]
fn values_that_become_trees_take_no_memory(rt: HostRuntime) {
    let checks = Checks::ample(rt.alloc());
    assert!(rt;
        is_turned(checks, RawBson::Int32(7), RawBsonRef::Int32(7))
            && is_turned(checks, RawBson::Null, RawBsonRef::Null)
    );
}

#[test]
fn flatten_within_of_one_level_takes_no_memory(rt: HostRuntime) {
    assert!(rt; is_one_token(rt.alloc(), view(&rt, GREETING)));
}
