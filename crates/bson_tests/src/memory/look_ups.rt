//! Look-ups and iteration.
use crate::fixtures::*;
use crate::tables::{rows_of_getters, rows_to_a_key};
use raw_view::{
    RawArray, RawBsonRef, RawDocument, Result, ValueAccessErrorKind, ValueAccessResult,
};
use std::alloc::Global;
use std::test::Fail;

// What takes no memory is in `no_memory`.

/// A typed look-up by index passes over faults, and reports the one that it finds. A fault under a key is returned
/// even if a good value is under the same key further on.
#[test]
fn rows_or_out_of_memory(rt: HostRuntime) {
    let checks = Checks::refusable(rt.alloc());
    rows_to_a_key(checks, &rt);
    rows_of_getters(checks, &rt);
}

/// Whether the result is out of memory, with the empty key, and its text says so.
fn is_getter_out_of_memory(alloc: Global, answer: &ValueAccessResult<bool>) -> bool {
    match answer {
        Ok(_) => false,
        Err(error) => {
            matches!(error.kind, ValueAccessErrorKind::OutOfMemory)
                && error.key().is_empty()
                && has_display_text(alloc, error, "error at key: \"\": out of memory")
        }
    }
}

/// Whether the result is out of memory, without a key.
fn is_look_up_out_of_memory(alloc: Global, answer: &Result<Option<RawBsonRef<'_>>>) -> bool {
    match answer {
        Ok(_) => false,
        Err(error) => Checks::refusable(alloc).is_out_of_memory(error),
    }
}

/// Whether this item is out of memory.
fn is_item_out_of_memory(alloc: Global, item: &Option<Result<(&str, RawBsonRef<'_>)>>) -> bool {
    match item {
        Some(Err(error)) => Checks::refusable(alloc).is_out_of_memory(error),
        _ => false,
    }
}

/// Whether the first item is out of memory, and nothing follows it.
fn is_out_of_memory_alone(alloc: Global, document: RawDocument<'_>) -> bool {
    let mut iter = document.iter(alloc);
    let is_first = let_go!(made = iter.next(); is_item_out_of_memory(alloc, &made));
    is_first && let_go!(made = iter.next(); made.is_none())
}

/// Whether a look-up is out of memory: a getter of a boolean of the byte 2, an item of an array that stops there, or iteration over a
/// boolean of the byte 2.
fn is_one_out_of_memory(
    alloc: Global,
    faulty: RawArray<'_>,
    stopped: RawArray<'_>,
    two: RawDocument<'_>,
) -> bool {
    let_go!(made = faulty.get_bool(alloc, 0); is_getter_out_of_memory(alloc, &made))
        || let_go!(made = stopped.get(alloc, 0); is_look_up_out_of_memory(alloc, &made))
        || is_out_of_memory_alone(alloc, two)
}

/// `bin/test` expects the line in each run in which a request failed, and in no other.
#[test]
fn a_refused_look_up_is_out_of_memory(rt: HostRuntime) -> std::result::Result<(), Fail> {
    let faulty = view_of_array(&rt, FAULT_BEFORE_A_NUMBER);
    let stopped = view_of_array(&rt, NEGATIVE_DOCUMENT_LENGTH);
    if is_one_out_of_memory(rt.alloc(), faulty, stopped, view(&rt, BOOLEAN_TWO)) {
        println!(rt; "out of memory")?;
    }
    Ok(())
}
