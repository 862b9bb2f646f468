//! How many elements a conversion reads.
use crate::fixtures::*;
use raw_bson::{Document, RawDocument, Reason, Result, document_from_raw_counted};
use std::alloc::Global;
use std::process::Abort;

/// Whether nothing was left where an element should be, after this many.
fn is_overflow(answer: &Result<Document>, found: usize, count: usize) -> bool {
    found == count && is_refused(answer, Reason::Overflowed, None)
}

/// Whether this many elements of the document are read until nothing is left.
fn is_counted(alloc: Global, view: RawDocument<'_>, count: usize) -> bool {
    let (answer, steps) = document_from_raw_counted(alloc, view);
    let_go!(made = answer; is_overflow(&made, steps.count(), count))
}

#[test]
fn a_million_levels_have_a_fault(rt: HostRuntime) {
    let alloc = rt.alloc();
    let bytes = nested(alloc, &[IN_A_DOCUMENT], 999_999, SWALLOWED_TERMINATOR).expect(
        &rt,
        "no memory for the levels",
    );
    assert!(rt; is_counted(alloc, view(&rt, &bytes), 1_000_000));
}
