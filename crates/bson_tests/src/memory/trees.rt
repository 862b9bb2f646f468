//! Trees: reading, writing, conversions and canonical forms.
use crate::fixtures::*;
use crate::memory::asserts::OwnedChecks;
use crate::memory::parts::is_part;
use raw_bson::{
    Bson, Document, Limits, RawBson, RawBsonRef, RawDocument, RawDocumentBuf, RawElement, Result,
    bson_from_element, bson_from_raw, canonical_bytes, document_from_raw,
    document_from_raw_counted, document_from_raw_within, encode, list_from_raw,
};
use std::alloc::{AllocError, Global};
use std::process::Abort;

// `bin/test` runs these alone, with each request for memory failing in turn. Each call returns what it returns
// with ample memory, or out of memory without a key. A look at a tree takes no memory.

/// A document, an array, a text, a regular expression and code with a scope.
pub(crate) const PARTS: &[u8] = b"\x3D\0\0\0\
\x03d\0\x07\0\0\0\x0A\0\0\
\x04l\0\x08\0\0\0\x0A0\0\0\
\x02t\0\x02\0\0\0s\0\
\x0Br\0p\0im\0\
\x0Fc\0\x0F\0\0\0\x02\0\0\0g\0\x05\0\0\0\0\
\0";

/// The same with another key in the array and the options in another order.
pub(crate) const OTHER_SPELLING: &[u8] = b"\x3D\0\0\0\
\x03d\0\x07\0\0\0\x0A\0\0\
\x04l\0\x08\0\0\0\x0Ax\0\0\
\x02t\0\x02\0\0\0s\0\
\x0Br\0p\0mi\0\
\x0Fc\0\x0F\0\0\0\x02\0\0\0g\0\x05\0\0\0\0\
\0";

/// The bytes and levels of that document.
const LIMITS: Limits = Limits {
    bytes: 61,
    depth: 2,
};

/// Whether the tree has this part at this place.
fn has_part(tree: &Document, index: usize, wanted: &str) -> bool {
    match tree.pair_at(index) {
        Some((key, value)) => key == wanted && is_part(key, value),
        None => false,
    }
}

/// Whether the tree has these parts in this order.
fn has_parts(tree: &Document) -> bool {
    has_part(tree, 0, "d")
        && has_part(tree, 1, "l")
        && has_part(tree, 2, "t")
        && has_part(tree, 3, "r")
        && has_part(tree, 4, "c")
        && tree.len() == 5
}

/// Whether the result is a tree of these parts, or out of memory.
fn is_tree(checks: Checks, answer: &Result<Document>) -> bool {
    match answer {
        Ok(tree) => has_parts(tree),
        Err(error) => checks.is_out_of_memory(error),
    }
}

/// Whether the buffer has these parts, within limits too, and is unchanged, if there was memory for it.
fn is_buffer_read(checks: Checks, answer: &Result<RawDocumentBuf>) -> bool {
    match answer {
        Ok(buffer) => {
            let_go!(made = buffer.to_document(); is_tree(checks, &made))
                && let_go!(made = buffer.to_document_within(LIMITS); is_tree(checks, &made))
                && buffer.as_bytes() == OTHER_SPELLING
        }
        Err(error) => checks.is_out_of_memory(error),
    }
}

/// The tree of a buffer that is consumed.
fn taken(alloc: Global) -> Result<Document> {
    document_of(alloc, OTHER_SPELLING)?.into_document()
}

/// Whether the parts are counted: five, one more in the document, and one more in the array.
fn is_counted(checks: Checks, view: RawDocument<'_>) -> bool {
    let (answer, steps) = document_from_raw_counted(checks.alloc, view);
    let_go!(made = answer; is_tree(checks, &made) && (made.is_err() || steps.count() == 7))
}

/// Whether the document has these parts, within limits too.
pub(crate) fn is_view_read(checks: Checks, view: RawDocument<'_>) -> bool {
    let_go!(made = document_from_raw(checks.alloc, view); is_tree(checks, &made))
        && let_go!(
            made = document_from_raw_within(checks.alloc, view, LIMITS);
            is_tree(checks, &made)
        )
        && is_counted(checks, view)
}

/// Whether buffers with these bytes have these parts, both if they are read and if they are consumed.
pub(crate) fn are_buffers_read(checks: Checks) -> bool {
    let_go!(made = document_of(checks.alloc, OTHER_SPELLING); is_buffer_read(checks, &made))
        && let_go!(made = taken(checks.alloc); is_tree(checks, &made))
}

#[test]
fn trees_of_documents_or_out_of_memory(rt: HostRuntime) {
    let checks = Checks::refusable(rt.alloc());
    assert!(rt; is_view_read(checks, view(&rt, OTHER_SPELLING)) && are_buffers_read(checks));
}

/// Whether each call that writes the tree returns its bytes, or runs out of memory, and leaves the tree unchanged.
fn is_written(checks: Checks, tree: &Document) -> bool {
    let_go!(
        made = RawDocumentBuf::from_document(checks.alloc, tree);
        checks.is_document(&made, PARTS)
    ) && let_go!(
        made = RawDocumentBuf::try_from_document(checks.alloc, tree);
        checks.is_document(&made, PARTS)
    ) && has_parts(tree)
}

/// Whether the tree is written, or memory ran out for it.
fn is_tree_written(checks: Checks, answer: &Result<Document>) -> bool {
    match answer {
        Ok(tree) => is_written(checks, tree),
        Err(error) => checks.is_out_of_memory(error),
    }
}

/// The same of each call that writes the parts.
pub(crate) fn are_parts_written(checks: Checks) -> bool {
    let_go!(made = canonical_bytes(checks.alloc, OTHER_SPELLING); checks.is_list(&made, PARTS))
        && let_go!(made = tree_of(checks.alloc, PARTS); is_tree_written(checks, &made))
}

#[test]
fn bytes_of_trees_or_out_of_memory(rt: HostRuntime) {
    assert!(rt; are_parts_written(Checks::refusable(rt.alloc())));
}

/// Documents and their canonical forms: of the repeated key, the array with an empty key, the options out of order, and the least code with
/// scope.
const FORMS: &[(&[u8], &[u8])] = &[
    (REPEATED_KEY, b"\x0C\0\0\0\x10a\0\x02\0\0\0\0"),
    (
        ARRAY_WITH_AN_EMPTY_KEY,
        b"\x10\0\0\0\x04a\0\x08\0\0\0\x0A0\0\0\0",
    ),
    (OPTIONS_OUT_OF_ORDER, b"\x0D\0\0\0\x0Br\0a\0im\0\0"),
    (LEAST_CODE_WITH_SCOPE, LEAST_CODE_WITH_SCOPE),
];

/// The tree of a buffer of these bytes.
fn read(alloc: Global, bytes: &[u8]) -> Result<Document> {
    document_of(alloc, bytes)?.to_document()
}

/// Whether the document is written as its form, by way of its tree and at once, or memory ran out.
fn has_form(checks: Checks, bytes: &[u8], form: &[u8]) -> bool {
    let_go!(tree = read(checks.alloc, bytes); is_form(checks, &tree, form))
        && let_go!(made = canonical_bytes(checks.alloc, bytes); checks.is_list(&made, form))
}

/// Each document has its form.
pub(crate) fn forms(rt: &impl Abort, checks: Checks) {
    for (row, (bytes, form)) in FORMS.iter().enumerate() {
        require_row(rt, has_form(checks, bytes, form), "forms", row);
    }
}

#[test]
fn forms_or_out_of_memory(rt: HostRuntime) {
    forms(&rt, Checks::refusable(rt.alloc()));
}

/// Whether the result is the value under this key, or out of memory.
fn is_part_made(checks: Checks, key: &str, answer: &Result<Bson>) -> bool {
    match answer {
        Ok(tree) => is_part(key, tree),
        Err(error) => checks.is_out_of_memory(error),
    }
}

/// The value as a tree; of an array its list.
fn tree_or_list(alloc: Global, value: RawBsonRef<'_>) -> Result<Bson> {
    match value.as_array() {
        Some(array) => Ok(Bson::Array(list_from_raw(alloc, array)?)),
        None => bson_from_raw(alloc, value),
    }
}

/// The element as an owned value, by way of its tree.
fn there(alloc: Global, element: RawElement<'_>) -> Result<RawBson> {
    RawBson::try_from_bson(alloc, bson_from_element(alloc, element)?)
}

/// That value as a tree again.
fn there_and_back(alloc: Global, element: RawElement<'_>) -> Result<Bson> {
    there(alloc, element)?.into_bson(alloc)
}

/// Whether the element and its value become the tree under its key, and the tree becomes the value and the tree again.
fn is_element_right(checks: Checks, element: RawElement<'_>, value: RawBsonRef<'_>) -> bool {
    let key = element.key();
    let_go!(made = bson_from_element(checks.alloc, element); is_part_made(checks, key, &made))
        && let_go!(made = tree_or_list(checks.alloc, value); is_part_made(checks, key, &made))
        && let_go!(made = there(checks.alloc, element); checks.is_value(&made, value))
        && let_go!(
            made = there_and_back(checks.alloc, element);
            is_part_made(checks, key, &made)
        )
}

/// The same of an element whose value was read.
fn is_value_right(
    checks: Checks,
    element: RawElement<'_>,
    answer: &Result<RawBsonRef<'_>>,
) -> bool {
    match answer {
        Ok(value) => is_element_right(checks, element, *value),
        Err(_) => false,
    }
}

/// The same of an item.
fn is_item_right(checks: Checks, item: &Option<Result<RawElement<'_>>>) -> bool {
    match item {
        Some(Ok(element)) => let_go!(
                made = element.value(checks.alloc);
                is_value_right(checks, *element, &made)
            ),
        _ => false,
    }
}

/// The same of each of the five parts.
pub(crate) fn are_values_right(checks: Checks, document: RawDocument<'_>) -> bool {
    let mut elements = document.iter_elements(checks.alloc);
    let mut are_right = true;
    for _ in 0..5 {
        are_right = are_right && let_go!(made = elements.next(); is_item_right(checks, &made));
    }
    are_right
}

#[test]
fn values_or_out_of_memory(rt: HostRuntime) {
    assert!(rt; are_values_right(Checks::refusable(rt.alloc()), view(&rt, PARTS)));
}

/// Whether the tree is written as these bytes, or memory runs out.
fn is_form(checks: Checks, answer: &Result<Document>, bytes: &[u8]) -> bool {
    match answer {
        Ok(tree) => let_go!(made = encode(checks.alloc, tree); checks.is_list(&made, bytes)),
        Err(error) => checks.is_out_of_memory(error),
    }
}

/// Whether these bytes are their own form, or memory ran out for them.
fn are_form(checks: Checks, made: &std::result::Result<Vec<u8>, AllocError>) -> bool {
    match made {
        Ok(bytes) => let_go!(tree = read(checks.alloc, bytes); is_form(checks, &tree, bytes)),
        Err(_) => checks.is_refusable,
    }
}

/// The same of `levels` levels around the innermost.
pub(crate) fn are_levels_form(checks: Checks, levels: usize) -> bool {
    let_go!(
        made = nested(checks.alloc, &[UNDER_THE_EMPTY_KEY], levels, EMPTY);
        are_form(checks, &made)
    )
}

#[test]
fn form_of_five_hundred_levels_or_out_of_memory(rt: HostRuntime) {
    assert!(rt; are_levels_form(Checks::refusable(rt.alloc()), 499));
}
