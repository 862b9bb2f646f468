//! The `Debug` texts of values and trees: those of Rust's `derive`; for views and buffers their bytes as
//! hexadecimal digits.

use crate::fixtures::*;
use raw_bson::{ElementType, RawArrayBuf, RawBson, RawBsonRef, RawDocumentBuf, Result, ToRawBson};
use std::alloc::Global;
use std::process::Abort;

/// A kind, with the text of its value in the document of all kinds, borrowed and owned.
type Row = (ElementType, &'static str, &'static str);

const VALUES: &[Row] = &[
    (ElementType::Int32, "Int32(7)", "Int32(7)"),
    (ElementType::Int64, "Int64(-2)", "Int64(-2)"),
    (ElementType::String, "String(\"s\")", "String(\"s\")"),
    (ElementType::Null, "Null", "Null"),
    (ElementType::MinKey, "MinKey", "MinKey"),
    (
        ElementType::Binary,
        "Binary(RawBinaryRef { subtype: UserDefined(128), bytes: [1, 2] })",
        "Binary(Binary { subtype: UserDefined(128), bytes: [1, 2] })",
    ),
    (
        ElementType::RegularExpression,
        "RegularExpression(RawRegexRef { pattern: \"a\", options: \"i\" })",
        "RegularExpression(Regex { pattern: \"a\", options: \"i\" })",
    ),
    (
        ElementType::EmbeddedDocument,
        "Document(RawDocument { data: \"070000000a0000\" })",
        "Document(RawDocumentBuf { data: \"070000000a0000\" })",
    ),
    (
        ElementType::Array,
        "Array(RawArray { data: \"080000000a300000\" })",
        "Array(RawArrayBuf { data: \"080000000a300000\", len: 1 })",
    ),
    (
        ElementType::JavaScriptCodeWithScope,
        "JavaScriptCodeWithScope(RawJavaScriptCodeWithScopeRef { code: \"g\", scope: RawDocument { data: \"0500000000\" } })",
        "JavaScriptCodeWithScope(RawJavaScriptCodeWithScope { code: \"g\", scope: RawDocumentBuf { data: \"0500000000\" } })",
    ),
];

/// Whether the borrowed value has the first text, and the owned value the second.
fn is_value_printed(
    alloc: Global,
    value: RawBsonRef<'_>,
    copy: &Result<RawBson>,
    (_, text, owned_text): Row,
) -> bool {
    has_debug_text(alloc, &value, text) && is_printed(alloc, copy, owned_text)
}

/// The same of the value of a row.
fn is_row(alloc: Global, row: Row) -> bool {
    match borrowed(row.0) {
        Ok(value) =>
            let_go!(made = value.to_raw_bson(alloc); is_value_printed(alloc, value, &made, row)),
        Err(_) => false,
    }
}

#[test]
fn values_have_debug_texts(rt: HostRuntime) {
    for (row, value) in VALUES.iter().enumerate() {
        require_row(&rt, is_row(rt.alloc(), *value), "values", row);
    }
}

/// Arrays, and the texts of their copies, which have the number of items.
const ARRAYS: &[(&[u8], &str)] = &[
    (EMPTY, "RawArrayBuf { data: \"0500000000\", len: 0 }"),
    // a null and a stop
    (
        SWALLOWED_TERMINATOR,
        "RawArrayBuf { data: \"060000000a00\", len: 2 }",
    ),
    (
        SWALLOWED_TERMINATOR_PUSHED,
        "RawArrayBuf { data: \"090000000a0a320000\", len: 1 }",
    ),
    // a stop
    (
        NEGATIVE_DOCUMENT_LENGTH,
        "RawArrayBuf { data: \"0c000000036100ffffffff00\", len: 1 }",
    ),
];

/// Whether the copy of an array has this text.
fn is_array_printed(alloc: Global, bytes: &[u8], text: &str) -> bool {
    let_go!(made = array_of(alloc, bytes); is_printed(alloc, &made, text))
}

/// Whether new buffers have their texts.
fn are_new_printed(alloc: Global) -> bool {
    let_go!(
        made = RawDocumentBuf::new(alloc);
        is_printed(alloc, &made, "RawDocumentBuf { data: \"0500000000\" }")
    ) && let_go!(
        made = RawArrayBuf::new(alloc);
        is_printed(alloc, &made, "RawArrayBuf { data: \"0500000000\", len: 0 }")
    )
}

#[test]
fn buffers_have_debug_texts(rt: HostRuntime) {
    require_row(&rt, are_new_printed(rt.alloc()), "new buffers", 0);
    for (row, (bytes, text)) in ARRAYS.iter().enumerate() {
        require_row(
            &rt,
            is_array_printed(rt.alloc(), bytes, text),
            "arrays",
            row,
        );
    }
}

/// The tree of the document of all kinds.
const TREE: &str = "Document { pairs: {\
\"a\": Double(DoubleBits(4609434218613702656)), \
\"b\": String(\"s\"), \
\"c\": Document(Document { pairs: {\"\": Null} }), \
\"d\": Array([Null]), \
\"e\": Binary(Binary { subtype: UserDefined(128), bytes: [1, 2] }), \
\"f\": Undefined, \
\"g\": ObjectId(ObjectId { bytes: [1, 2, 3, 4, 5, 6, 7, 8, 9, 10, 11, 12] }), \
\"h\": Boolean(true), \
\"i\": DateTime(DateTime { millis: -1 }), \
\"j\": Null, \
\"k\": RegularExpression(Regex { pattern: \"a\", options: \"i\" }), \
\"l\": DbPointer(DbPointer { namespace: \"db.c\", id: ObjectId { bytes: [12, 11, 10, 9, 8, 7, 6, 5, 4, 3, 2, 1] } }), \
\"m\": JavaScriptCode(\"f\"), \
\"n\": Symbol(\"y\"), \
\"o\": JavaScriptCodeWithScope(JavaScriptCodeWithScope { code: \"g\", scope: Document { pairs: {} } }), \
\"p\": Int32(7), \
\"q\": Timestamp(Timestamp { time: 649876543, increment: 9 }), \
\"r\": Int64(-2), \
\"s\": Decimal128(Decimal128 { bytes: [0, 1, 2, 3, 4, 5, 6, 7, 8, 9, 10, 11, 12, 13, 14, 15] }), \
\"t\": MaxKey, \
\"u\": MinKey} }";

/// Whether the tree of these bytes has this text.
fn is_tree_printed(alloc: Global, bytes: &[u8], text: &str) -> bool {
    let_go!(made = tree_of(alloc, bytes); is_printed(alloc, &made, text))
}

#[test]
fn a_tree_has_a_debug_text(rt: HostRuntime) {
    assert!(rt; is_tree_printed(rt.alloc(), ALL_KINDS, TREE));
}
