//! What is printed of errors, of kinds, of bytes and of parts of values.

use crate::fixtures::*;
use bson_model::NoMemory;
use raw_view::{
    ElementType, Error, ErrorKind, RawArray, RawDbPointerRef, RawDocument, ValueAccessErrorKind,
};
use std::alloc::Global;
use std::process::Abort;

/// A document, a key under which nothing is found, and the texts of the error.
type Row = (&'static [u8], &'static str, &'static str, &'static str);

/// Look-ups with a fault.
const LOOK_UPS: &[Row] = &[
    // the key is a quote and a line end, and is printed as it is
    (
        b"\x08\0\0\0\x14\"\n\0",
        "",
        "error at key \"\"\n\": malformed value: \"invalid tag: 20\"",
        "Error { kind: MalformedValue { reason: InvalidTag(20) }, key: Some(\"\\\"\\n\") }",
    ),
    (
        BOOLEAN_TWO,
        "a",
        "error at key \"a\": malformed value: \"boolean must be stored as 0 or 1, got 2\"",
        "Error { kind: MalformedValue { reason: BadBoolean(2) }, key: Some(\"a\") }",
    ),
    (
        SWALLOWED_TERMINATOR,
        "a",
        "malformed value: \"iteration overflowed document\"",
        "Error { kind: MalformedValue { reason: Overflowed }, key: None }",
    ),
    (
        TAG_ZERO,
        "a",
        "error at key \"\": malformed value: \"invalid tag: 0\"",
        "Error { kind: MalformedValue { reason: InvalidTag(0) }, key: Some(\"\") }",
    ),
    // a code with scope that declares three bytes, and with `true` appended
    (
        b"\x0B\0\0\0\x0Fa\0\x03\0\0\0",
        "a",
        "error at key \"a\": malformed value: \"code with scope length too small\"",
        "Error { kind: MalformedValue { reason: CodeTooSmall }, key: Some(\"a\") }",
    ),
    (
        b"\x0F\0\0\0\x0Fa\0\x03\0\0\x08b\0\x01\0",
        "a",
        "error at key \"a\": malformed value: \"length exceeds remaining length of buffer: 134217731 vs 8\"",
        "Error { kind: MalformedValue { reason: PastEnd(134217731, 8) }, key: Some(\"a\") }",
    ),
    (
        NEGATIVE_DOCUMENT_LENGTH,
        "a",
        "error at key \"a\": malformed value: \"lengths can't be negative\"",
        "Error { kind: MalformedValue { reason: NegativeLength }, key: Some(\"a\") }",
    ),
    // an old binary with inner length -1
    (
        b"\x11\0\0\0\x05b\0\x04\0\0\0\x02\xFF\xFF\xFF\xFF\0",
        "b",
        "malformed value: \"attempted to add with overflow\"",
        "Error { kind: MalformedValue { reason: AddOverflow }, key: None }",
    ),
    // a scope with a wrong header
    (
        b"\x17\0\0\0\x0Fc\0\x0F\0\0\0\x01\0\0\0\0\x05\0\0\0\0\0\0",
        "c",
        "malformed value: \"document length incorrect\"",
        "Error { kind: MalformedValue { reason: LengthIncorrect }, key: None }",
    ),
    // a truncated string
    (
        b"\x0C\0\0\0\x02a\0\x06\0\0\0\0",
        "a",
        "error at key \"a\": malformed value: \"expected buffer to contain at least 10 bytes, but it only has 5\"",
        "Error { kind: MalformedValue { reason: StringPastEnd(10, 5) }, key: Some(\"a\") }",
    ),
    // the greeting, whose text declares fourteen bytes, and less than none
    (
        b"\x13\0\0\0\x02hi\0\x0E\0\0\0y'all\0\0",
        "hi",
        "error at key \"hi\": malformed value: \"expected buffer to contain at least 18 bytes, but it only has 11\"",
        "Error { kind: MalformedValue { reason: StringPastEnd(18, 11) }, key: Some(\"hi\") }",
    ),
    (
        b"\x13\0\0\0\x02hi\0\x06\0\0\x80y'all\0\0",
        "hi",
        "error at key \"hi\": malformed value: \"lengths can't be negative\"",
        "Error { kind: MalformedValue { reason: NegativeLength }, key: Some(\"hi\") }",
    ),
    // a pattern, and options, without their 0
    (
        b"\x07\0\0\0\x0Br\0",
        "r",
        "error at key \"r\": malformed value: \"expected null terminator\"",
        "Error { kind: MalformedValue { reason: NoTerminator }, key: Some(\"r\") }",
    ),
    (
        b"\x08\0\0\0\x0Br\0\0",
        "r",
        "error at key \"r\": malformed value: \"expected null terminator\"",
        "Error { kind: MalformedValue { reason: NoTerminator }, key: Some(\"r\") }",
    ),
    (
        KEY_NOT_UTF8,
        "a",
        "utf-8 encoding error: invalid utf-8 sequence of 1 bytes from index 0",
        "Error { kind: Utf8EncodingError(Utf8Error { valid_up_to: 0, error_len: Some(1) }), key: None }",
    ),
    // a pattern
    (
        b"\x0A\0\0\0\x0Ba\0\xFF\0\0",
        "a",
        "error at key \"a\": utf-8 encoding error: invalid utf-8 sequence of 1 bytes from index 0",
        "Error { kind: Utf8EncodingError(Utf8Error { valid_up_to: 0, error_len: Some(1) }), key: Some(\"a\") }",
    ),
    // a text that ends too early
    (
        b"\x0F\0\0\0\x0Ek\0\x03\0\0\0a\xC3\0\0",
        "k",
        "utf-8 encoding error: incomplete utf-8 byte sequence from index 1",
        "Error { kind: Utf8EncodingError(Utf8Error { valid_up_to: 1, error_len: None }), key: None }",
    ),
];

/// Whether the look-up of this key in the document has an error of these texts.
fn is_look_up_printed(
    alloc: Global,
    view: RawDocument<'_>,
    (_, key, text, debug_text): Row,
) -> bool {
    let_go!(made = view.get(alloc, key); has_error_texts(alloc, &made, text, debug_text))
}

#[test]
fn errors_are_printed(rt: HostRuntime) {
    for (row, look_up) in LOOK_UPS.iter().enumerate() {
        let is_right = is_look_up_printed(rt.alloc(), view(&rt, look_up.0), *look_up);
        require_row(&rt, is_right, "look-ups", row);
    }
}

/// Whether the error for out of memory has its texts.
fn is_out_of_memory_printed(alloc: Global) -> bool {
    let debug_text = "Error { kind: OutOfMemory, key: None }";
    let_go!(
        error = Error::new(ErrorKind::OutOfMemory);
        has_texts(alloc, &error, "out of memory", debug_text)
    ) && has_debug_text(alloc, &ValueAccessErrorKind::OutOfMemory, "OutOfMemory")
}

#[test]
fn out_of_memory_is_printed(rt: HostRuntime) {
    assert!(rt; is_out_of_memory_printed(rt.alloc()));
}

/// Getters of an int32 that find no int32.
const ACCESSES: &[Row] = &[
    (
        BOOL_AND_INT32,
        "bool",
        "error at key: \"bool\":  unexpected element type: Boolean, expected: Int32",
        "ValueAccessError { kind: UnexpectedType { expected: Int32, actual: Boolean }, key: \"bool\" }",
    ),
    (
        BOOL_AND_INT32,
        "unknown",
        "error at key: \"unknown\": value not present",
        "ValueAccessError { kind: NotPresent, key: \"unknown\" }",
    ),
    (
        EMPTY,
        "",
        "error at key: \"\": value not present",
        "ValueAccessError { kind: NotPresent, key: \"\" }",
    ),
    (
        EMPTY,
        "\"\n",
        "error at key: \"\"\n\": value not present",
        "ValueAccessError { kind: NotPresent, key: \"\\\"\\n\" }",
    ),
    (
        BOOLEAN_TWO,
        "a",
        "error at key: \"a\": : error at key \"a\": malformed value: \"boolean must be stored as 0 or 1, got 2\"",
        "ValueAccessError { kind: InvalidBson(Error { kind: MalformedValue { reason: BadBoolean(2) }, key: Some(\"a\") }), key: \"a\" }",
    ),
];

/// Whether the getter of an int32 under this key has an error of these texts.
fn is_access_printed(
    alloc: Global,
    view: RawDocument<'_>,
    (_, key, text, debug_text): Row,
) -> bool {
    let_go!(made = view.get_i32(alloc, key); has_error_texts(alloc, &made, text, debug_text))
}

#[test]
fn access_errors_are_printed(rt: HostRuntime) {
    for (row, access) in ACCESSES.iter().enumerate() {
        let is_right = is_access_printed(rt.alloc(), view(&rt, access.0), *access);
        require_row(&rt, is_right, "accesses", row);
    }
}

/// Whether the getter of an int32 of an array at this index has an error of this text.
fn is_index_said(alloc: Global, array: RawArray<'_>, index: usize, text: &str) -> bool {
    let_go!(made = array.get_i32(alloc, index); is_said(alloc, &made, text))
}

#[test]
fn an_index_is_printed_in_decimal(rt: HostRuntime) {
    let text = "error at key: \"18446744073709551615\": value not present";
    let array = view_of_array(&rt, EMPTY);
    assert!(rt; is_index_said(rt.alloc(), array, usize::MAX, text));
}

/// The names of the kinds, which their `Display` has by its contract.
const NAMES: &[(ElementType, &str)] = &[
    (ElementType::Double, "Double"),
    (ElementType::String, "String"),
    (ElementType::EmbeddedDocument, "EmbeddedDocument"),
    (ElementType::Array, "Array"),
    (ElementType::Binary, "Binary"),
    (ElementType::Undefined, "Undefined"),
    (ElementType::ObjectId, "ObjectId"),
    (ElementType::Boolean, "Boolean"),
    (ElementType::DateTime, "DateTime"),
    (ElementType::Null, "Null"),
    (ElementType::RegularExpression, "RegularExpression"),
    (ElementType::DbPointer, "DbPointer"),
    (ElementType::JavaScriptCode, "JavaScriptCode"),
    (ElementType::Symbol, "Symbol"),
    (
        ElementType::JavaScriptCodeWithScope,
        "JavaScriptCodeWithScope",
    ),
    (ElementType::Int32, "Int32"),
    (ElementType::Timestamp, "Timestamp"),
    (ElementType::Int64, "Int64"),
    (ElementType::Decimal128, "Decimal128"),
    (ElementType::MaxKey, "MaxKey"),
    (ElementType::MinKey, "MinKey"),
];

#[test]
fn every_kind_has_its_name_as_debug_text(rt: HostRuntime) {
    for (row, (kind, name)) in NAMES.iter().enumerate() {
        require_row(&rt, has_debug_text(rt.alloc(), kind, name), "names", row);
    }
}

/// Bytes with digits of each half of a byte.
const DIGITS: &[u8] = b"\x0C\0\0\0\x03a\0\xFF\xFE\xAB\xCD\0";

#[test]
fn bytes_have_hexadecimal_digits(rt: HostRuntime) {
    let text = "RawArray { data: \"0c000000036100fffeabcd00\" }";
    assert!(rt;
        has_debug_text(rt.alloc(), &view_of_array(&rt, DIGITS), text)
            && has_debug_text(
                rt.alloc(),
                &view(&rt, EMPTY),
                "RawDocument { data: \"0500000000\" }"
            )
    );
}

const POINTER: &str =
    "RawDbPointerRef { namespace: \"db.c\", id: ObjectId { bytes: [12, 11, 10, 9, 8, 7, 6, 5, 4, 3, 2, 1] } }";

/// Whether a pointer and `NoMemory` have their texts.
fn are_parts_printed(alloc: Global) -> bool {
    has_debug_text(alloc, &RawDbPointerRef::new("db.c", pointed()), POINTER)
        && has_debug_text(alloc, &NoMemory, "NoMemory")
}

#[test]
fn parts_of_values_have_a_debug_text(rt: HostRuntime) {
    assert!(rt; are_parts_printed(rt.alloc()));
}
