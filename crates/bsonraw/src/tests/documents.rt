//! Documents as hex text.

use hex::FromHexError;
use std::alloc::Global;

pub(super) const EMPTY: &str = "05 00 00 00 00";

pub(super) const GREETING: &str = "13 00 00 00 02 68 69 00 06 00 00 00 79 27 61 6C 6C 00 00";

/// A null whose key ends in the document's final 0.
pub(super) const SWALLOWED_TERMINATOR: &str = "06 00 00 00 0A 00";

/// The same as an array, with one more null pushed: the key is a line end and a 2.
pub(super) const SWALLOWED_TERMINATOR_PUSHED: &str = "09 00 00 00 0A 0A 32 00 00";

/// Under the key `a` a document whose last 0 is the key of a null.
pub(super) const NESTED_STOP: &str = "0E 00 00 00 03 61 00 06 00 00 00 0A 00 00";

/// An element of no kind, under the empty key.
pub(super) const TAG_ZERO: &str = "06 00 00 00 00 00";

/// A regular expression whose options end in the document's final 0.
pub(super) const REGEX_SWALLOWS_THE_TERMINATOR: &str =
    "11 00 00 00 0B 24 64 61 74 65 00 6F 70 65 00 04 00";

/// The numbers 1 and 2, both under the key `a`.
pub(super) const REPEATED_KEY: &str = "13 00 00 00 10 61 00 01 00 00 00 10 61 00 02 00 00 00 00";

/// A text that isn't UTF-8, and a number.
pub(super) const ARRAY_WITH_TEXT_NOT_UTF8: &str =
    "15 00 00 00 02 30 00 02 00 00 00 FF 00 10 31 00 07 00 00 00 00";

/// A code with scope that declares three bytes.
pub(super) const DECLARED_LENGTH_THREE: &str = "0B 00 00 00 0F 61 00 03 00 00 00";

/// The same with `true` under the key `b` appended.
pub(super) const DECLARED_LENGTH_THREE_APPENDED: &str =
    "0F 00 00 00 0F 61 00 03 00 00 08 62 00 01 00";

/// A code with scope that declares its four bytes.
pub(super) const FOUR_BYTES_OF_CODE: &str = "0C 00 00 00 0F 61 00 04 00 00 00 00";

/// A nested document that declares -1 bytes.
pub(super) const NEGATIVE_DOCUMENT_LENGTH: &str = "0C 00 00 00 03 61 00 FF FF FF FF 00";

/// A boolean of the byte 2.
pub(super) const BOOLEAN_TWO: &str = "09 00 00 00 08 61 00 02 00";

/// An old binary with inner length -1.
pub(super) const INNER_LENGTH_OVERFLOWS: &str =
    "11 00 00 00 05 62 00 04 00 00 00 02 FF FF FF FF 00";

/// An old binary of four bytes under the key `b`, with its inner length.
pub(super) const OLD_BINARY: &str =
    "15 00 00 00 05 62 00 08 00 00 00 02 04 00 00 00 01 02 03 04 00";

/// An array of one null, whose key is empty, under the key `a`.
pub(super) const ARRAY_WITH_AN_EMPTY_KEY: &str = "0F 00 00 00 04 61 00 07 00 00 00 0A 00 00 00";

/// A regular expression with the options `mi`.
pub(super) const OPTIONS_OUT_OF_ORDER: &str = "0D 00 00 00 0B 72 00 61 00 6D 69 00 00";

/// The empty code with the empty scope, under the key `c`.
pub(super) const LEAST_CODE_WITH_SCOPE: &str =
    "16 00 00 00 0F 63 00 0E 00 00 00 01 00 00 00 00 05 00 00 00 00 00";

/// A scope of six bytes whose header says five.
pub(super) const SCOPE_WITH_A_WRONG_HEADER: &str =
    "17 00 00 00 0F 63 00 0F 00 00 00 01 00 00 00 00 05 00 00 00 00 00 00";

/// A boolean of the byte 2 and then `true`, under one key.
pub(super) const FAULT_UNDER_A_LATER_GOOD_KEY: &str = "0D 00 00 00 08 61 00 02 08 61 00 01 00";

/// A null under a key of the byte FF.
pub(super) const KEY_NOT_UTF8: &str = "07 00 00 00 0A FF 00";

/// A regular expression whose pattern is the byte FF.
pub(super) const PATTERN_NOT_UTF8: &str = "0A 00 00 00 0B 61 00 FF 00 00";

/// A text that claims six bytes when one is left.
pub(super) const TRUNCATED_STRING: &str = "0C 00 00 00 02 61 00 06 00 00 00 00";

/// `true` under the key `bool`, and a million under the key `i32`.
pub(super) const BOOL_AND_INT32: &str =
    "15 00 00 00 08 62 6F 6F 6C 00 01 10 69 33 32 00 40 42 0F 00 00";

/// The documents that are cut off or have a bit flipped.
pub(super) const DOCUMENTS: &[&str] = &[
    EMPTY,
    GREETING,
    SWALLOWED_TERMINATOR,
    TAG_ZERO,
    REGEX_SWALLOWS_THE_TERMINATOR,
    REPEATED_KEY,
    ARRAY_WITH_TEXT_NOT_UTF8,
    DECLARED_LENGTH_THREE,
    DECLARED_LENGTH_THREE_APPENDED,
    NEGATIVE_DOCUMENT_LENGTH,
    BOOLEAN_TWO,
    INNER_LENGTH_OVERFLOWS,
    OLD_BINARY,
    ARRAY_WITH_AN_EMPTY_KEY,
    OPTIONS_OUT_OF_ORDER,
    LEAST_CODE_WITH_SCOPE,
    SCOPE_WITH_A_WRONG_HEADER,
    FAULT_UNDER_A_LATER_GOOD_KEY,
    KEY_NOT_UTF8,
    PATTERN_NOT_UTF8,
    TRUNCATED_STRING,
    BOOL_AND_INT32,
    // the canonical forms of those that aren't canonical
    "0C 00 00 00 10 61 00 02 00 00 00 00",
    "10 00 00 00 04 61 00 08 00 00 00 0A 30 00 00 00",
    "0D 00 00 00 0B 72 00 61 00 69 6D 00 00",
];

/// The bytes that a text spells, which has blanks between them.
pub(super) fn bytes_of(alloc: Global, text: &str) -> Result<Vec<u8>, FromHexError> {
    let mut digits = Vec::new(alloc);
    for pair in text.split(' ') {
        if digits.extend_from_slice(pair.as_bytes()).is_err() {
            return Err(FromHexError::OutOfMemory);
        }
    }
    hex::decode(alloc, digits.as_slice())
}
