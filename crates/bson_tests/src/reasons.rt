//! The texts of reasons. `c/tests/reasons.c` has documents with each.

use crate::fixtures::{has_texts, require_row};
use raw_view::Reason;

/// Each reason with its texts.
const REASONS: &[(Reason, &str, &str)] = &[
    (Reason::TooShort, "document too short", "TooShort"),
    (
        Reason::LengthIncorrect,
        "document length incorrect",
        "LengthIncorrect",
    ),
    (
        Reason::NotTerminated,
        "document not null-terminated",
        "NotTerminated",
    ),
    (
        Reason::Overflowed,
        "iteration overflowed document",
        "Overflowed",
    ),
    (Reason::InvalidTag(20), "invalid tag: 20", "InvalidTag(20)"),
    (
        Reason::StringHeadShort(3),
        "expected buffer with string to contain at least 4 bytes, but it only has 3",
        "StringHeadShort(3)",
    ),
    (
        Reason::NegativeLength,
        "lengths can't be negative",
        "NegativeLength",
    ),
    (
        Reason::StringTooSmall,
        "BSON length encoded string needs to be at least 5 bytes, instead got 4",
        "StringTooSmall",
    ),
    (
        Reason::StringPastEnd(10, 5),
        "expected buffer to contain at least 10 bytes, but it only has 5",
        "StringPastEnd(10, 5)",
    ),
    (
        Reason::StringNotTerminated,
        "expected string to be null-terminated",
        "StringNotTerminated",
    ),
    (
        Reason::PastEnd(134217731, 8),
        "length exceeds remaining length of buffer: 134217731 vs 8",
        "PastEnd(134217731, 8)",
    ),
    (
        Reason::DocumentTooSmall(4),
        "document too small: 4 bytes",
        "DocumentTooSmall(4)",
    ),
    (
        Reason::NestedNotTerminated,
        "not null terminated",
        "NestedNotTerminated",
    ),
    (
        Reason::LengthHeadShort(0),
        "expected 4 bytes to read i32, instead got 0",
        "LengthHeadShort(0)",
    ),
    (
        Reason::NoTerminator,
        "expected null terminator",
        "NoTerminator",
    ),
    (
        Reason::BadBoolean(2),
        "boolean must be stored as 0 or 1, got 2",
        "BadBoolean(2)",
    ),
    (
        Reason::OldNoInner,
        "old binary subtype has no inner declared length",
        "OldNoInner",
    ),
    (
        Reason::AddOverflow,
        "attempted to add with overflow",
        "AddOverflow",
    ),
    (
        Reason::OldWrongInner,
        "old binary subtype has wrong inner declared length",
        "OldWrongInner",
    ),
    (
        Reason::CodeTooSmall,
        "code with scope length too small",
        "CodeTooSmall",
    ),
    (Reason::InteriorNul, "interior NUL", "InteriorNul"),
    (Reason::TooLong, "document too long", "TooLong"),
    (
        Reason::TooManyBytes,
        "more bytes than allowed",
        "TooManyBytes",
    ),
    (Reason::TooDeep, "deeper than allowed", "TooDeep"),
];

#[test]
fn reasons_are_printed(rt: HostRuntime) {
    for (row, (reason, text, debug_text)) in REASONS.iter().enumerate() {
        let is_right = has_texts(rt.alloc(), reason, text, debug_text);
        require_row(&rt, is_right, "reasons", row);
    }
}
