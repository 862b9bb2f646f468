//! Worked documents, and what each command prints of them. The lines were typed by hand from the format and the program's description.

use super::documents::*;
use super::{Row, USAGE_LINE, is_answer, require, require_rows};
use std::alloc::Global;
use std::process::Abort;

/// Texts that spell no document, whatever the command.
const REFUSED: &[Row] = &[
    ("", 1, "refused 1\n"),
    ("05 00 00 00", 1, "refused 1\n"),
    ("06 00 00 00 01", 1, "refused 2\n"),
    ("05 00 00 00 01", 1, "refused 3\n"),
    ("0", 2, "bad hex\n"),
    ("zz", 2, "bad hex\n"),
];

#[test]
fn texts_that_are_no_document(rt: HostRuntime) {
    for command in ["list", "canon", "check"] {
        require_rows(&rt, rt.alloc(), command, REFUSED);
    }
}

#[test]
fn names_that_are_no_command(rt: HostRuntime) {
    for command in ["show", "LIST", "list ", "lis", ""] {
        let is_right = is_answer(rt.alloc(), command, GREETING, 3, USAGE_LINE);
        require(&rt, is_right, command, GREETING);
    }
}

/// What `list` prints.
const LISTINGS: &[Row] = &[
    (EMPTY, 0, "end\n"),
    (GREETING, 0, "02 6869 10\nend\n"),
    (SWALLOWED_TERMINATOR, 1, "0a - 0\nfault malformed none\n"),
    (TAG_ZERO, 1, "fault malformed -\n"),
    (
        REGEX_SWALLOWS_THE_TERMINATOR,
        1,
        "0b 2464617465 6\nfault malformed none\n",
    ),
    (NEGATIVE_DOCUMENT_LENGTH, 1, "fault malformed 61\n"),
    (BOOLEAN_TWO, 0, "08 61 1\nend\n"),
    (SCOPE_WITH_A_WRONG_HEADER, 0, "0f 63 15\nend\n"),
    (KEY_NOT_UTF8, 1, "fault utf8 none\n"),
    (PATTERN_NOT_UTF8, 1, "fault utf8 61\n"),
    // a regular expression with no 0, one 0 and two after its key
    ("07 00 00 00 0B 72 00", 1, "fault malformed 72\n"),
    ("08 00 00 00 0B 72 00 00", 1, "fault malformed 72\n"),
    (
        "09 00 00 00 0B 72 00 00 00",
        1,
        "0b 72 2\nfault malformed none\n",
    ),
    // the greeting, whose text declares seven bytes
    (
        "13 00 00 00 02 68 69 00 07 00 00 00 79 27 61 6C 6C 00 00",
        1,
        "02 6869 11\nfault malformed none\n",
    ),
    // codes with scope that declare up to four bytes, at the end and before another byte
    (
        "0B 00 00 00 0F 61 00 00 00 00 00",
        1,
        "0f 61 0\nfault malformed -\n",
    ),
    (
        "0B 00 00 00 0F 61 00 01 00 00 00",
        1,
        "0f 61 1\nfault malformed -\n",
    ),
    (
        "0B 00 00 00 0F 61 00 02 00 00 00",
        1,
        "0f 61 2\nfault malformed -\n",
    ),
    (DECLARED_LENGTH_THREE, 0, "0f 61 3\nend\n"),
    (
        "0B 00 00 00 0F 61 00 04 00 00 00",
        1,
        "0f 61 4\nfault malformed none\n",
    ),
    (FOUR_BYTES_OF_CODE, 0, "0f 61 4\nend\n"),
    // `true` under the key `b`, appended to the swallowed terminator, to tag zero and to the negative document length
    (
        "0A 00 00 00 0A 08 62 00 01 00",
        1,
        "0a 0862 0\nfault malformed -\n",
    ),
    ("0A 00 00 00 00 08 62 00 01 00", 1, "fault malformed 0862\n"),
    (
        "10 00 00 00 03 61 00 FF FF FF FF 08 62 00 01 00",
        1,
        "fault malformed 61\n",
    ),
];

/// What `list` prints of the first 6 to 18 bytes of the greeting, with their number in the header and a final 0.
const CUT_GREETINGS: &[Row] = &[
    ("06 00 00 00 02 00", 1, "fault malformed -\n"),
    ("07 00 00 00 02 68 00", 1, "fault malformed 68\n"),
    ("08 00 00 00 02 68 69 00", 1, "fault malformed 6869\n"),
    ("09 00 00 00 02 68 69 00 00", 1, "fault malformed 6869\n"),
    ("0A 00 00 00 02 68 69 00 06 00", 1, "fault malformed 6869\n"),
    (
        "0B 00 00 00 02 68 69 00 06 00 00",
        1,
        "fault malformed 6869\n",
    ),
    (
        "0C 00 00 00 02 68 69 00 06 00 00 00",
        1,
        "fault malformed 6869\n",
    ),
    (
        "0D 00 00 00 02 68 69 00 06 00 00 00 00",
        1,
        "fault malformed 6869\n",
    ),
    (
        "0E 00 00 00 02 68 69 00 06 00 00 00 79 00",
        1,
        "fault malformed 6869\n",
    ),
    (
        "0F 00 00 00 02 68 69 00 06 00 00 00 79 27 00",
        1,
        "fault malformed 6869\n",
    ),
    (
        "10 00 00 00 02 68 69 00 06 00 00 00 79 27 61 00",
        1,
        "fault malformed 6869\n",
    ),
    (
        "11 00 00 00 02 68 69 00 06 00 00 00 79 27 61 6C 00",
        1,
        "fault malformed 6869\n",
    ),
    (
        "12 00 00 00 02 68 69 00 06 00 00 00 79 27 61 6C 6C 00",
        1,
        "02 6869 10\nfault malformed none\n",
    ),
];

#[test]
fn listings(rt: HostRuntime) {
    require_rows(&rt, rt.alloc(), "list", LISTINGS);
    require_rows(&rt, rt.alloc(), "list", CUT_GREETINGS);
}

/// Documents and their canonical forms.
const FORMS: &[(&str, &str)] = &[
    (EMPTY, "0500000000\n"),
    (GREETING, "1300000002686900060000007927616c6c0000\n"),
    (REPEATED_KEY, "0c0000001061000200000000\n"),
    (
        ARRAY_WITH_AN_EMPTY_KEY,
        "10000000046100080000000a30000000\n",
    ),
    (OPTIONS_OUT_OF_ORDER, "0d0000000b72006100696d0000\n"),
    (
        LEAST_CODE_WITH_SCOPE,
        "160000000f63000e0000000100000000050000000000\n",
    ),
    // a key repeated after another
    (
        "1A 00 00 00 10 61 00 01 00 00 00 10 62 00 02 00 00 00 10 61 00 03 00 00 00 00",
        "13000000106100030000001062000200000000\n",
    ),
    // two orders of two keys
    (
        "13 00 00 00 10 61 00 01 00 00 00 10 62 00 02 00 00 00 00",
        "13000000106100010000001062000200000000\n",
    ),
    (
        "13 00 00 00 10 62 00 02 00 00 00 10 61 00 01 00 00 00 00",
        "13000000106200020000001061000100000000\n",
    ),
];

#[test]
fn forms_and_forms_of_forms(rt: HostRuntime) {
    for (text, form) in FORMS {
        require(
            &rt,
            is_answer(rt.alloc(), "canon", text, 0, form),
            "canon",
            text,
        );
        require(
            &rt,
            is_answer(rt.alloc(), "canon", form, 0, form),
            "canon",
            form,
        );
        require(
            &rt,
            is_answer(rt.alloc(), "check", form, 0, "canonical\n"),
            "check",
            form,
        );
    }
}

/// What `canon` prints of documents without a form.
const FIRST_FAULTS: &[Row] = &[
    (SCOPE_WITH_A_WRONG_HEADER, 1, "fault malformed none\n"),
    (FAULT_UNDER_A_LATER_GOOD_KEY, 1, "fault malformed 61\n"),
    // a nested stop has its own key, here none
    (NESTED_STOP, 1, "fault malformed none\n"),
    // a user-defined subtype two is read as the old one, which has an inner length
    (
        "11 00 00 00 05 62 00 04 00 00 00 02 01 02 03 04 00",
        1,
        "fault malformed 62\n",
    ),
    (FOUR_BYTES_OF_CODE, 1, "fault malformed 61\n"),
];

#[test]
fn first_faults(rt: HostRuntime) {
    require_rows(&rt, rt.alloc(), "canon", FIRST_FAULTS);
}

/// What `check` prints.
const VERDICTS: &[Row] = &[
    (EMPTY, 0, "canonical\n"),
    (GREETING, 0, "canonical\n"),
    (LEAST_CODE_WITH_SCOPE, 0, "canonical\n"),
    (SWALLOWED_TERMINATOR_PUSHED, 0, "canonical\n"),
    (SWALLOWED_TERMINATOR, 1, "breach stop 1\n"),
    (TAG_ZERO, 1, "breach stop 0\n"),
    (DECLARED_LENGTH_THREE_APPENDED, 1, "breach stop 0\n"),
    (ARRAY_WITH_TEXT_NOT_UTF8, 1, "breach value 0\n"),
    (DECLARED_LENGTH_THREE, 1, "breach value 0\n"),
    (SCOPE_WITH_A_WRONG_HEADER, 1, "breach value 0\n"),
    (KEY_NOT_UTF8, 1, "breach stop 0\n"),
    (PATTERN_NOT_UTF8, 1, "breach stop 0\n"),
    // `true` and then a boolean of the byte 2, under one key: the key comes before the value
    (
        "0D 00 00 00 08 61 00 01 08 61 00 02 00",
        1,
        "breach repeated-key 1\n",
    ),
    // the options `mi` in a nested document
    (
        "15 00 00 00 03 61 00 0D 00 00 00 0B 72 00 61 00 6D 69 00 00 00",
        1,
        "breach options 0.0\n",
    ),
    (NESTED_STOP, 1, "breach stop 0.1\n"),
    (REPEATED_KEY, 1, "breach repeated-key 1\n"),
    (ARRAY_WITH_AN_EMPTY_KEY, 1, "breach array-key 0.0\n"),
    (OPTIONS_OUT_OF_ORDER, 1, "breach options 0\n"),
    (FAULT_UNDER_A_LATER_GOOD_KEY, 1, "breach value 0\n"),
];

#[test]
fn verdicts(rt: HostRuntime) {
    require_rows(&rt, rt.alloc(), "check", VERDICTS);
}
