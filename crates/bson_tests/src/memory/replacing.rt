//! Texts that aren't UTF-8, replaced.
use crate::fixtures::*;
use raw_bson::{Limits, RawDocument};
use raw_form::with_replaced_texts;
use std::alloc::AllocError;
use std::process::Abort;

// The form was made with Python's `bytes.decode("utf-8", "replace")`.

/// Two strings under one key, the first not UTF-8; and a symbol, a code, the namespace of a pointer, a code with a string in its scope, and
/// a string in a document in an array, none of them UTF-8.
const BAD_TEXTS: &[u8] =
    b"\x84\0\0\0\x02a\0\x03\0\0\0x\xFF\0\x02a\0\x04\0\0\0\xE2\x82\xAC\0\x0Eb\0\x04\0\0\0\xE2\x82!\0\
    \x0Dc\0\x04\0\0\0\xF0\x80\x80\0\x0Cd\0\x02\0\0\0\xC3\x00123456789012\
    \x0Fe\0\x1C\0\0\0\x04\0\0\0\xED\xA0\x80\0\x10\0\0\0\x02f\0\x04\0\0\0\xF4\x8F\xBF\0\0\
    \x04g\0\x16\0\0\0\x039\0\x0E\0\0\0\x02\0\x03\0\0\0\xFE\xFF\0\0\0\x10h\0\x01\0\0\0\0";

/// The same once they are replaced.
const REPLACED: &[u8] =
    b"\x99\0\0\0\x02a\0\x05\0\0\0x\xEF\xBF\xBD\0\x02a\0\x04\0\0\0\xE2\x82\xAC\0\x0Eb\0\x05\0\0\0\xEF\xBF\xBD!\0\
    \x0Dc\0\x0A\0\0\0\xEF\xBF\xBD\xEF\xBF\xBD\xEF\xBF\xBD\0\x0Cd\0\x04\0\0\0\xEF\xBF\xBD\x00123456789012\
    \x0Fe\0\"\0\0\0\x0A\0\0\0\xEF\xBF\xBD\xEF\xBF\xBD\xEF\xBF\xBD\0\x10\0\0\0\x02f\0\x04\0\0\0\xEF\xBF\xBD\0\0\
    \x04g\0\x1A\0\0\0\x039\0\x12\0\0\0\x02\0\x07\0\0\0\xEF\xBF\xBD\xEF\xBF\xBD\0\0\0\x10h\0\x01\0\0\0\0";

/// Just enough for that.
const ENOUGH: Limits = Limits {
    bytes: 153,
    depth: 3,
};

/// Whether the result is this document, or none, or out of memory.
fn is_kept(
    checks: Checks,
    answer: &Result<Option<Vec<u8>>, AllocError>,
    want: Option<&[u8]>,
) -> bool {
    match (answer, want) {
        (Ok(Some(made)), Some(want)) => made.as_slice() == want,
        (Ok(made), _) => made.is_none() && want.is_none(),
        (Err(_), _) => checks.is_refusable,
    }
}

fn becomes(checks: Checks, document: RawDocument<'_>, limits: Limits, want: Option<&[u8]>) -> bool {
    let_go!(
        made = with_replaced_texts(checks.alloc, document, limits);
        is_kept(checks, &made, want)
    )
}

/// A document is replaced if it has no other fault, and becomes itself if it has none; unless that is over the limits.
pub(crate) fn replaced(rt: &impl Abort, checks: Checks) {
    let bad = view(rt, BAD_TEXTS);
    let few = Limits {
        bytes: 152,
        depth: 3,
    };
    let flat = Limits {
        bytes: 153,
        depth: 2,
    };
    assert!(*rt;
        becomes(checks, bad, ENOUGH, Some(REPLACED))
            && becomes(checks, view(rt, REPLACED), ENOUGH, Some(REPLACED))
            && becomes(checks, bad, few, None)
            && becomes(checks, bad, flat, None)
            && becomes(checks, view(rt, BOOLEAN_TWO), ENOUGH, None)
            && becomes(checks, view(rt, KEY_NOT_UTF8), ENOUGH, None)
            && becomes(checks, view(rt, PATTERN_NOT_UTF8), ENOUGH, None)
    );
}

#[test]
fn replaced_or_out_of_memory(rt: HostRuntime) {
    replaced(&rt, Checks::refusable(rt.alloc()));
}
