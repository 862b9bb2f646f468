//! Validation, first faults, tokens and canonical forms within limits.
use crate::fixtures::*;
use crate::memory::asserts::OwnedChecks;
use raw_bson::{Breach, Cause, Limits, RawDocument, Result, validate};
use raw_form::{
    Barrier, FlattenError, Place, PlacedBreach, ValidateError, canonical_within,
    first_fault_within, flatten_within, validate_within,
};
use std::process::Abort;

// `bin/test` runs these alone, with each request for memory failing in turn. The result is the one with ample
// memory, or out of memory without a key.

/// What `validate_within` returns.
type Placed<'a> = std::result::Result<Option<PlacedBreach<'a>>, ValidateError<'a>>;

/// The path to a breach, and why it is one; `None` for a canonical document.
type Wanted<'a> = Option<(&'a [usize], Cause)>;

/// Whether the result is the expected one, or out of memory.
fn is_breach(checks: Checks, answer: &Result<Option<Breach>>, want: Wanted<'_>) -> bool {
    match (answer, want) {
        (Ok(Some(breach)), Some((path, cause))) => {
            breach.path.as_slice() == path && breach.cause == cause
        }
        (Ok(found), _) => found.is_none() && want.is_none(),
        (Err(error), _) => checks.is_out_of_memory(error),
    }
}

/// Whether the place has these numbers.
fn is_at(place: &Place<'_>, path: &[usize]) -> bool {
    let mut numbers = [usize::MAX; 8];
    place.put_path(&mut numbers);
    place.path.len() == path.len() && numbers.starts_with(path)
}

/// The same within limits.
fn is_placed(checks: Checks, answer: &Placed<'_>, want: Wanted<'_>) -> bool {
    match (answer, want) {
        (Ok(Some(breach)), Some((path, cause))) => {
            breach.cause == cause && is_at(&breach.place, path)
        }
        (Ok(found), _) => found.is_none() && want.is_none(),
        (Err(ValidateError::OutOfMemory), _) => checks.is_refusable,
        (Err(_), _) => false,
    }
}

/// Limits for any document here.
const LIMITS: Limits = Limits {
    bytes: 1000,
    depth: 10,
};

/// Whether this is found in the document, or memory runs out.
fn is_found(checks: Checks, view: RawDocument<'_>, want: Wanted<'_>) -> bool {
    let_go!(made = validate(checks.alloc, view); is_breach(checks, &made, want))
        && let_go!(
            made = validate_within(checks.alloc, view, LIMITS);
            is_placed(checks, &made, want)
        )
}

/// Each document has its first breach.
pub(crate) fn breaches(rt: &impl Abort, checks: Checks) {
    for (row, (bytes, path, cause)) in BREACHES.iter().enumerate() {
        let is_right = is_found(checks, view(rt, bytes), Some((*path, *cause)));
        require_row(rt, is_right, "breaches", row);
    }
}

#[test]
fn breaches_or_out_of_memory(rt: HostRuntime) {
    breaches(&rt, Checks::refusable(rt.alloc()));
}

/// Forty nulls, under the keys `00` to `39`, and one more under the key `40`.
const DISTINCT_KEYS: &[u8] = b"\xA9\0\0\0\
\x0A00\0\x0A01\0\x0A02\0\x0A03\0\x0A04\0\x0A05\0\x0A06\0\x0A07\0\x0A08\0\x0A09\0\
\x0A10\0\x0A11\0\x0A12\0\x0A13\0\x0A14\0\x0A15\0\x0A16\0\x0A17\0\x0A18\0\x0A19\0\
\x0A20\0\x0A21\0\x0A22\0\x0A23\0\x0A24\0\x0A25\0\x0A26\0\x0A27\0\x0A28\0\x0A29\0\
\x0A30\0\x0A31\0\x0A32\0\x0A33\0\x0A34\0\x0A35\0\x0A36\0\x0A37\0\x0A38\0\x0A39\0\
\x0A40\0\
\0";

/// The same, but with the first key once more at the end.
const FIRST_KEY_LAST: &[u8] = b"\xA9\0\0\0\
\x0A00\0\x0A01\0\x0A02\0\x0A03\0\x0A04\0\x0A05\0\x0A06\0\x0A07\0\x0A08\0\x0A09\0\
\x0A10\0\x0A11\0\x0A12\0\x0A13\0\x0A14\0\x0A15\0\x0A16\0\x0A17\0\x0A18\0\x0A19\0\
\x0A20\0\x0A21\0\x0A22\0\x0A23\0\x0A24\0\x0A25\0\x0A26\0\x0A27\0\x0A28\0\x0A29\0\
\x0A30\0\x0A31\0\x0A32\0\x0A33\0\x0A34\0\x0A35\0\x0A36\0\x0A37\0\x0A38\0\x0A39\0\
\x0A00\0\
\0";

/// A document of all kinds has no breach; one with many keys has one where a key is repeated.
pub(crate) fn keys(rt: &impl Abort, checks: Checks) {
    assert!(*rt;
        is_found(checks, view(rt, ALL_KINDS), None)
            && is_found(checks, view(rt, DISTINCT_KEYS), None)
            && is_found(
                checks,
                view(rt, FIRST_KEY_LAST),
                Some((&[40], Cause::RepeatedKey))
            )
    );
}

#[test]
fn keys_or_out_of_memory(rt: HostRuntime) {
    keys(&rt, Checks::refusable(rt.alloc()));
}

/// Whether the result is a barrier at this place, or out of memory.
fn is_barrier(
    checks: Checks,
    answer: &Result<Option<Barrier<'_>>>,
    path: &[usize],
    offset: usize,
) -> bool {
    match answer {
        Ok(Some(barrier)) => is_at(&barrier.place, path) && barrier.place.offset == offset,
        Ok(None) => false,
        Err(error) => checks.is_out_of_memory(error),
    }
}

/// Whether the first barrier is the stop in the nested document.
pub(crate) fn is_stopped(checks: Checks, stopped: RawDocument<'_>) -> bool {
    let_go!(
        made = first_fault_within(checks.alloc, stopped, LIMITS);
        is_barrier(checks, &made, &[0, 1], 13)
    )
}

/// Whether the result counts this many tokens, or is out of memory.
fn are_tokens(
    checks: Checks,
    answer: &std::result::Result<usize, FlattenError<'_>>,
    count: usize,
) -> bool {
    match answer {
        Ok(found) => *found == count,
        Err(FlattenError::OutOfMemory) => checks.is_refusable,
        Err(FlattenError::Barrier(_)) => false,
    }
}

/// Whether the document of all kinds has 23 elements, at all levels.
pub(crate) fn is_flattened(checks: Checks, document: RawDocument<'_>) -> bool {
    let_go!(
        made = flatten_within(checks.alloc, document, LIMITS, &mut []);
        are_tokens(checks, &made, 23)
    )
}

/// The keys b, a, b, the last of which holds a document; a code whose scope has the keys x and x; an array with
/// the keys z and the empty one, whose options are out of order.
const MIXED: &[u8] = b"F\0\0\0\x10b\0\x01\0\0\0\x0Aa\0\x03b\0\x09\0\0\0\x08y\0\x01\0\
    \x0Fc\0\x16\0\0\0\x02\0\0\0f\0\x0C\0\0\0\x0Ax\0\x08x\0\x01\0\
    \x04d\0\x0F\0\0\0\x0Bz\0p\0mi\0\x0A\0\0\0";

/// Its canonical form.
const MIXED_FORM: &[u8] = b"\x3D\0\0\0\x03b\0\x09\0\0\0\x08y\0\x01\0\x0Aa\0\
    \x0Fc\0\x13\0\0\0\x02\0\0\0f\0\x09\0\0\0\x08x\0\x01\0\
    \x04d\0\x10\0\0\0\x0B\x30\0p\0im\0\x0A\x31\0\0\0";

/// Whether these bytes have that form, or memory runs out. They have exactly as many bytes and levels as allowed.
fn is_form(checks: Checks, bytes: &[u8]) -> bool {
    let limits = Limits {
        bytes: bytes.len(),
        depth: 2,
    };
    let_go!(made = canonical_within(checks.alloc, bytes, limits); checks.is_list(&made, MIXED_FORM))
}

/// Whether both documents have their form.
pub(crate) fn are_forms(checks: Checks) -> bool {
    is_form(checks, MIXED) && is_form(checks, MIXED_FORM)
}

#[test]
fn places_and_forms_or_out_of_memory(rt: HostRuntime) {
    let checks = Checks::refusable(rt.alloc());
    assert!(rt;
        is_stopped(checks, view(&rt, NESTED_STOP))
            && is_flattened(checks, view(&rt, ALL_KINDS))
            && are_forms(checks)
    );
}
