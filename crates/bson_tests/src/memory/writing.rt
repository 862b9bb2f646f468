//! Writing of trees, and the error for a 0.
use crate::fixtures::{Checks, EMPTY, is_refused, let_go};
use crate::memory::asserts::OwnedChecks;
use raw_bson::{Bson, Document, Reason, Result, encode, encode_list};
use std::alloc::Global;

/// Whether the empty document and the list of `true` are written, or memory ran out.
pub(crate) fn are_written(checks: Checks) -> bool {
    let bytes = b"\x09\0\0\0\x080\0\x01\0";
    let_go!(
        tree = Document::new(checks.alloc);
        let_go!(made = encode(checks.alloc, &tree); checks.is_list(&made, EMPTY))
    ) && let_go!(
        made = encode_list(checks.alloc, &[Bson::Boolean(true)]);
        checks.is_list(&made, bytes)
    )
}

#[test]
fn encode_or_out_of_memory(rt: HostRuntime) {
    assert!(rt; are_written(Checks::refusable(rt.alloc())));
}

/// A document with a 0 in its key.
fn with_nul(alloc: Global) -> Result<Document> {
    let key = String::from_str(alloc, "x\0")?;
    let mut document = Document::new(alloc);
    document.put(key, Bson::Null)?;
    Ok(document)
}

/// Whether the tree isn't written because of a 0, if there was memory for it.
fn is_nul_refused(checks: Checks, made: &Result<Document>) -> bool {
    match made {
        Ok(tree) =>
            let_go!(made = encode(checks.alloc, tree); is_refused(&made, Reason::InteriorNul, None)),
        Err(error) => checks.is_out_of_memory(error),
    }
}

/// Whether a 0 is found.
pub(crate) fn is_nul_found(checks: Checks) -> bool {
    let_go!(made = with_nul(checks.alloc); is_nul_refused(checks, &made))
}

#[test]
fn nul_or_out_of_memory(rt: HostRuntime) {
    assert!(rt; is_nul_found(Checks::refusable(rt.alloc())));
}
