//! Appends of each kind.
use crate::fixtures::*;
use raw_bson::{ElementType, RawDocumentBuf, Result};
use std::alloc::Global;
use std::process::Abort;

/// Appends the value of this kind, owned.
fn append(
    alloc: Global,
    document: &mut RawDocumentBuf,
    key: &str,
    kind: ElementType,
) -> Result<()> {
    document.append(key, owned(alloc, kind)?)
}

/// Whether the values of all kinds make the document of all kinds.
fn are_appended(alloc: Global, document: &mut RawDocumentBuf) -> bool {
    let mut are_right = true;
    for &(key, kind) in KINDS.iter() {
        are_right = are_right && let_go!(made = append(alloc, document, key, kind); made.is_ok());
    }
    are_right && document.as_bytes() == ALL_KINDS
}

/// The same of a document, if there is memory for it.
fn are_made(alloc: Global, made: &mut Result<RawDocumentBuf>) -> bool {
    match made {
        Ok(document) => are_appended(alloc, document),
        Err(_) => false,
    }
}

#[test]
fn a_value_of_each_kind_is_appended(rt: HostRuntime) {
    let alloc = rt.alloc();
    assert!(rt; let_go!(mut made = RawDocumentBuf::new(alloc); are_made(alloc, &mut made)));
}
