//! The texts of `AnyError`.
use crate::fixtures::*;
use raw_bson::{AnyError, NoMemory, RawDocument};
use std::alloc::Global;
use std::process::Abort;

/// The number under `a`, by three calls that each have their own error: there may be no memory for the bytes.
fn number(alloc: Global, bytes: Result<&[u8], NoMemory>) -> Result<i32, AnyError> {
    Ok(RawDocument::from_bytes(bytes?)?.get_i32(alloc, "a")?)
}

/// Whether the error has this text.
fn is_number_said(alloc: Global, bytes: Result<&[u8], NoMemory>, text: &str) -> bool {
    let_go!(made = number(alloc, bytes); is_said(alloc, &made, text))
}

/// Whether each error has its own text.
fn are_said(alloc: Global) -> bool {
    let short = "malformed value: \"document too short\"";
    let missing = "error at key: \"a\": value not present";
    is_number_said(alloc, Ok(b"\x04\0\0\0"), short)
        && is_number_said(alloc, Ok(GREETING), missing)
        && is_number_said(alloc, Err(NoMemory), "out of memory")
}

#[test]
fn each_error_keeps_its_text(rt: HostRuntime) {
    assert!(rt; are_said(rt.alloc()));
}
