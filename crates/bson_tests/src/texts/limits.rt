//! What is printed of limits and of breaches.

use crate::fixtures::*;
use raw_bson::{Breach, Cause, Limits, Result};
use std::alloc::Global;
use std::process::Abort;

/// Whether the breach was made, and has these texts.
fn is_breach_printed(alloc: Global, made: &Result<Breach>, text: &str, debug_text: &str) -> bool {
    match made {
        Ok(breach) => has_texts(alloc, breach, text, debug_text),
        Err(_) => false,
    }
}

#[test]
fn limits_and_breaches_are_printed(rt: HostRuntime) {
    let alloc = rt.alloc();
    let limits = Limits {
        bytes: 15,
        depth: 2,
    };
    assert!(rt; has_debug_text(alloc, &limits, "Limits { bytes: 15, depth: 2 }"));
    let deep = &breach(alloc, &[4, 0, 12], Cause::RepeatedKey);
    let debug_text = "Breach { path: [4, 0, 12], cause: RepeatedKey }";
    assert!(rt; is_breach_printed(alloc, deep, "repeated-key at 4.0.12", debug_text));
}
