//! What is printed of an error of the shelf that has no document to show it: an example of `PutError` shows the
//! other one.

use raw_shelf::PutError;
use std::alloc::Global;
use std::process::Abort;

/// Whether the error has this text, and this `Debug` text.
fn is_printed(alloc: Global, error: &PutError, text: &str, debug_text: &str) -> bool {
    match (format!(in alloc; "{error}"), format!(in alloc; "{error:?}")) {
        (Ok(printed), Ok(debugged)) => {
            printed.as_str() == text && debugged.as_str() == debug_text
        }
        _ => false,
    }
}

#[test]
fn out_of_memory_in_words(rt: HostRuntime) {
    assert!(rt;
        is_printed(
            rt.alloc(),
            &PutError::OutOfMemory,
            "out of memory",
            "OutOfMemory"
        )
    );
}
