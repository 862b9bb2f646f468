//! Documents that are printed with memory that may run out.

use bson_to_json::{
    Format, Guarded, Layout, Measured, Style, ToJsonError, WriteJsonError, measured_json, to_json,
    write_json,
};
use raw_bson::Limits;
use raw_view::RawDocument;
use std::alloc::Global;
use std::process::Abort;

const LIMITS: Limits = Limits {
    bytes: 1000,
    depth: 10,
};

const INDENTED: Style = Style {
    format: Format::Relaxed,
    layout: Layout::Indented,
};

/// A document with an empty array, an array of a document and a null, and a code with a scope.
const NESTED: &[u8] =
    b"@\0\0\0\x04e\0\x05\0\0\0\0\x04a\0\x17\0\0\0\x030\0\x0C\0\0\0\x10b\0\x01\0\0\0\0\x0A1\0\0\x0Fc\0\x16\0\0\0\x02\0\0\0f\0\x0C\0\0\0\x10x\0\x02\0\0\0\0\0";

const NESTED_TEXT: &str =
    "{\n  \"e\": [],\n  \"a\": [\n    {\n      \"b\": 1\n    },\n    null\n  ],\n  \"c\": {\"$code\":\"f\",\"$scope\":{\n    \"x\": 2\n  }}\n}";

/// Whether the document has its text, or memory ran out.
fn is_printed(alloc: Global, document: RawDocument<'_>) -> bool {
    match to_json(alloc, document, INDENTED, LIMITS) {
        Ok(text) => text.as_str() == NESTED_TEXT,
        Err(error) => matches!(error, ToJsonError::OutOfMemory),
    }
}

/// Whether the document's text is measured, and is there if it has at most `most` bytes, or memory ran out.
fn is_measured(alloc: Global, document: RawDocument<'_>, most: usize) -> bool {
    match measured_json(alloc, document, INDENTED, LIMITS, most) {
        Ok(Measured { len, text: None }) => most < len && len == NESTED_TEXT.len(),
        Ok(
            Measured {
                len,
                text: Some(text),
            },
        ) => len <= most && text.as_str() == NESTED_TEXT,
        Err(error) => matches!(error, ToJsonError::OutOfMemory),
    }
}

/// Whether the document's text is written, or a prefix of it if memory ran out for the levels or for what is
/// written.
fn is_written(alloc: Global, document: RawDocument<'_>) -> bool {
    let mut out = Guarded::new(Vec::new(alloc));
    let written = write_json(alloc, document, INDENTED, LIMITS, &mut out);
    let out = out.into_inner();
    match written {
        Ok(()) => out.as_slice() == NESTED_TEXT.as_bytes(),
        Err(WriteJsonError::Barrier(_)) => false,
        Err(_) => NESTED_TEXT.as_bytes().starts_with(out.as_slice()),
    }
}

/// Whether each call does so with the document of these bytes.
fn is_told(alloc: Global, bytes: &[u8]) -> bool {
    match RawDocument::from_bytes(bytes) {
        Ok(document) => {
            is_printed(alloc, document)
                && is_measured(alloc, document, NESTED_TEXT.len())
                && is_measured(alloc, document, NESTED_TEXT.len() - 1)
                && is_written(alloc, document)
        }
        Err(_) => false,
    }
}

#[test]
fn to_json_or_out_of_memory(rt: HostRuntime) {
    assert!(rt; is_told(rt.alloc(), NESTED));
}
