//! Why a document isn't printed.
#![tactic(auto)]

use raw_tree::Barrier;
use std::io;

/// Why a document isn't printed.
/// ```
/// let style = Style { format: Format::Relaxed, layout: Layout::OneLine };
/// let text = to_json(alloc, RawDocument::from_bytes(b"\x0C\0\0\0\x10a\0\x01\0\0\0\0")?, style, Limits { bytes: 5, depth: 10 });
/// assert!(rt; matches!(text, Err(ToJsonError::Barrier(Barrier { kind: BarrierKind::TooManyBytes, .. }))));
/// ```
#[derive(Debug, Drop)]
pub enum ToJsonError<'a> {
    /// its first barrier within the limits
    Barrier(Barrier<'a>),
    /// Memory ran out.
    OutOfMemory,
}

/// Why a document isn't written, or not all of it.
#[derive(Debug, Drop)]
pub enum WriteJsonError<'a> {
    /// its first barrier within the limits; nothing was written
    Barrier(Barrier<'a>),
    /// Memory ran out.
    OutOfMemory,
    /// the error of the writer
    Writing(io::Error),
}
