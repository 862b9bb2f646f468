//! What ends a reading within limits, and where.
#![tactic(auto)]

use crate::walk::place::Place;
use raw_view::BorrowedError;

/// What ends a reading of a document within limits.
#[derive(Debug, Drop)]
pub enum BarrierKind<'a> {
    /// the document has more bytes than allowed
    TooManyBytes,
    /// a level is deeper than allowed
    TooDeep,
    /// a fault, with its key if it has one
    Fault(BorrowedError<'a>),
}

/// What ends a reading of a document within limits, and its place. The key and the path borrow from the
/// document.
/// ```
/// let document = RawDocument::from_bytes(b"\x0C\0\0\0\x10a\0\x01\0\0\0\0")?;
/// let barrier = first_fault_within(alloc, document, Limits { bytes: 5, depth: 10 })?;
/// assert!(rt; matches!(barrier, Some(Barrier { kind: BarrierKind::TooManyBytes, .. })));
/// ```
#[derive(Debug, Drop)]
pub struct Barrier<'a> {
    /// which barrier it is
    pub kind: BarrierKind<'a>,
    /// a fault is at the element that means it, or at the stop; a level that is too deep is at the element
    /// that holds it; too many bytes, and an outermost level that is too deep, are at the document as a whole
    pub place: Place<'a>,
}
