//! Documents from outside, read within limits.
ghost use Rattle.std.specs.Prelude.{IfOk, IfErr};
ghost use Rattle.raw_bson.specs.Tree.{tree_of_document};
ghost use Rattle.bson_uses.specs.Outside.{IsTaken, IsTurnedAway};

use raw_bson::{Document, Limits, RawDocument, Result, document_from_raw_within};
use std::alloc::Global;

/// What a document from outside may cost.
pub const MOST: Limits = Limits {
    bytes: 1_048_576,
    depth: 100,
};

/// The tree of a document from outside, or why it is rejected.
/// ```
/// assert_eq!(rt; received(alloc, b"\x0C\0\0\0\x10a\0\x02\0\0\0\0")?.len(), 1);
/// ```
pub fn received(alloc: Global, bytes: &[u8]) -> Result<Document>
    ensures taken { IfOk result (λ d. IsTaken bytes.now (tree_of_document d)) }
    ensures turned_away { IfErr result (IsTurnedAway bytes.now) }
{
    let document = RawDocument::from_bytes(bytes)?;
    let tree = document_from_raw_within(alloc, document, MOST)?;
    Ok(tree)
}
