//! The canonical form of a document.
ghost use Rattle.std.specs.Prelude.{◌≢◌, IfOk, IfErr};
ghost use Rattle.raw_bson.specs.Conversion.{RefusesForm};
ghost use Rattle.raw_tree.specs.CanonicalForm.{IsCanonicalForm};
ghost use Rattle.raw_tree.specs.Reading.{AreReadOneWay, as_document};
ghost use Rattle.raw_view.specs.Frame.Envelope.{IsEnvelope};

use crate::document_buf::RawDocumentBuf;
use raw_tree::document_from_raw;
use raw_view::{ErrorKind, RawDocument, Reason, Result};
use std::alloc::Global;

/// The canonical form of a document, which is the encoding of its tree. Documents have equal canonical forms if
/// and only if their trees are equal; a canonical document is its own form. The error is the first of these that
/// applies: no sound envelope; the first fault at any level, with that fault's key; a form of more than 2147483647
/// bytes; out of memory. A document has exactly one tree or exactly one first fault. BSON 1.1, `document`.
/// ```
/// let repeated = b"\x13\0\0\0\x10a\0\x01\0\0\0\x10a\0\x02\0\0\0\0";
/// let form = canonical_bytes(alloc, repeated)?;
/// assert_eq!(rt; form.as_slice(), b"\x0C\0\0\0\x10a\0\x02\0\0\0\0".as_slice());
/// ```
pub fn canonical_bytes(alloc: Global, bytes: &[u8]) -> Result<Vec<u8>>
    ensures form { IfOk result (λ form. IsCanonicalForm bytes.now form.items) }
    ensures one_reading { IsEnvelope bytes.now → AreReadOneWay as_document bytes.now }
    ensures refused { IfErr result (RefusesForm bytes.now) }
    ensures no_nul { IfErr result (λ e. e.kind ≢ ErrorKind.MalformedValue Reason.InteriorNul) }
{
    let document = RawDocument::from_bytes(bytes)?;
    let tree = document_from_raw(alloc, document)?;
    let form = RawDocumentBuf::from_document(alloc, &tree)?;
    Ok(form.into_bytes())
}
