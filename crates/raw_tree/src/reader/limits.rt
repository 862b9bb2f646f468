//! Trees of documents from outside that cost no more than the caller allows.
#![tactic(auto)]

ghost use Rattle.std.specs.Prelude.{◌≡◌, IfOk, IfErr};
ghost use Rattle.bson_model.specs.Tree.{tree_of_document};
ghost use Rattle.raw_tree.specs.CanonicalForm.{AllAreSpelledOneWay};
ghost use Rattle.raw_tree.specs.reader.WithinLimits.{AllAreAnsweredOneWay, AllHaveOneDepth, ReadsWithin, TellsFirstBarrier};
ghost use Rattle.raw_tree.specs.reader.Reading.{AllAreReadOneWay, as_document};
ghost use Rattle.raw_view.specs.Document.{bytes_of};

use crate::reader::levels::Contents;
use crate::reader::read;
use crate::reader::steps::Steps;
use bson_model::Document;
use raw_view::{Error, Holder, RawDocument, RawLevel, Reason, Result};
use std::alloc::Global;

/// What a document from outside may cost: at most `bytes` bytes and at most `depth` levels. The document is
/// the first level; a document, an array or a scope in a level is one level deeper.
/// ```
/// let document = RawDocument::from_bytes(b"\x14\0\0\0\x03a\0\x0C\0\0\0\x10b\0\x07\0\0\0\0\0")?;
/// let limits = Limits { bytes: 1000, depth: 1 };
/// assert!(rt; document_from_raw_within(alloc, document, limits).is_err());
/// ```
#[derive(Clone, Copy, Debug, PartialEq, Eq)]
pub struct Limits {
    /// how many bytes it may have
    pub bytes: usize,
    /// how many levels it may have
    pub depth: usize,
}

/// The tree of a document within these limits. More bytes than `limits.bytes` are the first error. Otherwise
/// the error is the first of these, depth first in byte order: a fault at any level, with the key that this
/// fault itself has, or the entry into a level that is too deep, which has no key. Memory may also run out.
/// Every document has exactly one tree within the limits, or exactly one reason to fail. Its tree is written
/// back as its own bytes if and only if the document is canonical. BSON 1.1, `document`.
///
/// Not in the contract: a level that is too deep isn't entered, and no memory is requested for it.
/// ```
/// let document = RawDocument::from_bytes(b"\x0C\0\0\0\x10a\0\x01\0\0\0\0")?;
/// let limits = Limits { bytes: 1000, depth: 10 };
/// assert!(rt; document_from_raw_within(alloc, document, limits).is_ok());
/// ```
#[tactic(auto, using(crate::proofs::Laws::documents_read, crate::proofs::Forms::bytes_spelled_one_way, crate::proofs::reader::Depths::one_depth, crate::proofs::reader::Limited::read_within, crate::proofs::reader::Limited::barred_whole, crate::proofs::reader::Limited::barred_within))]
pub fn document_from_raw_within(
    alloc: Global,
    document: RawDocument<'_>,
    limits: Limits,
) -> Result<Document>
    ensures tree { IfOk result
        (λ d. ReadsWithin limits (bytes_of document.entry) (tree_of_document d)) }
    ensures fault { IfErr result (TellsFirstBarrier limits (bytes_of document.entry)) }
    ensures one_answer { AllAreAnsweredOneWay limits }
    ensures one_reading { AllAreReadOneWay as_document }
    ensures one_spelling { AllAreSpelledOneWay as_document }
    ensures one_depth { AllHaveOneDepth }
{
    if document.as_bytes().len() > limits.bytes {
        return Err(Error::malformed(Reason::TooManyBytes));
    }
    let nested = RawLevel {
        document,
        holder: Holder::Document,
    };
    match read(alloc, nested, limits.depth, &mut Steps::new())? {
        Contents::Document(_, tree) => Ok(tree),
        Contents::Array(_) => unreachable!(),
    }
}
