//! Canonical forms of documents from outside, without a tree.
#![tactic(auto)]

ghost use Rattle.std.specs.Prelude.{IfOk, IfErr};
ghost use Rattle.raw_tree.specs.Barriers.{IsBarrier};
ghost use Rattle.raw_form.specs.FormsWithin.{IsFormWithin, RefusesFormWithin};
ghost use Rattle.raw_form.specs.Staying.{TellsStart};
ghost use Rattle.raw_tree.specs.CanonicalForm.{HaveOneForm};
ghost use Rattle.raw_tree.specs.WithinLimits.{AllAreAnsweredOneWay, SaysBarrier};
ghost use Rattle.raw_tree.specs.WithinLimits as within;
ghost use Rattle.raw_view.specs.Document.{bytes_of};
ghost use Rattle.raw_view.specs.Errors.{IsOutOfMemory};

use crate::rewriting::rewrite;
use raw_tree::{
    Barrier, BarrierKind, Cause, FIRST, Limits, Start, first_behind, validate_to_depth,
};
use raw_view::{Error, RawDocument, Reason, Result};
use std::alloc::Global;

/// The error for a barrier. If there is no memory for the copy of a key, it is out of memory.
fn error_of(alloc: Global, barrier: Barrier<'_>) -> Error
    ensures { (x : within.Barrier) → IsBarrier barrier.entry.kind x → SaysBarrier result x }
{
    match barrier.kind {
        BarrierKind::TooManyBytes => Error::malformed(Reason::TooManyBytes),
        BarrierKind::TooDeep => Error::malformed(Reason::TooDeep),
        BarrierKind::Fault(error) => error.into_error(alloc),
    }
}

/// `None` if a document is canonical and no deeper than `depth`. Otherwise it returns where the search for its
/// first barrier begins: at the element of the outermost level that breaches or holds what breaches. The only
/// error is out of memory.
fn start_of(alloc: Global, document: RawDocument<'_>, depth: usize) -> Result<Option<Start>>
    ensures start { IfOk result (TellsStart depth (bytes_of document.entry)) }
    ensures err { IfErr result IsOutOfMemory }
{
    let Some(found) = validate_to_depth(alloc, document, depth)? else {
        return Ok(None);
    };
    let path = found.place.path.as_slice();
    if path.len() == 0 {
        return Ok(Some(FIRST));
    }
    Ok(Some(Start {
        number: path[0].number,
        offset: found.outermost,
        repeats: path.len() == 1 && matches!(found.cause, Some(Cause::RepeatedKey)),
    }))
}

/// The canonical form of a document within limits.
#[tactic(auto, using(raw_tree::proofs::Face::barred_whole))]
fn form_within(alloc: Global, document: RawDocument<'_>, limits: Limits) -> Result<Vec<u8>>
    ensures form { IfOk result
        (λ form. IsFormWithin limits (bytes_of document.entry) form.items) }
    ensures refused { IfErr result (RefusesFormWithin limits (bytes_of document.entry)) }
{
    let bytes = document.as_bytes();
    if bytes.len() > limits.bytes {
        return Err(Error::malformed(Reason::TooManyBytes));
    }
    let Some(start) = start_of(alloc, document, limits.depth)? else {
        return Ok(Vec::from_slice(alloc, bytes)?);
    };
    if let Some(barrier) = first_behind(alloc, document, start, limits.depth)? {
        return Err(error_of(alloc, barrier));
    }
    rewrite(alloc, document, start)
}

/// The canonical form of a document within limits, which is the encoding of its tree. Documents have equal
/// canonical forms if and only if their trees are equal; a canonical document is its own form. The error is the
/// first of these that applies: no envelope; more bytes than allowed; the first barrier, depth first in byte
/// order, as `first_fault_within` returns it, with the key of a fault; a form of more than 2147483647 bytes, which
/// is noticed only after the whole document was read. Out of memory may come instead of the last two. BSON 1.1,
/// `document`.
///
/// Not in the contract: no tree is built, the call takes n log n steps whatever the keys are, and no depth fills
/// the stack.
/// ```
/// let limits = Limits { bytes: 1000, depth: 10 };
/// let form = canonical_within(alloc, b"\x0C\0\0\0\x10a\0\x01\0\0\0\0", limits)?;
/// assert_eq!(rt; form.as_slice(), b"\x0C\0\0\0\x10a\0\x01\0\0\0\0".as_slice());
/// ```
pub fn canonical_within(alloc: Global, bytes: &[u8], limits: Limits) -> Result<Vec<u8>>
    ensures form { IfOk result (λ form. IsFormWithin limits bytes.now form.items) }
    ensures refused { IfErr result (RefusesFormWithin limits bytes.now) }
    ensures one_answer { AllAreAnsweredOneWay limits }
    ensures one_form { HaveOneForm }
{
    let document = RawDocument::from_bytes(bytes)?;
    form_within(alloc, document, limits)
}
