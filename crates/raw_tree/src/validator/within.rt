//! Whether a document is canonical within limits, and where it first isn't.
#![tactic(auto)]

ghost use Rattle.std.specs.Prelude.{◌<◌, IfOk, IfErr};
ghost use Rattle.raw_tree.specs.validator.ValidationSteps.{EndsTooDeep, TellsFound, TellsOutermost};
ghost use Rattle.raw_tree.specs.validator.Breaches.{AllAreValidatedOneWayWithin, IsFirstBreach};
ghost use Rattle.raw_tree.specs.validator.Violations.{TellsViolation};
ghost use Rattle.raw_view.specs.Document.{bytes_of};
ghost use Rattle.raw_view.specs.Errors.{IsOutOfMemory};

use crate::reader::limits::Limits;
use crate::validator::breach::Cause;
use crate::validator::keys_so_far::KeysSoFar;
use crate::validator::step::{Validated, keys_of, validate_next};
use crate::walk::depth::MostWaiting;
use crate::walk::faults::FIRST;
use crate::walk::place::{Place, place_in};
use crate::walk::{Walk, WalkError};
use raw_view::{Error, RawDocument, Result};
use std::alloc::Global;
use std::mem;

/// The first breach of a document, and its place. The path borrows from the document.
/// ```
/// let document = RawDocument::from_bytes(b"\x13\0\0\0\x10a\0\x01\0\0\0\x10a\0\x02\0\0\0\0")?;
/// let breach = validate_within(alloc, document, Limits { bytes: 1000, depth: 10 })?;
/// assert!(rt; matches!(breach, Some(PlacedBreach { cause: Cause::RepeatedKey, .. })));
/// ```
#[derive(Debug, PartialEq, Eq, Drop)]
pub struct PlacedBreach<'a> {
    /// why it is a breach
    pub cause: Cause,
    /// at the element that breaches, or at the stop
    pub place: Place<'a>,
}

/// Why a validation within limits fails.
/// ```
/// let document = RawDocument::from_bytes(b"\x0C\0\0\0\x10a\0\x01\0\0\0\0")?;
/// let few = Limits { bytes: 5, depth: 10 };
/// assert!(rt; matches!(validate_within(alloc, document, few), Err(ValidateError::TooManyBytes)));
/// ```
#[derive(Debug, PartialEq, Eq, Drop)]
pub enum ValidateError<'a> {
    /// The document has more bytes than allowed.
    TooManyBytes,
    /// A level is deeper than allowed: the one in the element at this place, or the document as a whole.
    TooDeep(Place<'a>),
    /// Memory ran out.
    OutOfMemory,
}

/// What ends a validation to some depth.
#[derive(Drop)]
pub struct Found<'a> {
    /// why it is a breach; `None` if a level is too deep
    pub cause: Option<Cause>,
    /// where it is
    pub place: Place<'a>,
    /// where in the outermost level the element begins that holds it, or is it; the first element, if the
    /// place is the document as a whole
    pub outermost: usize,
}

/// The first breach or level that is too deep. The only error is out of memory.
pub fn validate_to_depth<'a>(
    alloc: Global,
    document: RawDocument<'a>,
    depth: usize,
) -> Result<Option<Found<'a>>>
    ensures found { IfOk result (TellsFound depth (bytes_of document.entry)) }
    ensures outermost { IfOk result (TellsOutermost (bytes_of document.entry)) }
    ensures err { IfErr result IsOutOfMemory }
    ensures entered { IfErr result (λ _. 0 < depth) }
{
    let Some(most_waiting) = MostWaiting::of(depth) else {
        return Ok(Some(Found {
            cause: None,
            place: Place::whole(alloc),
            outermost: FIRST.offset,
        }));
    };
    let mut listed: Vec<&'a str> = Vec::new(alloc);
    let mut outer_keys: Vec<KeysSoFar<'a>> = Vec::new(alloc);
    let (mut walk, mut level) = Walk::new(alloc, document, FIRST, most_waiting);
    let mut keys = KeysSoFar::of_document(&listed);
    'elements: loop {
        let number = level.number;
        match validate_next(alloc, &mut level.elements, &mut keys, &mut listed, number)? {
            Validated::Whole(element) => walk.pass(&mut level, element),
            Validated::Inside(element, inner, is_array) => {
                let outermost = walk.outermost(level.offset);
                if let Err(error) = walk.enter(alloc, &mut level, element, inner) {
                    return too_deep(error, outermost);
                }
                let keys = mem::replace(&mut keys, keys_of(is_array, &listed));
                if outer_keys.push(keys).is_err() {
                    return Err(Error::out_of_memory());
                }
            }
            Validated::Breach(key, cause) => {
                // the path may use the memory of the keys
                drop(listed);
                drop(outer_keys);
                let place = place_in(alloc, document, &walk.waiting, number, key, level.offset)?;
                return Ok(Some(Found {
                    cause: Some(cause),
                    place,
                    outermost: walk.outermost(level.offset),
                }));
            }
            Validated::End => {
                let Some(outer_key) = outer_keys.pop() else {
                    return Ok(None);
                };
                if !walk.leave(&mut level) {
                    return Ok(None);
                }
                keys.leave(&mut listed);
                keys = outer_key;
            }
        }
    }
}

/// What ends a validation at a level that is too deep. `outermost` is where the element of the outermost
/// level begins that holds this level.
fn too_deep(error: WalkError<'_>, outermost: usize) -> Result<Option<Found<'_>>>
    ensures found { IfOk result (EndsTooDeep outermost error.entry) }
    ensures err { IfErr result IsOutOfMemory }
{
    match error {
        WalkError::Barrier(barrier) => Ok(Some(Found {
            cause: None,
            place: barrier.place,
            outermost,
        })),
        WalkError::OutOfMemory => Err(Error::out_of_memory()),
    }
}

/// Returns `None` if and only if a document is canonical and has neither more bytes nor more levels than allowed.
/// More bytes than allowed are the first error. Otherwise the result is the first of these, depth first in byte
/// order: a breach, which is returned, or the entry into a level that is too deep, which is an error. Both have
/// their place. The key of an element is validated first, then its value, then what is inside the value. BSON 1.1,
/// `document`.
///
/// Not in the contract: no tree is built, no key is copied, and no depth fills the stack. Memory is taken for
/// the keys of the open levels, for the waiting levels and for the path.
/// ```
/// let document = RawDocument::from_bytes(b"\x13\0\0\0\x10a\0\x01\0\0\0\x10a\0\x02\0\0\0\0")?;
/// let limits = Limits { bytes: 1000, depth: 10 };
/// let Some(breach) = validate_within(alloc, document, limits)? else { unreachable!() };
/// assert_eq!(rt; (breach.cause, breach.place.offset), (Cause::RepeatedKey, 11));
/// ```
#[tactic(auto, using(crate::proofs::validator::OneBreach::validated_one_way_within, crate::proofs::validator::OneBreach::breach_found))]
pub fn validate_within<'a>(
    alloc: Global,
    document: RawDocument<'a>,
    limits: Limits,
) -> std::result::Result<Option<PlacedBreach<'a>>, ValidateError<'a>>
    ensures violation { TellsViolation limits (bytes_of document.entry) result }
    ensures first_breach { IfOk result (IsFirstBreach (bytes_of document.entry)) }
    ensures one_violation { AllAreValidatedOneWayWithin limits }
{
    if document.as_bytes().len() > limits.bytes {
        return Err(ValidateError::TooManyBytes);
    }
    match validate_to_depth(alloc, document, limits.depth) {
        Ok(None) => Ok(None),
        Ok(Some(found)) => match found.cause {
            Some(cause) => Ok(Some(PlacedBreach {
                cause,
                place: found.place,
            })),
            None => Err(ValidateError::TooDeep(found.place)),
        },
        Err(_) => Err(ValidateError::OutOfMemory),
    }
}
