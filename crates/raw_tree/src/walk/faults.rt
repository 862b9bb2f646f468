//! The first barrier of a document within limits, without building a tree.
#![tactic(auto)]

ghost use Rattle.std.specs.Prelude.{◌<◌, ℕ, suc, List, IfOk, IfErr};
ghost use Rattle.raw_tree.specs.walk.Barriers.{IsOutOfMemoryWithin, TellsBarrier, TellsBarrierWithin};
ghost use Rattle.raw_tree.specs.walk.Looking.{HasNoneBefore};
ghost use Rattle.raw_tree.specs.walk.Places.{AllAreBarredAtOnePlace};
ghost use Rattle.raw_tree.specs.walk.Walks.{TellsError};
ghost use Rattle.raw_tree.specs.reader.WithinLimits.{AllAreAnsweredOneWay};
ghost use Rattle.raw_view.specs.Document.{bytes_of};
ghost use Rattle.raw_view.specs.Errors.{IsOutOfMemory};

use crate::reader::limits::Limits;
use crate::walk::barrier::{Barrier, BarrierKind};
use crate::walk::depth::MostWaiting;
use crate::walk::level::{Next, look};
use crate::walk::place::Place;
use crate::walk::{Walk, WalkError};
use raw_view::{Error, RawDocument, Result};
use std::alloc::Global;

/// Where the search for the first barrier begins. What is before it in the outermost level is canonical.
#[derive(Clone, Copy)]
pub struct Start {
    /// the number of elements of the outermost level before it
    pub number: usize,
    /// its offset from the first byte of the document
    pub offset: usize,
    /// whether its key is known to be a repeated one
    pub repeats: bool,
}

/// The first element.
pub const FIRST: Start = Start {
    number: 0,
    offset: 4,
    repeats: false,
};

/// The first barrier within a depth, depth first in byte order, where none is before `start`. A level that is
/// too deep isn't entered, and no memory is requested for it. The only error is out of memory.
pub fn first_behind<'a>(
    alloc: Global,
    document: RawDocument<'a>,
    start: Start,
    depth: usize,
) -> Result<Option<Barrier<'a>>>
    requires { HasNoneBefore depth (bytes_of document) start.number start.offset }
    ensures told { IfOk result (TellsBarrierWithin depth (bytes_of document.entry)) }
    ensures err { IfErr result IsOutOfMemory }
    ensures entered { IfErr result (λ _. 0 < depth) }
{
    let Some(most_waiting) = MostWaiting::of(depth) else {
        return Ok(Some(Barrier {
            kind: BarrierKind::TooDeep,
            place: Place::whole(alloc),
        }));
    };
    let (mut walk, mut level) = Walk::new(alloc, document, start, most_waiting);
    'elements: loop {
        match look(&mut level.elements) {
            Next::Whole(element, _) => walk.pass(&mut level, element),
            Next::Inside(element, inner) => {
                if let Err(error) = walk.enter(alloc, &mut level, element, inner.document) {
                    return told(error);
                }
            }
            Next::Fault(key, error) => {
                let kind = BarrierKind::Fault(error);
                return told(walk.barrier(alloc, level.number, level.offset, key, kind));
            }
            Next::End => {
                if !walk.leave(&mut level) {
                    return Ok(None);
                }
            }
        }
    }
}

/// The barrier that ended a walk.
fn told(error: WalkError<'_>) -> Result<Option<Barrier<'_>>>
    ensures told { (most : ℕ)
        → (b : List ℕ)
        → TellsError most b error.entry
        → IfOk result (TellsBarrierWithin (suc most) b) }
    ensures err { IfErr result IsOutOfMemory }
{
    match error {
        WalkError::Barrier(barrier) => Ok(Some(barrier)),
        WalkError::OutOfMemory => Err(Error::out_of_memory()),
    }
}

/// The first barrier of a document within limits, and its place. There is none if and only if the document
/// has a tree within the limits, out of memory aside. More bytes than allowed are the first barrier.
/// Otherwise it is the first of these, depth first in byte order: a fault at any level, with the key that
/// this fault itself has, or the entry into a level that is too deep. The only error is out of memory, and
/// only if there are few enough bytes and a level may be entered. BSON 1.1, `document`.
///
/// Not in the contract: no tree is built, no key is copied, and no depth fills the stack. Memory is taken for
/// the waiting levels and for the path.
/// ```
/// let document = RawDocument::from_bytes(b"\x09\0\0\0\x08a\0\x02\0")?;
/// let limits = Limits { bytes: 1000, depth: 10 };
/// let Some(barrier) = first_fault_within(alloc, document, limits)? else { unreachable!() };
/// assert_eq!(rt; (barrier.place.offset, barrier.place.key()), (4, Some("a")));
/// ```
#[tactic(auto, using(crate::proofs::reader::Limited::barred_at_one_place))]
pub fn first_fault_within<'a>(
    alloc: Global,
    document: RawDocument<'a>,
    limits: Limits,
) -> Result<Option<Barrier<'a>>>
    ensures barrier { IfOk result (TellsBarrier limits (bytes_of document.entry)) }
    ensures err { IfErr result (IsOutOfMemoryWithin limits (bytes_of document.entry)) }
    ensures one_answer { AllAreAnsweredOneWay limits }
    ensures one_place { AllAreBarredAtOnePlace limits }
{
    if document.as_bytes().len() > limits.bytes {
        return Ok(Some(Barrier {
            kind: BarrierKind::TooManyBytes,
            place: Place::whole(alloc),
        }));
    }
    first_behind(alloc, document, FIRST, limits.depth)
}
