//! A walk over all levels of a document.
#![tactic(auto)]

ghost use Rattle.std.specs.Option.{option_copied};
ghost use Rattle.std.specs.Prelude.{◌≡◌, ◌+◌, ◌≤◌, ◌++◌, ◌∷◌, [], ℕ, suc, length, List, IfErr, IfOk, OnOk};
ghost use Rattle.raw_tree.specs.walk.Looking.{HasNoneBefore, size_of};
ghost use Rattle.raw_tree.specs.walk.Places.{Step};
ghost use Rattle.raw_tree.specs.walk.Visits.{Visit};
ghost use Rattle.raw_tree.specs.walk.Walks.{GoesOn, StoreSteps, level_behind, outermost_of};
ghost use Rattle.raw_tree.specs.walk.Walks.{BeginsWithin, Comes, Enters, HasCome, IsBarrierAt, IsBegun, IsTooDeep, IsWithin, LeavesOrEnds, TellsErrorWithin};
ghost use Rattle.raw_tree.specs.declared.walk.level.Waiting.{Waiting};
ghost use Rattle.raw_view.specs.declared.document.RawDocument.{RawDocument};
ghost use Rattle.raw_view.specs.Document.{bytes_of};
ghost use Rattle.raw_view.specs.Frame.ElementSteps.{frame_of};

pub(crate) mod barrier;
pub(crate) mod depth;
pub(crate) mod element;
pub(crate) mod faults;
pub(crate) mod level;
pub(crate) mod place;
pub(crate) mod room;

use crate::reader::limits::Limits;
use crate::walk::barrier::{Barrier, BarrierKind};
use crate::walk::depth::MostWaiting;
use crate::walk::faults::{FIRST, Start};
use crate::walk::level::{Level, Next, Waiting, behind, look};
use crate::walk::place::{Place, place_in};
use raw_view::{Elements, RawBsonRef, RawDocument, RawElement, RawLevel};
use std::alloc::Global;

/// A walk over all levels of a document, depth first in byte order. It takes memory for the waiting levels,
/// and no stack. The innermost level is a separate value, so that its fields can stay in registers.
#[derive(Drop)]
pub struct Walk<'a> {
    pub document: RawDocument<'a>,
    /// how many levels may wait
    pub most_waiting: MostWaiting,
    /// the levels that wait for the innermost one, the outermost first
    pub waiting: Vec<Waiting>,
}

/// The next event of a walk.
#[derive(Drop)]
pub enum Event<'a> {
    /// an element, and its value, which holds no level
    Whole(RawElement<'a>, RawBsonRef<'a>),
    /// an element, and the level that its value holds, which is entered
    Enter(RawElement<'a>, RawLevel<'a>),
    /// the end of an entered level
    Leave,
    /// the end of the document
    End,
}

/// Why a walk can't continue.
#[derive(Drop)]
pub enum WalkError<'a> {
    /// a fault, or a level that is too deep, which isn't entered
    Barrier(Barrier<'a>),
    /// memory ran out
    OutOfMemory,
}

impl<'a> Walk<'a> {
    /// A walk, and the outermost level from `start` on. `most_waiting` limits how many levels may wait for
    /// the innermost one.
    #[inline(always)]
    pub fn new(
        alloc: Global,
        document: RawDocument<'a>,
        start: Start,
        most_waiting: MostWaiting,
    ) -> (Walk<'a>, Level<'a>)
        requires { HasNoneBefore (suc most_waiting) (bytes_of document) start.number start.offset }
        ensures level { IsBegun document.entry start.offset result.0 result.1 }
        ensures number { result.1.number ≡ start.number }
        ensures most { result.0.most_waiting ≡ most_waiting }
        ensures come { start.offset ≡ 4 → HasCome document.entry most_waiting result.0 result.1 [] }
    {
        let Some(elements) = Elements::from_offset(document, start.offset) else {
            unreachable!()
        };
        let walk = Walk {
            document,
            most_waiting,
            waiting: Vec::new(alloc),
        };
        let level = Level {
            elements,
            number: start.number,
            offset: start.offset,
            start: 0,
        };
        (walk, level)
    }

    /// A walk over a document within limits, and its outermost level; or the limit that the document exceeds
    /// as a whole. The depth may still end the walk.
    #[inline(always)]
    pub fn within(
        alloc: Global,
        document: RawDocument<'a>,
        limits: Limits,
    ) -> Result<(Walk<'a>, Level<'a>), WalkError<'a>>
        ensures begins { IfOk result (λ begun. BeginsWithin limits document.entry begun.0 begun.1) }
        ensures ends { IfErr result (TellsErrorWithin limits (bytes_of document.entry)) }
    {
        let kind = if document.as_bytes().len() > limits.bytes {
            BarrierKind::TooManyBytes
        } else if let Some(most_waiting) = MostWaiting::of(limits.depth) {
            return Ok(Walk::new(alloc, document, FIRST, most_waiting));
        } else {
            BarrierKind::TooDeep
        };
        let place = Place::whole(alloc);
        Err(WalkError::Barrier(Barrier { kind, place }))
    }

    /// The next event of the walk, which is in this level. It isn't called again after the end or an error.
    #[inline(always)]
    pub fn next(&mut self, alloc: Global, level: &mut Level<'a>) -> Result<Event<'a>, WalkError<'a>>
        requires { (document : RawDocument) × (most : ℕ) × (seen : List Visit) × HasCome document most self.old level.old seen }
        ensures event { (document : RawDocument)
            → (most : ℕ)
            → (seen : List Visit)
            → HasCome document most self.old level.old seen
            → Comes document most seen self.old level.old self.new level.new result }
    {
        match look(&mut level.elements) {
            Next::Whole(element, value) => {
                self.pass(level, element);
                Ok(Event::Whole(element, value))
            }
            Next::Inside(element, inner) => {
                self.enter(alloc, level, element, inner.document)?;
                Ok(Event::Enter(element, inner))
            }
            Next::Fault(key, error) => {
                let kind = BarrierKind::Fault(error);
                Err(self.barrier(alloc, level.number, level.offset, key, kind))
            }
            Next::End => {
                if self.leave(level) {
                    Ok(Event::Leave)
                } else {
                    Ok(Event::End)
                }
            }
        }
    }

    /// Passes over an element that was just looked at.
    #[inline(always)]
    pub(crate) fn pass(&self, level: &mut Level<'a>, element: RawElement<'a>)
        requires { IsWithin self.now level.old element }
        ensures { level.new ≡ level_behind level.old element.entry }
    {
        level.offset = behind(level.offset, element);
        level.number += 1;
    }

    /// Enters the level of the element that was just looked at.
    #[inline(always)]
    pub(crate) fn enter(
        &mut self,
        alloc: Global,
        level: &mut Level<'a>,
        element: RawElement<'a>,
        inner: RawDocument<'a>,
    ) -> Result<(), WalkError<'a>>
        requires within { IsWithin self.old level.old element }
        requires inner { length (bytes_of inner) ≤ size_of (frame_of element) }
        requires path { (path : List Step) × StoreSteps (bytes_of self.old.document) self.old.waiting.items path }
        ensures entered { OnOk result
            (Enters self.old level.old self.new level.new element.entry inner.entry) }
        ensures ends { (path : List Step)
            → StoreSteps (bytes_of self.old.document) self.old.waiting.items path
            → IfErr result (IsTooDeep self.old level.old path element.entry) }
    {
        let offset = level.offset;
        if self.most_waiting.is_reached(self.waiting.len()) {
            let key = Some(element.key());
            return Err(self.barrier(alloc, level.number, offset, key, BarrierKind::TooDeep));
        }
        let outer = Waiting {
            start: level.start as u32,
            element: offset as u32,
            number: level.number as u32,
        };
        if self.waiting.push(outer).is_err() {
            return Err(WalkError::OutOfMemory);
        }
        *level = Level::new(inner, behind(offset, element));
        Ok(())
    }

    /// Returns to the outer level, if there is one, from the level whose end was just seen.
    #[inline(always)]
    pub(crate) fn leave(&mut self, level: &mut Level<'a>) -> bool
        requires { (outer : List Waiting) (w : Waiting)
            → self.old.waiting.items ≡ outer ++ w ∷ []
            → GoesOn (bytes_of self.old.document) w (level.old.offset + 1) }
        ensures { LeavesOrEnds self.old level.old.offset self.new level.new result }
    {
        let Some(outer) = self.waiting.pop() else {
            return false;
        };
        *level = Level::behind(self.document, outer, level.offset + 1);
        true
    }

    /// Where in the outermost level the element begins that holds the innermost level. In the outermost level
    /// itself it is `offset`.
    pub(crate) fn outermost(&self, offset: usize) -> usize
        ensures { result ≡ outermost_of self.now.waiting.items offset }
    {
        match self.waiting.first() {
            None => offset,
            Some(outer) => outer.element as usize,
        }
    }

    /// The barrier of this kind, placed at the element with this number and key in the innermost level.
    pub(crate) fn barrier(
        &self,
        alloc: Global,
        number: usize,
        offset: usize,
        key: Option<&'a str>,
        kind: BarrierKind<'a>,
    ) -> WalkError<'a>
        requires { (path : List Step) × StoreSteps (bytes_of self.now.document) self.now.waiting.items path }
        ensures { (path : List Step)
            → StoreSteps (bytes_of self.now.document) self.now.waiting.items path
            → IsBarrierAt path (record { number = number; key = option_copied key.entry }) offset kind.entry result }
    {
        match place_in(alloc, self.document, &self.waiting, number, key, offset) {
            Ok(place) => WalkError::Barrier(Barrier { kind, place }),
            Err(_) => WalkError::OutOfMemory,
        }
    }
}
