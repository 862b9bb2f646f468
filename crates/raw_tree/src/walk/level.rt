//! A level of a walk, and what is next in it.
#![tactic(auto)]

ghost use Rattle.std.specs.Prelude.{◌≡◌, ◌≤◌, ◌<◌, ◌+◌, ◌^◌, ℕ, List, length};
ghost use Rattle.raw_tree.specs.walk.Looking.{HasLooked, size_of};
ghost use Rattle.raw_tree.specs.walk.Walks.{GoesOn, LiesAt, entered_level, resumed_level};
ghost use Rattle.raw_view.specs.Document.{bytes_of};
ghost use Rattle.raw_view.specs.Frame.ElementSteps.{frame_of};

use raw_view::{BorrowedError, Elements, RawBsonRef, RawDocument, RawElement, RawLevel};

/// A level of a walk.
#[derive(Drop)]
pub struct Level<'a> {
    /// its remaining elements
    pub elements: Elements<'a>,
    /// the number of elements before those
    pub number: usize,
    /// where those begin, as an offset from the first byte of the document
    pub offset: usize,
    /// where the level begins
    pub start: usize,
}

impl<'a> Level<'a> {
    /// The level with these bytes, which end at `end`.
    pub(crate) fn new(document: RawDocument<'a>, end: usize) -> Level<'a>
        requires { length (bytes_of document) ≤ end }
        ensures { result ≡ entered_level (bytes_of document.entry) end }
    {
        let start = end - document.as_bytes().len();
        Level {
            elements: Elements::new(document),
            number: 0,
            offset: start + 4,
            start,
        }
    }

    /// The level that waits, after its element, which ends at `offset`.
    pub(crate) fn behind(document: RawDocument<'a>, waiting: Waiting, offset: usize) -> Level<'a>
        requires { GoesOn (bytes_of document) waiting offset }
        ensures { (d : List ℕ)
            → LiesAt (bytes_of document.entry) waiting.start d
            → result ≡ resumed_level waiting d offset }
    {
        let start = waiting.start as usize;
        let Some(elements) = Elements::from_offset(document_at(document, start), offset - start)
        else {
            unreachable!()
        };
        Level {
            elements,
            number: waiting.number as usize + 1,
            offset,
            start,
        }
    }
}

/// The document or the array that begins at `start`.
fn document_at(document: RawDocument<'_>, start: usize) -> RawDocument<'_>
    requires { (d : List ℕ) × LiesAt (bytes_of document) start d }
    ensures { (d : List ℕ) → LiesAt (bytes_of document.entry) start d → bytes_of result ≡ d }
{
    let Ok((level, _)) = RawDocument::split_first(document.as_bytes().split_at(start).1) else {
        unreachable!()
    };
    level
}

/// A level that waits for the level in one of its elements. It is stored by offsets from the first byte of
/// the document.
#[derive(Clone, Copy)]
pub struct Waiting {
    /// where the level begins
    pub start: u32,
    /// where the element begins
    pub element: u32,
    /// the number of elements before it
    pub number: u32,
}

/// What is next in a level.
#[derive(Drop)]
pub(crate) enum Next<'a> {
    /// the final 0
    End,
    /// an element, and its value, which holds no other level
    Whole(RawElement<'a>, RawBsonRef<'a>),
    /// an element, and the level that its value holds
    Inside(RawElement<'a>, RawLevel<'a>),
    /// the key of an element, and the fault that it means; or a stop
    Fault(Option<&'a str>, BorrowedError<'a>),
}

/// Looks at what is next in a level.
#[inline(always)]
pub(crate) fn look<'a>(elements: &mut Elements<'a>) -> Next<'a>
    ensures { HasLooked elements.old elements.new result }
{
    let element = match elements.next() {
        None => return Next::End,
        Some(Err(error)) => return Next::Fault(None, error),
        Some(Ok(element)) => element,
    };
    let value = match element.resolve() {
        Err(error) => return Next::Fault(Some(element.key()), error),
        Ok(value) => value,
    };
    match value.level() {
        None => Next::Whole(element, value),
        Some(level) => Next::Inside(element, level),
    }
}

/// Where the bytes after an element begin, if the element begins at `offset`.
#[inline(always)]
pub fn behind(offset: usize, element: RawElement<'_>) -> usize
    requires { offset + size_of (frame_of element) < 2 ^ 64 }
    ensures { result ≡ offset + size_of (frame_of element.entry) }
{
    offset + (element.key().len() + element.len() + 2)
}
