//! Places in documents.
#![tactic(auto)]

ghost use Rattle.std.specs.Prelude.{◌≡◌, ◌++◌, ◌∷◌, [], List, map, IfOk, IfErr, OnOk};
ghost use Rattle.std.specs.Option.{option_copied};
ghost use Rattle.raw_tree.specs.walk.Barriers.{step_of, steps_of};
ghost use Rattle.raw_tree.specs.walk.Rooms.{filled_from};
ghost use Rattle.raw_tree.specs.walk.Places.{Step, last_key};
ghost use Rattle.raw_tree.specs.walk.Walks.{StoreSteps};
ghost use Rattle.raw_view.specs.Document.{bytes_of};
ghost use Rattle.raw_view.specs.Errors.{IsOutOfMemory};

use crate::walk::element::element_at;
use crate::walk::level::Waiting;
use crate::walk::room::put_at;
use raw_view::{Error, RawDocument, Result};
use std::alloc::Global;

/// A step of a path: an element of a level.
#[derive(Clone, Copy, Debug, PartialEq, Eq)]
pub struct PathStep<'a> {
    /// the number of the element in its level, counted from 0; for a stop, the number of elements before it
    pub number: usize,
    /// the key of the element; a stop has none
    pub key: Option<&'a str>,
}

/// A place in a document: an element, a stop, or the document as a whole.
/// ```
/// let document = RawDocument::from_bytes(b"\x13\0\0\0\x10a\0\x01\0\0\0\x10a\0\x02\0\0\0\0")?;
/// let breach = validate_within(alloc, document, Limits { bytes: 1000, depth: 10 })?;
/// let place = breach.map(|breach| breach.place);
/// let Some(Place { path, offset: 11 }) = place else { unreachable!() };
/// assert_eq!(rt; path.as_slice(), [PathStep { number: 1, key: Some("a") }].as_slice());
/// ```
#[derive(Debug, PartialEq, Eq, Drop)]
pub struct Place<'a> {
    /// for each level, from the outermost on, the element that holds the next level, and last the element or
    /// the stop itself; empty for the document as a whole
    pub path: Vec<PathStep<'a>>,
    /// where the element or the stop begins, as an offset from the first byte of the document
    pub offset: usize,
}

impl<'a> Place<'a> {
    /// The document as a whole. It takes no memory.
    #[doc(hidden)]
    pub fn whole(alloc: Global) -> Place<'a>
        ensures path { steps_of result ≡ [] }
        ensures offset { result.offset ≡ 0 }
    {
        Place {
            path: Vec::new(alloc),
            offset: 0,
        }
    }

    /// The key of the element; `None` for a stop and for the document as a whole.
    pub fn key(&self) -> Option<&'a str>
        ensures { option_copied result ≡ last_key (steps_of self.now) }
    {
        self.path.last()?.key
    }

    /// Writes the numbers of the path to the front of `room`, as many as fit.
    pub fn put_path(&self, room: &mut [usize])
        ensures { room.new ≡ filled_from 0 room.old (map (λ step. step.number) (steps_of self.now)) }
    {
        for (index, step) in self.path.iter().enumerate() {
            put_at(room, index, step.number);
        }
    }
}

fn put_step<'a>(path: &mut Vec<PathStep<'a>>, step: PathStep<'a>) -> Result<()>
    ensures put { OnOk result (path.new.items ≡ path.old.items ++ step.entry ∷ []) }
    ensures err { IfErr result IsOutOfMemory }
{
    match path.push(step) {
        Ok(()) => Ok(()),
        Err(_) => Err(Error::out_of_memory()),
    }
}

/// The steps at which these levels of a document wait, from the outermost on, followed by this one. The only
/// error is out of memory.
fn path_to<'a>(
    alloc: Global,
    document: RawDocument<'a>,
    waiting: &[Waiting],
    last: PathStep<'a>,
) -> Result<Vec<PathStep<'a>>>
    requires { (outer : List Step) × StoreSteps (bytes_of document) waiting.now outer }
    ensures path { (outer : List Step)
        → StoreSteps (bytes_of document.entry) waiting.now outer
        → IfOk result (λ path. map step_of path.items ≡ outer ++ step_of last.entry ∷ []) }
    ensures err { IfErr result IsOutOfMemory }
{
    let mut path = Vec::with_capacity(alloc, waiting.len() + 1)?;
    for outer in waiting {
        let step = PathStep {
            number: outer.number as usize,
            key: Some(element_at(document, outer.element as usize).key()),
        };
        put_step(&mut path, step)?;
    }
    put_step(&mut path, last)?;
    Ok(path)
}

/// The place of the element with this number and key (a stop has none) at this offset, in the level for which
/// these levels wait. The only error is out of memory.
pub(crate) fn place_in<'a>(
    alloc: Global,
    document: RawDocument<'a>,
    waiting: &[Waiting],
    number: usize,
    key: Option<&'a str>,
    offset: usize,
) -> Result<Place<'a>>
    requires { (outer : List Step) × StoreSteps (bytes_of document) waiting.now outer }
    ensures path { (outer : List Step)
        → StoreSteps (bytes_of document.entry) waiting.now outer
        → IfOk result
        (λ place. steps_of place
        ≡ outer ++ record { number = number; key = option_copied key.entry } ∷ []) }
    ensures offset { IfOk result (λ place. place.offset ≡ offset) }
    ensures err { IfErr result IsOutOfMemory }
{
    let path = path_to(alloc, document, waiting, PathStep { number, key })?;
    Ok(Place { path, offset })
}
