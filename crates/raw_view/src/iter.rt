//! The public iterators: over elements, over keys and values, and over the values of arrays.
ghost use Rattle.std.specs.Prelude.{◌≡◌, Some, drop};

use crate::bson_ref::RawBsonRef;
use crate::document::RawDocument;
use crate::element::RawElement;
use crate::elements::Elements;
use crate::error::{Error, Result};
use std::alloc::Global;
use std::marker::{Model, PhantomData};

/// The elements of a document in order, then the fault at which they stop, if there is one. A clause sees the
/// bytes that are left to read, and `None` after a stop.
#[derive(Drop)]
pub struct RawIter<'a> {
    elements: Elements<'a>,
    alloc: Global,
}

impl<'a> Model for RawIter<'a> {
    ghost use Rattle.std.specs.Prelude.{ℕ, List, Option};

    ghost Value = { Option (List ℕ) };

    ghost view = { λ a. a.elements };
}

impl<'a> RawIter<'a> {
    ghost use Rattle.raw_view.specs.Document.{bytes_of};

    pub(crate) fn new(alloc: Global, document: RawDocument<'a>) -> RawIter<'a>
        ensures { result ≡ Some (drop 4 (bytes_of document.entry)) }
    {
        RawIter {
            elements: Elements::new(document),
            alloc,
        }
    }
}

impl<'a> Iterator for RawIter<'a> {
    ghost use Rattle.raw_view.specs.Frame.ElementSteps.{StepsElement, items_left};

    type Item = Result<RawElement<'a>>;

    ghost next_gives = { StepsElement };

    ghost remaining = { items_left };

    #[inline(always)]
    fn next(&mut self) -> Option<Result<RawElement<'a>>> {
        match self.elements.next() {
            None => None,
            Some(Ok(element)) => Some(Ok(element)),
            Some(Err(stop)) => Some(Err(stop.into_error(self.alloc))),
        }
    }
}

/// What an iterator over items yields for an element: its value, or its key and its value.
pub trait FromElement<'a>: Sized + Drop {
    ghost use Rattle.std.specs.Prelude.{Result};
    ghost use Rattle.raw_view.specs.Errors.Answers.{Says};
    ghost use Rattle.raw_view.specs.Frame.ElementSteps.{frame_of};
    ghost use Rattle.raw_view.specs.Meaning.Item.{Item, entry, stopped};
    ghost use Rattle.raw_view.specs.Meaning.{KeyedFault, Meaning, Means};
    ghost use Rattle.raw_view.specs.declared.error.Error.{Error};

    // what one result says of an item
    ghost tells: { Result Self Error → Item → Type 0 };

    /// The value of the element, or its fault.
    fn from_element(element: RawElement<'a>, alloc: Global) -> Result<Self>
        ensures { (m : Meaning) × Means (frame_of element.entry) m
            × tells result (entry (frame_of element.entry).key m) };

    /// The fault at which the elements stop.
    fn from_stop(stop: Error) -> Result<Self>
        ensures { (fault : KeyedFault) → Says stop fault → tells result (stopped fault) };
}

impl<'a> FromElement<'a> for RawBsonRef<'a> {
    ghost use Rattle.raw_view.specs.Errors.Answers.{TellsValue};

    ghost tells = { TellsValue };

    #[inline(always)]
    fn from_element(element: RawElement<'a>, alloc: Global) -> Result<RawBsonRef<'a>> {
        element.value(alloc)
    }

    #[inline(always)]
    fn from_stop(stop: Error) -> Result<RawBsonRef<'a>> {
        Err(stop)
    }
}

impl<'a> FromElement<'a> for (&'a str, RawBsonRef<'a>) {
    ghost use Rattle.raw_view.specs.Errors.Answers.{TellsItem};

    ghost tells = { TellsItem };

    #[inline(always)]
    fn from_element(element: RawElement<'a>, alloc: Global) -> Result<(&'a str, RawBsonRef<'a>)> {
        match element.value(alloc) {
            Ok(value) => Ok((element.key(), value)),
            Err(error) => Err(error),
        }
    }

    #[inline(always)]
    fn from_stop(stop: Error) -> Result<(&'a str, RawBsonRef<'a>)> {
        Err(stop)
    }
}

/// The values of the elements of a document in order, each fault in the place of its value, then the fault at
/// which the elements stop, if there is one. A clause sees the bytes that are left to read, and `None` after
/// a stop.
#[derive(Drop)]
pub struct Items<'a, T> {
    elements: RawIter<'a>,
    given: PhantomData<T>,
}

/// The keys and values of a document in order, each fault in the place of its value, then the fault at which
/// the elements stop, if there is one. A clause sees the bytes that are left to read, and `None` after a
/// stop.
pub type Iter<'a> = Items<'a, (&'a str, RawBsonRef<'a>)>;

/// The values of an array in order, each fault in the place of its value, then the fault at which the
/// elements stop, if there is one. A clause sees the bytes that are left to read, and `None` after a stop.
pub type RawArrayIter<'a> = Items<'a, RawBsonRef<'a>>;

impl<'a, T> Model for Items<'a, T> {
    ghost use Rattle.std.specs.Prelude.{ℕ, List, Option};

    ghost Value = { Option (List ℕ) };

    ghost view = { λ a. a.elements };
}

impl<'a, T> Items<'a, T> {
    ghost use Rattle.raw_view.specs.Document.{bytes_of};

    pub(crate) fn new(alloc: Global, document: RawDocument<'a>) -> Items<'a, T>
        ensures { result ≡ Some (drop 4 (bytes_of document.entry)) }
    {
        Items {
            elements: RawIter::new(alloc, document),
            given: PhantomData,
        }
    }
}

impl<'a, T: FromElement<'a>> Iterator for Items<'a, T> {
    ghost use Rattle.raw_view.specs.Errors.Answers.{StepsItems};
    ghost use Rattle.raw_view.specs.Frame.ElementSteps.{items_left};

    type Item = Result<T>;

    ghost next_gives = { StepsItems T.tells };

    ghost remaining = { items_left };

    #[inline(always)]
    fn next(&mut self) -> Option<Result<T>> {
        match self.elements.next() {
            None => None,
            Some(Ok(element)) => Some(T::from_element(element, self.elements.alloc)),
            Some(Err(stop)) => Some(T::from_stop(stop)),
        }
    }
}
