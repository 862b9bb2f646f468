//! The store itself.
ghost use Rattle.std.specs.Prelude.{◌≡◌, ◌↔◌, [], length, IsTrue, option_map, slice_get};
ghost use Rattle.raw_bson.specs.Document.{bytes_of};
ghost use Rattle.raw_shelf.specs.Shelves.{IsShelf, Puts, Stores, items};

use crate::put_error::PutError;
use indexmap::IndexSet;
use raw_bson::{RawDocument, RawDocumentBuf, validate};
use std::alloc::Global;
use std::marker::Model;

/// Canonical documents, each once, in the order in which they first came. A clause sees the list of their bytes.
/// ```
/// let mut shelf = Shelf::new(alloc);
/// assert!(rt; shelf.put(RawDocumentBuf::new(alloc)?)?);
/// assert!(rt; !shelf.put(RawDocumentBuf::new(alloc)?)?);
/// assert_eq!(rt; shelf.len(), 1);
/// ```
#[derive(Drop)]
pub struct Shelf {
    documents: IndexSet<Vec<u8>>,
}

impl Model for Shelf {
    ghost use Rattle.std.specs.Prelude.{ℕ, List};
    ghost use Rattle.raw_shelf.specs.Shelves.{IsShelf, items};

    ghost Value = { List (List ℕ) };

    ghost view = { λ s. items s.documents.keys };

    ghost invariant = { λ s. IsShelf (items s.documents.keys) };
}

/// Puts bytes last, unless they are there, and returns whether they were new. The only error is out of memory.
fn store(documents: &mut IndexSet<Vec<u8>>, bytes: Vec<u8>) -> Result<bool, PutError>
    ensures { Stores (items documents.old.keys) bytes.items result (items documents.new.keys) }
{
    match documents.insert(bytes) {
        Ok(is_new) => Ok(is_new),
        Err(_) => Err(PutError::OutOfMemory),
    }
}

impl Shelf {
    /// A shelf without documents. It takes no memory.
    pub fn new(alloc: Global) -> Shelf
        ensures { result ≡ [] }
    {
        Shelf {
            documents: IndexSet::new(alloc),
        }
    }

    /// Puts a canonical document last, unless it is there, and returns whether it was new. If the document isn't
    /// canonical, the error is its first breach. An error, even out of memory, leaves the shelf unchanged.
    /// ```
    /// let mut shelf = Shelf::new(alloc);
    /// let mut document = RawDocumentBuf::new(alloc)?;
    /// document.append("a", RawBson::Null)?;
    /// assert!(rt; shelf.put(document)?);
    /// ```
    pub fn put(&mut self, document: RawDocumentBuf) -> Result<bool, PutError>
        ensures { Puts self.old document result self.new }
    {
        let alloc = *self.documents.allocator();
        match validate(alloc, document.as_ref()) {
            Ok(None) => {}
            Ok(Some(breach)) => return Err(PutError::Breach(breach)),
            Err(_) => return Err(PutError::OutOfMemory),
        }
        store(&mut self.documents, document.into_bytes())
    }

    /// The number of documents.
    /// ```
    /// let mut shelf = Shelf::new(alloc);
    /// for number in 0..100 {
    ///     let mut document = RawDocumentBuf::new(alloc)?;
    ///     document.append("n", RawBson::Int32(number))?;
    ///     shelf.put(document)?;
    /// }
    /// assert_eq!(rt; shelf.len(), 100);
    /// ```
    pub fn len(&self) -> usize
        ensures len { result ≡ length self.now }
        ensures shelf { IsShelf self.now }
    {
        self.documents.len()
    }

    /// Whether there are no documents.
    pub fn is_empty(&self) -> bool
        ensures { IsTrue result ↔ (self.now ≡ []) }
    {
        self.documents.is_empty()
    }

    /// A view of the document with this number, counted from 0 in the order in which they came.
    /// ```
    /// let mut shelf = Shelf::new(alloc);
    /// shelf.put(RawDocumentBuf::new(alloc)?)?;
    /// assert!(rt; shelf.at(0).is_some() && shelf.at(1).is_none());
    /// ```
    pub fn at(&self, index: usize) -> Option<RawDocument<'_>>
        ensures { option_map bytes_of result ≡ slice_get self.now index }
    {
        let bytes = self.documents.get_index(index)?;
        match RawDocument::from_bytes(bytes) {
            Ok(document) => Some(document),
            Err(_) => unreachable!(),
        }
    }
}
