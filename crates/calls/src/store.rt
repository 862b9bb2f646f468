//! What lines have named.

use crate::failure::Failure;
use crate::put::{put, put_error};
use crate::shown::Shown;
use raw_bson::{Document, RawArrayBuf, RawBson, RawDocument, RawDocumentBuf};
use raw_shelf::Shelf;
use std::alloc::Global;
use std::collections::BTreeMap;

/// What lines have named, by its kind.
#[derive(Drop)]
pub struct Store {
    pub documents: BTreeMap<String, RawDocumentBuf>,
    pub arrays: BTreeMap<String, RawArrayBuf>,
    pub values: BTreeMap<String, RawBson>,
    pub trees: BTreeMap<String, Document>,
    pub shelves: BTreeMap<String, Shelf>,
}

impl Store {
    /// Nothing has a name.
    pub fn new(alloc: Global) -> Store {
        Store {
            documents: BTreeMap::new(alloc),
            arrays: BTreeMap::new(alloc),
            values: BTreeMap::new(alloc),
            trees: BTreeMap::new(alloc),
            shelves: BTreeMap::new(alloc),
        }
    }

    /// A view of the document of this name.
    pub fn view(&self, name: &str) -> Result<RawDocument<'_>, Failure> {
        Ok(named(&self.documents, name)?.as_ref())
    }
}

/// What has this name.
pub fn named<'a, T>(things: &'a BTreeMap<String, T>, name: &str) -> Result<&'a T, Failure> {
    match things.get(name) {
        Some(thing) => Ok(thing),
        None => Err(Failure::Form),
    }
}

/// What has this name, to change it.
pub fn named_mut<'a, T>(
    things: &'a mut BTreeMap<String, T>,
    name: &str,
) -> Result<&'a mut T, Failure> {
    match things.get_mut(name) {
        Some(thing) => Ok(thing),
        None => Err(Failure::Form),
    }
}

/// Gives a name to what a call returned, and writes `ok`; or the error.
pub fn keep<T: Drop, E: Shown + Drop>(
    alloc: Global,
    things: &mut BTreeMap<String, T>,
    name: &str,
    made: Result<T, E>,
    out: &mut String,
) -> Result<(), Failure> {
    match made {
        Ok(thing) => {
            let _ = things.insert(String::from_str(alloc, name)?, thing)?;
            put(out, ())
        }
        Err(error) => put_error(out, error),
    }
}
