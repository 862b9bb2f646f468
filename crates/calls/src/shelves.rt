//! The calls of shelves.

use crate::failure::Failure;
use crate::put::put;
use crate::store::{Store, named, named_mut};
use crate::words::Words;
use raw_shelf::Shelf;

/// Runs a call of `Shelf` that makes none.
pub fn run(
    store: &mut Store,
    call: &str,
    words: &mut Words<'_, '_>,
    out: &mut String,
) -> Result<(), Failure> {
    let name = words.next()?;
    if call == "put" {
        let document = named(&store.documents, words.next()?)?.clone()?;
        return put(out, named_mut(&mut store.shelves, name)?.put(document));
    }
    of_shelf(named(&store.shelves, name)?, call, words, out)
}

fn of_shelf(
    shelf: &Shelf,
    call: &str,
    words: &mut Words<'_, '_>,
    out: &mut String,
) -> Result<(), Failure> {
    match call {
        "len" => put(out, shelf.len()),
        "is_empty" => put(out, shelf.is_empty()),
        "at" => put(out, shelf.at(words.number()?)),
        _ => Err(Failure::Unknown),
    }
}
