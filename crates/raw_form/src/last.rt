//! Where the last element of each key begins, in a document with repeated keys.
#![tactic(auto)]

ghost use Rattle.std.specs.Prelude.{◌≡◌, ◌<◌, ℕ, List, drop, length, IsTrue, IfOk, IfErr, IfSome, OnOk};
ghost use Rattle.std.specs.List.{IsDistinct};
ghost use Rattle.std.specs.Option.{option_map};
ghost use Rattle.std.specs.Str.{bytes_eq};
ghost use Rattle.bson_model.specs.Pairs.{keep, keys_of};
ghost use Rattle.bson_model.specs.Tree.{Entries, Tree};
ghost use Rattle.raw_form.specs.Staying.{AreFramesAt, HasLastPlaces, IsLeftAt, TakesMember, put_at};
ghost use Rattle.raw_tree.specs.Reading.{ReadsAs, ReadsRest};
ghost use Rattle.raw_view.specs.Document.{bytes_of};
ghost use Rattle.raw_view.specs.Errors.{IsOutOfMemory};

use key_set::KeySet;
use raw_tree::{behind, element_at, next_element};
use raw_view::{Elements, RawDocument, RawElement, Result};
use std::alloc::Global;

/// A document with repeated keys, and where the last element of each key begins, in the order in which the keys
/// first come. The first `passed` of them were passed. What begins before an offset is canonical.
#[derive(Drop)]
pub(crate) struct LastPlaces<'a> {
    pub(crate) document: RawDocument<'a>,
    pub(crate) places: Vec<u32>,
    pub(crate) passed: usize,
    pub(crate) known: usize,
}

/// Puts `place` in the place of the key, or last if the key has none. The only error is out of memory.
fn put_place(places: &mut Vec<u32>, known: Option<usize>, place: u32) -> Result<()>
    requires { IfSome known (λ n. n < length places.old.items) }
    ensures put { OnOk result (places.new.items ≡ put_at known place places.old.items) }
    ensures err { IfErr result IsOutOfMemory }
{
    let Some(number) = known else {
        places.push(place)?;
        return Ok(());
    };
    places[number] = place;
    Ok(())
}

/// Whether no key is repeated in a document whose elements can all be read. The list is emptied first. The only error is
/// out of memory.
#[tactic(auto, using(crate::proofs::last::Places::left_more))]
fn are_keys_distinct<'a>(
    alloc: Global,
    document: RawDocument<'a>,
    listed: &mut Vec<&'a str>,
) -> Result<bool>
    ensures distinct { (pairs : List (List ℕ × Tree))
        → ReadsRest ReadsAs (drop 4 (bytes_of document.entry)) pairs
        → IfOk result (λ distinct. IsTrue distinct → IsDistinct bytes_eq (keys_of pairs)) }
    ensures err { IfErr result IsOutOfMemory }
{
    listed.truncate(0);
    let mut keys = KeySet::behind(listed);
    let mut elements = Elements::new(document);
    'elements: loop {
        let Some(element) = next_element(&mut elements) else {
            return Ok(true);
        };
        if keys.add(alloc, listed, element.key())?.is_some() {
            return Ok(false);
        }
    }
}

/// The last place of each key of a document whose elements can all be read. The list is emptied first. The only error is
/// out of memory.
#[tactic(auto, using(crate::proofs::last::Places::left_more))]
fn list_places<'a>(
    alloc: Global,
    document: RawDocument<'a>,
    listed: &mut Vec<&'a str>,
) -> Result<Vec<u32>>
    ensures places { (pairs : List (List ℕ × Tree))
        → ReadsRest ReadsAs (drop 4 (bytes_of document.entry)) pairs
        → IfOk result (λ places. AreFramesAt (bytes_of document.entry) places.items (keep pairs)) }
    ensures err { IfErr result IsOutOfMemory }
{
    listed.truncate(0);
    let mut keys = KeySet::behind(listed);
    let mut places = Vec::new(alloc);
    let mut elements = Elements::new(document);
    let mut offset = 4;
    'elements: loop {
        let Some(element) = next_element(&mut elements) else {
            return Ok(places);
        };
        let known = keys.add(alloc, listed, element.key())?;
        put_place(&mut places, known, offset as u32)?;
        offset = behind(offset, element);
    }
}

/// The last place of each key of a document whose elements can all be read; `None` if no key is repeated. That is
/// tested unless a key is known to be repeated. The list is emptied first. The only error is out of memory.
pub(crate) fn places_of<'a>(
    alloc: Global,
    document: RawDocument<'a>,
    listed: &mut Vec<&'a str>,
    repeats: bool,
) -> Result<Option<Vec<u32>>>
    ensures places { (pairs : List (List ℕ × Tree))
        → ReadsRest ReadsAs (drop 4 (bytes_of document.entry)) pairs
        → IfOk result
        (λ places. HasLastPlaces (option_map (λ v. v.items) places) (bytes_of document.entry) pairs) }
    ensures err { IfErr result IsOutOfMemory }
{
    if !repeats && are_keys_distinct(alloc, document, listed)? {
        return Ok(None);
    }
    let places = list_places(alloc, document, listed)?;
    Ok(Some(places))
}

impl<'a> LastPlaces<'a> {
    /// The last element of the next key, and whether it is known to be canonical.
    pub(crate) fn next(&mut self) -> Option<(RawElement<'a>, bool)>
        requires { (ms : Entries) × IsLeftAt self.old ms }
        ensures { (ms : Entries)
            → IsLeftAt self.old ms
            → TakesMember ms result self.new }
    {
        let place = *self.places.get(self.passed)? as usize;
        self.passed += 1;
        Some((element_at(self.document, place), place < self.known))
    }
}
