//! The keys of a document that were met so far.
#![tactic(auto)]

ghost use Rattle.std.specs.Prelude.{◌≡◌, ℕ, List, [], IsTrue, IfOk};
ghost use Rattle.std.specs.List.{IsDistinct};
ghost use Rattle.std.specs.Str.{bytes_eq};
ghost use Rattle.key_set.specs.References.{texts};
ghost use Rattle.key_set.specs.KeySets.{AddsKey, AreKeys, HasKeys, HasListed, IsBehindLast, LeavesKeys, MovesKeys};

use crate::filter::{filter_bit, filter_of, place_among, with_bit};
use crate::indexed_keys::IndexedKeys;
use crate::listed::list;
use std::alloc::{AllocError, Global};

/// Up to this many keys of a document are searched one by one. More have an index.
const MOST_LISTED: usize = 24;

/// The keys of a document's elements so far, in the order in which they first came. No two of them are equal.
/// Nested levels share a list: the keys of a level are after those of the levels around it.
#[derive(Drop)]
pub enum KeySet<'a> {
    /// from this place of the list on; each key is after the one before it in the order of `is_behind`
    Ascending(usize),
    /// from this place of the list on, with their filter
    Listed(usize, u64),
    /// with an index, outside the list
    Indexed(Box<IndexedKeys<'a>>),
}

/// Whether `key` is longer than the last of `keys`, or as long and greater. If each of `keys` is so to the
/// one before it, `key` is none of them.
#[inline(always)]
fn is_behind(keys: &[&str], key: &str) -> bool
    ensures { IsTrue result → IsBehindLast (texts keys.now) key.now }
{
    match keys.last() {
        Some(last) => last.len() < key.len() || last.len() == key.len() && *last < key,
        None => true,
    }
}

/// These keys with an index, and room for as many again. No two of them are equal.
fn indexed<'a>(alloc: Global, keys: &[&'a str]) -> Result<Box<IndexedKeys<'a>>, AllocError>
    requires { IsDistinct bytes_eq (texts keys.now) }
    ensures keys { IfOk result (λ set. set.value ≡ texts keys.now) }
{
    let mut set = IndexedKeys::for_keys(alloc, keys.len())?;
    for key in keys {
        set.insert(alloc, *key)?;
    }
    match Box::new(alloc, set) {
        Ok(set) => Ok(set),
        Err(_) => Err(AllocError),
    }
}

impl<'a> KeySet<'a> {
    /// No keys, after the keys in the list.
    pub fn behind(listed: &[&'a str]) -> KeySet<'a>
        ensures { HasKeys result listed.now (texts listed.now) [] }
    {
        KeySet::Ascending(listed.len())
    }

    /// Adds `key`, unless it is there. Returns its place among the keys if it was there.
    #[inline(always)]
    pub fn add(
        &mut self,
        alloc: Global,
        listed: &mut Vec<&'a str>,
        key: &'a str,
    ) -> Result<Option<usize>, AllocError>
        requires { AreKeys self.old listed.old.items }
        ensures adds { IfOk result
            (AddsKey self.old listed.old.items key.now self.new listed.new.items) }
    {
        match self {
            KeySet::Ascending(first) => {
                let first = *first;
                if is_behind(&listed[first..], key) {
                    list(listed, key)?;
                    return Ok(None);
                }
                let filter = filter_of(&listed[first..]);
                *self = KeySet::Listed(first, filter);
                self.add_listed(alloc, listed, first, filter, key)
            }
            KeySet::Listed(first, filter) => {
                let first = *first;
                let filter = *filter;
                // keys that no longer ascend
                if listed.len() - first > MOST_LISTED {
                    return self.add_indexed(alloc, listed, first, key);
                }
                self.add_listed(alloc, listed, first, filter, key)
            }
            KeySet::Indexed(set) => set.insert(alloc, key),
        }
    }

    /// Adds `key` to those from this place of the list on, which have this filter.
    fn add_listed(
        &mut self,
        alloc: Global,
        listed: &mut Vec<&'a str>,
        first: usize,
        filter: u64,
        key: &'a str,
    ) -> Result<Option<usize>, AllocError>
        requires is { self.old ≡ KeySet.Listed first filter }
        requires are { AreKeys (KeySet.Listed first filter) listed.old.items }
        ensures adds { IfOk result
            (AddsKey (KeySet.Listed first filter) listed.old.items key.now self.new listed.new.items) }
    {
        let bit = filter_bit(key);
        let own = &listed[first..];
        if let Some(place) = place_among(own, filter, bit, key) {
            return Ok(Some(place));
        }
        if own.len() < MOST_LISTED {
            list(listed, key)?;
            *self = KeySet::Listed(first, with_bit(filter, bit));
            return Ok(None);
        }
        self.add_indexed(alloc, listed, first, key)
    }

    /// Moves the keys from this place of the list on to an index, and adds a key.
    fn add_indexed(
        &mut self,
        alloc: Global,
        listed: &mut Vec<&'a str>,
        first: usize,
        key: &'a str,
    ) -> Result<Option<usize>, AllocError>
        requires { (below : List (List ℕ)) × (own : List (List ℕ)) × HasListed first listed.old.items below own }
        ensures moves { IfOk result
            (MovesKeys first listed.old.items key.now self.new listed.new.items) }
    {
        let mut set = indexed(alloc, &listed[first..])?;
        let place = set.insert(alloc, key)?;
        listed.truncate(first);
        *self = KeySet::Indexed(set);
        Ok(place)
    }

    /// Removes the keys of this level from the list. The level is the innermost one.
    pub fn leave(&self, listed: &mut Vec<&'a str>)
        ensures { LeavesKeys self.now listed.old.items listed.new.items }
    {
        if let KeySet::Ascending(first) | KeySet::Listed(first, _) = self {
            listed.truncate(*first);
        }
    }
}
