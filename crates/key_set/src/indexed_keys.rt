//! Keys with an index, which finds a repeated key in n log n steps whatever the keys are.
#![tactic(auto)]

ghost use Rattle.std.specs.Prelude.{◌≡◌, [], IfOk, IfSome, IfNone, OnErr};
ghost use Rattle.std.specs.BTreeMap.{IsUnchanged};
ghost use Rattle.key_set.specs.IndexedKeys.{Finds, GivesPlace, HasPlaces, InsertsKey};
ghost use Rattle.key_set.specs.Fingerprints.{HaveFingerprints, hash_of};
ghost use Rattle.key_set.specs.References.{texts};

use crate::fingerprints::{Fingerprints, hash_of};
use crate::listed::{list, place_of};
use std::alloc::{AllocError, Global};
use std::collections::BTreeMap;
use std::marker::Model;

/// From this many keys on, the list has room for all that can be hashed, since moving it is expensive.
const MANY: usize = 16384;

/// How a key is found among others.
#[derive(Drop)]
pub(crate) enum Finder<'a> {
    /// by fingerprints, and one by one if the fingerprint of the key is found
    Hashed(Fingerprints),
    /// by hash and then by text, each key with its place. It is used if fingerprints weren't enough: someone
    /// chose the keys for their hashes, or repeats them often.
    Ordered(BTreeMap<(u64, &'a str), usize>),
}

/// Keys in the order in which they were inserted. No two of them are equal.
#[derive(Drop)]
pub struct IndexedKeys<'a> {
    keys: Vec<&'a str>,
    finder: Finder<'a>,
}

impl<'a> Model for IndexedKeys<'a> {
    ghost use Rattle.std.specs.Prelude.{ℕ, List};
    ghost use Rattle.key_set.specs.References.{texts};
    ghost use Rattle.key_set.specs.IndexedKeys.{Finds};

    ghost Value = { List (List ℕ) };

    ghost view = { λ a. texts a.keys.items };

    ghost invariant = { λ a. Finds a.finder (texts a.keys.items) };
}

/// The place of `key`. If it has none, it gets the next one and is added to the map.
fn place_in_order<'a>(
    places: &mut BTreeMap<(u64, &'a str), usize>,
    hash: u64,
    key: &'a str,
    next: usize,
) -> Result<usize, AllocError>
    ensures gives { IfOk result
        (λ place. GivesPlace places.old hash key.entry next place places.new) }
    ensures same { OnErr result (IsUnchanged places.old places.new) }
{
    let Ok(found) = places.insert((hash, key), next) else {
        return Err(AllocError);
    };
    let Some(place) = found else {
        return Ok(next);
    };
    let Ok(_) = places.insert((hash, key), place) else {
        unreachable!()
    };
    Ok(place)
}

/// The places of these keys, as a map.
fn ordered_keys<'a>(
    alloc: Global,
    keys: &[&'a str],
) -> Result<BTreeMap<(u64, &'a str), usize>, AllocError>
    ensures ordered { IfOk result (λ places. HasPlaces places (texts keys.now)) }
{
    let mut places = BTreeMap::new(alloc);
    for (place, key) in keys.iter().enumerate() {
        place_in_order(&mut places, hash_of(*key), *key, place)?;
    }
    Ok(places)
}

/// Puts a key last and into the map, unless it is there. Returns its place if it was there.
fn insert_ordered<'a>(
    keys: &mut Vec<&'a str>,
    places: &mut BTreeMap<(u64, &'a str), usize>,
    key: &'a str,
) -> Result<Option<usize>, AllocError>
    requires { HasPlaces places.old (texts keys.old.items) }
    ensures inserts { IfOk result
        (λ place. InsertsKey (texts keys.old.items) key.now place (texts keys.new.items)) }
    ensures ordered { HasPlaces places.new (texts keys.new.items) }
    ensures same { OnErr result (keys.new.items ≡ keys.old.items) }
{
    if keys.reserve(1).is_err() {
        return Err(AllocError);
    }
    let next = keys.len();
    let place = place_in_order(places, hash_of(key), key, next)?;
    if place == next {
        keys.push_reserved(key);
        return Ok(None);
    }
    Ok(Some(place))
}

/// Puts a key last, unless a search through all keys finds it. Returns its place if it was there.
#[inline(never)]
fn insert_colliding<'a>(keys: &mut Vec<&'a str>, key: &'a str) -> Result<Option<usize>, AllocError>
    ensures inserts { IfOk result
        (λ place. InsertsKey (texts keys.old.items) key.now place (texts keys.new.items)) }
    ensures same { OnErr result (keys.new.items ≡ keys.old.items) }
{
    if let Some(place) = place_of(keys, key) {
        return Ok(Some(place));
    }
    list(keys, key)?;
    Ok(None)
}

/// The fingerprints of these keys with `key` inserted, unless it is there, and its place if it was. `None` if
/// not all fit or too many keys collided; then nothing is inserted.
fn insert_wider<'a>(
    alloc: Global,
    keys: &mut Vec<&'a str>,
    key: &'a str,
) -> Result<Option<(Fingerprints, Option<usize>)>, AllocError>
    ensures inserts { IfOk result
        (λ wider. IfSome wider
        (λ w. InsertsKey (texts keys.old.items) key.now w.1 (texts keys.new.items) × HaveFingerprints w.0 (texts keys.new.items))) }
    ensures none { IfOk result (λ wider. IfNone wider (keys.new.items ≡ keys.old.items)) }
    ensures same { OnErr result (keys.new.items ≡ keys.old.items) }
{
    let Some(mut fingerprints) = Fingerprints::of(alloc, keys)? else {
        return Ok(None);
    };
    if keys.len() >= MANY {
        keys.reserve(fingerprints.room())?;
    }
    if fingerprints.put(key) {
        list(keys, key)?;
        return Ok(Some((fingerprints, None)));
    }
    if !fingerprints.collide(key) {
        return Ok(None);
    }
    let place = insert_colliding(keys, key)?;
    Ok(Some((fingerprints, place)))
}

/// Inserts a key that its fingerprint didn't tell from the others. If the fingerprint is found, all keys are
/// searched, unless too many collided. If there was no room, there is more room for fingerprints. Otherwise the
/// keys get a map.
#[inline(never)]
fn insert_anew<'a>(
    alloc: Global,
    keys: &mut Vec<&'a str>,
    finder: &mut Finder<'a>,
    key: &'a str,
) -> Result<Option<usize>, AllocError>
    requires { Finds finder.old (texts keys.old.items) }
    ensures inserts { IfOk result
        (λ place. InsertsKey (texts keys.old.items) key.now place (texts keys.new.items)) }
    ensures finds { Finds finder.new (texts keys.new.items) }
{
    let is_full = match finder {
        Finder::Hashed(fingerprints) => {
            if fingerprints.collide(key) {
                let place = insert_colliding(keys, key)?;
                return Ok(place);
            }
            fingerprints.is_full()
        }
        Finder::Ordered(places) => return insert_ordered(keys, places, key),
    };
    if is_full {
        if let Some((fingerprints, place)) = insert_wider(alloc, keys, key)? {
            *finder = Finder::Hashed(fingerprints);
            return Ok(place);
        }
    }
    let mut places = ordered_keys(alloc, keys)?;
    let place = insert_ordered(keys, &mut places, key)?;
    *finder = Finder::Ordered(places);
    Ok(place)
}

/// Inserts a key, unless it is there. Returns its place if it was there.
#[inline(always)]
fn insert_key<'a>(
    alloc: Global,
    keys: &mut Vec<&'a str>,
    finder: &mut Finder<'a>,
    key: &'a str,
) -> Result<Option<usize>, AllocError>
    requires { Finds finder.old (texts keys.old.items) }
    ensures inserts { IfOk result
        (λ place. InsertsKey (texts keys.old.items) key.now place (texts keys.new.items)) }
    ensures finds { Finds finder.new (texts keys.new.items) }
{
    match finder {
        Finder::Hashed(fingerprints) => {
            if fingerprints.put(key) {
                list(keys, key)?;
                return Ok(None);
            }
        }
        Finder::Ordered(places) => return insert_ordered(keys, places, key),
    }
    insert_anew(alloc, keys, finder, key)
}

impl<'a> IndexedKeys<'a> {
    /// No keys, with room for more than `keys` of them.
    pub(crate) fn for_keys(alloc: Global, keys: usize) -> Result<IndexedKeys<'a>, AllocError>
        ensures empty { IfOk result (λ set. set ≡ []) }
    {
        Ok(IndexedKeys {
            keys: Vec::new(alloc),
            finder: Finder::Hashed(Fingerprints::for_keys(alloc, keys)?),
        })
    }

    /// Inserts a key, unless it is there. Returns its place if it was there.
    #[inline(always)]
    pub(crate) fn insert(
        &mut self,
        alloc: Global,
        key: &'a str,
    ) -> Result<Option<usize>, AllocError>
        ensures inserts { IfOk result (λ place. InsertsKey self.old key.now place self.new) }
    {
        insert_key(alloc, &mut self.keys, &mut self.finder, key)
    }
}
