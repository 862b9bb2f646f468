//! The keys and the values of a document, in two lists side by side.
ghost use Rattle.std.specs.Prelude.{◌≡◌, ◌&&◌, ◌<◌, ◌+◌, ◌^◌, false, [], length, nat_eq, All, IsSome, IfSome, IsOk, IfOk, OnOk};
ghost use Rattle.std.specs.Prelude.{OnErr, map, option_copied, option_map, slice_get};
ghost use Rattle.std.specs.Cmp.Lexicographic.{pointwise, lists_per, lists_equiv};
ghost use Rattle.std.specs.Cmp.{on_per, and_per, on_equiv, and_equiv, nat_eq_equiv, partial_equiv_from_equiv};
ghost use Rattle.std.specs.String.{string_bytes};
ghost use Rattle.bson_model.specs.Pairs.{keep, keys_of, value_at, with_pair, HasDistinctKeys};
ghost use Rattle.std.specs.List.{zip};
ghost use Rattle.std.specs.Str.{IsUtf8};
ghost use Rattle.std.specs.Vec.{vec_capacity, vec_len};
ghost use Rattle.bson_model.specs.Keys.{is_among};

use crate::errors::NoMemory;
use crate::keys::Keys;
use std::alloc::Global;
use std::marker::Model;
use std::{fmt, mem};

/// The keys in the order in which they came, no key twice, and the values beside them.
#[derive(Drop)]
pub struct Parts<T> {
    keys: Keys,
    values: Vec<T>,
}

impl<T> Model for Parts<T> {
    ghost use Rattle.std.specs.Prelude.{◌≡◌, ℕ, List, length, map};
    ghost use Rattle.std.specs.List.{zip};
    ghost use Rattle.std.specs.String.{string_bytes};

    ghost Value = { List (List ℕ × T) };

    ghost view = { λ a. zip (map string_bytes a.keys) a.values.items };

    ghost invariant = { λ a. length a.values.items ≡ length a.keys };
}

impl<T> Parts<T> {
    /// No pairs. It takes no memory.
    pub fn new(alloc: Global) -> Parts<T>
        ensures { result ≡ [] }
    {
        Parts {
            keys: Keys::new(alloc),
            values: Vec::new(alloc),
        }
    }

    /// The pairs of these keys and values. If no key is repeated, the keys have exactly the room that they need,
    /// and the values keep their vector.
    pub fn from_columns(alloc: Global, keys: &[&str], values: Vec<T>) -> Result<Parts<T>, NoMemory>
    where
        T: Drop,
        ensures { IfOk result (λ parts. parts ≡ keep (zip (map (λ key. key.now) keys.now) values.items)) }
    {
        if keys.len() != values.len() {
            return Parts::from_repeated(alloc, keys, values);
        }
        let mut distinct = Keys::with_capacity(alloc, keys.len())?;
        for key in keys {
            let (_, is_new) = distinct.insert(String::from_str(alloc, key)?)?;
            if !is_new {
                return Parts::from_repeated(alloc, keys, values);
            }
        }
        Ok(Parts {
            keys: distinct,
            values,
        })
    }

    /// The same, pair by pair.
    #[inline(never)]
    fn from_repeated(alloc: Global, keys: &[&str], values: Vec<T>) -> Result<Parts<T>, NoMemory>
    where
        T: Drop,
        ensures { IfOk result (λ parts. parts ≡ keep (zip (map (λ key. key.now) keys.now) values.items)) }
    {
        let mut parts = Parts::new(alloc);
        let mut left = values.into_iter();
        for key in keys {
            let Some(value) = left.next() else {
                return Ok(parts);
            };
            parts.put(String::from_str(alloc, key)?, value)?;
        }
        Ok(parts)
    }

    /// How many pairs there are.
    pub fn len(&self) -> usize
        ensures len { result ≡ length self.now }
        ensures distinct { HasDistinctKeys self.now }
        ensures texts { All IsUtf8 (keys_of self.now) }
    {
        self.keys.as_slice().len()
    }

    /// The value of a key.
    pub fn get(&self, key: &str) -> Option<&T>
        ensures { option_copied result ≡ value_at key.now self.now }
    {
        let index = self.keys.index_of(key)?;
        self.values.get(index)
    }

    /// The pair at a place, counted from 0.
    #[inline(always)]
    pub fn pair_at(&self, index: usize) -> Option<(&str, &T)>
        ensures pair { option_map (λ p. (p.0.now, p.1.now)) result ≡ slice_get self.now index }
        ensures below { IfSome result (λ p. index + 1 < 2 ^ 64) }
    {
        if index >= self.values.len() {
            return None;
        }
        let Some(key) = self.keys.as_slice().get(index) else {
            unreachable!()
        };
        Some((key.as_str(), &self.values[index]))
    }

    /// Puts a pair last, or replaces the value of its key, and returns the old value. It can fail only for a new
    /// key; then it changes nothing and drops the pair.
    #[inline(always)]
    pub fn insert(&mut self, key: String, value: T) -> Result<Option<T>, NoMemory>
    where
        T: Drop,
        ensures inserted { OnOk result (self.new ≡ with_pair (string_bytes key) value self.old) }
        ensures old { IfOk result (λ old. old ≡ value_at (string_bytes key) self.old) }
        ensures present { IsSome (value_at (string_bytes key) self.old) → IsOk result }
        ensures err { OnErr result (self.new ≡ self.old) }
    {
        make_room(&self.keys, &mut self.values, key.as_str())?;
        let (index, is_new) = self.keys.insert(key)?;
        if is_new {
            self.values.push_reserved(value);
            return Ok(None);
        }
        let old = mem::replace(&mut self.values[index], value);
        Ok(Some(old))
    }

    /// The same, except that the old value is dropped.
    #[inline(never)]
    pub fn put(&mut self, key: String, value: T) -> Result<(), NoMemory>
    where
        T: Drop,
        ensures put { OnOk result (self.new ≡ with_pair (string_bytes key) value self.old) }
        ensures present { IsSome (value_at (string_bytes key) self.old) → IsOk result }
        ensures err { OnErr result (self.new ≡ self.old) }
    {
        self.insert(key, value)?;
        Ok(())
    }

    /// The values in order; the keys are dropped.
    pub fn into_values(self) -> Vec<T>
        ensures { result.items ≡ map (λ p. p.1) self }
    {
        let Parts { keys: _, values } = self;
        values
    }
}

/// Makes room for one more value, unless there is room or the key is there. The key is searched only if there is
/// no room.
fn make_room<T>(keys: &Keys, values: &mut Vec<T>, key: &str) -> Result<(), NoMemory>
    ensures items { values.new.items ≡ values.old.items }
    ensures room { OnOk result (is_among key.now keys.now ≡ false
        → vec_len values.new < vec_capacity values.new) }
    ensures err { OnErr result (is_among key.now keys.now ≡ false) }
{
    let is_full = values.len() == values.capacity();
    if is_full && !keys.contains(key) {
        values.reserve(1)?;
    }
    Ok(())
}

impl<T: fmt::Debug> fmt::Debug for Parts<T> {
    fn fmt<W: fmt::Write>(&self, f: &mut fmt::Formatter<W>) -> fmt::Result {
        let mut map = f.debug_map();
        for (key, value) in self.keys.as_slice().iter().zip(self.values.iter()) {
            map.entry(key, value);
        }
        map.finish()
    }
}

/// Whether the keys are the same in the same order. It is a function of its own so that a comparison takes less
/// stack for each level.
#[inline(never)]
fn have_same_keys(left: &Keys, right: &Keys) -> bool
    ensures { result ≡ pointwise (pointwise nat_eq) (map string_bytes left.now) (map string_bytes right.now) }
{
    left.as_slice() == right.as_slice()
}

impl<T: PartialEq> PartialEq for Parts<T> {
    ghost eq = { pointwise (λ p q. pointwise nat_eq p.0 q.0 && T.eq p.1 q.1) };

    ghost laws = { lists_per (and_per
        (on_per (λ p. p.0) (lists_per (partial_equiv_from_equiv nat_eq_equiv)))
        (on_per (λ p. p.1) T.laws)) };

    fn eq(&self, other: &Parts<T>) -> bool {
        have_same_keys(&self.keys, &other.keys) && self.values.as_slice() == other.values.as_slice()
    }
}

impl<T: Eq> Eq for Parts<T> {
    ghost laws = { lists_equiv (and_equiv
        (on_equiv (λ p. p.0) (lists_equiv nat_eq_equiv))
        (on_equiv (λ p. p.1) T.Eq.laws)) };
}
