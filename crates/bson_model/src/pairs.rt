//! The pairs of a document, in a box that an empty document lacks.
ghost use Rattle.std.specs.Prelude.{◌≡◌, ◌≢◌, ◌&&◌, ◌<◌, ◌+◌, ◌^◌, [], ◌∷◌, length, nat_eq, All, IsSome, IsOk, IfOk, OnOk};
ghost use Rattle.std.specs.Prelude.{OnErr, IfSome, map, option_copied, option_map, slice_get};
ghost use Rattle.std.specs.Cmp.Lexicographic.{pointwise, lists_per, lists_equiv};
ghost use Rattle.std.specs.Cmp.{on_per, and_per, on_equiv, and_equiv, nat_eq_equiv, partial_equiv_from_equiv};
ghost use Rattle.std.specs.String.{string_bytes};
ghost use Rattle.bson_model.specs.Pairs.{keep, keys_of, value_at, with_pair, HasDistinctKeys};
ghost use Rattle.std.specs.List.{zip};
ghost use Rattle.std.specs.Str.{IsUtf8};

use crate::errors::NoMemory;
use crate::parts::Parts;
use std::alloc::Global;
use std::fmt;
use std::marker::Model;

/// Pairs of a key and a value in the order in which the keys came, no key twice. They are in a box, which is made
/// when the first pair comes.
#[derive(Drop)]
pub struct Pairs<T> {
    alloc: Global,
    parts: Option<Box<Parts<T>>>,
}

impl<T> Model for Pairs<T> {
    ghost use Rattle.std.specs.Prelude.{ℕ, List, []};
    ghost use Rattle.std.specs.Option.{option_map_or};

    ghost Value = { List (List ℕ × T) };

    ghost view = { λ a. option_map_or (λ b. b.value) a.parts [] };
}

impl<T> Pairs<T> {
    /// No pairs. It takes no memory.
    pub fn new(alloc: Global) -> Pairs<T>
        ensures { result ≡ [] }
    {
        Pairs { alloc, parts: None }
    }

    /// The pairs of these keys and values. A repeated key has its first place and its last value.
    pub fn from_columns(alloc: Global, keys: &[&str], values: Vec<T>) -> Result<Pairs<T>, NoMemory>
    where
        T: Drop,
        ensures pairs { IfOk result (λ pairs. pairs ≡ keep (zip (map (λ key. key.now) keys.now) values.items)) }
        ensures none { OnErr result (keys.now ≢ []) }
    {
        if keys.is_empty() {
            return Ok(Pairs::new(alloc));
        }
        let parts = Box::new(alloc, Parts::from_columns(alloc, keys, values)?)?;
        Ok(Pairs {
            alloc,
            parts: Some(parts),
        })
    }

    /// How many pairs there are.
    pub fn len(&self) -> usize
        ensures len { result ≡ length self.now }
        ensures distinct { HasDistinctKeys self.now }
        ensures texts { All IsUtf8 (keys_of self.now) }
    {
        match &self.parts {
            Some(parts) => parts.len(),
            None => 0,
        }
    }

    /// The value of a key.
    pub fn get(&self, key: &str) -> Option<&T>
        ensures { option_copied result ≡ value_at key.now self.now }
    {
        match &self.parts {
            Some(parts) => parts.get(key),
            None => None,
        }
    }

    /// The pair at a place, counted from 0.
    pub fn pair_at(&self, index: usize) -> Option<(&str, &T)>
        ensures pair { option_map (λ p. (p.0.now, p.1.now)) result ≡ slice_get self.now index }
        ensures below { IfSome result (λ p. index + 1 < 2 ^ 64) }
    {
        match &self.parts {
            Some(parts) => parts.pair_at(index),
            None => None,
        }
    }

    /// Puts a pair last, or replaces the value of its key, and returns the old value. It can fail only for a new
    /// key; then it changes nothing and drops the pair.
    #[inline(never)]
    pub fn insert(&mut self, key: String, value: T) -> Result<Option<T>, NoMemory>
    where
        T: Drop,
        ensures inserted { OnOk result (self.new ≡ with_pair (string_bytes key) value self.old) }
        ensures old { IfOk result (λ old. old ≡ value_at (string_bytes key) self.old) }
        ensures present { IsSome (value_at (string_bytes key) self.old) → IsOk result }
        ensures err { OnErr result (self.new ≡ self.old) }
    {
        match &mut self.parts {
            Some(parts) => parts.insert(key, value),
            None => {
                self.parts = Some(of_first(self.alloc, key, value)?);
                Ok(None)
            }
        }
    }

    /// The same, except that the old value is dropped.
    pub fn put(&mut self, key: String, value: T) -> Result<(), NoMemory>
    where
        T: Drop,
        ensures put { OnOk result (self.new ≡ with_pair (string_bytes key) value self.old) }
        ensures present { IsSome (value_at (string_bytes key) self.old) → IsOk result }
        ensures err { OnErr result (self.new ≡ self.old) }
    {
        match &mut self.parts {
            Some(parts) => parts.put(key, value),
            None => {
                self.parts = Some(of_first(self.alloc, key, value)?);
                Ok(())
            }
        }
    }

    /// The values in order, if there was ever a pair; the keys are dropped.
    pub fn into_values(self) -> Option<Vec<T>>
        ensures { IfSome result (λ values. values.items ≡ map (λ p. p.1) self) }
    {
        let Pairs { alloc: _, parts } = self;
        match parts {
            Some(parts) => Some(Box::into_inner(parts).into_values()),
            None => None,
        }
    }
}

/// The parts of one pair.
fn of_first<T: Drop>(alloc: Global, key: String, value: T) -> Result<Box<Parts<T>>, NoMemory>
    ensures { IfOk result (λ parts. parts.value ≡ (string_bytes key, value) ∷ []) }
{
    let mut parts = Box::new(alloc, Parts::new(alloc))?;
    parts.put(key, value)?;
    Ok(parts)
}

impl<T: fmt::Debug> fmt::Debug for Pairs<T> {
    fn fmt<W: fmt::Write>(&self, f: &mut fmt::Formatter<W>) -> fmt::Result {
        match &self.parts {
            Some(parts) => parts.fmt(f),
            None => f.debug_map().finish(),
        }
    }
}

impl<T: PartialEq> PartialEq for Pairs<T> {
    ghost eq = { pointwise (λ p q. pointwise nat_eq p.0 q.0 && T.eq p.1 q.1) };

    ghost laws = { lists_per (and_per
        (on_per (λ p. p.0) (lists_per (partial_equiv_from_equiv nat_eq_equiv)))
        (on_per (λ p. p.1) T.laws)) };

    fn eq(&self, other: &Pairs<T>) -> bool {
        match (&self.parts, &other.parts) {
            (Some(parts), Some(others)) => parts == others,
            (Some(parts), None) | (None, Some(parts)) => parts.len() == 0,
            (None, None) => true,
        }
    }
}

impl<T: Eq> Eq for Pairs<T> {
    ghost laws = { lists_equiv (and_equiv
        (on_equiv (λ p. p.0) (lists_equiv nat_eq_equiv))
        (on_equiv (λ p. p.1) T.Eq.laws)) };
}
