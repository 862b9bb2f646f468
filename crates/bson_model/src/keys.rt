//! The keys of a document.

ghost use Rattle.std.specs.Prelude.{◌≡◌, ◌≤◌, [], false, not, length, position, IfOk, OnOk, OnErr};
ghost use Rattle.std.specs.List.{position_or_len};
ghost use Rattle.std.specs.String.{string_bytes};
ghost use Rattle.indexmap.specs.IndexSet.{spare};
ghost use Rattle.bson_model.specs.Keys.{has_bytes, is_among, with_text, AreDistinct};

use crate::errors::NoMemory;
use indexmap::IndexSet;
use std::alloc::Global;
use std::marker::Model;
use std::mem;

/// Up to this many texts are searched one by one. More are kept in a hashed set.
const FEW: usize = 16;

/// Texts in the order in which they came.
#[derive(Drop)]
pub(crate) enum Held {
    Few(Vec<String>),
    Many(IndexSet<String>),
}

/// Texts in the order in which they came, no text twice.
#[derive(Drop)]
pub(crate) struct Keys {
    held: Held,
}

impl Model for Keys {
    ghost use Rattle.std.specs.Prelude.{List, String};
    ghost use Rattle.std.specs.declared.alloc.Global.{Global};
    ghost use Rattle.bson_model.specs.Keys.{texts_of, AreDistinct};

    ghost Value = { List (String Global) };

    ghost view = { λ a. texts_of a.held };

    ghost invariant = { λ a. AreDistinct (texts_of a.held) };
}

impl Keys {
    /// No texts. It takes no memory.
    pub(crate) fn new(alloc: Global) -> Keys
        ensures { result ≡ [] }
    {
        Keys {
            held: Held::Few(Vec::new(alloc)),
        }
    }

    /// No texts, with room for `count` of them.
    pub(crate) fn with_capacity(alloc: Global, count: usize) -> Result<Keys, NoMemory>
        ensures { IfOk result (λ keys. keys ≡ []) }
    {
        if count <= FEW {
            let texts = Vec::with_capacity(alloc, count)?;
            return Ok(Keys {
                held: Held::Few(texts),
            });
        }
        let set = IndexSet::with_capacity(alloc, count)?;
        Ok(Keys {
            held: Held::Many(set),
        })
    }

    /// The texts in order.
    pub(crate) fn as_slice(&self) -> &[String]
        ensures texts { result.now ≡ self.now }
        ensures distinct { AreDistinct self.now }
    {
        match &self.held {
            Held::Few(texts) => texts.as_slice(),
            Held::Many(set) => set.as_slice(),
        }
    }

    /// The place of a text, counted from 0.
    pub(crate) fn index_of(&self, key: &str) -> Option<usize>
        ensures { result ≡ position (has_bytes key.now) self.now }
    {
        match &self.held {
            Held::Few(texts) => index_among(texts, key),
            Held::Many(set) => set.get_index_of(key),
        }
    }

    /// Whether a text is there.
    pub(crate) fn contains(&self, key: &str) -> bool
        ensures { result ≡ is_among key.now self.now }
    {
        self.index_of(key).is_some()
    }

    /// Puts a text last, unless it is there, and returns its place and whether it is new. It can fail only for a
    /// new text; then it changes nothing.
    #[inline(always)]
    pub(crate) fn insert(&mut self, key: String) -> Result<(usize, bool), NoMemory>
        ensures index { IfOk result (λ r. r.0 ≡ position_or_len (has_bytes (string_bytes key)) self.old) }
        ensures is_new { IfOk result (λ r. r.1 ≡ not (is_among (string_bytes key) self.old)) }
        ensures keys { OnOk result (self.new ≡ with_text key self.old) }
        ensures absent { OnErr result (is_among (string_bytes key) self.old ≡ false) }
        ensures err { OnErr result (self.new ≡ self.old) }
    {
        self.hash_if_full(key.as_str())?;
        match &mut self.held {
            Held::Few(texts) => insert_among(texts, key),
            Held::Many(set) => Ok(set.insert_full(key)?),
        }
    }

    /// Moves the texts into a set if there are `FEW` of them and `key` would be one more.
    #[inline(always)]
    fn hash_if_full(&mut self, key: &str) -> Result<(), NoMemory>
        ensures same { self.new ≡ self.old }
        ensures absent { OnErr result (is_among key.now self.old ≡ false) }
    {
        let Held::Few(texts) = &mut self.held else {
            return Ok(());
        };
        if texts.len() != FEW || index_among(texts, key).is_some() {
            return Ok(());
        }
        let set = IndexSet::with_capacity(*texts.allocator(), 2 * FEW)?;
        let held = mem::replace(texts, Vec::new(*texts.allocator()));
        self.held = Held::Many(hashed(set, held));
        Ok(())
    }
}

/// The place of a text among others.
fn index_among(texts: &[String], key: &str) -> Option<usize>
    ensures { result ≡ position (has_bytes key.now) texts.now }
{
    for index in 0..texts.len() {
        if key == texts[index].as_str() {
            return Some(index);
        }
    }
    None
}

/// Puts a text last, unless it is there, and returns its place and whether it is new.
fn insert_among(texts: &mut Vec<String>, key: String) -> Result<(usize, bool), NoMemory>
    ensures index { IfOk result (λ r. r.0 ≡ position_or_len (has_bytes (string_bytes key)) texts.old.items) }
    ensures is_new { IfOk result (λ r. r.1 ≡ not (is_among (string_bytes key) texts.old.items)) }
    ensures keys { OnOk result (texts.new.items ≡ with_text key texts.old.items) }
    ensures distinct { AreDistinct texts.old.items → AreDistinct texts.new.items }
    ensures absent { OnErr result (is_among (string_bytes key) texts.old.items ≡ false) }
    ensures err { OnErr result (texts.new.items ≡ texts.old.items) }
{
    if let Some(index) = index_among(texts, key.as_str()) {
        return Ok((index, false));
    }
    let index = texts.len();
    texts.push(key)?;
    Ok((index, true))
}

/// The set of these texts. It has room for them.
#[inline(never)]
fn hashed(mut set: IndexSet<String>, texts: Vec<String>) -> IndexSet<String>
    requires empty { set.keys ≡ [] }
    requires room { length texts.items ≤ spare set }
    requires distinct { AreDistinct texts.items }
    ensures { result.keys ≡ texts.items }
{
    for text in texts {
        let Ok(_) = set.insert(text) else {
            unreachable!()
        };
    }
    set
}
