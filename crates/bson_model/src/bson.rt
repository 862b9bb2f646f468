//! Values and documents as trees.
ghost use Rattle.std.specs.Prelude.{◌≡◌, ◌≢◌, ◌↔◌, ◌<◌, ◌+◌, ◌^◌, [], length, All, IsTrue, IsSome, IsOk, IfOk, OnOk};
ghost use Rattle.std.specs.Prelude.{OnErr, IfSome, map, option_copied, option_map, slice_get};
ghost use Rattle.std.specs.Str.{IsUtf8};
ghost use Rattle.std.specs.String.{string_bytes};
ghost use Rattle.bson_model.specs.Pairs.{keep, keys_of, value_at, with_pair, HasDistinctKeys};
ghost use Rattle.std.specs.List.{zip};
ghost use Rattle.bson_model.specs.LeftTrees.{members};
ghost use Rattle.bson_model.specs.Tree.{tree_of, pairs_of, with_trees};

use crate::binaries::Binary;
use crate::drops::drop_values;
use crate::errors::NoMemory;
use crate::numbers::{Decimal128, DoubleBits};
use crate::object_id::{DbPointer, ObjectId};
use crate::pairs::Pairs;
use crate::regexes::Regex;
use crate::times::{DateTime, Timestamp};
use std::alloc::Global;

/// A value of BSON (BSON 1.1, element).
///
/// Not in the contract: a value of any depth is dropped by a loop, which takes no memory. `==` and `Debug` call
/// themselves for each level: a stack of 8 MB is enough for 40,000 levels of `==`, and for 15,000 of `Debug`.
/// ```
/// let value = RawBson::try_from_bson(alloc, Bson::Int32(7))?;
/// assert_eq!(rt; value.into_bson(alloc)?, Bson::Int32(7));
/// ```
#[derive(Debug, PartialEq, Eq)]
#[cycle(tree)]
pub enum Bson {
    /// A 64-bit binary floating point number, by its bits (tag 01).
    Double(DoubleBits),
    /// A text, which may hold a 0 (tag 02).
    String(String),
    /// A document inside a document (tag 03).
    Document(Document),
    /// Values in order (tag 04).
    Array(Vec<Bson>),
    /// Bytes with a subtype (tag 05).
    Binary(Binary),
    /// The undefined value, deprecated (tag 06).
    Undefined,
    /// Twelve bytes that name an object (tag 07).
    ObjectId(ObjectId),
    /// True or false (tag 08).
    Boolean(bool),
    /// Milliseconds since the start of 1970 in UTC (tag 09).
    DateTime(DateTime),
    /// The null value (tag 0A).
    Null,
    /// A pattern and options (tag 0B).
    RegularExpression(Regex),
    /// A pointer to an object of a database, deprecated (tag 0C).
    DbPointer(DbPointer),
    /// Code, without a scope (tag 0D).
    JavaScriptCode(String),
    /// A symbol, deprecated (tag 0E).
    Symbol(String),
    /// Code with the values of its variables, deprecated (tag 0F).
    JavaScriptCodeWithScope(JavaScriptCodeWithScope),
    /// A signed 32-bit number (tag 10).
    Int32(i32),
    /// Seconds and a counter, for internal use of databases (tag 11).
    Timestamp(Timestamp),
    /// A signed 64-bit number (tag 12).
    Int64(i64),
    /// A decimal floating point number of 128 bits, by its bytes (tag 13).
    Decimal128(Decimal128),
    /// The value that is above all others (tag 7F).
    MaxKey,
    /// The value that is below all others (tag FF).
    MinKey,
}

/// Pairs of a key and a value, in order, no key twice (BSON 1.1, document). What the comment of `Bson` says of
/// depth holds here too.
/// ```
/// let mut document = Document::new(alloc);
/// document.put(String::from_str(alloc, "a")?, Bson::Int32(1))?;
/// assert_eq!(rt; document.get("a"), Some(&Bson::Int32(1)));
/// assert_eq!(rt; document.len(), 1);
/// ```
#[derive(Debug, PartialEq, Eq)]
#[cycle(tree)]
pub struct Document {
    pairs: Pairs<Bson>,
}

/// Code with the values of its variables (BSON 1.1, JavaScript code with scope, deprecated).
/// ```
/// let code = JavaScriptCodeWithScope { code: String::from_str(alloc, "f()")?, scope: Document::new(alloc) };
/// assert!(rt; code.scope.is_empty());
/// ```
#[derive(Debug, PartialEq, Eq, Drop)]
#[cycle(tree)]
pub struct JavaScriptCodeWithScope {
    /// The code, UTF-8; it may hold a 0.
    pub code: String,
    /// The variables and their values.
    pub scope: Document,
}

impl Drop for Bson {
    fn drop(self) {
        if let Some(values) = self.into_values() {
            drop_values(values);
        }
    }
}

impl Drop for Document {
    fn drop(self) {
        if let Some(values) = self.into_values() {
            drop_values(values);
        }
    }
}

impl Bson {
    /// The value, or `None` if it has nothing to drop outside itself.
    #[inline(always)]
    pub(crate) fn unless_plain(self) -> Option<Bson>
        ensures { IfSome result (λ value. value ≡ self) }
    {
        match self {
            Bson::Double(_)
            | Bson::Undefined
            | Bson::ObjectId(_)
            | Bson::Boolean(_)
            | Bson::DateTime(_)
            | Bson::Null
            | Bson::Int32(_)
            | Bson::Timestamp(_)
            | Bson::Int64(_)
            | Bson::Decimal128(_)
            | Bson::MaxKey
            | Bson::MinKey => None,
            value => Some(value),
        }
    }

    /// The values directly inside the value, in order; the rest of it is dropped.
    #[inline(always)]
    pub(crate) fn into_values(self) -> Option<Vec<Bson>>
        ensures { IfSome result (λ values. members (tree_of self) ≡ map tree_of values.items) }
    {
        match self {
            Bson::Array(values) => Some(values),
            Bson::Document(document) => document.into_values(),
            Bson::JavaScriptCodeWithScope(code) => {
                let JavaScriptCodeWithScope { code: _, scope } = code;
                scope.into_values()
            }
            Bson::String(_)
            | Bson::Binary(_)
            | Bson::RegularExpression(_)
            | Bson::DbPointer(_)
            | Bson::JavaScriptCode(_)
            | Bson::Symbol(_) => None,
            Bson::Double(_)
            | Bson::Undefined
            | Bson::ObjectId(_)
            | Bson::Boolean(_)
            | Bson::DateTime(_)
            | Bson::Null
            | Bson::Int32(_)
            | Bson::Timestamp(_)
            | Bson::Int64(_)
            | Bson::Decimal128(_)
            | Bson::MaxKey
            | Bson::MinKey => None,
        }
    }
}

impl Document {
    /// The values in order, if the document ever had a pair; the keys are dropped.
    fn into_values(self) -> Option<Vec<Bson>>
        ensures { IfSome result (λ values. values.items ≡ map (λ p. p.1) (pairs_of self)) }
    {
        let Document { pairs } = self;
        pairs.into_values()
    }

    /// A document with no pairs, which keeps `alloc`. Not in the contract: it takes no memory.
    pub fn new(alloc: Global) -> Document
        ensures { pairs_of result ≡ [] }
    {
        Document {
            pairs: Pairs::new(alloc),
        }
    }

    /// The document of these keys and values. A repeated key has its first place and its last value. Keys or values
    /// in excess are left out. The only error is out of memory, never if there are no keys.
    /// ```
    /// let mut values = Vec::new(alloc);
    /// values.push(Bson::Int32(1))?;
    /// let document = Document::from_columns(alloc, &["a"], values)?;
    /// assert_eq!(rt; document.get("a"), Some(&Bson::Int32(1)));
    /// ```
    pub fn from_columns(
        alloc: Global,
        keys: &[&str],
        values: Vec<Bson>,
    ) -> Result<Document, NoMemory>
        ensures pairs { IfOk result (λ document. pairs_of document
            ≡ keep (zip (map (λ key. key.now) keys.now) values.items)) }
        ensures trees { IfOk result (λ document. with_trees (pairs_of document)
            ≡ keep (zip (map (λ key. key.now) keys.now) (map tree_of values.items))) }
        ensures none { OnErr result (keys.now ≢ []) }
    {
        Ok(Document {
            pairs: Pairs::from_columns(alloc, keys, values)?,
        })
    }

    /// How many pairs there are.
    pub fn len(&self) -> usize
        ensures len { result ≡ length (pairs_of self.now) }
        ensures distinct { HasDistinctKeys (pairs_of self.now) }
        ensures texts { All IsUtf8 (keys_of (pairs_of self.now)) }
    {
        self.pairs.len()
    }

    /// Whether there are no pairs.
    pub fn is_empty(&self) -> bool
        ensures { IsTrue result ↔ (pairs_of self.now ≡ []) }
    {
        self.len() == 0
    }

    /// The value of a key.
    pub fn get(&self, key: &str) -> Option<&Bson>
        ensures { option_copied result ≡ value_at key.now (pairs_of self.now) }
    {
        self.pairs.get(key)
    }

    /// The pair at a place, counted from 0.
    pub fn pair_at(&self, index: usize) -> Option<(&str, &Bson)>
        ensures pair { option_map (λ p. (p.0.now, p.1.now)) result
            ≡ slice_get (pairs_of self.now) index }
        ensures below { IfSome result (λ p. index + 1 < 2 ^ 64) }
    {
        self.pairs.pair_at(index)
    }

    /// Puts a pair last, or replaces the value of its key, and returns the old value. It can fail only for a new
    /// key; then it changes nothing and drops the pair.
    /// ```
    /// let mut document = Document::new(alloc);
    /// assert_eq!(rt; document.insert(String::from_str(alloc, "a")?, Bson::Int32(1))?, None);
    /// assert_eq!(rt; document.insert(String::from_str(alloc, "a")?, Bson::Null)?, Some(Bson::Int32(1)));
    /// ```
    pub fn insert(&mut self, key: String, value: Bson) -> Result<Option<Bson>, NoMemory>
        ensures inserted { OnOk result (pairs_of self.new
            ≡ with_pair (string_bytes key) value (pairs_of self.old)) }
        ensures trees { OnOk result (with_trees (pairs_of self.new) ≡
            with_pair (string_bytes key) (tree_of value) (with_trees (pairs_of self.old))) }
        ensures old { IfOk result (λ old. old ≡ value_at (string_bytes key) (pairs_of self.old)) }
        ensures present { IsSome (value_at (string_bytes key) (pairs_of self.old)) → IsOk result }
        ensures err { OnErr result (self.new ≡ self.old) }
    {
        self.pairs.insert(key, value)
    }
    /// Puts a pair last, or replaces the value of its key, as `insert` does; the old value is dropped.
    pub fn put(&mut self, key: String, value: Bson) -> Result<(), NoMemory>
        ensures put { OnOk result (pairs_of self.new
            ≡ with_pair (string_bytes key) value (pairs_of self.old)) }
        ensures trees { OnOk result (with_trees (pairs_of self.new) ≡
            with_pair (string_bytes key) (tree_of value) (with_trees (pairs_of self.old))) }
        ensures present { IsSome (value_at (string_bytes key) (pairs_of self.old)) → IsOk result }
        ensures err { OnErr result (self.new ≡ self.old) }
    {
        self.pairs.put(key, value)
    }
}
