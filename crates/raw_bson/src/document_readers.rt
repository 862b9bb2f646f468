//! The readers of a document buffer, which are those of its view.

ghost use Rattle.std.specs.Prelude.{◌≡◌, ◌↔◌, ℕ, List, [], Option, Result, Some, IsTrue, drop, length};

use crate::document_buf::RawDocumentBuf;
use bson_model::{DateTime, DoubleBits, ObjectId, Timestamp};
use raw_view::{
    Iter, RawArray, RawBinaryRef, RawBsonRef, RawDocument, RawIter, RawRegexRef, Result,
    ValueAccessResult,
};

impl RawDocumentBuf {
    ghost use denote.Ref.{Bor};
    ghost use Rattle.std.specs.Iterator.{Drains};
    ghost use Rattle.raw_view.specs.Errors.Access.{GetsByKey};
    ghost use Rattle.raw_view.specs.Errors.Answers.{StepsItems, TellsEach, TellsFound, TellsItem, TellsKey};
    ghost use Rattle.raw_view.specs.Frame.ElementSteps.{StepsElement, ListsWalk};
    ghost use Rattle.raw_view.specs.Frame.{Frame, End};
    ghost use Rattle.raw_view.specs.Meaning.Item.{Item, AreItems};
    ghost use Rattle.raw_view.specs.LookUp.{FindsKey, KeyAnswer, LooksUp};
    ghost use Rattle.raw_view.specs.Meaning.{Meaning};
    ghost use Rattle.raw_view.specs.OneReading.{IsTheWalk};
    ghost use Rattle.raw_view.specs.Meaning.Typed as typed;
    ghost use Rattle.raw_view.specs.declared.bson_ref.RawBsonRef.{RawBsonRef};
    ghost use Rattle.raw_view.specs.declared.element.RawElement.{RawElement};
    ghost use Rattle.raw_view.specs.declared.element_type.ElementType.TheVariants as variants;
    ghost use Rattle.raw_view.specs.declared.error.Error.{Error};

    /// Whether iteration yields no item, which holds if and only if the document has five bytes.
    pub fn is_empty(&self) -> bool
        ensures five { IsTrue result ↔ (length self.now ≡ 5) }
        ensures no_item { IsTrue result ↔ AreItems self.now [] }
    {
        self.as_ref().is_empty()
    }

    /// The elements in order, then the fault at which they stop, if there is one. No value is decoded, and only
    /// the key of that fault is copied. There are at most (n - 4) / 2 + 1 items for n bytes.
    pub fn iter_elements(&self) -> RawIter<'_>
        ensures begins { result ≡ Some (drop 4 self.now) }
        ensures walk { (items : List (Result RawElement Error)) →
            Drains StepsElement result items → (frames : List Frame) × (end : End)
            × IsTheWalk (drop 4 self.now) frames end × ListsWalk items frames end }
    {
        self.as_ref().iter_elements(self.alloc())
    }

    /// The keys and values in order, each fault in the place of its value, then the fault at which the elements
    /// stop, if there is one. Only the key of a fault is copied. There are at most (n - 4) / 2 + 1 items for n
    /// bytes.
    /// ```
    /// let mut document = RawDocumentBuf::new(alloc)?;
    /// document.append("a", RawBson::from(1))?;
    /// for item in document.iter() {
    ///     assert_eq!(rt; item?, ("a", RawBsonRef::Int32(1)));
    /// }
    /// ```
    pub fn iter(&self) -> Iter<'_>
        ensures begins { result ≡ Some (drop 4 self.now) }
        ensures items { (outs : List (Result (Bor (List ℕ) × RawBsonRef) Error)) →
            Drains (StepsItems TellsItem) result outs → (items : List Item)
            × AreItems self.now items × TellsEach TellsItem outs items }
    {
        self.as_ref().iter(self.alloc())
    }

    /// The value of the first element with this key, or its fault. If no element has the key: the fault at which
    /// the elements stop, if there is one, otherwise `None`. Values of other keys and bytes after the found
    /// element are not read.
    pub fn get(&self, key: &str) -> Result<Option<RawBsonRef<'_>>>
        ensures { (found : Option Meaning) × LooksUp self.now key.now found
            × TellsFound result found }
    {
        self.as_ref().get(self.alloc(), key)
    }

    /// Whether an element has this key. If none has: the fault at which the elements stop, if there is one, as
    /// `get` returns it. No value is decoded, and bytes after the found element are not read.
    pub fn contains_key(&self, key: &str) -> Result<bool>
        ensures { (answer : KeyAnswer) × FindsKey self.now key.now answer × TellsKey result answer }
    {
        self.as_ref().contains_key(self.alloc(), key)
    }

    /// The 64 bits of the double under `key`, or an error with the key.
    pub fn get_f64(&self, key: &str) -> ValueAccessResult<DoubleBits>
        ensures { GetsByKey typed.f64_value variants.Double self.now key.now result }
    {
        self.as_ref().get_f64(self.alloc(), key)
    }

    /// The text of the string under `key`, or an error with the key.
    pub fn get_str(&self, key: &str) -> ValueAccessResult<&str>
        ensures { GetsByKey typed.str_value variants.String self.now key.now result }
    {
        self.as_ref().get_str(self.alloc(), key)
    }

    /// The nested document under `key`, or an error with the key.
    pub fn get_document(&self, key: &str) -> ValueAccessResult<RawDocument<'_>>
        ensures { GetsByKey typed.document_value variants.EmbeddedDocument self.now key.now result }
    {
        self.as_ref().get_document(self.alloc(), key)
    }

    /// The array under `key`, or an error with the key.
    pub fn get_array(&self, key: &str) -> ValueAccessResult<RawArray<'_>>
        ensures { GetsByKey typed.array_value variants.Array self.now key.now result }
    {
        self.as_ref().get_array(self.alloc(), key)
    }

    /// The bytes and the subtype of the binary under `key`, or an error with the key.
    pub fn get_binary(&self, key: &str) -> ValueAccessResult<RawBinaryRef<'_>>
        ensures { GetsByKey typed.binary_value variants.Binary self.now key.now result }
    {
        self.as_ref().get_binary(self.alloc(), key)
    }

    /// The ObjectId under `key`, or an error with the key.
    pub fn get_object_id(&self, key: &str) -> ValueAccessResult<ObjectId>
        ensures { GetsByKey typed.object_id_value variants.ObjectId self.now key.now result }
    {
        self.as_ref().get_object_id(self.alloc(), key)
    }

    /// The boolean under `key`, or an error with the key.
    pub fn get_bool(&self, key: &str) -> ValueAccessResult<bool>
        ensures { GetsByKey typed.bool_value variants.Boolean self.now key.now result }
    {
        self.as_ref().get_bool(self.alloc(), key)
    }

    /// The date under `key`, or an error with the key.
    pub fn get_datetime(&self, key: &str) -> ValueAccessResult<DateTime>
        ensures { GetsByKey typed.datetime_value variants.DateTime self.now key.now result }
    {
        self.as_ref().get_datetime(self.alloc(), key)
    }

    /// The regular expression under `key`, or an error with the key.
    pub fn get_regex(&self, key: &str) -> ValueAccessResult<RawRegexRef<'_>>
        ensures { GetsByKey typed.regex_value variants.RegularExpression self.now key.now result }
    {
        self.as_ref().get_regex(self.alloc(), key)
    }

    /// The timestamp under `key`, or an error with the key.
    pub fn get_timestamp(&self, key: &str) -> ValueAccessResult<Timestamp>
        ensures { GetsByKey typed.timestamp_value variants.Timestamp self.now key.now result }
    {
        self.as_ref().get_timestamp(self.alloc(), key)
    }

    /// The signed 32-bit number under `key`, or an error with the key.
    /// ```
    /// let mut document = RawDocumentBuf::new(alloc)?;
    /// document.append("a", RawBson::from(1))?;
    /// assert_eq!(rt; document.get_i32("a")?, 1);
    /// ```
    pub fn get_i32(&self, key: &str) -> ValueAccessResult<i32>
        ensures { GetsByKey typed.i32_value variants.Int32 self.now key.now result }
    {
        self.as_ref().get_i32(self.alloc(), key)
    }

    /// The signed 64-bit number under `key`, or an error with the key.
    pub fn get_i64(&self, key: &str) -> ValueAccessResult<i64>
        ensures { GetsByKey typed.i64_value variants.Int64 self.now key.now result }
    {
        self.as_ref().get_i64(self.alloc(), key)
    }
}
