//! Arrays that own their bytes.
ghost use Rattle.std.specs.Prelude.{◌≡◌, ◌≤◌, ◌+◌, ◌-◌, ◌/◌, ◌↔◌, ◌∷◌, [], decimal, IfOk, IfErr, OnOk, IsTrue, List, length};
ghost use Rattle.raw_bson.specs.Append.{AddsValue, HoldsFrames, KeepsWalk, value_frame};
ghost use Rattle.raw_bson.specs.Count.{Pushes};
ghost use Rattle.std.specs.Iterator.{Drains, IsFinite};
ghost use Rattle.raw_bson.specs.Fills.{Fills, TakesEach, TakesValue, empty_array, frames_from};
ghost use Rattle.raw_bson.specs.Owned.{owned_value};
ghost use Rattle.raw_bson.specs.declared.bson.RawBson.{RawBson};
ghost use Rattle.raw_view.specs.Frame.Envelope.{IsEnvelope};
ghost use Rattle.raw_view.specs.Errors.{IsOutOfMemory};
ghost use Rattle.raw_view.specs.Meaning.Value.{array_bytes_of};

use crate::bson::RawBson;
use crate::document_buf::RawDocumentBuf;
use bson_model::{DateTime, DoubleBits, ObjectId, Timestamp};
use itoa::Buffer;
use raw_view::{
    HexDigits, RawArray, RawArrayIter, RawBinaryRef, RawBsonRef, RawDocument, RawRegexRef, Result,
    ValueAccessResult,
};
use std::alloc::{AllocError, Global};
use std::fmt;
use std::marker::Model;

/// The bytes of an array, owned, and the count, which gives the key of the next value that is pushed. A clause
/// sees both. BSON 1.1, `array`.
/// ```
/// let mut array = RawArrayBuf::new(alloc)?;
/// array.push(RawBson::from(7))?;
/// assert_eq!(rt; (array.get_i32(0)?, array.count()), (7, 1));
/// ```
#[derive(Drop)]
pub struct RawArrayBuf {
    document: RawDocumentBuf,
    len: usize,
}

impl Model for RawArrayBuf {
    ghost use Rattle.std.specs.Prelude.{◌≤◌, ◌+◌, ◌-◌, ◌/◌, length};
    ghost use Rattle.raw_bson.specs.Count.{ArrayBytes};

    ghost Value = { ArrayBytes };

    ghost view = { λ a. record { bytes = a.document; count = a.len } };

    ghost invariant = { λ a. a.len ≤ (length a.document - 4) / 2 + 1 };
}

impl RawArrayBuf {
    /// The array without values, with count 0; or out of memory.
    pub fn new(alloc: Global) -> Result<RawArrayBuf>
        ensures empty { IfOk result (λ a. a ≡ empty_array) }
        ensures err { IfErr result IsOutOfMemory }
    {
        Ok(RawArrayBuf {
            document: RawDocumentBuf::new(alloc)?,
            len: 0,
        })
    }

    /// The array of these values, pushed in order; or the first error. The iterator must be finite.
    /// ```
    /// let array = RawArrayBuf::from_iter(alloc, [RawBson::from(1), RawBson::from(2)].into_iter())?;
    /// assert_eq!(rt; (array.count(), array.get_i32(1)?), (2, 2));
    /// ```
    pub fn from_iter<I: Iterator<Item = RawBson> + Drop>(
        alloc: Global,
        values: I,
    ) -> Result<RawArrayBuf>
        requires can { I.can_next values }
        requires ends { IsFinite (I.remaining values) }
        ensures fills { Fills TakesValue empty_array I.next_gives values result }
        ensures walk { IfOk result (λ a. (given : List RawBson)
            × Drains I.next_gives values given × TakesEach TakesValue empty_array given a
            × HoldsFrames a.bytes (frames_from 0 given)) }
    {
        let mut array = RawArrayBuf::new(alloc)?;
        for value in values {
            array.push(value)?;
        }
        Ok(array)
    }

    /// The array of a document's values, with this count.
    pub(crate) fn counted(document: RawDocumentBuf, len: usize) -> RawArrayBuf
        requires { len ≤ (length document - 4) / 2 + 1 }
        ensures bytes { result.bytes ≡ document }
        ensures count { result.count ≡ len }
    {
        RawArrayBuf { document, len }
    }

    /// A view of the array.
    pub fn as_ref(&self) -> RawArray<'_>
        ensures { array_bytes_of result ≡ self.now.bytes }
    {
        RawArray::from_doc(self.document.as_ref())
    }

    /// The count, whose decimal is the key of the next value that is pushed. It isn't the number of items if
    /// values are pushed onto a damaged array.
    pub fn count(&self) -> usize
        ensures { result ≡ self.now.count }
    {
        self.len
    }

    /// Appends a value with the decimal of the count as its key, and adds one to the count. It fails as an append
    /// does; then the bytes and the count are unchanged. The value is dropped.
    /// ```
    /// let mut array = RawArrayBuf::new(alloc)?;
    /// array.push(RawBson::from_str(alloc, "x")?)?;
    /// assert_eq!(rt; array.get_str(0)?, "x");
    /// ```
    #[inline(always)]
    pub fn push(&mut self, value: RawBson) -> Result<()>
        ensures pushes { Pushes self.old (owned_value value) result self.new }
        ensures walk { OnOk result
            (KeepsWalk self.old.bytes (value_frame (decimal self.old.count) (owned_value value)) self.new.bytes) }
        ensures adds { OnOk result
            (AddsValue self.old.bytes (decimal self.old.count) (owned_value value) self.new.bytes) }
    {
        let mut key = Buffer::new();
        self.document.append(key.format(self.len), value)?;
        self.len += 1;
        Ok(())
    }
}

impl RawArrayBuf {
    ghost use Rattle.std.specs.Prelude.{List, Option, Result, Some, decimal, drop};
    ghost use Rattle.std.specs.Iterator.{Drains};
    ghost use Rattle.raw_view.specs.Errors.Access.{GetsAt};
    ghost use Rattle.raw_view.specs.Errors.Answers.{StepsItems, TellsEach, TellsFound, TellsValue};
    ghost use Rattle.raw_view.specs.Meaning.Item.{Item, AreItems};
    ghost use Rattle.raw_view.specs.LookUp.{IsAt};
    ghost use Rattle.raw_view.specs.Meaning.{Meaning};
    ghost use Rattle.raw_view.specs.Meaning.Typed as typed;
    ghost use Rattle.raw_view.specs.declared.bson_ref.RawBsonRef.{RawBsonRef};
    ghost use Rattle.raw_view.specs.declared.element_type.ElementType.TheVariants as variants;
    ghost use Rattle.raw_view.specs.declared.error.Error.{Error};

    /// All bytes of the array, its header and its final 0 included.
    pub fn as_bytes(&self) -> &[u8]
        ensures bytes { result.now ≡ self.now.bytes }
        ensures envelope { IsEnvelope self.now.bytes }
    {
        self.document.as_bytes()
    }

    /// Whether iteration yields no item, which holds if and only if the array has five bytes.
    pub fn is_empty(&self) -> bool
        ensures five { IsTrue result ↔ (length self.now.bytes ≡ 5) }
        ensures no_item { IsTrue result ↔ AreItems self.now.bytes [] }
    {
        self.document.is_empty()
    }

    /// The values in order, each fault in the place of its value, then the fault at which the elements stop, if
    /// there is one. Only the key of a fault is copied. There are at most (n - 4) / 2 + 1 items for n bytes.
    pub fn iter(&self) -> RawArrayIter<'_>
        ensures begins { result ≡ Some (drop 4 self.now.bytes) }
        ensures items { (outs : List (Result RawBsonRef Error)) →
            Drains (StepsItems TellsValue) result outs → (items : List Item)
            × AreItems self.now.bytes items × TellsEach TellsValue outs items }
    {
        self.as_ref().iter(self.document.alloc())
    }

    /// The item at `index`, counted from 0: a value, or its fault. Faults and the stop count as items; the stop is
    /// the last one. After the last item it is `None`.
    pub fn get(&self, index: usize) -> Result<Option<RawBsonRef<'_>>>
        ensures { (found : Option Meaning) × IsAt self.now.bytes index found
            × TellsFound result found }
    {
        self.as_ref().get(self.document.alloc(), index)
    }

    /// The 64 bits of the double at `index`, counted from 0, or an error with the index in decimal.
    pub fn get_f64(&self, index: usize) -> ValueAccessResult<DoubleBits>
        ensures { GetsAt typed.f64_value variants.Double self.now.bytes index result }
    {
        self.as_ref().get_f64(self.document.alloc(), index)
    }

    /// The text of the string at `index`, counted from 0, or an error with the index in decimal.
    pub fn get_str(&self, index: usize) -> ValueAccessResult<&str>
        ensures { GetsAt typed.str_value variants.String self.now.bytes index result }
    {
        self.as_ref().get_str(self.document.alloc(), index)
    }

    /// The nested document at `index`, counted from 0, or an error with the index in decimal.
    pub fn get_document(&self, index: usize) -> ValueAccessResult<RawDocument<'_>>
        ensures { GetsAt typed.document_value variants.EmbeddedDocument
            self.now.bytes index result }
    {
        self.as_ref().get_document(self.document.alloc(), index)
    }

    /// The array at `index`, counted from 0, or an error with the index in decimal.
    pub fn get_array(&self, index: usize) -> ValueAccessResult<RawArray<'_>>
        ensures { GetsAt typed.array_value variants.Array self.now.bytes index result }
    {
        self.as_ref().get_array(self.document.alloc(), index)
    }

    /// The bytes and the subtype of the binary at `index`, counted from 0, or an error with the index in decimal.
    pub fn get_binary(&self, index: usize) -> ValueAccessResult<RawBinaryRef<'_>>
        ensures { GetsAt typed.binary_value variants.Binary self.now.bytes index result }
    {
        self.as_ref().get_binary(self.document.alloc(), index)
    }

    /// The ObjectId at `index`, counted from 0, or an error with the index in decimal.
    pub fn get_object_id(&self, index: usize) -> ValueAccessResult<ObjectId>
        ensures { GetsAt typed.object_id_value variants.ObjectId self.now.bytes index result }
    {
        self.as_ref().get_object_id(self.document.alloc(), index)
    }

    /// The boolean at `index`, counted from 0, or an error with the index in decimal.
    pub fn get_bool(&self, index: usize) -> ValueAccessResult<bool>
        ensures { GetsAt typed.bool_value variants.Boolean self.now.bytes index result }
    {
        self.as_ref().get_bool(self.document.alloc(), index)
    }

    /// The date at `index`, counted from 0, or an error with the index in decimal.
    pub fn get_datetime(&self, index: usize) -> ValueAccessResult<DateTime>
        ensures { GetsAt typed.datetime_value variants.DateTime self.now.bytes index result }
    {
        self.as_ref().get_datetime(self.document.alloc(), index)
    }

    /// The regular expression at `index`, counted from 0, or an error with the index in decimal.
    pub fn get_regex(&self, index: usize) -> ValueAccessResult<RawRegexRef<'_>>
        ensures { GetsAt typed.regex_value variants.RegularExpression self.now.bytes index result }
    {
        self.as_ref().get_regex(self.document.alloc(), index)
    }

    /// The timestamp at `index`, counted from 0, or an error with the index in decimal.
    pub fn get_timestamp(&self, index: usize) -> ValueAccessResult<Timestamp>
        ensures { GetsAt typed.timestamp_value variants.Timestamp self.now.bytes index result }
    {
        self.as_ref().get_timestamp(self.document.alloc(), index)
    }

    /// The signed 32-bit number at `index`, counted from 0, or an error with the index in decimal.
    pub fn get_i32(&self, index: usize) -> ValueAccessResult<i32>
        ensures { GetsAt typed.i32_value variants.Int32 self.now.bytes index result }
    {
        self.as_ref().get_i32(self.document.alloc(), index)
    }

    /// The signed 64-bit number at `index`, counted from 0, or an error with the index in decimal.
    pub fn get_i64(&self, index: usize) -> ValueAccessResult<i64>
        ensures { GetsAt typed.i64_value variants.Int64 self.now.bytes index result }
    {
        self.as_ref().get_i64(self.document.alloc(), index)
    }
}

impl PartialEq for RawArrayBuf {
    ghost use Rattle.std.specs.Prelude.{nat_eq, ◌&&◌};
    ghost use Rattle.std.specs.Cmp.Lexicographic.{pointwise, lists_per};
    ghost use Rattle.std.specs.Cmp.{and_per, nat_eq_equiv, on_per, partial_equiv_from_equiv};

    ghost eq = { λ a b. pointwise nat_eq a.bytes b.bytes && nat_eq a.count b.count };

    ghost laws = { and_per
        (on_per (λ a. a.bytes) (lists_per (partial_equiv_from_equiv nat_eq_equiv)))
        (on_per (λ a. a.count) (partial_equiv_from_equiv nat_eq_equiv)) };

    fn eq(&self, other: &RawArrayBuf) -> bool {
        self.document == other.document && self.len == other.len
    }
}

impl Eq for RawArrayBuf {
    ghost use Rattle.std.specs.Cmp.Lexicographic.{lists_equiv};
    ghost use Rattle.std.specs.Cmp.{and_equiv, nat_eq_equiv, on_equiv};

    ghost laws = { and_equiv
        (on_equiv (λ a. a.bytes) (lists_equiv nat_eq_equiv))
        (on_equiv (λ a. a.count) nat_eq_equiv) };
}

impl fmt::Debug for RawArrayBuf {
    fn fmt<W: fmt::Write>(&self, f: &mut fmt::Formatter<W>) -> fmt::Result {
        let data = HexDigits(self.document.as_bytes());
        let len = self.len;
        write!(f, "RawArrayBuf {{ data: \"{data}\", len: {len} }}")
    }
}

impl Clone for RawArrayBuf {
    ghost use Rattle.std.specs.Prelude.{◌≡◌};

    ghost is_clone = { λ s t. t ≡ s };

    fn clone(&self) -> std::result::Result<RawArrayBuf, AllocError> {
        Ok(RawArrayBuf {
            document: self.document.clone()?,
            len: self.len,
        })
    }
}

impl<'a> From<&'a RawArrayBuf> for RawBsonRef<'a> {
    ghost use Rattle.std.specs.Prelude.{◌≡◌};
    ghost use Rattle.raw_view.specs.Meaning.{array};
    ghost use Rattle.raw_view.specs.Meaning.Value.{value_of};

    ghost from_gives = { λ x r. value_of r ≡ array x.now.bytes };

    fn from(value: &'a RawArrayBuf) -> RawBsonRef<'a> {
        RawBsonRef::Array(value.as_ref())
    }
}
