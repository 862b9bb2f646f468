//! Views of arrays: iteration, and access by index.
ghost use Rattle.std.specs.Prelude.{◌≡◌, ◌↔◌, IsTrue, Some, length, drop, [], ◌∷◌};

use crate::access::ValueAccessResult;
use crate::bson_ref::{RawBinaryRef, RawBsonRef, RawRegexRef};
use crate::document::RawDocument;
use crate::elements::Elements;
use crate::error::Result;
use crate::hex_digits::HexDigits;
use crate::iter::RawArrayIter;
use crate::value::typed::{Typed, typed_at_index};
use bson_model::{DateTime, DoubleBits, ObjectId, Timestamp};
use std::alloc::Global;
use std::fmt;

/// An array: a document whose keys are ignored. BSON 1.1, `array`.
/// ```
/// let document = RawDocument::from_bytes(b"\x14\0\0\0\x04a\0\x0C\0\0\0\x100\0\x07\0\0\0\0\0")?;
/// for value in document.get_array(alloc, "a")?.iter(alloc) {
///     assert_eq!(rt; value?, RawBsonRef::Int32(7));
/// }
/// ```
#[derive(Clone, Copy, PartialEq, Eq)]
pub struct RawArray<'a> {
    document: RawDocument<'a>,
}

impl<'a> RawArray<'a> {
    ghost use Rattle.std.specs.Prelude.{List, Option, Result};
    ghost use Rattle.std.specs.Iterator.{Drains};
    ghost use Rattle.std.specs.Fmt.{decimal};
    ghost use Rattle.raw_view.specs.Errors.Access.{GetsAt};
    ghost use Rattle.raw_view.specs.Meaning.Typed as typed;
    ghost use Rattle.raw_view.specs.declared.element_type.ElementType.TheVariants as variants;
    ghost use Rattle.raw_view.specs.Errors.Answers.{StepsItems, TellsEach, TellsFound, TellsValue};
    ghost use Rattle.raw_view.specs.Document.{bytes_of};
    ghost use Rattle.raw_view.specs.Frame.Envelope.{IsEnvelope};
    ghost use Rattle.raw_view.specs.Meaning.Item.{Item, AreItems};
    ghost use Rattle.raw_view.specs.LookUp.{IsAt};
    ghost use Rattle.raw_view.specs.Meaning.{Meaning};
    ghost use Rattle.raw_view.specs.OneReading.{AreTheItems, IsTheAnswerAt};
    ghost use Rattle.raw_view.specs.Meaning.Value.{array_bytes_of};
    ghost use Rattle.raw_view.specs.declared.bson_ref.RawBsonRef.{RawBsonRef};
    ghost use Rattle.raw_view.specs.declared.error.Error.{Error};

    /// The array of a document's values.
    /// ```
    /// let array = RawArray::from_doc(RawDocument::from_bytes(b"\x13\0\0\0\x10a\0\x01\0\0\0\x10b\0\x02\0\0\0\0")?);
    /// assert_eq!(rt; array.get_i32(alloc, 1)?, 2);
    /// ```
    pub fn from_doc(document: RawDocument<'a>) -> RawArray<'a>
        ensures { array_bytes_of result ≡ bytes_of document.entry }
    {
        Self { document }
    }

    /// The document whose values are the array's.
    pub fn as_doc(self) -> RawDocument<'a>
        ensures { bytes_of result ≡ array_bytes_of self.entry }
    {
        self.document
    }

    /// All bytes of the array, its header and its final 0 included.
    pub fn as_bytes(self) -> &'a [u8]
        ensures bytes { result.now ≡ array_bytes_of self.entry }
        ensures envelope { IsEnvelope (array_bytes_of self.entry) }
    {
        self.document.as_bytes()
    }

    /// Whether iteration yields no item, which holds if and only if the array has five bytes.
    pub fn is_empty(self) -> bool
        ensures five { IsTrue result ↔ (length (array_bytes_of self.entry) ≡ 5) }
        ensures no_item { IsTrue result ↔ AreItems (array_bytes_of self.entry) [] }
    {
        self.document.is_empty()
    }

    /// The values in order, each fault in the place of its value, then the fault at which the elements stop,
    /// if there is one. Only the key of a fault is copied. There are at most (n - 4) / 2 + 1 items for n
    /// bytes. The bytes alone determine the items.
    /// ```
    /// let array = RawArray::from_doc(RawDocument::from_bytes(b"\x0C\0\0\0\x10a\0\x01\0\0\0\0")?);
    /// for value in array.iter(alloc) {
    ///     assert_eq!(rt; value?, RawBsonRef::Int32(1));
    /// }
    /// ```
    pub fn iter(self, alloc: Global) -> RawArrayIter<'a>
        ensures begins { result ≡ Some (drop 4 (array_bytes_of self.entry)) }
        ensures items { (outs : List (Result RawBsonRef Error)) →
            Drains (StepsItems TellsValue) result outs → (items : List Item)
            × AreItems (array_bytes_of self.entry) items × TellsEach TellsValue outs items }
        ensures one_list { (items : List Item) × AreTheItems (array_bytes_of self.entry) items }
    {
        RawArrayIter::new(alloc, self.document)
    }

    /// The item at `index`, counted from 0: a value, or its fault. Faults and the stop count as items. After
    /// the last item, and so after a stop, it is `None`. The items before it are neither decoded nor copied.
    /// The bytes and the index alone determine the result.
    /// ```
    /// let array = RawArray::from_doc(RawDocument::from_bytes(b"\x0C\0\0\0\x10a\0\x01\0\0\0\0")?);
    /// assert_eq!(rt; array.get(alloc, 0)?, Some(RawBsonRef::Int32(1)));
    /// assert_eq!(rt; array.get(alloc, 1)?, None);
    /// ```
    pub fn get(self, alloc: Global, index: usize) -> Result<Option<RawBsonRef<'a>>>
        ensures found { (found : Option Meaning) × IsAt (array_bytes_of self.entry) index found
            × TellsFound result found }
        ensures one_answer { (found : Option Meaning)
            × IsTheAnswerAt (array_bytes_of self.entry) index found }
    {
        match Elements::new(self.document).nth(index) {
            None => Ok(None),
            Some(Err(stop)) => Err(stop.into_error(alloc)),
            Some(Ok(element)) => match element.value(alloc) {
                Ok(value) => Ok(Some(value)),
                Err(error) => Err(error),
            },
        }
    }

    /// What a typed getter returns for the item at `index`.
    fn get_typed<T: Typed<'a>>(self, alloc: Global, index: usize) -> ValueAccessResult<T>
        ensures { GetsAt T.value_as T.kind (array_bytes_of self.entry) index result }
    {
        typed_at_index(alloc, self.get(alloc, index), index)
    }

    /// The 64 bits of the double at `index`, counted from 0, or an error with the index in decimal.
    pub fn get_f64(self, alloc: Global, index: usize) -> ValueAccessResult<DoubleBits>
        ensures { GetsAt typed.f64_value variants.Double (array_bytes_of self.entry) index result }
    {
        self.get_typed::<DoubleBits>(alloc, index)
    }

    /// The text of the string at `index`, counted from 0, or an error with the index in decimal.
    pub fn get_str(self, alloc: Global, index: usize) -> ValueAccessResult<&'a str>
        ensures { GetsAt typed.str_value variants.String (array_bytes_of self.entry) index result }
    {
        self.get_typed::<&'a str>(alloc, index)
    }

    /// The nested document at `index`, counted from 0, or an error with the index in decimal.
    pub fn get_document(self, alloc: Global, index: usize) -> ValueAccessResult<RawDocument<'a>>
        ensures { GetsAt typed.document_value variants.EmbeddedDocument
            (array_bytes_of self.entry) index result }
    {
        self.get_typed::<RawDocument<'a>>(alloc, index)
    }

    /// The array at `index`, counted from 0, or an error with the index in decimal.
    pub fn get_array(self, alloc: Global, index: usize) -> ValueAccessResult<RawArray<'a>>
        ensures { GetsAt typed.array_value variants.Array (array_bytes_of self.entry) index result }
    {
        self.get_typed::<RawArray<'a>>(alloc, index)
    }

    /// The bytes and the subtype of the binary at `index`, counted from 0, or an error with the index in
    /// decimal.
    pub fn get_binary(self, alloc: Global, index: usize) -> ValueAccessResult<RawBinaryRef<'a>>
        ensures { GetsAt typed.binary_value variants.Binary
            (array_bytes_of self.entry) index result }
    {
        self.get_typed::<RawBinaryRef<'a>>(alloc, index)
    }

    /// The ObjectId at `index`, counted from 0, or an error with the index in decimal.
    pub fn get_object_id(self, alloc: Global, index: usize) -> ValueAccessResult<ObjectId>
        ensures { GetsAt typed.object_id_value variants.ObjectId
            (array_bytes_of self.entry) index result }
    {
        self.get_typed::<ObjectId>(alloc, index)
    }

    /// The boolean at `index`, counted from 0, or an error with the index in decimal.
    pub fn get_bool(self, alloc: Global, index: usize) -> ValueAccessResult<bool>
        ensures { GetsAt typed.bool_value variants.Boolean
            (array_bytes_of self.entry) index result }
    {
        self.get_typed::<bool>(alloc, index)
    }

    /// The date at `index`, counted from 0, or an error with the index in decimal.
    pub fn get_datetime(self, alloc: Global, index: usize) -> ValueAccessResult<DateTime>
        ensures { GetsAt typed.datetime_value variants.DateTime
            (array_bytes_of self.entry) index result }
    {
        self.get_typed::<DateTime>(alloc, index)
    }

    /// The regular expression at `index`, counted from 0, or an error with the index in decimal.
    pub fn get_regex(self, alloc: Global, index: usize) -> ValueAccessResult<RawRegexRef<'a>>
        ensures { GetsAt typed.regex_value variants.RegularExpression
            (array_bytes_of self.entry) index result }
    {
        self.get_typed::<RawRegexRef<'a>>(alloc, index)
    }

    /// The timestamp at `index`, counted from 0, or an error with the index in decimal.
    pub fn get_timestamp(self, alloc: Global, index: usize) -> ValueAccessResult<Timestamp>
        ensures { GetsAt typed.timestamp_value variants.Timestamp
            (array_bytes_of self.entry) index result }
    {
        self.get_typed::<Timestamp>(alloc, index)
    }

    /// The signed 32-bit number at `index`, counted from 0, or an error with the index in decimal.
    /// ```
    /// let array = RawArray::from_doc(RawDocument::from_bytes(b"\x0C\0\0\0\x10a\0\x01\0\0\0\0")?);
    /// assert_eq!(rt; array.get_i32(alloc, 0)?, 1);
    /// ```
    pub fn get_i32(self, alloc: Global, index: usize) -> ValueAccessResult<i32>
        ensures { GetsAt typed.i32_value variants.Int32 (array_bytes_of self.entry) index result }
    {
        self.get_typed::<i32>(alloc, index)
    }

    /// The signed 64-bit number at `index`, counted from 0, or an error with the index in decimal.
    pub fn get_i64(self, alloc: Global, index: usize) -> ValueAccessResult<i64>
        ensures { GetsAt typed.i64_value variants.Int64 (array_bytes_of self.entry) index result }
    {
        self.get_typed::<i64>(alloc, index)
    }
}

impl fmt::Debug for RawArray<'_> {
    fn fmt<W: fmt::Write>(&self, f: &mut fmt::Formatter<W>) -> fmt::Result {
        let data = HexDigits(self.as_bytes());
        write!(f, "RawArray {{ data: \"{data}\" }}")
    }
}
