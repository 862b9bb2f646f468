//! Views of documents: iteration, look-up by key, and typed getters.
ghost use Rattle.std.specs.Prelude.{◌≡◌, ◌↔◌, IsOk, IfOk, IfErr, IsTrue, None, Some, drop, length, [], ◌∷◌};
ghost use Rattle.raw_view.specs.Frame.ElementSteps.{frame_of};
ghost use Rattle.raw_view.specs.Frame.Envelope.{IsEnvelope};
ghost use Rattle.raw_view.specs.Errors.{TellsRefusal};

mod look_up;

use crate::access::ValueAccessResult;
use crate::array::RawArray;
use crate::bson_ref::{RawBinaryRef, RawBsonRef, RawRegexRef};
use crate::element::RawElement;
use crate::elements::Elements;
use crate::error::{Error, Reason, Result};
use crate::front::number::front_i32;
use crate::hex_digits::HexDigits;
use crate::iter::{Iter, RawIter};
use crate::value::typed::{Typed, typed_at_key};
use bson_model::{DateTime, DoubleBits, ObjectId, Timestamp};
use std::alloc::Global;
use std::fmt;

/// The bytes of one document with a sound envelope: at least five bytes, the first four are the length of the
/// whole, the last is 0. The content is read only where a call needs it. BSON 1.1, `document`.
/// ```
/// let document = RawDocument::from_bytes(b"\x0C\0\0\0\x10a\0\x01\0\0\0\0")?;
/// assert_eq!(rt; document.get_i32(alloc, "a")?, 1);
/// assert_eq!(rt; document.as_bytes().len(), 12);
/// ```
#[derive(Clone, Copy, PartialEq, Eq)]
pub struct RawDocument<'a> {
    bytes: &'a [u8],
    ghost envelope: { IsEnvelope bytes.now },
}

/// Whether `key` is the element's key.
pub(crate) fn has_key(element: RawElement<'_>, key: &str) -> bool
    ensures { IsTrue result ↔ ((frame_of element.entry).key ≡ key.now) }
{
    element.key() == key
}

impl<'a> RawDocument<'a> {
    ghost use Rattle.std.specs.Prelude.{ℕ, List, Option, Result};
    ghost use denote.Ref.{Bor};
    ghost use Rattle.raw_view.specs.Errors.Access.{GetsByKey};
    ghost use Rattle.raw_view.specs.Errors.Answers.{StepsItems, TellsEach, TellsFound, TellsItem, TellsKey};
    ghost use Rattle.raw_view.specs.Meaning.Typed as typed;
    ghost use Rattle.raw_view.specs.declared.element_type.ElementType.TheVariants as variants;
    ghost use Rattle.raw_view.specs.Meaning.Item.{Item, AreItems};
    ghost use Rattle.raw_view.specs.LookUp.{FindsKey, KeyAnswer, LooksUp};
    ghost use Rattle.raw_view.specs.Meaning.{Meaning};
    ghost use Rattle.raw_view.specs.declared.bson_ref.RawBsonRef.{RawBsonRef};
    ghost use Rattle.std.specs.Iterator.{Drains};
    ghost use Rattle.raw_view.specs.Document.{bytes_of};
    ghost use Rattle.raw_view.specs.Frame.ElementSteps.{StepsElement, ListsWalk};
    ghost use Rattle.raw_view.specs.Frame.{Frame, End};
    ghost use Rattle.raw_view.specs.OneReading.{OneFirstFrame, IsTheWalk, AreTheItems, IsTheAnswer, IsTheKeyAnswer};
    ghost use Rattle.raw_view.specs.declared.element.RawElement.{RawElement};
    ghost use Rattle.raw_view.specs.declared.error.Error.{Error};

    /// A view of the bytes if their envelope is sound, otherwise the first error of these: too short, wrong
    /// length, not terminated. The length in the header must be that of all the bytes. These errors have no key.
    /// ```
    /// assert!(rt; RawDocument::from_bytes(b"\x05\0\0\0\0").is_ok());
    /// assert!(rt; RawDocument::from_bytes(b"\x06\0\0\0\0").is_err());
    /// ```
    pub fn from_bytes(bytes: &'a [u8]) -> Result<RawDocument<'a>>
        ensures sound { IsOk result ↔ IsEnvelope bytes.now }
        ensures same { IfOk result (λ d. bytes_of d ≡ bytes.now) }
        ensures refused { IfErr result (TellsRefusal bytes.now) }
    {
        if bytes.len() < 5 {
            return Err(Error::malformed(Reason::TooShort));
        }
        let header = front_i32(bytes);
        if header as i64 != bytes.len() as i64 {
            return Err(Error::malformed(Reason::LengthIncorrect));
        }
        if bytes[bytes.len() - 1] != 0 {
            return Err(Error::malformed(Reason::NotTerminated));
        }
        Ok(RawDocument { bytes })
    }

    /// The document in bytes that were already found to have an envelope.
    pub(crate) fn framed(bytes: &'a [u8]) -> RawDocument<'a>
        requires { IsEnvelope bytes.now }
        ensures { bytes_of result ≡ bytes.now }
    {
        RawDocument { bytes }
    }

    /// All bytes of the document, its header and its final 0 included.
    pub fn as_bytes(self) -> &'a [u8]
        ensures bytes { result.now ≡ bytes_of self.entry }
        ensures envelope { IsEnvelope (bytes_of self.entry) }
    {
        self.bytes
    }

    /// Whether iteration yields no item, which holds if and only if the document has five bytes.
    pub fn is_empty(self) -> bool
        ensures five { IsTrue result ↔ (length (bytes_of self.entry) ≡ 5) }
        ensures no_item { IsTrue result ↔ AreItems (bytes_of self.entry) [] }
    {
        self.as_bytes().len() == 5
    }

    /// The elements in order, then the fault at which they stop, if there is one. No value is decoded, and
    /// only the key of that fault is copied. There are at most (n - 4) / 2 + 1 items for n bytes. The bytes
    /// alone determine the elements and the fault: at most one element is at the front of any bytes, so a
    /// document has one walk.
    /// ```
    /// let document = RawDocument::from_bytes(b"\x0C\0\0\0\x10a\0\x01\0\0\0\0")?;
    /// for element in document.iter_elements(alloc) {
    ///     assert_eq!(rt; element?.key(), "a");
    /// }
    /// ```
    pub fn iter_elements(self, alloc: Global) -> RawIter<'a>
        ensures begins { result ≡ Some (drop 4 (bytes_of self.entry)) }
        ensures walk { (items : List (Result RawElement Error)) →
            Drains StepsElement result items → (frames : List Frame) × (end : End)
            × IsTheWalk (drop 4 (bytes_of self.entry)) frames end × ListsWalk items frames end }
        ensures one_walk { (frames : List Frame) × (end : End)
            × IsTheWalk (drop 4 (bytes_of self.entry)) frames end }
        ensures one_frame { OneFirstFrame }
    {
        RawIter::new(alloc, self)
    }

    /// The keys and values in order, each fault in the place of its value, then the fault at which the
    /// elements stop, if there is one. Only the key of a fault is copied. There are at most (n - 4) / 2 + 1
    /// items for n bytes. The bytes alone determine the items.
    /// ```
    /// let document = RawDocument::from_bytes(b"\x0C\0\0\0\x10a\0\x01\0\0\0\0")?;
    /// for item in document.iter(alloc) {
    ///     let (key, value) = item?;
    ///     assert_eq!(rt; (key, value.as_i32()), ("a", Some(1)));
    /// }
    /// ```
    pub fn iter(self, alloc: Global) -> Iter<'a>
        ensures begins { result ≡ Some (drop 4 (bytes_of self.entry)) }
        ensures items { (outs : List (Result (Bor (List ℕ) × RawBsonRef) Error)) →
            Drains (StepsItems TellsItem) result outs → (items : List Item)
            × AreItems (bytes_of self.entry) items × TellsEach TellsItem outs items }
        ensures one_list { (items : List Item) × AreTheItems (bytes_of self.entry) items }
    {
        Iter::<'a>::new(alloc, self)
    }

    /// The value of the first element with this key, or its fault. If no element has the key: the fault at
    /// which the elements stop, if there is one, otherwise `None`. Values of other keys and bytes after the
    /// found element are not read. The bytes and the key alone determine the result.
    /// ```
    /// let document = RawDocument::from_bytes(b"\x0C\0\0\0\x10a\0\x01\0\0\0\0")?;
    /// assert_eq!(rt; document.get(alloc, "a")?, Some(RawBsonRef::Int32(1)));
    /// assert_eq!(rt; document.get(alloc, "b")?, None);
    /// ```
    pub fn get(self, alloc: Global, key: &str) -> Result<Option<RawBsonRef<'a>>>
        ensures found { (found : Option Meaning) × LooksUp (bytes_of self.entry) key.now found
            × TellsFound result found }
        ensures one_answer { (found : Option Meaning)
            × IsTheAnswer (bytes_of self.entry) key.now found }
    {
        for step in Elements::new(self) {
            let element = match step {
                Ok(element) => element,
                Err(error) => return Err(error.into_error(alloc)),
            };
            if has_key(element, key) {
                return match element.value(alloc) {
                    Ok(value) => Ok(Some(value)),
                    Err(error) => Err(error),
                };
            }
        }
        Ok(None)
    }

    /// Whether an element has this key. If none has: the fault at which the elements stop, if there is one,
    /// as `get` returns it. No value is decoded, and bytes after the found element are not read. The bytes
    /// and the key alone determine the result.
    /// ```
    /// let document = RawDocument::from_bytes(b"\x0C\0\0\0\x10a\0\x01\0\0\0\0")?;
    /// assert!(rt; document.contains_key(alloc, "a")?);
    /// ```
    pub fn contains_key(self, alloc: Global, key: &str) -> Result<bool>
        ensures found { (answer : KeyAnswer) × FindsKey (bytes_of self.entry) key.now answer
            × TellsKey result answer }
        ensures one_answer { (answer : KeyAnswer)
            × IsTheKeyAnswer (bytes_of self.entry) key.now answer }
    {
        for step in Elements::new(self) {
            let candidate = match step {
                Ok(candidate) => candidate,
                Err(stop) => return Err(stop.into_error(alloc)),
            };
            if has_key(candidate, key) {
                return Ok(true);
            }
        }
        Ok(false)
    }

    /// What a typed getter returns for `key`.
    fn get_typed<T: Typed<'a>>(self, alloc: Global, key: &str) -> ValueAccessResult<T>
        ensures { GetsByKey T.value_as T.kind (bytes_of self.entry) key.now result }
    {
        typed_at_key(alloc, self.get(alloc, key), key)
    }

    /// The 64 bits of the double under `key`, or an error with the key.
    /// ```
    /// let document = RawDocument::from_bytes(b"\x10\0\0\0\x01a\0\0\0\0\0\0\0\xE0\x3F\0")?;
    /// assert_eq!(rt; document.get_f64(alloc, "a")?.to_f64(), 0.5);
    /// ```
    pub fn get_f64(self, alloc: Global, key: &str) -> ValueAccessResult<DoubleBits>
        ensures { GetsByKey typed.f64_value variants.Double (bytes_of self.entry) key.now result }
    {
        self.get_typed::<DoubleBits>(alloc, key)
    }

    /// The text of the string under `key`, or an error with the key.
    /// ```
    /// let document = RawDocument::from_bytes(b"\x0E\0\0\0\x02a\0\x02\0\0\0x\0\0")?;
    /// assert_eq!(rt; document.get_str(alloc, "a")?, "x");
    /// ```
    pub fn get_str(self, alloc: Global, key: &str) -> ValueAccessResult<&'a str>
        ensures { GetsByKey typed.str_value variants.String (bytes_of self.entry) key.now result }
    {
        self.get_typed::<&'a str>(alloc, key)
    }

    /// The nested document under `key`, or an error with the key.
    /// ```
    /// let document = RawDocument::from_bytes(b"\x14\0\0\0\x03a\0\x0C\0\0\0\x10b\0\x07\0\0\0\0\0")?;
    /// assert_eq!(rt; document.get_document(alloc, "a")?.get_i32(alloc, "b")?, 7);
    /// ```
    pub fn get_document(self, alloc: Global, key: &str) -> ValueAccessResult<RawDocument<'a>>
        ensures { GetsByKey typed.document_value variants.EmbeddedDocument
            (bytes_of self.entry) key.now result }
    {
        self.get_typed::<RawDocument<'a>>(alloc, key)
    }

    /// The array under `key`, or an error with the key.
    /// ```
    /// let document = RawDocument::from_bytes(b"\x14\0\0\0\x04a\0\x0C\0\0\0\x100\0\x07\0\0\0\0\0")?;
    /// assert_eq!(rt; document.get_array(alloc, "a")?.get_i32(alloc, 0)?, 7);
    /// ```
    pub fn get_array(self, alloc: Global, key: &str) -> ValueAccessResult<RawArray<'a>>
        ensures { GetsByKey typed.array_value variants.Array (bytes_of self.entry) key.now result }
    {
        self.get_typed::<RawArray<'a>>(alloc, key)
    }

    /// The bytes and the subtype of the binary under `key`, or an error with the key.
    pub fn get_binary(self, alloc: Global, key: &str) -> ValueAccessResult<RawBinaryRef<'a>>
        ensures { GetsByKey typed.binary_value variants.Binary
            (bytes_of self.entry) key.now result }
    {
        self.get_typed::<RawBinaryRef<'a>>(alloc, key)
    }

    /// The ObjectId under `key`, or an error with the key.
    pub fn get_object_id(self, alloc: Global, key: &str) -> ValueAccessResult<ObjectId>
        ensures { GetsByKey typed.object_id_value variants.ObjectId
            (bytes_of self.entry) key.now result }
    {
        self.get_typed::<ObjectId>(alloc, key)
    }

    /// The boolean under `key`, or an error with the key.
    /// ```
    /// let document = RawDocument::from_bytes(b"\x09\0\0\0\x08a\0\x01\0")?;
    /// assert_eq!(rt; document.get_bool(alloc, "a")?, true);
    /// ```
    pub fn get_bool(self, alloc: Global, key: &str) -> ValueAccessResult<bool>
        ensures { GetsByKey typed.bool_value variants.Boolean (bytes_of self.entry) key.now result }
    {
        self.get_typed::<bool>(alloc, key)
    }

    /// The date under `key`, or an error with the key.
    /// ```
    /// let document = RawDocument::from_bytes(b"\x10\0\0\0\x09a\0\xE8\x03\0\0\0\0\0\0\0")?;
    /// assert_eq!(rt; document.get_datetime(alloc, "a")?, DateTime::from_millis(1000));
    /// ```
    pub fn get_datetime(self, alloc: Global, key: &str) -> ValueAccessResult<DateTime>
        ensures { GetsByKey typed.datetime_value variants.DateTime
            (bytes_of self.entry) key.now result }
    {
        self.get_typed::<DateTime>(alloc, key)
    }

    /// The regular expression under `key`, or an error with the key.
    pub fn get_regex(self, alloc: Global, key: &str) -> ValueAccessResult<RawRegexRef<'a>>
        ensures { GetsByKey typed.regex_value variants.RegularExpression
            (bytes_of self.entry) key.now result }
    {
        self.get_typed::<RawRegexRef<'a>>(alloc, key)
    }

    /// The timestamp under `key`, or an error with the key.
    pub fn get_timestamp(self, alloc: Global, key: &str) -> ValueAccessResult<Timestamp>
        ensures { GetsByKey typed.timestamp_value variants.Timestamp
            (bytes_of self.entry) key.now result }
    {
        self.get_typed::<Timestamp>(alloc, key)
    }

    /// The signed 32-bit number under `key`, or an error with the key.
    /// ```
    /// let document = RawDocument::from_bytes(b"\x0C\0\0\0\x10a\0\x01\0\0\0\0")?;
    /// assert_eq!(rt; document.get_i32(alloc, "a")?, 1);
    /// assert!(rt; document.get_i32(alloc, "b").is_err());
    /// ```
    pub fn get_i32(self, alloc: Global, key: &str) -> ValueAccessResult<i32>
        ensures { GetsByKey typed.i32_value variants.Int32 (bytes_of self.entry) key.now result }
    {
        self.get_typed::<i32>(alloc, key)
    }

    /// The signed 64-bit number under `key`, or an error with the key.
    /// ```
    /// let document = RawDocument::from_bytes(b"\x10\0\0\0\x12a\0\x01\0\0\0\0\0\0\0\0")?;
    /// assert_eq!(rt; document.get_i64(alloc, "a")?, 1);
    /// ```
    pub fn get_i64(self, alloc: Global, key: &str) -> ValueAccessResult<i64>
        ensures { GetsByKey typed.i64_value variants.Int64 (bytes_of self.entry) key.now result }
    {
        self.get_typed::<i64>(alloc, key)
    }
}

impl fmt::Debug for RawDocument<'_> {
    fn fmt<W: fmt::Write>(&self, f: &mut fmt::Formatter<W>) -> fmt::Result {
        let data = HexDigits(self.as_bytes());
        write!(f, "RawDocument {{ data: \"{data}\" }}")
    }
}
