//! Elements, and their values.
ghost use Rattle.std.specs.Prelude.{◌≡◌, length, IfOk, IfErr, IfSome, IfNone};
ghost use Rattle.bson_model.specs.Bytes.{NulFree};
ghost use Rattle.raw_view.specs.Frame.{HasPayload};

use crate::array::RawArray;
use crate::bson_ref::RawBsonRef;
use crate::document::RawDocument;
use crate::element_type::ElementType;
use crate::error::{BorrowedError, Result};
use crate::front::number::{array_of, i32_of, i64_of, u64_of};
use crate::value::{
    binary_of, boolean_of, code_with_scope_of, db_pointer_of, regex_of, text_of, timestamp_of,
};
use bson_model::{DateTime, Decimal128, DoubleBits, ObjectId};
use std::alloc::Global;

/// One element: its key, its kind and the bytes of its payload, which is not decoded yet.
/// ```
/// let document = RawDocument::from_bytes(b"\x0C\0\0\0\x10a\0\x01\0\0\0\0")?;
/// for element in document.iter_elements(alloc) {
///     let element = element?;
///     assert_eq!(rt; (element.element_type(), element.len()), (ElementType::Int32, 4));
///     assert_eq!(rt; element.value(alloc)?, RawBsonRef::Int32(1));
/// }
/// ```
#[derive(Clone, Copy, Debug)]
pub struct RawElement<'a> {
    pub(crate) key: &'a str,
    pub(crate) kind: ElementType,
    pub(crate) payload: &'a [u8],
    ghost named: { NulFree key.now },
    ghost framed: { ∥ HasPayload kind payload.now ∥₁ },
}

impl<'a> RawElement<'a> {
    ghost use Rattle.raw_view.specs.Frame.ElementSteps.{frame_of};

    /// The element's key.
    pub fn key(self) -> &'a str
        ensures { result.now ≡ (frame_of self.entry).key }
    {
        self.key
    }

    /// The length of the payload in bytes.
    pub fn len(self) -> usize
        ensures { result ≡ length (frame_of self.entry).payload }
    {
        self.payload.len()
    }

    /// The bytes of the payload as they are.
    pub fn payload(self) -> &'a [u8]
        ensures { result.now ≡ (frame_of self.entry).payload }
    {
        self.payload
    }

    /// The kind that the element's tag says.
    pub fn element_type(self) -> ElementType
        ensures { result ≡ (frame_of self.entry).kind }
    {
        self.kind
    }
}

impl<'a> RawElement<'a> {
    ghost use Rattle.raw_view.specs.Frame.ElementSteps.{frame_of};
    ghost use Rattle.raw_view.specs.Frame.Front.{TellsBorrowed};
    ghost use Rattle.raw_view.specs.Frame.Kind.{CanBeAtFault};
    ghost use Rattle.raw_view.specs.Meaning.{KeyedFault, Means, value, faulty};
    ghost use Rattle.raw_view.specs.Meaning.Value.{value_of};

    /// The value of a kind of which every payload means one; `None` for a kind whose payload can be at fault.
    #[inline(always)]
    fn faultless_value(self) -> Option<RawBsonRef<'a>>
        ensures value { IfSome result (λ v. Means (frame_of self.entry) (value (value_of v))) }
        ensures none { IfNone result (CanBeAtFault self.entry.kind) }
    {
        let payload = self.payload;
        match self.kind {
            ElementType::Double => Some(RawBsonRef::Double(DoubleBits(u64_of(payload)))),
            ElementType::EmbeddedDocument => {
                Some(RawBsonRef::Document(RawDocument::framed(payload)))
            }
            ElementType::Array => {
                Some(RawBsonRef::Array(RawArray::from_doc(RawDocument::framed(payload))))
            }
            ElementType::Undefined => Some(RawBsonRef::Undefined),
            ElementType::ObjectId => {
                Some(RawBsonRef::ObjectId(ObjectId::from_bytes(array_of(payload))))
            }
            ElementType::DateTime => {
                Some(RawBsonRef::DateTime(DateTime::from_millis(i64_of(payload))))
            }
            ElementType::Null => Some(RawBsonRef::Null),
            ElementType::RegularExpression => {
                Some(RawBsonRef::RegularExpression(regex_of(payload)))
            }
            ElementType::Int32 => Some(RawBsonRef::Int32(i32_of(payload))),
            ElementType::Timestamp => Some(RawBsonRef::Timestamp(timestamp_of(payload))),
            ElementType::Int64 => Some(RawBsonRef::Int64(i64_of(payload))),
            ElementType::Decimal128 => {
                Some(RawBsonRef::Decimal128(Decimal128::from_bytes(array_of(payload))))
            }
            ElementType::MaxKey => Some(RawBsonRef::MaxKey),
            ElementType::MinKey => Some(RawBsonRef::MinKey),
            ElementType::String
            | ElementType::Binary
            | ElementType::Boolean
            | ElementType::DbPointer
            | ElementType::JavaScriptCode
            | ElementType::Symbol
            | ElementType::JavaScriptCodeWithScope => None,
        }
    }

    /// The value of the payload, or its fault. It is what `value` returns, but a fault borrows its key:
    /// nothing is copied, and no memory is taken.
    #[inline(always)]
    pub fn resolve(self) -> std::result::Result<RawBsonRef<'a>, BorrowedError<'a>>
        ensures value { IfOk result (λ v. Means (frame_of self.entry) (value (value_of v))) }
        ensures fault { IfErr result
            (λ e. (fault : KeyedFault) × Means (frame_of self.entry) (faulty fault)
            × TellsBorrowed e fault) }
    {
        if let Some(value) = self.faultless_value() {
            return Ok(value);
        }
        let payload = self.payload;
        match self.kind {
            ElementType::String => Ok(RawBsonRef::String(text_of(payload)?)),
            ElementType::Binary => Ok(RawBsonRef::Binary(binary_of(self.key, payload)?)),
            ElementType::Boolean => Ok(RawBsonRef::Boolean(boolean_of(self.key, payload)?)),
            ElementType::DbPointer => Ok(RawBsonRef::DbPointer(db_pointer_of(payload)?)),
            ElementType::JavaScriptCode => Ok(RawBsonRef::JavaScriptCode(text_of(payload)?)),
            ElementType::Symbol => Ok(RawBsonRef::Symbol(text_of(payload)?)),
            ElementType::JavaScriptCodeWithScope => Ok(RawBsonRef::JavaScriptCodeWithScope(
                code_with_scope_of(self.key, payload)?,
            )),
            ElementType::Double
            | ElementType::EmbeddedDocument
            | ElementType::Array
            | ElementType::Undefined
            | ElementType::ObjectId
            | ElementType::DateTime
            | ElementType::Null
            | ElementType::RegularExpression
            | ElementType::Int32
            | ElementType::Timestamp
            | ElementType::Int64
            | ElementType::Decimal128
            | ElementType::MaxKey
            | ElementType::MinKey => unreachable!(),
        }
    }
}

impl<'a> RawElement<'a> {
    ghost use Rattle.raw_view.specs.Errors.Answers.{TellsMeaning};
    ghost use Rattle.raw_view.specs.Frame.ElementSteps.{frame_of};
    ghost use Rattle.raw_view.specs.Meaning.{Meaning, Means};
    ghost use Rattle.raw_view.specs.OneReading.{IsTheMeaning};

    /// The value of the payload, with its parts borrowed from the document, or its fault. A fault that has a
    /// key has a copy of it; if there is no memory for the copy, the error is out of memory. The kind, the
    /// key and the payload alone determine the result.
    #[inline(always)]
    pub fn value(self, alloc: Global) -> Result<RawBsonRef<'a>>
        ensures meaning { (m : Meaning) × Means (frame_of self.entry) m × TellsMeaning result m }
        ensures one_meaning { (m : Meaning) × IsTheMeaning (frame_of self.entry) m }
    {
        match self.resolve() {
            Ok(value) => Ok(value),
            Err(error) => Err(error.into_error(alloc)),
        }
    }

    /// The same as `value`.
    pub fn try_into_ref(self, alloc: Global) -> Result<RawBsonRef<'a>>
        ensures meaning { (m : Meaning) × Means (frame_of self.entry) m × TellsMeaning result m }
        ensures one_meaning { (m : Meaning) × IsTheMeaning (frame_of self.entry) m }
    {
        self.value(alloc)
    }
}
