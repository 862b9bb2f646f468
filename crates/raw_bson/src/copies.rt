//! Copies of views and of borrowed values.
ghost use Rattle.std.specs.Prelude.{◌≡◌, ◌≤◌, ◌+◌, ◌-◌, ◌/◌, ℕ, List, length, IfOk, IfErr};
ghost use Rattle.std.specs.String.{string_bytes};
ghost use Rattle.raw_bson.specs.Copies.{CountsItems, CopiesMeaning, IsCopy};
ghost use Rattle.raw_view.specs.Document.{bytes_of};
ghost use Rattle.raw_view.specs.Frame.ElementSteps.{frame_of};
ghost use Rattle.raw_view.specs.Errors.{IsOutOfMemory};
ghost use Rattle.raw_view.specs.Meaning.{Meaning, Means, value};
ghost use Rattle.raw_view.specs.declared.bson_ref.RawBsonRef.TheVariants as ref;
ghost use Rattle.raw_view.specs.Meaning.Value.{value_of, array_bytes_of};

use crate::array_buf::RawArrayBuf;
use crate::bson::{RawBson, RawJavaScriptCodeWithScope};
use crate::document_buf::RawDocumentBuf;
use bson_model::Regex;
use raw_tree::copied_pointer;
use raw_view::{
    RawArray, RawBsonRef, RawDocument, RawElement, RawJavaScriptCodeWithScopeRef, Result,
};
use std::alloc::Global;

/// A copy of a view of a document.
/// ```
/// let document = RawDocument::from_bytes(b"\x0C\0\0\0\x10a\0\x01\0\0\0\0")?;
/// let copy = document.to_raw_document_buf(alloc)?;
/// assert_eq!(rt; copy.as_bytes(), document.as_bytes());
/// ```
pub trait ToRawDocumentBuf {
    /// The bytes of the document.
    ghost shown: { Self → List ℕ };

    /// A buffer with the same bytes. The only error is out of memory.
    fn to_raw_document_buf(self, alloc: Global) -> Result<RawDocumentBuf>
        ensures copied { IfOk result (λ copy. copy ≡ shown self) }
        ensures err { IfErr result IsOutOfMemory };
}

/// A copy of a view of an array.
pub trait ToRawArrayBuf {
    /// The bytes of the array.
    ghost shown: { Self → List ℕ };

    /// A buffer with the same bytes. Its count is the number of its items, including faults and the stop. The only
    /// error is out of memory.
    fn to_raw_array_buf(self, alloc: Global) -> Result<RawArrayBuf>
        ensures copied { IfOk result (λ copy. copy.bytes ≡ shown self) }
        ensures counted { IfOk result (λ copy. CountsItems (shown self) copy.count) }
        ensures err { IfErr result IsOutOfMemory };
}

/// A copy of a borrowed value.
/// ```
/// let value = RawBsonRef::from("x").to_raw_bson(alloc)?;
/// assert_eq!(rt; value.as_str(), Some("x"));
/// ```
pub trait ToRawBson {
    /// What is copied means a value, except that an element may mean a fault.
    ghost means: { Self → Meaning → Type 0 };

    /// The value with parts of its own. The options of a regular expression are put in order. The error is out of
    /// memory or, for an element, the fault that its payload means.
    fn to_raw_bson(self, alloc: Global) -> Result<RawBson>
        ensures copies { (m : Meaning) × means self m × CopiesMeaning m result };
}

impl ToRawDocumentBuf for RawDocument<'_> {
    ghost shown = { bytes_of };

    fn to_raw_document_buf(self, alloc: Global) -> Result<RawDocumentBuf>
        ensures copied { IfOk result (λ copy. copy ≡ bytes_of self.entry) }
        ensures err { IfErr result IsOutOfMemory }
    {
        RawDocumentBuf::from_bytes(Vec::from_slice(alloc, self.as_bytes())?)
    }
}

/// The number of items of the array, including faults and the stop. No value is decoded.
fn item_count(alloc: Global, array: RawArray<'_>) -> usize
    ensures bound { result ≤ (length (array_bytes_of array.entry) - 4) / 2 + 1 }
    ensures items { CountsItems (array_bytes_of array.entry) result }
{
    array.as_doc().iter_elements(alloc).count()
}

impl ToRawArrayBuf for RawArray<'_> {
    ghost shown = { array_bytes_of };

    fn to_raw_array_buf(self, alloc: Global) -> Result<RawArrayBuf>
        ensures copied { IfOk result (λ copy. copy.bytes ≡ array_bytes_of self.entry) }
        ensures counted { IfOk result (λ copy. CountsItems (array_bytes_of self.entry) copy.count) }
        ensures err { IfErr result IsOutOfMemory }
    {
        let document = self.as_doc().to_raw_document_buf(alloc)?;
        Ok(RawArrayBuf::counted(document, item_count(alloc, self)))
    }
}

fn copy_code(alloc: Global, code: RawJavaScriptCodeWithScopeRef<'_>) -> Result<RawBson>
    ensures copied { IfOk result (IsCopy (value_of (ref.JavaScriptCodeWithScope code.entry))) }
    ensures err { IfErr result IsOutOfMemory }
{
    Ok(RawBson::JavaScriptCodeWithScope(RawJavaScriptCodeWithScope {
        code: String::from_str(alloc, code.code)?,
        scope: code.scope.to_raw_document_buf(alloc)?,
    }))
}

impl ToRawBson for RawBsonRef<'_> {
    ghost means = { λ v m. m ≡ value (value_of v) };

    fn to_raw_bson(self, alloc: Global) -> Result<RawBson>
        ensures copied { IfOk result (IsCopy (value_of self.entry)) }
        ensures err { IfErr result IsOutOfMemory }
    {
        match self {
            RawBsonRef::Double(x) => Ok(RawBson::Double(x)),
            RawBsonRef::String(x) => Ok(RawBson::String(String::from_str(alloc, x)?)),
            RawBsonRef::Array(x) => Ok(RawBson::Array(x.to_raw_array_buf(alloc)?)),
            RawBsonRef::Document(x) => Ok(RawBson::Document(x.to_raw_document_buf(alloc)?)),
            RawBsonRef::Boolean(x) => Ok(RawBson::Boolean(x)),
            RawBsonRef::Null => Ok(RawBson::Null),
            RawBsonRef::RegularExpression(x) => {
                let regex = Regex::new(alloc, x.pattern, x.options)?;
                Ok(RawBson::RegularExpression(regex))
            }
            RawBsonRef::JavaScriptCode(x) => Ok(RawBson::JavaScriptCode(String::from_str(
                alloc, x,
            )?)),
            RawBsonRef::JavaScriptCodeWithScope(x) => copy_code(alloc, x),
            RawBsonRef::Int32(x) => Ok(RawBson::Int32(x)),
            RawBsonRef::Int64(x) => Ok(RawBson::Int64(x)),
            RawBsonRef::Timestamp(x) => Ok(RawBson::Timestamp(x)),
            RawBsonRef::Binary(x) => Ok(RawBson::Binary(x.to_binary(alloc)?)),
            RawBsonRef::ObjectId(x) => Ok(RawBson::ObjectId(x)),
            RawBsonRef::DateTime(x) => Ok(RawBson::DateTime(x)),
            RawBsonRef::Symbol(x) => Ok(RawBson::Symbol(String::from_str(alloc, x)?)),
            RawBsonRef::Decimal128(x) => Ok(RawBson::Decimal128(x)),
            RawBsonRef::Undefined => Ok(RawBson::Undefined),
            RawBsonRef::MaxKey => Ok(RawBson::MaxKey),
            RawBsonRef::MinKey => Ok(RawBson::MinKey),
            RawBsonRef::DbPointer(x) => Ok(RawBson::DbPointer(copied_pointer(alloc, x)?)),
        }
    }
}

impl ToRawBson for RawElement<'_> {
    ghost means = { λ e m. Means (frame_of e) m };

    fn to_raw_bson(self, alloc: Global) -> Result<RawBson>
        ensures copies { (m : Meaning) × Means (frame_of self.entry) m × CopiesMeaning m result }
    {
        match self.value(alloc) {
            Ok(value) => value.to_raw_bson(alloc),
            Err(error) => Err(error),
        }
    }
}
