//! Values that own their parts.
ghost use Rattle.std.specs.Prelude.{◌≡◌, IfOk, IfErr};
ghost use Rattle.std.specs.String.{string_bytes};
ghost use Rattle.std.specs.Borrow.{sem};
ghost use Rattle.raw_bson.specs.Lending.{HoldsArray, HoldsDocument, LendsArray, LendsDocument};
ghost use Rattle.raw_view.specs.Meaning.{single};
ghost use Rattle.bson_model.specs.Leaf.{string};
ghost use Rattle.raw_view.specs.Document.{bytes_of};
ghost use Rattle.raw_view.specs.Errors.{IsOutOfMemory};
ghost use Rattle.raw_view.specs.Meaning.Value.{value_of, namespace_of, id_of};
ghost use Rattle.bson_model.specs.Scalars.{bytes_of_object_id};

use crate::array_buf::RawArrayBuf;
use crate::document_buf::RawDocumentBuf;
use bson_model::{Binary, DateTime, DbPointer, Decimal128, DoubleBits, ObjectId, Regex, Timestamp};
use raw_view::{
    ElementType, Error, ErrorKind, RawArray, RawBinaryRef, RawBsonRef, RawDbPointerRef,
    RawDocument, RawJavaScriptCodeWithScopeRef, RawRegexRef, Result,
};
use std::alloc::{AllocError, Global};

/// A value that owns its parts. BSON 1.1, `element`.
/// ```
/// let value = RawBson::from(7);
/// assert_eq!(rt; value.as_i32(), Some(7));
/// assert_eq!(rt; value.element_type(), ElementType::Int32);
/// ```
#[derive(Debug, PartialEq, Eq, Drop)]
pub enum RawBson {
    /// 64 bits of a floating point number
    Double(DoubleBits),
    /// UTF-8 text
    String(String),
    /// an array
    Array(RawArrayBuf),
    /// a nested document
    Document(RawDocumentBuf),
    /// false or true
    Boolean(bool),
    /// null
    Null,
    /// a regular expression
    RegularExpression(Regex),
    /// JavaScript code
    JavaScriptCode(String),
    /// JavaScript code with a scope (deprecated)
    JavaScriptCodeWithScope(RawJavaScriptCodeWithScope),
    /// a signed 32-bit number
    Int32(i32),
    /// a signed 64-bit number
    Int64(i64),
    /// a timestamp of replication
    Timestamp(Timestamp),
    /// bytes with a subtype
    Binary(Binary),
    /// twelve bytes that name an object
    ObjectId(ObjectId),
    /// milliseconds since the epoch
    DateTime(DateTime),
    /// a symbol (deprecated)
    Symbol(String),
    /// 128-bit decimal floating point
    Decimal128(Decimal128),
    /// undefined (deprecated)
    Undefined,
    /// greater than every other value
    MaxKey,
    /// less than every other value
    MinKey,
    /// a pointer to an object of a database (deprecated)
    DbPointer(DbPointer),
}

/// JavaScript code with a scope, owned. BSON 1.1, `code_w_s`.
/// ```
/// let scope = RawDocumentBuf::new(alloc)?;
/// let code = RawJavaScriptCodeWithScope { code: String::from_str(alloc, "f()")?, scope };
/// assert_eq!(rt; RawBson::from(code).element_type(), ElementType::JavaScriptCodeWithScope);
/// ```
#[derive(Debug, PartialEq, Eq, Drop)]
pub struct RawJavaScriptCodeWithScope {
    /// the code
    pub code: String,
    /// the variables that the code sees
    pub scope: RawDocumentBuf,
}

impl RawJavaScriptCodeWithScope {
    /// A view of the code and its scope.
    pub(crate) fn as_ref(&self) -> RawJavaScriptCodeWithScopeRef<'_>
        ensures code { result.code.now ≡ string_bytes self.now.code }
        ensures scope { bytes_of result.scope ≡ self.now.scope }
    {
        RawJavaScriptCodeWithScopeRef {
            code: self.code.as_str(),
            scope: self.scope.as_ref(),
        }
    }
}

impl Clone for RawJavaScriptCodeWithScope {
    ghost use Rattle.std.specs.Prelude.{◌≡◌};
    ghost use Rattle.std.specs.String.{string_bytes};

    ghost is_clone = { λ s t. (string_bytes t.code ≡ string_bytes s.code) × (t.scope ≡ s.scope) };

    fn clone(&self) -> std::result::Result<RawJavaScriptCodeWithScope, AllocError> {
        Ok(RawJavaScriptCodeWithScope {
            code: self.code.clone()?,
            scope: self.scope.clone()?,
        })
    }
}

fn clone_binary(binary: &Binary) -> std::result::Result<Binary, AllocError>
    ensures { IfOk result
        (λ b. (b.subtype ≡ binary.now.subtype) × (b.bytes.items ≡ binary.now.bytes.items)) }
{
    Ok(Binary {
        subtype: binary.subtype,
        bytes: Vec::from_slice(*binary.bytes.allocator(), &binary.bytes)?,
    })
}

fn clone_regex(regex: &Regex) -> std::result::Result<Regex, AllocError>
    ensures { IfOk result
        (λ r. (string_bytes r.pattern ≡ string_bytes regex.now.pattern)
        × (string_bytes r.options ≡ string_bytes regex.now.options)) }
{
    Ok(Regex {
        pattern: regex.pattern.clone()?,
        options: regex.options.clone()?,
    })
}

fn clone_pointer(pointer: &DbPointer) -> std::result::Result<DbPointer, AllocError>
    ensures { IfOk result
        (λ p. (string_bytes p.namespace ≡ string_bytes pointer.now.namespace)
        × (p.id ≡ pointer.now.id)) }
{
    Ok(DbPointer {
        namespace: pointer.namespace.clone()?,
        id: pointer.id,
    })
}

impl Clone for RawBson {
    ghost use Rattle.raw_bson.specs.Owned.{IsSameOwned};

    ghost is_clone = { IsSameOwned };

    fn clone(&self) -> std::result::Result<RawBson, AllocError> {
        match self {
            RawBson::Double(x) => Ok(RawBson::Double(*x)),
            RawBson::String(x) => Ok(RawBson::String(x.clone()?)),
            RawBson::Array(x) => Ok(RawBson::Array(x.clone()?)),
            RawBson::Document(x) => Ok(RawBson::Document(x.clone()?)),
            RawBson::Boolean(x) => Ok(RawBson::Boolean(*x)),
            RawBson::Null => Ok(RawBson::Null),
            RawBson::RegularExpression(x) => Ok(RawBson::RegularExpression(clone_regex(x)?)),
            RawBson::JavaScriptCode(x) => Ok(RawBson::JavaScriptCode(x.clone()?)),
            RawBson::JavaScriptCodeWithScope(x) => {
                Ok(RawBson::JavaScriptCodeWithScope(x.clone()?))
            }
            RawBson::Int32(x) => Ok(RawBson::Int32(*x)),
            RawBson::Int64(x) => Ok(RawBson::Int64(*x)),
            RawBson::Timestamp(x) => Ok(RawBson::Timestamp(*x)),
            RawBson::Binary(x) => Ok(RawBson::Binary(clone_binary(x)?)),
            RawBson::ObjectId(x) => Ok(RawBson::ObjectId(*x)),
            RawBson::DateTime(x) => Ok(RawBson::DateTime(*x)),
            RawBson::Symbol(x) => Ok(RawBson::Symbol(x.clone()?)),
            RawBson::Decimal128(x) => Ok(RawBson::Decimal128(*x)),
            RawBson::Undefined => Ok(RawBson::Undefined),
            RawBson::MaxKey => Ok(RawBson::MaxKey),
            RawBson::MinKey => Ok(RawBson::MinKey),
            RawBson::DbPointer(x) => Ok(RawBson::DbPointer(clone_pointer(x)?)),
        }
    }
}

pub(crate) fn binary_ref(binary: &Binary) -> RawBinaryRef<'_>
    ensures subtype { result.subtype ≡ binary.now.subtype }
    ensures bytes { result.bytes.now ≡ binary.now.bytes.items }
{
    RawBinaryRef {
        subtype: binary.subtype,
        bytes: &binary.bytes,
    }
}

pub(crate) fn regex_ref(regex: &Regex) -> RawRegexRef<'_>
    ensures pattern { result.pattern.now ≡ string_bytes regex.now.pattern }
    ensures options { result.options.now ≡ string_bytes regex.now.options }
{
    RawRegexRef {
        pattern: regex.pattern.as_str(),
        options: regex.options.as_str(),
    }
}

pub(crate) fn pointer_ref(pointer: &DbPointer) -> RawDbPointerRef<'_>
    ensures namespace { namespace_of result ≡ string_bytes pointer.now.namespace }
    ensures id { id_of result ≡ bytes_of_object_id pointer.now.id }
{
    RawDbPointerRef::new(pointer.namespace.as_str(), pointer.id)
}

impl RawBson {
    ghost use Rattle.raw_bson.specs.Owned.{owned_value};
    ghost use Rattle.raw_view.specs.Meaning.{kind_of_raw};
    ghost use Rattle.raw_bson.specs.declared.bson.RawBson.TheVariants as own;

    /// A view of the value. Nothing is copied.
    #[inline(always)]
    pub fn as_raw_bson_ref(&self) -> RawBsonRef<'_>
        ensures { value_of result ≡ owned_value self.now }
    {
        match self {
            RawBson::Double(x) => RawBsonRef::Double(*x),
            RawBson::String(x) => RawBsonRef::String(x.as_str()),
            RawBson::Array(x) => RawBsonRef::Array(x.as_ref()),
            RawBson::Document(x) => RawBsonRef::Document(x.as_ref()),
            RawBson::Boolean(x) => RawBsonRef::Boolean(*x),
            RawBson::Null => RawBsonRef::Null,
            RawBson::RegularExpression(x) => RawBsonRef::RegularExpression(regex_ref(x)),
            RawBson::JavaScriptCode(x) => RawBsonRef::JavaScriptCode(x.as_str()),
            RawBson::JavaScriptCodeWithScope(x) => {
                RawBsonRef::JavaScriptCodeWithScope(x.as_ref())
            }
            RawBson::Int32(x) => RawBsonRef::Int32(*x),
            RawBson::Int64(x) => RawBsonRef::Int64(*x),
            RawBson::Timestamp(x) => RawBsonRef::Timestamp(*x),
            RawBson::Binary(x) => RawBsonRef::Binary(binary_ref(x)),
            RawBson::ObjectId(x) => RawBsonRef::ObjectId(*x),
            RawBson::DateTime(x) => RawBsonRef::DateTime(*x),
            RawBson::Symbol(x) => RawBsonRef::Symbol(x.as_str()),
            RawBson::Decimal128(x) => RawBsonRef::Decimal128(*x),
            RawBson::Undefined => RawBsonRef::Undefined,
            RawBson::MaxKey => RawBsonRef::MaxKey,
            RawBson::MinKey => RawBsonRef::MinKey,
            RawBson::DbPointer(x) => RawBsonRef::DbPointer(pointer_ref(x)),
        }
    }

    /// The kind of the value.
    pub fn element_type(&self) -> ElementType
        ensures { result ≡ kind_of_raw (owned_value self.now) }
    {
        match self {
            RawBson::Double(_) => ElementType::Double,
            RawBson::String(_) => ElementType::String,
            RawBson::Array(_) => ElementType::Array,
            RawBson::Document(_) => ElementType::EmbeddedDocument,
            RawBson::Boolean(_) => ElementType::Boolean,
            RawBson::Null => ElementType::Null,
            RawBson::RegularExpression(_) => ElementType::RegularExpression,
            RawBson::JavaScriptCode(_) => ElementType::JavaScriptCode,
            RawBson::JavaScriptCodeWithScope(_) => ElementType::JavaScriptCodeWithScope,
            RawBson::Int32(_) => ElementType::Int32,
            RawBson::Int64(_) => ElementType::Int64,
            RawBson::Timestamp(_) => ElementType::Timestamp,
            RawBson::Binary(_) => ElementType::Binary,
            RawBson::ObjectId(_) => ElementType::ObjectId,
            RawBson::DateTime(_) => ElementType::DateTime,
            RawBson::Symbol(_) => ElementType::Symbol,
            RawBson::Decimal128(_) => ElementType::Decimal128,
            RawBson::Undefined => ElementType::Undefined,
            RawBson::MaxKey => ElementType::MaxKey,
            RawBson::MinKey => ElementType::MinKey,
            RawBson::DbPointer(_) => ElementType::DbPointer,
        }
    }

    /// A string with a copy of this text; the only error is out of memory.
    /// ```
    /// assert_eq!(rt; RawBson::from_str(alloc, "x")?.as_str(), Some("x"));
    /// ```
    pub fn from_str(alloc: Global, text: &str) -> Result<RawBson>
        ensures copied { IfOk result (λ v. owned_value v ≡ single (string text.now)) }
        ensures err { IfErr result IsOutOfMemory }
    {
        Ok(RawBson::String(String::from_str(alloc, text)?))
    }

    /// The array, to be changed; `None` for every other kind. The value remains an array.
    pub fn as_array_mut(&mut self) -> Option<&mut RawArrayBuf>
        // when the loan ends, the value holds the array as it is then; if none was lent, it is unchanged
        ensures* writes_back { sem 𝓛 (LendsArray self.entry result) }
        ensures value { HoldsArray self.old result }
    {
        match self {
            RawBson::Array(x) => Some(x),
            _ => None,
        }
    }

    /// The nested document, to be changed; `None` for every other kind. The value remains a document.
    pub fn as_document_mut(&mut self) -> Option<&mut RawDocumentBuf>
        // when the loan ends, the value holds the document as it is then; if none was lent, it is unchanged
        ensures* writes_back { sem 𝓛 (LendsDocument self.entry result) }
        ensures value { HoldsDocument self.old result }
    {
        match self {
            RawBson::Document(x) => Some(x),
            _ => None,
        }
    }
}
