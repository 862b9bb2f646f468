//! Borrowed values.
ghost use Rattle.std.specs.Prelude.{◌≡◌, IfOk, IfErr};

use crate::array::RawArray;
use crate::document::RawDocument;
use crate::element_type::ElementType;
use crate::error::Result;
use bson_model::{Binary, BinarySubtype, DateTime, Decimal128, DoubleBits, ObjectId, Timestamp};
use std::alloc::Global;

/// A value that borrows its parts from a document's bytes. BSON 1.1, `element`.
/// ```
/// let value = RawBsonRef::from("x");
/// assert_eq!(rt; value.as_str(), Some("x"));
/// assert_eq!(rt; value.as_i32(), None);
/// ```
#[derive(Clone, Copy, Debug, PartialEq, Eq)]
pub enum RawBsonRef<'a> {
    /// 64 bits of a floating point number
    Double(DoubleBits),
    /// UTF-8 text
    String(&'a str),
    /// an array
    Array(RawArray<'a>),
    /// a nested document
    Document(RawDocument<'a>),
    /// false or true
    Boolean(bool),
    /// null
    Null,
    /// a regular expression
    RegularExpression(RawRegexRef<'a>),
    /// JavaScript code
    JavaScriptCode(&'a str),
    /// JavaScript code with a scope (deprecated)
    JavaScriptCodeWithScope(RawJavaScriptCodeWithScopeRef<'a>),
    /// a signed 32-bit number
    Int32(i32),
    /// a signed 64-bit number
    Int64(i64),
    /// a timestamp of replication
    Timestamp(Timestamp),
    /// bytes with a subtype
    Binary(RawBinaryRef<'a>),
    /// twelve bytes that name an object
    ObjectId(ObjectId),
    /// milliseconds since the epoch
    DateTime(DateTime),
    /// a symbol (deprecated)
    Symbol(&'a str),
    /// 128-bit decimal floating point
    Decimal128(Decimal128),
    /// undefined (deprecated)
    Undefined,
    /// greater than every other value
    MaxKey,
    /// less than every other value
    MinKey,
    /// a pointer to an object of a database (deprecated)
    DbPointer(RawDbPointerRef<'a>),
}

impl<'a> RawBsonRef<'a> {
    ghost use Rattle.raw_view.specs.Meaning.{kind_of_raw};
    ghost use Rattle.raw_view.specs.Meaning.Value.{value_of};

    /// The kind of the value.
    pub fn element_type(self) -> ElementType
        ensures { result ≡ kind_of_raw (value_of self.entry) }
    {
        match self {
            RawBsonRef::Double(_) => ElementType::Double,
            RawBsonRef::String(_) => ElementType::String,
            RawBsonRef::Array(_) => ElementType::Array,
            RawBsonRef::Document(_) => ElementType::EmbeddedDocument,
            RawBsonRef::Boolean(_) => ElementType::Boolean,
            RawBsonRef::Null => ElementType::Null,
            RawBsonRef::RegularExpression(_) => ElementType::RegularExpression,
            RawBsonRef::JavaScriptCode(_) => ElementType::JavaScriptCode,
            RawBsonRef::JavaScriptCodeWithScope(_) => ElementType::JavaScriptCodeWithScope,
            RawBsonRef::Int32(_) => ElementType::Int32,
            RawBsonRef::Int64(_) => ElementType::Int64,
            RawBsonRef::Timestamp(_) => ElementType::Timestamp,
            RawBsonRef::Binary(_) => ElementType::Binary,
            RawBsonRef::ObjectId(_) => ElementType::ObjectId,
            RawBsonRef::DateTime(_) => ElementType::DateTime,
            RawBsonRef::Symbol(_) => ElementType::Symbol,
            RawBsonRef::Decimal128(_) => ElementType::Decimal128,
            RawBsonRef::Undefined => ElementType::Undefined,
            RawBsonRef::MaxKey => ElementType::MaxKey,
            RawBsonRef::MinKey => ElementType::MinKey,
            RawBsonRef::DbPointer(_) => ElementType::DbPointer,
        }
    }
}

/// Bytes with a subtype, for an old binary without the inner length. BSON 1.1, `binary`.
/// ```
/// let binary = RawBinaryRef { subtype: BinarySubtype::Generic, bytes: b"ab" };
/// assert_eq!(rt; RawBsonRef::from(binary).as_binary(), Some(binary));
/// ```
#[derive(Clone, Copy, Debug, PartialEq, Eq)]
pub struct RawBinaryRef<'a> {
    /// what the bytes are
    pub subtype: BinarySubtype,
    /// the bytes
    pub bytes: &'a [u8],
}

impl RawBinaryRef<'_> {
    ghost use Rattle.raw_view.specs.Errors.{IsOutOfMemory};

    /// A copy that owns its bytes. The only error is out of memory.
    /// ```
    /// let binary = RawBinaryRef { subtype: BinarySubtype::Generic, bytes: b"ab" };
    /// assert_eq!(rt; binary.to_binary(alloc)?.bytes.as_slice(), b"ab".as_slice());
    /// ```
    pub fn to_binary(self, alloc: Global) -> Result<Binary>
        ensures subtype { IfOk result (λ b. b.subtype ≡ self.entry.subtype) }
        ensures bytes { IfOk result (λ b. b.bytes.items ≡ self.entry.bytes.now) }
        ensures err { IfErr result IsOutOfMemory }
    {
        Ok(Binary {
            subtype: self.subtype,
            bytes: Vec::from_slice(alloc, self.bytes)?,
        })
    }
}

/// A regular expression: pattern and options as they are. BSON 1.1, `regex`.
/// ```
/// let regex = RawRegexRef { pattern: "^a", options: "i" };
/// assert_eq!(rt; RawBsonRef::from(regex).as_regex(), Some(regex));
/// ```
#[derive(Clone, Copy, Debug, PartialEq, Eq)]
pub struct RawRegexRef<'a> {
    /// the pattern
    pub pattern: &'a str,
    /// the options
    pub options: &'a str,
}

/// JavaScript code with a scope. BSON 1.1, `code_w_s`.
/// ```
/// let scope = RawDocument::from_bytes(b"\x05\0\0\0\0")?;
/// let value = RawBsonRef::JavaScriptCodeWithScope(RawJavaScriptCodeWithScopeRef { code: "f()", scope });
/// assert_eq!(rt; value.element_type(), ElementType::JavaScriptCodeWithScope);
/// ```
#[derive(Clone, Copy, Debug, PartialEq, Eq)]
pub struct RawJavaScriptCodeWithScopeRef<'a> {
    /// the code
    pub code: &'a str,
    /// the variables that the code sees
    pub scope: RawDocument<'a>,
}

/// A pointer to an object of a database. BSON 1.1, DBPointer.
/// ```
/// let pointer = RawDbPointerRef::new("db.c", ObjectId::from_bytes([7; 12]));
/// assert_eq!(rt; pointer.namespace(), "db.c");
/// ```
#[derive(Clone, Copy, Debug, PartialEq, Eq)]
pub struct RawDbPointerRef<'a> {
    namespace: &'a str,
    id: ObjectId,
}

impl<'a> RawDbPointerRef<'a> {
    ghost use Rattle.raw_view.specs.Meaning.Value.{namespace_of, id_of};
    ghost use Rattle.bson_model.specs.Scalars.{bytes_of_object_id};

    /// The pointer to the object of this identifier in this namespace.
    pub fn new(namespace: &'a str, id: ObjectId) -> RawDbPointerRef<'a>
        ensures namespace { namespace_of result ≡ namespace.now }
        ensures id { id_of result ≡ bytes_of_object_id id }
    {
        RawDbPointerRef { namespace, id }
    }

    /// The namespace, a database and a collection.
    pub fn namespace(self) -> &'a str
        ensures { result.now ≡ namespace_of self.entry }
    {
        self.namespace
    }

    /// The identifier of the object.
    pub fn id(self) -> ObjectId
        ensures { bytes_of_object_id result ≡ id_of self.entry }
    {
        self.id
    }
}
