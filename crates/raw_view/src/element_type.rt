//! The kinds of elements, and their tags.
ghost use Rattle.std.specs.Prelude.{◌≡◌, ◌≢◌, ◌↔◌, MatchOption, Some};
ghost use Rattle.raw_view.specs.Frame.Kind.{kind_text, tag_of};
ghost use Rattle.raw_view.specs.declared.element_type.ElementType.{ElementType};

use std::fmt;

/// The kinds of elements. BSON 1.1, `element`.
/// ```
/// assert_eq!(rt; ElementType::from(2), Some(ElementType::String));
/// assert_eq!(rt; ElementType::Int32.to_tag(), 16);
/// ```
#[derive(Clone, Copy, Debug, PartialEq, Eq)]
pub enum ElementType {
    /// 64-bit floating point, tag 01
    Double,
    /// UTF-8 text, tag 02
    String,
    /// a nested document, tag 03
    EmbeddedDocument,
    /// an array, tag 04
    Array,
    /// bytes with a subtype, tag 05
    Binary,
    /// undefined (deprecated), tag 06
    Undefined,
    /// twelve bytes, tag 07
    ObjectId,
    /// false or true, tag 08
    Boolean,
    /// milliseconds since the epoch, tag 09
    DateTime,
    /// null, tag 0A
    Null,
    /// pattern and options, tag 0B
    RegularExpression,
    /// namespace and ObjectId (deprecated), tag 0C
    DbPointer,
    /// JavaScript code, tag 0D
    JavaScriptCode,
    /// a symbol (deprecated), tag 0E
    Symbol,
    /// JavaScript code with a scope (deprecated), tag 0F
    JavaScriptCodeWithScope,
    /// a signed 32-bit number, tag 10
    Int32,
    /// a timestamp of replication, tag 11
    Timestamp,
    /// a signed 64-bit number, tag 12
    Int64,
    /// 128-bit decimal floating point, tag 13
    Decimal128,
    /// greater than every other value, tag 7F
    MaxKey,
    /// less than every other value, tag FF
    MinKey,
}

impl ElementType {
    /// The kind with this tag; `None` for a byte that is no tag.
    #[inline(always)]
    pub fn from(tag: u8) -> Option<ElementType>
        ensures of_its_tag { (kind : ElementType) → (result ≡ Some kind) ↔ (tag ≡ tag_of kind) }
        ensures cases { MatchOption result ((kind : ElementType) → tag ≢ tag_of kind)
            (λ kind. tag ≡ tag_of kind) }
    {
        match tag {
            0x01 => Some(ElementType::Double),
            0x02 => Some(ElementType::String),
            0x03 => Some(ElementType::EmbeddedDocument),
            0x04 => Some(ElementType::Array),
            0x05 => Some(ElementType::Binary),
            0x06 => Some(ElementType::Undefined),
            0x07 => Some(ElementType::ObjectId),
            0x08 => Some(ElementType::Boolean),
            0x09 => Some(ElementType::DateTime),
            0x0A => Some(ElementType::Null),
            0x0B => Some(ElementType::RegularExpression),
            0x0C => Some(ElementType::DbPointer),
            0x0D => Some(ElementType::JavaScriptCode),
            0x0E => Some(ElementType::Symbol),
            0x0F => Some(ElementType::JavaScriptCodeWithScope),
            0x10 => Some(ElementType::Int32),
            0x11 => Some(ElementType::Timestamp),
            0x12 => Some(ElementType::Int64),
            0x13 => Some(ElementType::Decimal128),
            0x7F => Some(ElementType::MaxKey),
            0xFF => Some(ElementType::MinKey),
            _ => None,
        }
    }

    /// The tag of the kind.
    #[inline(always)]
    pub fn to_tag(self) -> u8
        ensures { result ≡ tag_of self }
    {
        match self {
            ElementType::Double => 0x01,
            ElementType::String => 0x02,
            ElementType::EmbeddedDocument => 0x03,
            ElementType::Array => 0x04,
            ElementType::Binary => 0x05,
            ElementType::Undefined => 0x06,
            ElementType::ObjectId => 0x07,
            ElementType::Boolean => 0x08,
            ElementType::DateTime => 0x09,
            ElementType::Null => 0x0A,
            ElementType::RegularExpression => 0x0B,
            ElementType::DbPointer => 0x0C,
            ElementType::JavaScriptCode => 0x0D,
            ElementType::Symbol => 0x0E,
            ElementType::JavaScriptCodeWithScope => 0x0F,
            ElementType::Int32 => 0x10,
            ElementType::Timestamp => 0x11,
            ElementType::Int64 => 0x12,
            ElementType::Decimal128 => 0x13,
            ElementType::MaxKey => 0x7F,
            ElementType::MinKey => 0xFF,
        }
    }
}

/// The kind's name, as access errors print it.
impl fmt::Display for ElementType {
    ghost output = { λ kind. Some (kind_text kind) };

    fn fmt<W: fmt::Write>(&self, f: &mut fmt::Formatter<W>) -> fmt::Result {
        f.write_str(match self {
            ElementType::Double => "Double",
            ElementType::String => "String",
            ElementType::EmbeddedDocument => "EmbeddedDocument",
            ElementType::Array => "Array",
            ElementType::Binary => "Binary",
            ElementType::Undefined => "Undefined",
            ElementType::ObjectId => "ObjectId",
            ElementType::Boolean => "Boolean",
            ElementType::DateTime => "DateTime",
            ElementType::Null => "Null",
            ElementType::RegularExpression => "RegularExpression",
            ElementType::DbPointer => "DbPointer",
            ElementType::JavaScriptCode => "JavaScriptCode",
            ElementType::Symbol => "Symbol",
            ElementType::JavaScriptCodeWithScope => "JavaScriptCodeWithScope",
            ElementType::Int32 => "Int32",
            ElementType::Timestamp => "Timestamp",
            ElementType::Int64 => "Int64",
            ElementType::Decimal128 => "Decimal128",
            ElementType::MaxKey => "MaxKey",
            ElementType::MinKey => "MinKey",
        })
    }
}
