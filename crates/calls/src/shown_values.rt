//! The written forms of values that are borrowed or owned. A value is the name of its variant, and what it holds; a document or an
//! array inside it is its bytes.

use crate::shown::Shown;
use raw_bson::{
    Binary, BinarySubtype, CowRawArray, CowRawDocument, DateTime, DbPointer, Decimal128,
    DoubleBits, ElementType, Holder, ObjectId, RawArray, RawArrayBuf, RawBinaryRef, RawBson,
    RawBsonRef, RawDbPointerRef, RawDocument, RawDocumentBuf, RawElement,
    RawJavaScriptCodeWithScope, RawJavaScriptCodeWithScopeRef, RawLevel, RawRegexRef, Regex,
    Timestamp,
};
use std::alloc::AllocError;

impl Shown for DoubleBits {
    fn show(&self, out: &mut String) -> Result<(), AllocError> {
        let bits = self.0;
        write!(out, "{bits:016x}")
    }
}

impl Shown for ObjectId {
    fn show(&self, out: &mut String) -> Result<(), AllocError> {
        self.bytes().as_slice().show(out)
    }
}

impl Shown for Decimal128 {
    fn show(&self, out: &mut String) -> Result<(), AllocError> {
        self.bytes().as_slice().show(out)
    }
}

impl Shown for DateTime {
    fn show(&self, out: &mut String) -> Result<(), AllocError> {
        self.timestamp_millis().show(out)
    }
}

impl Shown for Timestamp {
    fn show(&self, out: &mut String) -> Result<(), AllocError> {
        let time = self.time;
        let increment = self.increment;
        write!(out, "{time} {increment}")
    }
}

impl Shown for BinarySubtype {
    fn show(&self, out: &mut String) -> Result<(), AllocError> {
        write!(out, "{self:?}")
    }
}

impl Shown for ElementType {
    fn show(&self, out: &mut String) -> Result<(), AllocError> {
        write!(out, "{self:?}")
    }
}

impl Shown for RawBinaryRef<'_> {
    fn show(&self, out: &mut String) -> Result<(), AllocError> {
        self.subtype.show(out)?;
        out.push_str(" ")?;
        self.bytes.show(out)
    }
}

impl Shown for Binary {
    fn show(&self, out: &mut String) -> Result<(), AllocError> {
        self.subtype.show(out)?;
        out.push_str(" ")?;
        self.bytes.show(out)
    }
}

impl Shown for RawRegexRef<'_> {
    fn show(&self, out: &mut String) -> Result<(), AllocError> {
        self.pattern.show(out)?;
        out.push_str(" ")?;
        self.options.show(out)
    }
}

impl Shown for Regex {
    fn show(&self, out: &mut String) -> Result<(), AllocError> {
        self.pattern.show(out)?;
        out.push_str(" ")?;
        self.options.show(out)
    }
}

impl Shown for RawDbPointerRef<'_> {
    fn show(&self, out: &mut String) -> Result<(), AllocError> {
        self.namespace().show(out)?;
        out.push_str(" ")?;
        self.id().show(out)
    }
}

impl Shown for DbPointer {
    fn show(&self, out: &mut String) -> Result<(), AllocError> {
        self.namespace.show(out)?;
        out.push_str(" ")?;
        self.id.show(out)
    }
}

impl Shown for RawJavaScriptCodeWithScopeRef<'_> {
    fn show(&self, out: &mut String) -> Result<(), AllocError> {
        self.code.show(out)?;
        out.push_str(" ")?;
        self.scope.show(out)
    }
}

impl Shown for RawJavaScriptCodeWithScope {
    fn show(&self, out: &mut String) -> Result<(), AllocError> {
        self.code.show(out)?;
        out.push_str(" ")?;
        self.scope.show(out)
    }
}

impl Shown for RawDocument<'_> {
    fn show(&self, out: &mut String) -> Result<(), AllocError> {
        self.as_bytes().show(out)
    }
}

impl Shown for RawArray<'_> {
    fn show(&self, out: &mut String) -> Result<(), AllocError> {
        self.as_bytes().show(out)
    }
}

impl Shown for RawDocumentBuf {
    fn show(&self, out: &mut String) -> Result<(), AllocError> {
        self.as_bytes().show(out)
    }
}

impl Shown for RawArrayBuf {
    fn show(&self, out: &mut String) -> Result<(), AllocError> {
        self.as_bytes().show(out)
    }
}

impl Shown for CowRawDocument<'_> {
    fn show(&self, out: &mut String) -> Result<(), AllocError> {
        out.push_str(match self {
            CowRawDocument::Borrowed(_) => "Borrowed ",
            CowRawDocument::Owned(_) => "Owned ",
        })?;
        self.as_ref().show(out)
    }
}

impl Shown for CowRawArray<'_> {
    fn show(&self, out: &mut String) -> Result<(), AllocError> {
        out.push_str(match self {
            CowRawArray::Borrowed(_) => "Borrowed ",
            CowRawArray::Owned(_) => "Owned ",
        })?;
        self.as_ref().show(out)
    }
}

/// An element's kind, key and length.
impl Shown for RawElement<'_> {
    fn show(&self, out: &mut String) -> Result<(), AllocError> {
        self.element_type().show(out)?;
        out.push_str(" ")?;
        self.key().show(out)?;
        out.push_str(" ")?;
        self.len().show(out)
    }
}

/// A key and its value.
impl<T: Shown> Shown for (&str, T) {
    fn show(&self, out: &mut String) -> Result<(), AllocError> {
        self.0.show(out)?;
        out.push_str(" ")?;
        self.1.show(out)
    }
}

/// What the level is inside, and its bytes.
impl Shown for RawLevel<'_> {
    fn show(&self, out: &mut String) -> Result<(), AllocError> {
        match self.holder {
            Holder::Document => out.push_str("Document ")?,
            Holder::Array => out.push_str("Array ")?,
            Holder::Code(code) => {
                show_named("Code", &code, out)?;
                out.push_str(" ")?;
            }
        }
        self.document.show(out)
    }
}

/// Writes the name of a variant, and what it holds.
pub fn show_named<T: Shown>(name: &str, value: &T, out: &mut String) -> Result<(), AllocError> {
    out.push_str(name)?;
    out.push_str(" ")?;
    value.show(out)
}

fn show_number(value: RawBsonRef<'_>, out: &mut String) -> Result<(), AllocError> {
    match value {
        RawBsonRef::Double(x) => show_named("Double", &x, out),
        RawBsonRef::Boolean(x) => show_named("Boolean", &x, out),
        RawBsonRef::Int32(x) => show_named("Int32", &x, out),
        RawBsonRef::Int64(x) => show_named("Int64", &x, out),
        RawBsonRef::Timestamp(x) => show_named("Timestamp", &x, out),
        RawBsonRef::ObjectId(x) => show_named("ObjectId", &x, out),
        RawBsonRef::DateTime(x) => show_named("DateTime", &x, out),
        RawBsonRef::Decimal128(x) => show_named("Decimal128", &x, out),
        _ => Ok(()),
    }
}

fn show_text(value: RawBsonRef<'_>, out: &mut String) -> Result<(), AllocError> {
    match value {
        RawBsonRef::String(x) => show_named("String", &x, out),
        RawBsonRef::RegularExpression(x) => show_named("RegularExpression", &x, out),
        RawBsonRef::JavaScriptCode(x) => show_named("JavaScriptCode", &x, out),
        RawBsonRef::JavaScriptCodeWithScope(x) => show_named("JavaScriptCodeWithScope", &x, out),
        RawBsonRef::Binary(x) => show_named("Binary", &x, out),
        RawBsonRef::Symbol(x) => show_named("Symbol", &x, out),
        RawBsonRef::DbPointer(x) => show_named("DbPointer", &x, out),
        _ => show_number(value, out),
    }
}

impl Shown for RawBsonRef<'_> {
    fn show(&self, out: &mut String) -> Result<(), AllocError> {
        match *self {
            RawBsonRef::Array(x) => show_named("Array", &x, out),
            RawBsonRef::Document(x) => show_named("Document", &x, out),
            RawBsonRef::Null => out.push_str("Null"),
            RawBsonRef::Undefined => out.push_str("Undefined"),
            RawBsonRef::MaxKey => out.push_str("MaxKey"),
            RawBsonRef::MinKey => out.push_str("MinKey"),
            value => show_text(value, out),
        }
    }
}

impl Shown for RawBson {
    fn show(&self, out: &mut String) -> Result<(), AllocError> {
        self.as_raw_bson_ref().show(out)
    }
}
