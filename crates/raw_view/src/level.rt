//! The level that a value holds: a nested document, an array or a scope.
ghost use Rattle.raw_view.specs.Meaning.Value.{HoldsLevel, value_of};

use crate::bson_ref::RawBsonRef;
use crate::document::RawDocument;

/// What holds a level: a document, an array, or this code, whose scope the level is.
#[derive(Clone, Copy, Debug, PartialEq, Eq)]
pub enum Holder<'a> {
    /// a nested document
    Document,
    /// an array
    Array,
    /// JavaScript code with a scope (deprecated)
    Code(&'a str),
}

/// A level that a value holds. The elements of an array are read as those of a document.
/// ```
/// let scope = RawDocument::from_bytes(b"\x05\0\0\0\0")?;
/// let level = RawLevel { document: scope, holder: Holder::Code("f()") };
/// let code = RawJavaScriptCodeWithScopeRef { code: "f()", scope };
/// assert_eq!(rt; RawBsonRef::JavaScriptCodeWithScope(code).level(), Some(level));
/// ```
#[derive(Clone, Copy, Debug, PartialEq, Eq)]
pub struct RawLevel<'a> {
    /// the bytes of the document, the array or the scope
    pub document: RawDocument<'a>,
    /// what holds it
    pub holder: Holder<'a>,
}

impl<'a> RawBsonRef<'a> {
    /// The level that the value holds, if it is a document, an array or a code with scope. BSON 1.1, `element`.
    /// ```
    /// let document = RawDocument::from_bytes(b"\x05\0\0\0\0")?;
    /// let array = RawBsonRef::Array(RawArray::from_doc(document));
    /// assert_eq!(rt; array.level(), Some(RawLevel { document, holder: Holder::Array }));
    /// assert_eq!(rt; RawBsonRef::Null.level(), None);
    /// ```
    #[inline(always)]
    pub fn level(self) -> Option<RawLevel<'a>>
        ensures { HoldsLevel (value_of self.entry) result }
    {
        let (document, holder) = match self {
            RawBsonRef::Document(document) => (document, Holder::Document),
            RawBsonRef::Array(array) => (array.as_doc(), Holder::Array),
            RawBsonRef::JavaScriptCodeWithScope(code) => (code.scope, Holder::Code(code.code)),
            _ => return None,
        };
        Some(RawLevel { document, holder })
    }
}
