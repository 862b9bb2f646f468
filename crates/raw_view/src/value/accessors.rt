//! Accessors of a borrowed value, one for each kind.
use crate::array::RawArray;
use crate::bson_ref::{
    RawBinaryRef, RawBsonRef, RawDbPointerRef, RawJavaScriptCodeWithScopeRef, RawRegexRef,
};
use crate::document::RawDocument;
use bson_model::{DateTime, DoubleBits, ObjectId, Timestamp};

impl<'a> RawBsonRef<'a> {
    ghost use Rattle.raw_view.specs.Errors.Access.{Shows};
    ghost use Rattle.raw_view.specs.Meaning.Typed as typed;
    ghost use Rattle.raw_view.specs.Meaning.Value.{value_of};
    ghost use Rattle.raw_view.specs.declared.element_type.ElementType.TheVariants as variants;

    /// The value of this kind: the double; `None` for every other kind.
    pub fn as_f64(self) -> Option<DoubleBits>
        ensures meaning { Shows typed.f64_value variants.Double (value_of self.entry) result }
    {
        match self {
            RawBsonRef::Double(x) => Some(x),
            _ => None,
        }
    }

    /// The value of this kind: the text; `None` for every other kind.
    /// ```
    /// assert_eq!(rt; RawBsonRef::String("Ada").as_str(), Some("Ada"));
    /// ```
    pub fn as_str(self) -> Option<&'a str>
        ensures meaning { Shows typed.str_value variants.String (value_of self.entry) result }
    {
        match self {
            RawBsonRef::String(x) => Some(x),
            _ => None,
        }
    }

    /// The value of this kind: the array; `None` for every other kind.
    pub fn as_array(self) -> Option<RawArray<'a>>
        ensures meaning { Shows typed.array_value variants.Array (value_of self.entry) result }
    {
        match self {
            RawBsonRef::Array(x) => Some(x),
            _ => None,
        }
    }

    /// The value of this kind: the nested document; `None` for every other kind.
    pub fn as_document(self) -> Option<RawDocument<'a>>
        ensures meaning { Shows typed.document_value variants.EmbeddedDocument (value_of self.entry) result }
    {
        match self {
            RawBsonRef::Document(x) => Some(x),
            _ => None,
        }
    }

    /// The value of this kind: the boolean; `None` for every other kind.
    pub fn as_bool(self) -> Option<bool>
        ensures meaning { Shows typed.bool_value variants.Boolean (value_of self.entry) result }
    {
        match self {
            RawBsonRef::Boolean(x) => Some(x),
            _ => None,
        }
    }

    /// The value of this kind: the number; `None` for every other kind.
    /// ```
    /// assert_eq!(rt; RawBsonRef::Int32(7).as_i32(), Some(7));
    /// assert_eq!(rt; RawBsonRef::Null.as_i32(), None);
    /// ```
    pub fn as_i32(self) -> Option<i32>
        ensures meaning { Shows typed.i32_value variants.Int32 (value_of self.entry) result }
    {
        match self {
            RawBsonRef::Int32(x) => Some(x),
            _ => None,
        }
    }

    /// The value of this kind: the number; `None` for every other kind.
    pub fn as_i64(self) -> Option<i64>
        ensures meaning { Shows typed.i64_value variants.Int64 (value_of self.entry) result }
    {
        match self {
            RawBsonRef::Int64(x) => Some(x),
            _ => None,
        }
    }

    /// The value of this kind: the identifier; `None` for every other kind.
    pub fn as_object_id(self) -> Option<ObjectId>
        ensures meaning { Shows typed.object_id_value variants.ObjectId (value_of self.entry) result }
    {
        match self {
            RawBsonRef::ObjectId(x) => Some(x),
            _ => None,
        }
    }

    /// The value of this kind: the bytes and their subtype; `None` for every other kind.
    pub fn as_binary(self) -> Option<RawBinaryRef<'a>>
        ensures meaning { Shows typed.binary_value variants.Binary (value_of self.entry) result }
    {
        match self {
            RawBsonRef::Binary(x) => Some(x),
            _ => None,
        }
    }

    /// The value of this kind: the regular expression; `None` for every other kind.
    pub fn as_regex(self) -> Option<RawRegexRef<'a>>
        ensures meaning { Shows typed.regex_value variants.RegularExpression (value_of self.entry) result }
    {
        match self {
            RawBsonRef::RegularExpression(x) => Some(x),
            _ => None,
        }
    }

    /// The value of this kind: the time; `None` for every other kind.
    pub fn as_datetime(self) -> Option<DateTime>
        ensures meaning { Shows typed.datetime_value variants.DateTime (value_of self.entry) result }
    {
        match self {
            RawBsonRef::DateTime(x) => Some(x),
            _ => None,
        }
    }

    /// The value of this kind: the symbol's text; `None` for every other kind.
    pub fn as_symbol(self) -> Option<&'a str>
        ensures meaning { Shows typed.symbol_value variants.Symbol (value_of self.entry) result }
    {
        match self {
            RawBsonRef::Symbol(x) => Some(x),
            _ => None,
        }
    }

    /// The value of this kind: the timestamp; `None` for every other kind.
    pub fn as_timestamp(self) -> Option<Timestamp>
        ensures meaning { Shows typed.timestamp_value variants.Timestamp (value_of self.entry) result }
    {
        match self {
            RawBsonRef::Timestamp(x) => Some(x),
            _ => None,
        }
    }

    /// `Some` if and only if the value is null.
    pub fn as_null(self) -> Option<()>
        ensures meaning { Shows typed.null_value variants.Null (value_of self.entry) result }
    {
        match self {
            RawBsonRef::Null => Some(()),
            _ => None,
        }
    }

    /// The value of this kind: the pointer; `None` for every other kind.
    pub fn as_db_pointer(self) -> Option<RawDbPointerRef<'a>>
        ensures meaning { Shows typed.db_pointer_value variants.DbPointer (value_of self.entry) result }
    {
        match self {
            RawBsonRef::DbPointer(x) => Some(x),
            _ => None,
        }
    }

    /// The value of this kind: the code; `None` for every other kind.
    pub fn as_javascript(self) -> Option<&'a str>
        ensures meaning { Shows typed.javascript_value variants.JavaScriptCode (value_of self.entry) result }
    {
        match self {
            RawBsonRef::JavaScriptCode(x) => Some(x),
            _ => None,
        }
    }

    /// The value of this kind: the code and its scope; `None` for every other kind.
    pub fn as_javascript_with_scope(self) -> Option<RawJavaScriptCodeWithScopeRef<'a>>
        ensures meaning { Shows typed.javascript_with_scope_value variants.JavaScriptCodeWithScope (value_of self.entry) result }
    {
        match self {
            RawBsonRef::JavaScriptCodeWithScope(x) => Some(x),
            _ => None,
        }
    }
}
