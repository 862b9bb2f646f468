//! Accessors of an owned value, one for each kind.
use crate::bson::{RawBson, binary_ref, pointer_ref, regex_ref};
use bson_model::{DateTime, DoubleBits, ObjectId, Timestamp};
use raw_view::{
    RawArray, RawBinaryRef, RawDbPointerRef, RawDocument, RawJavaScriptCodeWithScopeRef,
    RawRegexRef,
};

impl RawBson {
    ghost use Rattle.raw_bson.specs.Owned.{owned_value};
    ghost use Rattle.raw_view.specs.Errors.Access.{Shows};
    ghost use Rattle.raw_view.specs.Meaning.Typed as typed;
    ghost use Rattle.raw_view.specs.declared.element_type.ElementType.TheVariants as variants;

    /// The value of this kind: the double; `None` for every other kind.
    pub fn as_f64(&self) -> Option<DoubleBits>
        ensures meaning { Shows typed.f64_value variants.Double (owned_value self.now) result }
    {
        match self {
            RawBson::Double(x) => Some(*x),
            _ => None,
        }
    }

    /// The value of this kind: the text; `None` for every other kind.
    /// ```
    /// assert_eq!(rt; RawBson::from_str(alloc, "Ada")?.as_str(), Some("Ada"));
    /// ```
    pub fn as_str(&self) -> Option<&str>
        ensures meaning { Shows typed.str_value variants.String (owned_value self.now) result }
    {
        match self {
            RawBson::String(x) => Some(x.as_str()),
            _ => None,
        }
    }

    /// The value of this kind: the array; `None` for every other kind.
    pub fn as_array(&self) -> Option<RawArray<'_>>
        ensures meaning { Shows typed.array_value variants.Array (owned_value self.now) result }
    {
        match self {
            RawBson::Array(x) => Some(x.as_ref()),
            _ => None,
        }
    }

    /// The value of this kind: the nested document; `None` for every other kind.
    pub fn as_document(&self) -> Option<RawDocument<'_>>
        ensures meaning { Shows typed.document_value variants.EmbeddedDocument (owned_value self.now) result }
    {
        match self {
            RawBson::Document(x) => Some(x.as_ref()),
            _ => None,
        }
    }

    /// The value of this kind: the boolean; `None` for every other kind.
    pub fn as_bool(&self) -> Option<bool>
        ensures meaning { Shows typed.bool_value variants.Boolean (owned_value self.now) result }
    {
        match self {
            RawBson::Boolean(x) => Some(*x),
            _ => None,
        }
    }

    /// The value of this kind: the number; `None` for every other kind.
    /// ```
    /// assert_eq!(rt; RawBson::from(7).as_i32(), Some(7));
    /// assert_eq!(rt; RawBson::Null.as_i32(), None);
    /// ```
    pub fn as_i32(&self) -> Option<i32>
        ensures meaning { Shows typed.i32_value variants.Int32 (owned_value self.now) result }
    {
        match self {
            RawBson::Int32(x) => Some(*x),
            _ => None,
        }
    }

    /// The value of this kind: the number; `None` for every other kind.
    pub fn as_i64(&self) -> Option<i64>
        ensures meaning { Shows typed.i64_value variants.Int64 (owned_value self.now) result }
    {
        match self {
            RawBson::Int64(x) => Some(*x),
            _ => None,
        }
    }

    /// The value of this kind: the identifier; `None` for every other kind.
    pub fn as_object_id(&self) -> Option<ObjectId>
        ensures meaning { Shows typed.object_id_value variants.ObjectId (owned_value self.now) result }
    {
        match self {
            RawBson::ObjectId(x) => Some(*x),
            _ => None,
        }
    }

    /// The value of this kind: the bytes and their subtype; `None` for every other kind.
    pub fn as_binary(&self) -> Option<RawBinaryRef<'_>>
        ensures meaning { Shows typed.binary_value variants.Binary (owned_value self.now) result }
    {
        match self {
            RawBson::Binary(x) => Some(binary_ref(x)),
            _ => None,
        }
    }

    /// The value of this kind: the pattern and the options; `None` for every other kind.
    pub fn as_regex(&self) -> Option<RawRegexRef<'_>>
        ensures meaning { Shows typed.regex_value variants.RegularExpression (owned_value self.now) result }
    {
        match self {
            RawBson::RegularExpression(x) => Some(regex_ref(x)),
            _ => None,
        }
    }

    /// The value of this kind: the time; `None` for every other kind.
    pub fn as_datetime(&self) -> Option<DateTime>
        ensures meaning { Shows typed.datetime_value variants.DateTime (owned_value self.now) result }
    {
        match self {
            RawBson::DateTime(x) => Some(*x),
            _ => None,
        }
    }

    /// The value of this kind: the symbol's text; `None` for every other kind.
    pub fn as_symbol(&self) -> Option<&str>
        ensures meaning { Shows typed.symbol_value variants.Symbol (owned_value self.now) result }
    {
        match self {
            RawBson::Symbol(x) => Some(x.as_str()),
            _ => None,
        }
    }

    /// The value of this kind: the timestamp; `None` for every other kind.
    pub fn as_timestamp(&self) -> Option<Timestamp>
        ensures meaning { Shows typed.timestamp_value variants.Timestamp (owned_value self.now) result }
    {
        match self {
            RawBson::Timestamp(x) => Some(*x),
            _ => None,
        }
    }

    /// `Some` if and only if the value is null.
    pub fn as_null(&self) -> Option<()>
        ensures meaning { Shows typed.null_value variants.Null (owned_value self.now) result }
    {
        match self {
            RawBson::Null => Some(()),
            _ => None,
        }
    }

    /// The value of this kind: the pointer; `None` for every other kind.
    pub fn as_db_pointer(&self) -> Option<RawDbPointerRef<'_>>
        ensures meaning { Shows typed.db_pointer_value variants.DbPointer (owned_value self.now) result }
    {
        match self {
            RawBson::DbPointer(x) => Some(pointer_ref(x)),
            _ => None,
        }
    }

    /// The value of this kind: the code; `None` for every other kind.
    pub fn as_javascript(&self) -> Option<&str>
        ensures meaning { Shows typed.javascript_value variants.JavaScriptCode (owned_value self.now) result }
    {
        match self {
            RawBson::JavaScriptCode(x) => Some(x.as_str()),
            _ => None,
        }
    }

    /// The value of this kind: the code and its scope; `None` for every other kind.
    pub fn as_javascript_with_scope(&self) -> Option<RawJavaScriptCodeWithScopeRef<'_>>
        ensures meaning { Shows typed.javascript_with_scope_value variants.JavaScriptCodeWithScope (owned_value self.now) result }
    {
        match self {
            RawBson::JavaScriptCodeWithScope(x) => Some(x.as_ref()),
            _ => None,
        }
    }
}
