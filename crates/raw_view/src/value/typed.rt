//! What all typed getters share: a kind, its accessor, and the result for what a look-up returns.

ghost use Rattle.std.specs.Prelude.{◌≡◌, ◌≢◌, IfSome, IfNone};
ghost use Rattle.std.specs.Fmt.{decimal};
ghost use Rattle.raw_view.specs.Errors.Access.{Types, Accesses};
ghost use Rattle.raw_view.specs.Meaning.Typed as typed;
ghost use Rattle.raw_view.specs.declared.element_type.ElementType.TheVariants as variants;

use crate::access::{ValueAccessError, ValueAccessErrorKind, ValueAccessResult};
use crate::array::RawArray;
use crate::bson_ref::{RawBinaryRef, RawBsonRef, RawRegexRef};
use crate::document::RawDocument;
use crate::element_type::ElementType;
use crate::error::{ErrorKind, Result};
use bson_model::{DateTime, DoubleBits, ObjectId, Timestamp};
use std::alloc::Global;

/// A type whose values a typed getter returns.
pub(crate) trait Typed<'a>: Sized + Drop {
    ghost use Rattle.raw_view.specs.declared.element_type.ElementType.{ElementType};
    ghost use Rattle.raw_view.specs.Meaning.{RawValue, kind_of_raw};
    ghost use Rattle.raw_view.specs.Meaning.Value.{value_of};

    // the kind of the values, and the value that such a view shows
    ghost kind: { ElementType };

    ghost value_as: { Self → RawValue };

    /// The kind of its values.
    fn kind() -> ElementType
        ensures { result ≡ kind };

    /// The content of a value of this kind; `None` for every other kind.
    fn accessed(value: RawBsonRef<'a>) -> Option<Self>
        ensures some { IfSome result (λ x. value_of value.entry ≡ value_as x) }
        ensures none { IfNone result (kind_of_raw (value_of value.entry) ≢ kind) };
}

/// What a typed getter returns, without a key, for what a look-up returns.
fn value_or_kind<'a, T: Typed<'a>>(
    answer: Result<Option<RawBsonRef<'a>>>,
) -> std::result::Result<T, ValueAccessErrorKind>
    ensures { Types T.value_as T.kind answer.entry result }
{
    match answer {
        Ok(None) => Err(ValueAccessErrorKind::NotPresent),
        Ok(Some(value)) => match T::accessed(value) {
            Some(x) => Ok(x),
            None => Err(ValueAccessErrorKind::UnexpectedType {
                expected: T::kind(),
                actual: value.element_type(),
            }),
        },
        Err(error) => match error.kind {
            ErrorKind::OutOfMemory => Err(ValueAccessErrorKind::OutOfMemory),
            _ => Err(ValueAccessErrorKind::InvalidBson(error)),
        },
    }
}

/// The same, with the key that was asked for.
pub(crate) fn typed_at_key<'a, T: Typed<'a>>(
    alloc: Global,
    answer: Result<Option<RawBsonRef<'a>>>,
    key: &str,
) -> ValueAccessResult<T>
    ensures { Accesses T.value_as T.kind key.now answer.entry result }
{
    match value_or_kind(answer) {
        Ok(x) => Ok(x),
        Err(kind) => Err(ValueAccessError::new(alloc, kind, key)),
    }
}

/// The same, with the index in decimal.
pub(crate) fn typed_at_index<'a, T: Typed<'a>>(
    alloc: Global,
    answer: Result<Option<RawBsonRef<'a>>>,
    index: usize,
) -> ValueAccessResult<T>
    ensures { Accesses T.value_as T.kind (decimal index) answer.entry result }
{
    match value_or_kind(answer) {
        Ok(x) => Ok(x),
        Err(kind) => Err(ValueAccessError::at_index(alloc, kind, index)),
    }
}

impl<'a> Typed<'a> for DoubleBits {
    ghost kind = { variants.Double };

    ghost value_as = { typed.f64_value };

    fn kind() -> ElementType
        ensures { result ≡ variants.Double }
    {
        ElementType::Double
    }

    fn accessed(value: RawBsonRef<'a>) -> Option<DoubleBits> {
        value.as_f64()
    }
}

impl<'a> Typed<'a> for &'a str {
    ghost kind = { variants.String };

    ghost value_as = { typed.str_value };

    fn kind() -> ElementType
        ensures { result ≡ variants.String }
    {
        ElementType::String
    }

    fn accessed(value: RawBsonRef<'a>) -> Option<&'a str> {
        value.as_str()
    }
}

impl<'a> Typed<'a> for RawDocument<'a> {
    ghost kind = { variants.EmbeddedDocument };

    ghost value_as = { typed.document_value };

    fn kind() -> ElementType
        ensures { result ≡ variants.EmbeddedDocument }
    {
        ElementType::EmbeddedDocument
    }

    fn accessed(value: RawBsonRef<'a>) -> Option<RawDocument<'a>> {
        value.as_document()
    }
}

impl<'a> Typed<'a> for RawArray<'a> {
    ghost kind = { variants.Array };

    ghost value_as = { typed.array_value };

    fn kind() -> ElementType
        ensures { result ≡ variants.Array }
    {
        ElementType::Array
    }

    fn accessed(value: RawBsonRef<'a>) -> Option<RawArray<'a>> {
        value.as_array()
    }
}

impl<'a> Typed<'a> for RawBinaryRef<'a> {
    ghost kind = { variants.Binary };

    ghost value_as = { typed.binary_value };

    fn kind() -> ElementType
        ensures { result ≡ variants.Binary }
    {
        ElementType::Binary
    }

    fn accessed(value: RawBsonRef<'a>) -> Option<RawBinaryRef<'a>> {
        value.as_binary()
    }
}

impl<'a> Typed<'a> for ObjectId {
    ghost kind = { variants.ObjectId };

    ghost value_as = { typed.object_id_value };

    fn kind() -> ElementType
        ensures { result ≡ variants.ObjectId }
    {
        ElementType::ObjectId
    }

    fn accessed(value: RawBsonRef<'a>) -> Option<ObjectId> {
        value.as_object_id()
    }
}

impl<'a> Typed<'a> for bool {
    ghost kind = { variants.Boolean };

    ghost value_as = { typed.bool_value };

    fn kind() -> ElementType
        ensures { result ≡ variants.Boolean }
    {
        ElementType::Boolean
    }

    fn accessed(value: RawBsonRef<'a>) -> Option<bool> {
        value.as_bool()
    }
}

impl<'a> Typed<'a> for DateTime {
    ghost kind = { variants.DateTime };

    ghost value_as = { typed.datetime_value };

    fn kind() -> ElementType
        ensures { result ≡ variants.DateTime }
    {
        ElementType::DateTime
    }

    fn accessed(value: RawBsonRef<'a>) -> Option<DateTime> {
        value.as_datetime()
    }
}

impl<'a> Typed<'a> for RawRegexRef<'a> {
    ghost kind = { variants.RegularExpression };

    ghost value_as = { typed.regex_value };

    fn kind() -> ElementType
        ensures { result ≡ variants.RegularExpression }
    {
        ElementType::RegularExpression
    }

    fn accessed(value: RawBsonRef<'a>) -> Option<RawRegexRef<'a>> {
        value.as_regex()
    }
}

impl<'a> Typed<'a> for Timestamp {
    ghost kind = { variants.Timestamp };

    ghost value_as = { typed.timestamp_value };

    fn kind() -> ElementType
        ensures { result ≡ variants.Timestamp }
    {
        ElementType::Timestamp
    }

    fn accessed(value: RawBsonRef<'a>) -> Option<Timestamp> {
        value.as_timestamp()
    }
}

impl<'a> Typed<'a> for i32 {
    ghost kind = { variants.Int32 };

    ghost value_as = { typed.i32_value };

    fn kind() -> ElementType
        ensures { result ≡ variants.Int32 }
    {
        ElementType::Int32
    }

    fn accessed(value: RawBsonRef<'a>) -> Option<i32> {
        value.as_i32()
    }
}

impl<'a> Typed<'a> for i64 {
    ghost kind = { variants.Int64 };

    ghost value_as = { typed.i64_value };

    fn kind() -> ElementType
        ensures { result ≡ variants.Int64 }
    {
        ElementType::Int64
    }

    fn accessed(value: RawBsonRef<'a>) -> Option<i64> {
        value.as_i64()
    }
}
