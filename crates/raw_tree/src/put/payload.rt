//! What has to be known of a value before it is written: whether a C string in it contains a 0, and how many
//! bytes it takes.

ghost use Rattle.std.specs.Prelude.{◌≡◌, ◌-◌, ◌^◌, min, ◌↔◌, length, IsTrue};
ghost use Rattle.bson_model.specs.Bytes.{NulFree};
ghost use Rattle.raw_tree.specs.put.Payload.{payload_of, IsValueNulFree};
ghost use Rattle.raw_view.specs.Frame.Format.{string_payload, binary_payload};
ghost use Rattle.raw_view.specs.Meaning.Value.{value_of};

use bson_model::BinarySubtype;
use raw_view::{RawBinaryRef, RawBsonRef};

/// Whether a text contains no 0, so that it can be a C string. BSON 1.1, `cstring`.
#[inline(always)]
pub fn is_nul_free(text: &str) -> bool
    ensures { IsTrue result ↔ NulFree text.now }
{
    !text.as_bytes().contains(&0)
}

/// Whether the pattern and the options of the value contain no 0.
#[inline(always)]
pub fn is_value_nul_free(value: RawBsonRef<'_>) -> bool
    ensures { IsTrue result ↔ IsValueNulFree (value_of value.entry) }
{
    match value {
        RawBsonRef::RegularExpression(regex) => {
            is_nul_free(regex.pattern) && is_nul_free(regex.options)
        }
        _ => true,
    }
}

#[inline(always)]
pub(crate) fn string_len(text: &str) -> usize
    ensures { result ≡ length (string_payload text.now) }
{
    text.len() + 5
}

#[inline(always)]
fn binary_len(binary: RawBinaryRef<'_>) -> usize
    ensures { result ≡ length (binary_payload binary.entry.subtype binary.entry.bytes.now) }
{
    match binary.subtype {
        BinarySubtype::BinaryOld => binary.bytes.len() + 9,
        _ => binary.bytes.len() + 5,
    }
}

/// The length of the payload of the value; the greatest `usize` if it is more.
#[inline(always)]
pub fn payload_len(value: RawBsonRef<'_>) -> usize
    ensures { result ≡ min (length (payload_of (value_of value.entry))) (2 ^ 64 - 1) }
{
    match value {
        RawBsonRef::Undefined | RawBsonRef::Null | RawBsonRef::MaxKey | RawBsonRef::MinKey => 0,
        RawBsonRef::Boolean(_) => 1,
        RawBsonRef::Int32(_) => 4,
        RawBsonRef::Double(_)
        | RawBsonRef::DateTime(_)
        | RawBsonRef::Timestamp(_)
        | RawBsonRef::Int64(_) => 8,
        RawBsonRef::ObjectId(_) => 12,
        RawBsonRef::Decimal128(_) => 16,
        RawBsonRef::String(text) | RawBsonRef::JavaScriptCode(text) | RawBsonRef::Symbol(text) =>
            string_len(text),
        RawBsonRef::Document(document) => document.as_bytes().len(),
        RawBsonRef::Array(array) => array.as_bytes().len(),
        RawBsonRef::Binary(binary) => binary_len(binary),
        RawBsonRef::RegularExpression(regex) => {
            (regex.pattern.len() + regex.options.len()).saturating_add(2)
        }
        RawBsonRef::DbPointer(pointer) => string_len(pointer.namespace()) + 12,
        RawBsonRef::JavaScriptCodeWithScope(code) => {
            4 + string_len(code.code) + code.scope.as_bytes().len()
        }
    }
}
