//! What `==` returns, and what holds of values by their types, as calls whose contracts say it. It passes on those
//! of the crates below. Programs never need them; proofs do.

ghost use Rattle.std.specs.Prelude.{◌≡◌, ◌↔◌, IsTrue};
ghost use Rattle.std.specs.String.{string_bytes};
ghost use Rattle.raw_tree.specs.Payload.{IsRawInRange};
ghost use Rattle.raw_bson.specs.Conversion.{BecomesOneTree};
ghost use Rattle.raw_bson.specs.Owned.{IsSameOwned, owned_value};
ghost use Rattle.raw_view.specs.Meaning.Value.{value_of};

use crate::array_buf::RawArrayBuf;
use crate::bson::{RawBson, RawJavaScriptCodeWithScope};
use crate::document_buf::RawDocumentBuf;
use bson_model::BinarySubtype;
pub use bson_model::laws::{
    attest_bytes, attest_document, attest_list, attest_u32, attest_u64, attest_value,
    is_same_document, is_same_tree,
};
use raw_view::RawBsonRef;
pub use raw_view::laws::{attest_element, is_same_array_view, is_same_view};

/// Whether two buffers are `==`, which holds if and only if they have the same bytes. Programs never need it;
/// proofs do.
pub fn is_same_document_buf(document: &RawDocumentBuf, other: &RawDocumentBuf) -> bool
    ensures { IsTrue result ↔ (document.now ≡ other.now) }
{
    document == other
}

/// Whether two buffers are `==`, which holds if and only if they have the same bytes and the same count. Programs
/// never need it; proofs do.
pub fn is_same_array_buf(array: &RawArrayBuf, other: &RawArrayBuf) -> bool
    ensures { IsTrue result ↔ (array.now ≡ other.now) }
{
    array == other
}

/// Whether two codes with scope are `==`, which holds if and only if they have the same code and scope. Programs
/// never need it; proofs do.
pub fn is_same_code(code: &RawJavaScriptCodeWithScope, other: &RawJavaScriptCodeWithScope) -> bool
    ensures { IsTrue result
        ↔ ((string_bytes code.now.code ≡ string_bytes other.now.code)
        × (code.now.scope ≡ other.now.scope)) }
{
    code == other
}

/// Whether two values are `==`, which holds if and only if they are of one variant with the same fields. Programs
/// never need it; proofs do.
pub fn is_same_value(left: &RawBson, right: &RawBson) -> bool
    ensures { IsTrue result ↔ IsSameOwned left.now right.now }
{
    left == right
}

/// Whether two borrowed values are `==`, which holds if and only if they view the same value. Nested documents and
/// arrays are compared byte by byte. Programs never need it; proofs do.
pub fn is_same_value_ref(value: RawBsonRef<'_>, other: RawBsonRef<'_>) -> bool
    ensures { IsTrue result ↔ (value_of value.entry ≡ value_of other.entry) }
{
    value == other
}

/// The numbers and bytes of a borrowed value are in range, its texts are UTF-8, and its nested documents, arrays
/// and scopes have envelopes. Programs never need it; proofs do.
pub fn attest_view(value: RawBsonRef<'_>)
    ensures { IsRawInRange (value_of value.entry) }
{
    match value {
        RawBsonRef::Undefined | RawBsonRef::Null | RawBsonRef::MaxKey | RawBsonRef::MinKey => {}
        RawBsonRef::Boolean(_) => {}
        RawBsonRef::Int32(_) => {}
        RawBsonRef::Int64(_) => {}
        RawBsonRef::Double(_) => {}
        RawBsonRef::DateTime(_) => {}
        RawBsonRef::Timestamp(_) => {}
        RawBsonRef::ObjectId(id) => {
            let _ = id.bytes();
        }
        RawBsonRef::Decimal128(number) => {
            let _ = number.bytes();
        }
        RawBsonRef::String(_) | RawBsonRef::JavaScriptCode(_) | RawBsonRef::Symbol(_) => {}
        RawBsonRef::Document(document) => {
            let _ = document.as_bytes();
        }
        RawBsonRef::Array(array) => {
            let _ = array.as_bytes();
        }
        RawBsonRef::Binary(binary) => {
            let _byte = binary.subtype.to_u8();
            attest_bytes(binary.bytes);
        }
        RawBsonRef::RegularExpression(_) => {}
        RawBsonRef::DbPointer(pointer) => {
            let _ = pointer.id().bytes();
        }
        RawBsonRef::JavaScriptCodeWithScope(code) => {
            let _ = code.scope.as_bytes();
        }
    }
}

/// An owned value becomes exactly one tree, or has exactly one first fault. Programs never need it; proofs do.
pub fn attest_one_tree(value: &RawBson)
    ensures { BecomesOneTree (owned_value value.now) }
{
    attest_view(value.as_raw_bson_ref());
}
