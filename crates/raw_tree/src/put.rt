//! Appends elements, values and their parts to bytes that have room for them. Nothing is measured or reserved
//! here, and no trees occur.

ghost use Rattle.std.specs.Prelude.{◌≡◌, ◌≤◌, ◌+◌, ◌-◌, ◌++◌, ◌∷◌, [], pos, length, take, drop, vec_len, vec_capacity};
ghost use Rattle.bson_model.specs.Leaf as leaf;
ghost use Rattle.bson_model.specs.Proper.{IsLeafInRange};
ghost use Rattle.raw_tree.specs.put.Payload.{payload_of, element_bytes, unset, IsRawInRange};
ghost use Rattle.raw_view.specs.Document.{bytes_of};
ghost use Rattle.raw_view.specs.Frame.ElementSteps.{frame_of};
ghost use Rattle.raw_view.specs.Frame.Format.{c_string, string_payload, binary_payload, pointer_payload, regex_payload, scoped_payload, tagged, element_of};
ghost use Rattle.raw_view.specs.Meaning as value;
ghost use Rattle.raw_view.specs.Frame.Number.{max_length, le32};
ghost use Rattle.raw_view.specs.Meaning.Value.{value_of, namespace_of, id_of};

pub(crate) mod payload;
pub(crate) mod total;

use crate::put::payload::string_len;
use bson_model::BinarySubtype;
use raw_view::{
    RawBinaryRef, RawBsonRef, RawDbPointerRef, RawElement, RawJavaScriptCodeWithScopeRef,
    RawRegexRef,
};

/// Appends the bytes to `out`, which has room for them.
#[inline(always)]
pub(crate) fn put(out: &mut Vec<u8>, bytes: &[u8])
    requires { vec_len out.old + length bytes.now ≤ vec_capacity out.old }
    ensures items { out.new.items ≡ out.old.items ++ bytes.now }
    ensures len { vec_len out.new ≡ vec_len out.old + length bytes.now }
    ensures capacity { vec_capacity out.old ≤ vec_capacity out.new }
{
    let Ok(()) = out.extend_from_slice(bytes) else {
        unreachable!()
    };
}

/// Appends the four bytes of a length to `out`, which has room for them; `set_len` sets them later.
#[inline(always)]
pub fn put_unset(out: &mut Vec<u8>)
    requires { vec_len out.old + 4 ≤ vec_capacity out.old }
    ensures items { out.new.items ≡ out.old.items ++ unset }
    ensures len { vec_len out.new ≡ vec_len out.old + 4 }
    ensures capacity { vec_capacity out.old ≤ vec_capacity out.new }
{
    put(out, &[0; 4]);
}

#[inline(always)]
fn put_len(out: &mut Vec<u8>, len: usize)
    requires room { vec_len out.old + 4 ≤ vec_capacity out.old }
    requires fits { len ≤ max_length }
    ensures items { out.new.items ≡ out.old.items ++ le32 (pos len) }
    ensures len { vec_len out.new ≡ vec_len out.old + 4 }
    ensures capacity { vec_capacity out.old ≤ vec_capacity out.new }
{
    put(out, &(len as i32).to_le_bytes()[..]);
}

/// Appends the length of a text with its 0, the text and the 0 to `out`, which has room for them. BSON 1.1,
/// `string`.
#[inline(always)]
pub fn put_string(out: &mut Vec<u8>, text: &str)
    requires room { vec_len out.old + length (string_payload text.now) ≤ vec_capacity out.old }
    requires fits { length (string_payload text.now) ≤ max_length }
    ensures items { out.new.items ≡ out.old.items ++ string_payload text.now }
    ensures len { vec_len out.new ≡ vec_len out.old + length (string_payload text.now) }
    ensures capacity { vec_capacity out.old ≤ vec_capacity out.new }
{
    put_len(out, text.len() + 1);
    put(out, text.as_bytes());
    out.push_reserved(0);
}

#[inline(always)]
pub(crate) fn put_c_string(out: &mut Vec<u8>, text: &str)
    requires room { vec_len out.old + (length text.now + 1) ≤ vec_capacity out.old }
    ensures items { out.new.items ≡ out.old.items ++ c_string text.now [] }
    ensures len { vec_len out.new ≡ vec_len out.old + (length text.now + 1) }
    ensures capacity { vec_capacity out.old ≤ vec_capacity out.new }
{
    put(out, text.as_bytes());
    out.push_reserved(0);
}

#[inline(always)]
fn put_plain_binary(out: &mut Vec<u8>, subtype: u8, len: usize)
    requires room { vec_len out.old + 5 ≤ vec_capacity out.old }
    requires fits { len ≤ max_length }
    ensures items { out.new.items ≡ out.old.items ++ (le32 (pos len) ++ subtype ∷ []) }
    ensures len { vec_len out.new ≡ vec_len out.old + 5 }
    ensures capacity { vec_capacity out.old ≤ vec_capacity out.new }
{
    put_len(out, len);
    out.push_reserved(subtype);
}

#[inline(always)]
fn put_binary(out: &mut Vec<u8>, binary: RawBinaryRef<'_>)
    requires room { vec_len out.old + length (binary_payload binary.subtype binary.bytes.now)
        ≤ vec_capacity out.old }
    requires fits { length (binary_payload binary.subtype binary.bytes.now) ≤ max_length }
    ensures items { out.new.items ≡ out.old.items
        ++ binary_payload binary.entry.subtype binary.entry.bytes.now }
    ensures len { vec_len out.new
        ≡ vec_len out.old + length (binary_payload binary.entry.subtype binary.entry.bytes.now) }
    ensures capacity { vec_capacity out.old ≤ vec_capacity out.new }
    ensures in_range { IsLeafInRange (leaf.binary binary.entry.subtype binary.entry.bytes.now) }
{
    let len = binary.bytes.len();
    let subtype = binary.subtype.to_u8();
    match binary.subtype {
        BinarySubtype::BinaryOld => {
            put_plain_binary(out, subtype, len + 4);
            put_len(out, len);
        }
        _ => put_plain_binary(out, subtype, len),
    }
    put(out, binary.bytes);
}

fn put_db_pointer(out: &mut Vec<u8>, pointer: RawDbPointerRef<'_>)
    requires room { vec_len out.old + (length (string_payload (namespace_of pointer)) + 12)
        ≤ vec_capacity out.old }
    requires fits { length (string_payload (namespace_of pointer)) + 12 ≤ max_length }
    ensures items { out.new.items ≡ out.old.items
        ++ pointer_payload (namespace_of pointer.entry) (id_of pointer.entry) }
    ensures len { vec_len out.new
        ≡ vec_len out.old + (length (string_payload (namespace_of pointer.entry)) + 12) }
    ensures capacity { vec_capacity out.old ≤ vec_capacity out.new }
    ensures in_range { IsLeafInRange (leaf.db_pointer (namespace_of pointer.entry) (id_of pointer.entry)) }
{
    put_string(out, pointer.namespace());
    put(out, &pointer.id().bytes()[..]);
}

fn put_code_with_scope(out: &mut Vec<u8>, code: RawJavaScriptCodeWithScopeRef<'_>)
    requires room { vec_len out.old + length (scoped_payload code.code.now (bytes_of code.scope))
        ≤ vec_capacity out.old }
    requires fits { length (scoped_payload code.code.now (bytes_of code.scope)) ≤ max_length }
    ensures items { out.new.items ≡ out.old.items
        ++ scoped_payload code.entry.code.now (bytes_of code.entry.scope) }
    ensures len { vec_len out.new
        ≡ vec_len out.old
        + length (scoped_payload code.entry.code.now (bytes_of code.entry.scope)) }
    ensures capacity { vec_capacity out.old ≤ vec_capacity out.new }
    ensures in_range { IsRawInRange (value.scoped code.entry.code.now (bytes_of code.entry.scope)) }
{
    let scope = code.scope.as_bytes();
    put_len(out, 4 + string_len(code.code) + scope.len());
    put_string(out, code.code);
    put(out, scope);
}

fn put_regex(out: &mut Vec<u8>, regex: RawRegexRef<'_>)
    requires { vec_len out.old + (length regex.pattern.now + length regex.options.now + 2)
        ≤ vec_capacity out.old }
    ensures items { out.new.items ≡ out.old.items
        ++ regex_payload regex.entry.pattern.now regex.entry.options.now }
    ensures len { vec_len out.new
        ≡ vec_len out.old + (length regex.entry.pattern.now + length regex.entry.options.now + 2) }
    ensures capacity { vec_capacity out.old ≤ vec_capacity out.new }
    ensures in_range { IsLeafInRange (leaf.regular_expression regex.entry.pattern.now regex.entry.options.now) }
{
    put_c_string(out, regex.pattern);
    put_c_string(out, regex.options);
}

/// Appends the payload of the value to `out`, which has room for it.
#[inline(always)]
pub(crate) fn put_payload(out: &mut Vec<u8>, value: RawBsonRef<'_>)
    requires room { vec_len out.old + length (payload_of (value_of value)) ≤ vec_capacity out.old }
    requires fits { length (payload_of (value_of value)) ≤ max_length }
    ensures items { out.new.items ≡ out.old.items ++ payload_of (value_of value.entry) }
    ensures len { vec_len out.new ≡ vec_len out.old + length (payload_of (value_of value.entry)) }
    ensures capacity { vec_capacity out.old ≤ vec_capacity out.new }
    ensures in_range { IsRawInRange (value_of value.entry) }
{
    match value {
        RawBsonRef::Undefined | RawBsonRef::Null | RawBsonRef::MaxKey | RawBsonRef::MinKey => {}
        RawBsonRef::Boolean(value) => out.push_reserved(if value { 1 } else { 0 }),
        RawBsonRef::Int32(number) => put(out, &number.to_le_bytes()[..]),
        RawBsonRef::Int64(number) => put(out, &number.to_le_bytes()[..]),
        RawBsonRef::Double(bits) => put(out, &bits.0.to_le_bytes()[..]),
        RawBsonRef::DateTime(time) => put(out, &time.timestamp_millis().to_le_bytes()[..]),
        RawBsonRef::Timestamp(time) => {
            put(out, &time.increment.to_le_bytes()[..]);
            put(out, &time.time.to_le_bytes()[..]);
        }
        RawBsonRef::ObjectId(id) => put(out, &id.bytes()[..]),
        RawBsonRef::Decimal128(number) => put(out, &number.bytes()[..]),
        RawBsonRef::String(text) | RawBsonRef::JavaScriptCode(text) | RawBsonRef::Symbol(text) =>
            put_string(out, text),
        RawBsonRef::Document(document) => put(out, document.as_bytes()),
        RawBsonRef::Array(array) => put(out, array.as_bytes()),
        RawBsonRef::Binary(binary) => put_binary(out, binary),
        RawBsonRef::RegularExpression(regex) => put_regex(out, regex),
        RawBsonRef::DbPointer(pointer) => put_db_pointer(out, pointer),
        RawBsonRef::JavaScriptCodeWithScope(code) => put_code_with_scope(out, code),
    }
}

/// Appends a tag, a key and its 0 to `out`, which has room for them.
#[inline(always)]
pub fn put_head(out: &mut Vec<u8>, tag: u8, key: &str)
    requires { vec_len out.old + (length key.now + 2) ≤ vec_capacity out.old }
    ensures items { out.new.items ≡ out.old.items ++ tagged tag key.now [] }
    ensures len { vec_len out.new ≡ vec_len out.old + (length key.now + 2) }
    ensures capacity { vec_capacity out.old ≤ vec_capacity out.new }
{
    out.push_reserved(tag);
    put_c_string(out, key);
}

/// Appends the element with this key and this value to `out`, which has room for it.
#[inline(always)]
pub fn put_element(out: &mut Vec<u8>, key: &str, value: RawBsonRef<'_>)
    requires room { vec_len out.old + length (element_bytes key.now (value_of value))
        ≤ vec_capacity out.old }
    requires fits { length (element_bytes key.now (value_of value)) ≤ max_length }
    ensures items { out.new.items ≡ out.old.items ++ element_bytes key.now (value_of value.entry) }
    ensures len { vec_len out.new
        ≡ vec_len out.old + length (element_bytes key.now (value_of value.entry)) }
    ensures capacity { vec_capacity out.old ≤ vec_capacity out.new }
    ensures in_range { IsRawInRange (value_of value.entry) }
{
    put_head(out, value.element_type().to_tag(), key);
    put_payload(out, value);
}

/// Appends an element as it is to `out`, which has room for it.
#[inline(always)]
pub fn put_raw_element(out: &mut Vec<u8>, element: RawElement<'_>)
    requires { vec_len out.old + (length (frame_of element).key + (2 + length (frame_of element).payload))
        ≤ vec_capacity out.old }
    ensures items { out.new.items
        ≡ out.old.items ++ element_of (frame_of element.entry).kind (frame_of element.entry).key (frame_of element.entry).payload }
    ensures len { vec_len out.new
        ≡ vec_len out.old + (length (frame_of element.entry).key + (2 + length (frame_of element.entry).payload)) }
    ensures capacity { vec_capacity out.old ≤ vec_capacity out.new }
{
    put_head(out, element.element_type().to_tag(), element.key());
    put(out, element.payload());
}

/// Sets the four bytes at `start` to the number of bytes from `start` to the end.
#[inline(always)]
pub fn set_len(out: &mut Vec<u8>, start: usize)
    requires header { start + 4 ≤ vec_len out.old }
    requires fits { vec_len out.old ≤ start + max_length }
    ensures items { out.new.items ≡ take start out.old.items
        ++ (le32 (pos (vec_len out.old - start)) ++ drop (start + 4) out.old.items) }
    ensures len { vec_len out.new ≡ vec_len out.old }
    ensures capacity { vec_capacity out.old ≤ vec_capacity out.new }
{
    let len = (out.len() - start) as i32;
    out[start..start + 4].copy_from_slice(&len.to_le_bytes()[..]);
}
