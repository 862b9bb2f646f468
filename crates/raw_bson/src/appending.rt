//! Appends one element to the bytes of a document.

ghost use Rattle.std.specs.Prelude.{◌≡◌, ◌≤◌, ◌<◌, ◌+◌, ◌-◌, ◌++◌, ◌∷◌, [], None, length, take, vec_len, vec_capacity, OnOk, IfErr};
ghost use Rattle.raw_bson.specs.Append.{AddsValue, Appends, AppendsFrame, KeepsWalk, RefusesLength, frame_bytes, value_frame};
ghost use Rattle.raw_tree.specs.Payload.{IsRawInRange};
ghost use Rattle.raw_view.specs.Frame.ElementSteps.{frame_of};
ghost use Rattle.raw_view.specs.Frame.Envelope.{IsEnvelope};
ghost use Rattle.raw_view.specs.Errors.{key_of};
ghost use Rattle.raw_view.specs.Frame.{IsShortScope};
ghost use Rattle.raw_view.specs.Frame.Number.{max_length};
ghost use Rattle.raw_view.specs.Meaning.Value.{value_of};

use raw_tree::{
    is_nul_free, is_value_nul_free, payload_len, put_element, put_raw_element, set_len, total_len,
};
use raw_view::{Error, ErrorKind, RawBsonRef, RawElement, Reason, Result};

/// The error for a 0 in a key, in a pattern or in options.
#[cold]
#[inline(never)]
fn interior_nul() -> Error
    ensures kind { result.kind ≡ ErrorKind.MalformedValue Reason.InteriorNul }
    ensures no_key { key_of result ≡ None }
{
    Error::malformed(Reason::InteriorNul)
}

/// The error for a length that no header can say.
#[cold]
#[inline(never)]
fn too_long() -> Error
    ensures kind { result.kind ≡ ErrorKind.MalformedValue Reason.TooLong }
    ensures no_key { key_of result ≡ None }
{
    Error::malformed(Reason::TooLong)
}

/// Replaces the last byte by the element of a value and a 0, for which there is room.
#[inline(always)]
fn put_at_end(bytes: &mut Vec<u8>, key: &str, value: RawBsonRef<'_>)
    requires some { 0 < vec_len bytes.old }
    requires fits { length (frame_bytes (value_frame key.now (value_of value))) ≤ max_length }
    requires room { vec_len bytes.old + length (frame_bytes (value_frame key.now (value_of value)))
        ≤ vec_capacity bytes.old }
    ensures items { bytes.new.items ≡ take (length bytes.old.items - 1) bytes.old.items
        ++ (frame_bytes (value_frame key.now (value_of value.entry)) ++ 0 ∷ []) }
    ensures in_range { IsRawInRange (value_of value.entry) }
{
    bytes.pop();
    put_element(bytes, key, value);
    bytes.push_reserved(0);
}

/// Replaces the last byte by an element as it is and a 0, for which there is room.
#[inline(always)]
fn put_raw_at_end(bytes: &mut Vec<u8>, element: RawElement<'_>)
    requires some { 0 < vec_len bytes.old }
    requires room { vec_len bytes.old + length (frame_bytes (frame_of element)) ≤ vec_capacity bytes.old }
    ensures items { bytes.new.items ≡ take (length bytes.old.items - 1) bytes.old.items
        ++ (frame_bytes (frame_of element.entry) ++ 0 ∷ []) }
{
    bytes.pop();
    put_raw_element(bytes, element);
    bytes.push_reserved(0);
}

/// Makes room for `added` more bytes in a document, which is unchanged. It measures first, then reserves the whole
/// growth.
#[inline(always)]
fn make_room(bytes: &mut Vec<u8>, added: usize) -> Result<()>
    ensures fits { OnOk result (length bytes.old.items + added ≤ max_length) }
    ensures room { OnOk result (vec_len bytes.new + added ≤ vec_capacity bytes.new) }
    ensures refused { IfErr result
        (λ e. RefusesLength (length bytes.old.items + added) e.kind × (key_of e ≡ None)) }
    ensures same { bytes.new.items ≡ bytes.old.items }
{
    if total_len(bytes.len(), added).is_none() {
        return Err(too_long());
    }
    bytes.reserve(added)?;
    Ok(())
}

/// Appends a value to the bytes of a document, without looking at the old content. It looks for a 0, measures,
/// reserves the whole growth, and only then writes.
#[inline(always)]
pub(crate) fn append_value(bytes: &mut Vec<u8>, key: &str, value: RawBsonRef<'_>) -> Result<()>
    requires { IsEnvelope bytes.old.items }
    ensures appends { Appends bytes.old.items key.now (value_of value.entry) result bytes.new.items }
    ensures walk { OnOk result (KeepsWalk bytes.old.items
        (value_frame key.now (value_of value.entry)) bytes.new.items) }
    ensures adds { OnOk result (AddsValue bytes.old.items key.now (value_of value.entry) bytes.new.items) }
    ensures envelope { IsEnvelope bytes.new.items }
{
    if !is_nul_free(key) || !is_value_nul_free(value) {
        return Err(interior_nul());
    }
    make_room(bytes, payload_len(value).saturating_add(key.len() + 2))?;
    put_at_end(bytes, key, value);
    set_len(bytes, 0);
    Ok(())
}

/// Appends an element as it is to the bytes of a document, without looking at the old content or at the element's
/// value.
#[inline(always)]
pub(crate) fn append_raw_element(bytes: &mut Vec<u8>, element: RawElement<'_>) -> Result<()>
    requires { IsEnvelope bytes.old.items }
    ensures appends { AppendsFrame bytes.old.items (frame_of element.entry) result bytes.new.items }
    ensures walk { OnOk result (¬ IsShortScope (frame_of element.entry)
        → KeepsWalk bytes.old.items (frame_of element.entry) bytes.new.items) }
    ensures envelope { IsEnvelope bytes.new.items }
{
    let len = element
        .payload()
        .len()
        .saturating_add(element.key().len() + 2);
    make_room(bytes, len)?;
    put_raw_at_end(bytes, element);
    set_len(bytes, 0);
    Ok(())
}
