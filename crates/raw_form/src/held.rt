//! Writes elements, and begins and ends those whose values hold a level.
#![tactic(auto)]

ghost use Rattle.std.specs.Prelude.{◌≡◌, ◌<◌, ◌≤◌, ◌+◌, ◌++◌, ◌∷◌, [], length, vec_capacity, vec_len, IfErr, IsTrue, OnOk};
ghost use Rattle.bson_model.specs.Leaf.{Leaf};
ghost use Rattle.raw_form.specs.Rewriting.{FailsFor, IsPlain, ended_by, header_len, held_opening};
ghost use Rattle.raw_tree.specs.Payload.{element_bytes};
ghost use Rattle.raw_tree.specs.Reading.{leaf_in_order};
ghost use Rattle.raw_view.specs.Frame.ElementSteps.{frame_of};
ghost use Rattle.raw_view.specs.Frame.Format.{element_of, leaf_payload, tagged};
ghost use Rattle.raw_view.specs.Frame.Kind.{kind_of_leaf, tag_of};
ghost use Rattle.raw_view.specs.Meaning.{single};
ghost use Rattle.raw_view.specs.Frame.Number.{max_length};
ghost use Rattle.raw_view.specs.Meaning.Value.{value_of};

use crate::code_len::CodeLen;
use bson_model::Regex;
use raw_tree::{payload_len, put_element, put_head, put_string, put_unset, set_len, total_len};
use raw_view::{ElementType, Error, Holder, RawBsonRef, RawElement, RawRegexRef, Reason, Result};
use std::alloc::Global;

/// Makes room for `added` more bytes. Fails if a document can't have that many in all.
#[inline(always)]
fn make_room(out: &mut Vec<u8>, added: usize) -> Result<()>
    ensures items { out.new.items ≡ out.old.items }
    ensures len { vec_len out.new ≡ vec_len out.old }
    ensures room { OnOk result (vec_len out.new + added ≤ vec_capacity out.new) }
    ensures fits { OnOk result (vec_len out.old + added ≤ max_length) }
    ensures err { IfErr result (FailsFor (vec_len out.old + added)) }
{
    if total_len(out.len(), added).is_none() {
        return Err(Error::malformed(Reason::TooLong));
    }
    out.reserve(added)?;
    Ok(())
}

/// Whether values of this kind hold neither a level nor options, so that they are written as they are read.
#[inline(always)]
pub(crate) fn is_plain(kind: ElementType) -> bool
    ensures { IsTrue result → IsPlain kind }
{
    match kind {
        ElementType::EmbeddedDocument
        | ElementType::Array
        | ElementType::JavaScriptCodeWithScope
        | ElementType::RegularExpression => false,
        _ => true,
    }
}

/// Appends an element under this key, with its payload as it is.
#[inline(always)]
pub(crate) fn put_plain(out: &mut Vec<u8>, key: &str, element: RawElement<'_>) -> Result<()>
    ensures items { OnOk result
        (out.new.items
        ≡ out.old.items
        ++ element_of (frame_of element.entry).kind key.now (frame_of element.entry).payload) }
    ensures grows { OnOk result (vec_len out.old < vec_len out.new) }
    ensures fits { OnOk result (vec_len out.new ≤ max_length) }
    ensures err { IfErr result
        (FailsFor (vec_len out.old + (2 + length key.now + length (frame_of element.entry).payload))) }
{
    let payload = element.payload();
    let len = (payload.len() + key.len()).saturating_add(2);
    make_room(out, len)?;
    put_head(out, element.element_type().to_tag(), key);
    out.extend_from_slice(payload)?;
    Ok(())
}

/// Appends the element with this key and this value.
pub(crate) fn put_value(out: &mut Vec<u8>, key: &str, value: RawBsonRef<'_>) -> Result<()>
    ensures items { OnOk result
        (out.new.items ≡ out.old.items ++ element_bytes key.now (value_of value.entry)) }
    ensures grows { OnOk result (vec_len out.old < vec_len out.new) }
    ensures fits { OnOk result (vec_len out.new ≤ max_length) }
    ensures err { IfErr result
        (FailsFor (vec_len out.old + length (element_bytes key.now (value_of value.entry)))) }
{
    let len = payload_len(value)
        .saturating_add(key.len())
        .saturating_add(2);
    make_room(out, len)?;
    put_element(out, key, value);
    Ok(())
}

/// Appends the element with this key and a value that holds no others. The options of a regular expression are put
/// in order.
pub(crate) fn put_leaf(
    alloc: Global,
    out: &mut Vec<u8>,
    key: &str,
    value: RawBsonRef<'_>,
) -> Result<()>
    ensures items { (l : Leaf)
        → value_of value.entry ≡ single l
        → OnOk result
        (out.new.items
        ≡ out.old.items
        ++ element_of (kind_of_leaf (leaf_in_order l)) key.now (leaf_payload (leaf_in_order l))) }
    ensures grows { OnOk result (vec_len out.old < vec_len out.new) }
    ensures fits { OnOk result (vec_len out.new ≤ max_length) }
    ensures err { (l : Leaf)
        → value_of value.entry ≡ single l
        → IfErr result
        (FailsFor
        (vec_len out.old + (2 + length key.now + length (leaf_payload (leaf_in_order l))))) }
{
    let RawBsonRef::RegularExpression(regex) = value else {
        return put_value(out, key, value);
    };
    let sorted = Regex::new(alloc, regex.pattern, regex.options)?;
    let regex = RawRegexRef {
        pattern: sorted.pattern.as_str(),
        options: sorted.options.as_str(),
    };
    put_value(out, key, RawBsonRef::RegularExpression(regex))
}

/// Appends the tag of this kind and a key.
pub(crate) fn put_start(out: &mut Vec<u8>, key: &str, kind: ElementType) -> Result<()>
    ensures items { OnOk result (out.new.items ≡ out.old.items ++ tagged (tag_of kind) key.now []) }
    ensures grows { OnOk result (vec_len out.old < vec_len out.new) }
    ensures fits { OnOk result (vec_len out.new ≤ max_length) }
    ensures err { IfErr result (FailsFor (vec_len out.old + (2 + length key.now))) }
{
    make_room(out, key.len() + 2)?;
    put_head(out, kind.to_tag(), key);
    Ok(())
}

/// Appends the beginning of the payload of a value that holds a level. Its lengths aren't set yet.
pub(crate) fn put_opening(out: &mut Vec<u8>, holder: Holder<'_>) -> Result<()>
    ensures items { OnOk result (out.new.items ≡ out.old.items ++ held_opening holder.entry) }
    ensures grows { OnOk result (vec_len out.old < vec_len out.new) }
    ensures fits { OnOk result (vec_len out.new ≤ max_length) }
    ensures err { IfErr result (FailsFor (vec_len out.old + length (held_opening holder.entry))) }
{
    match holder {
        Holder::Document | Holder::Array => {
            make_room(out, 4)?;
            put_unset(out);
        }
        Holder::Code(code) => {
            make_room(out, code.len() + 13)?;
            put_unset(out);
            put_string(out, code);
            put_unset(out);
        }
    }
    Ok(())
}

/// Ends a payload that starts at `start`: appends the final 0 and sets the lengths. `code_len` is the length of
/// the code of a code with scope.
pub(crate) fn put_end(out: &mut Vec<u8>, start: u32, code_len: &CodeLen) -> Result<()>
    requires { start + header_len code_len.now ≤ vec_len out.old }
    ensures items { OnOk result
        (out.new.items ≡ ended_by code_len.now start (out.old.items ++ 0 ∷ [])) }
    ensures len { OnOk result (vec_len out.new ≡ vec_len out.old + 1) }
    ensures fits { OnOk result (vec_len out.new ≤ max_length) }
    ensures err { IfErr result (FailsFor (vec_len out.old + 1)) }
{
    make_room(out, 1)?;
    out.push_reserved(0);
    let start = start as usize;
    if let Some(len) = code_len.get() {
        set_len(out, start + 9 + len as usize);
    }
    set_len(out, start);
    Ok(())
}
