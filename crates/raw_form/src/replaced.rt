//! Elements whose texts are replaced if they aren't UTF-8.
#![tactic(auto)]

ghost use Rattle.std.specs.Prelude.{◌≡◌, ◌<◌, ◌≤◌, ◌+◌, ℕ, List, length, vec_len, IfErr, IfNone, IfOk, IfSome, OnOk};
ghost use Rattle.std.specs.Str.Lossy.{utf8_lossy};
ghost use Rattle.bson_model.specs.Leaf.{Leaf};
ghost use Rattle.raw_form.specs.Replacing.{HasBadText, IsValueWith};
ghost use Rattle.raw_form.specs.ReplacingSteps.{Exceeds, ExceedsFor, Grows, Opens, Puts, code_len_of};
ghost use Rattle.raw_form.specs.Rewriting.{header_len, held_opening};
ghost use Rattle.raw_view.specs.Document.{bytes_of};
ghost use Rattle.raw_view.specs.Frame.ElementSteps.{frame_of};
ghost use Rattle.raw_view.specs.Frame.Number.{max_length};
ghost use Rattle.raw_view.specs.Meaning.{RawValue, kind_of_raw, single};
ghost use Rattle.raw_view.specs.Meaning.Value.{holding, value_of};

use crate::code_len::CodeLen;
use crate::held::{put_opening, put_plain, put_start, put_value};
use crate::texts::{BadText, bad_text};
use bson_model::ObjectId;
use raw_view::{
    ElementType, Elements, Holder, RawBsonRef, RawDbPointerRef, RawDocument, RawElement, Result,
};
use std::alloc::Global;

/// A level of which the elements are being written.
#[derive(Drop)]
pub(crate) struct Open<'a> {
    /// its remaining elements
    pub(crate) elements: Elements<'a>,
    /// where the payload of its value starts in the output
    pub(crate) start: u32,
    /// the length of the code, if it is a code's scope
    pub(crate) code_len: CodeLen,
}

/// What was written of an element.
#[derive(Drop)]
pub(crate) enum Put<'a> {
    /// all of it
    Whole,
    /// what is before the elements of the level in its value
    Inside(Open<'a>),
    /// nothing: its value has a fault that is no text
    Fault,
}

/// The length of the code that holds a level, which is short enough.
fn code_len(holder: Holder<'_>) -> CodeLen
    requires { length (held_opening holder) ≤ max_length }
    ensures { result ≡ code_len_of holder.entry }
{
    match holder {
        Holder::Document | Holder::Array => CodeLen::none(),
        Holder::Code(code) => CodeLen::of(code.len() as u32),
    }
}

/// Appends what is before the elements of the level in an element: the tag, the key and the beginning of the payload.
fn put_level<'a>(
    out: &mut Vec<u8>,
    element: RawElement<'_>,
    document: RawDocument<'a>,
    holder: Holder<'_>,
) -> Result<Open<'a>>
    requires { (frame_of element).kind ≡ kind_of_raw (holding holder (bytes_of document)) }
    ensures opens { IfOk result (Opens (frame_of element.entry).key holder.entry (bytes_of document.entry) out.old.items out.new.items) }
    ensures grows { OnOk result (vec_len out.old < vec_len out.new) }
    ensures fits { OnOk result (vec_len out.new ≤ max_length) }
    ensures err { IfErr result (Exceeds (vec_len out.old + (2 + length (frame_of element.entry).key + length (held_opening holder.entry)))) }
{
    put_start(out, element.key(), element.element_type())?;
    let start = out.len() as u32;
    put_opening(out, holder)?;
    Ok(Open {
        elements: Elements::new(document),
        start,
        code_len: code_len(holder),
    })
}

/// The bytes of an identifier.
fn twelve(bytes: &[u8]) -> [u8; 12]
    requires { length bytes.now ≡ 12 }
    ensures { result ≡ bytes.now }
{
    *bytes.as_array::<12>().unwrap()
}

/// The value of this kind with this text, unless it holds a level.
fn text_value<'a>(kind: ElementType, text: &'a str, rest: &[u8]) -> Option<RawBsonRef<'a>>
    requires { kind ≡ ElementType.DbPointer → length rest.now ≡ 12 }
    ensures value { IfSome result (λ v. (l : Leaf) × (value_of v ≡ single l) × IsValueWith kind text.now rest.now (single l)) }
    ensures none { IfNone result ((v : RawValue) → IsValueWith kind text.now rest.now v → kind ≡ ElementType.JavaScriptCodeWithScope) }
{
    match kind {
        ElementType::String => Some(RawBsonRef::String(text)),
        ElementType::JavaScriptCode => Some(RawBsonRef::JavaScriptCode(text)),
        ElementType::Symbol => Some(RawBsonRef::Symbol(text)),
        ElementType::DbPointer => {
            let id = ObjectId::from_bytes(twelve(rest));
            Some(RawBsonRef::DbPointer(RawDbPointerRef::new(text, id)))
        }
        _ => None,
    }
}

/// Appends an element with this text in place of its own, which isn't UTF-8.
fn put_text<'a>(
    out: &mut Vec<u8>,
    element: RawElement<'a>,
    text: &str,
    rest: &'a [u8],
) -> Result<Put<'a>>
    requires { (old : List ℕ) × HasBadText (frame_of element).kind (frame_of element).payload old rest.now × (text.now ≡ utf8_lossy old) }
    ensures put { IfOk result (Puts (frame_of element.entry) out.old.items out.new.items) }
    ensures grows { IfOk result (Grows (vec_len out.old) (vec_len out.new)) }
    ensures err { IfErr result (ExceedsFor (frame_of element.entry) (vec_len out.old)) }
{
    if let Some(value) = text_value(element.element_type(), text, rest) {
        put_value(out, element.key(), value)?;
        return Ok(Put::Whole);
    }
    let Ok(scope) = RawDocument::from_bytes(rest) else {
        return Ok(Put::Fault);
    };
    let level = put_level(out, element, scope, Holder::Code(text))?;
    Ok(Put::Inside(level))
}

/// Appends an element, with its text replaced if that isn't UTF-8. If its value holds a level, appends what is before the
/// elements of that.
pub(crate) fn put_kept<'a>(
    alloc: Global,
    out: &mut Vec<u8>,
    element: RawElement<'a>,
) -> Result<Put<'a>>
    ensures put { IfOk result (Puts (frame_of element.entry) out.old.items out.new.items) }
    ensures grows { IfOk result (Grows (vec_len out.old) (vec_len out.new)) }
    ensures err { IfErr result (ExceedsFor (frame_of element.entry) (vec_len out.old)) }
{
    let Ok(value) = element.resolve() else {
        let Some(bad) = bad_text(element) else {
            return Ok(Put::Fault);
        };
        let text = String::from_utf8_lossy(alloc, bad.text)?;
        return put_text(out, element, text.as_str(), bad.rest);
    };
    let Some(held) = value.level() else {
        put_plain(out, element.key(), element)?;
        return Ok(Put::Whole);
    };
    Ok(Put::Inside(put_level(out, element, held.document, held.holder)?))
}
