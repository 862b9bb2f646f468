//! The text of a value in a row of a table.
#![tactic(auto)]

ghost use Rattle.std.specs.Prelude.{◌≡◌, ◌++◌, MatchOption, None, Some, [], codes, string_bytes, IfOk};
ghost use Rattle.bson_to_json.specs.Json.{IsJson};
ghost use Rattle.raw_view.specs.Frame.ElementSteps.{frame_of};
ghost use Rattle.raw_view.specs.Frame.Format.{element_of};
ghost use Rattle.bson_model.specs.Leaf.{date_time, string};
ghost use Rattle.raw_view.specs.Meaning.{Means, value};
ghost use Rattle.raw_view.specs.Meaning as raw;
ghost use Rattle.dump_commands.specs.declared.elements.cell.Content.TheVariants as content;
ghost use Rattle.dump_commands.specs.elements.Row.{IsCell, IsCellOf, IsValueText, content_of, row_style, wrapper_of};
ghost use Rattle.dump_commands.specs.elements.Row as says;

use crate::elements::pick::document_of;
use bson_to_json::{Format, Layout, Style, time_text, to_json};
use raw_tree::Limits;
use raw_view::{ElementType, RawBsonRef, RawDocument, RawElement};
use std::alloc::{AllocError, Global};

/// What a cell has of a value.
#[derive(Clone, Copy)]
enum Content {
    Nothing,
    /// its own text
    Own,
    /// a time
    Time,
    /// Extended JSON
    Json,
}

/// The text of a value in a row. One of more levels than `depth` counts as out of memory.
pub fn cell(alloc: Global, element: RawElement<'_>, depth: usize) -> Result<Vec<u8>, AllocError>
    ensures { IfOk result (λ text. IsCellOf (Some (frame_of element.entry)) text.items) }
{
    match content_for(element.element_type()) {
        Content::Nothing => Ok(Vec::new(alloc)),
        Content::Own => own_text(alloc, element),
        Content::Time => time(alloc, element, depth),
        Content::Json => {
            let json = value_text(alloc, element, depth)?;
            match wrapper(element.element_type()) {
                Some(wrapper) => Vec::from_slice(alloc, unwrapped(wrapper, &json)),
                None => Ok(json),
            }
        }
    }
}

/// What a cell has of a value of this kind.
fn content_for(kind: ElementType) -> Content
    ensures { result ≡ content_of kind }
{
    match kind {
        ElementType::Null => Content::Nothing,
        ElementType::String => Content::Own,
        ElementType::DateTime => Content::Time,
        _ => Content::Json,
    }
}

/// The text of a string.
fn own_text(alloc: Global, element: RawElement<'_>) -> Result<Vec<u8>, AllocError>
    ensures { IfOk result (λ text. Means (frame_of element.entry) (value (raw.single (string text.items)))) }
{
    match element.resolve() {
        Ok(RawBsonRef::String(text)) => Vec::from_slice(alloc, text.as_bytes()),
        _ => Err(AllocError),
    }
}

/// A time in ISO 8601, if it is in the years 0 to 9999; otherwise as Extended JSON.
fn time(alloc: Global, element: RawElement<'_>, depth: usize) -> Result<Vec<u8>, AllocError>
    ensures { IfOk result (λ text. IsCell content.Time (frame_of element.entry) text.items) }
{
    let millis = millis_of(element)?;
    match time_text(millis) {
        Some(text) => Vec::from_slice(alloc, text.as_bytes()),
        None => value_text(alloc, element, depth),
    }
}

/// The milliseconds of a time.
fn millis_of(element: RawElement<'_>) -> Result<i64, AllocError>
    ensures { IfOk result (λ millis. Means (frame_of element.entry) (value (raw.single (date_time millis)))) }
{
    match element.resolve() {
        Ok(RawBsonRef::DateTime(time)) => Ok(time.timestamp_millis()),
        _ => Err(AllocError),
    }
}

/// The Extended JSON of a value.
fn value_text(alloc: Global, element: RawElement<'_>, depth: usize) -> Result<Vec<u8>, AllocError>
    ensures { IfOk result (λ json. IsValueText (frame_of element.entry) json.items) }
{
    let member = nameless(alloc, element)?;
    let document = document_of(alloc, &member)?;
    let text = json_of(alloc, &document, depth)?;
    let inside = inside(alloc, text.as_bytes())?;
    Ok(inside)
}

/// The element without its key.
fn nameless(alloc: Global, element: RawElement<'_>) -> Result<Vec<u8>, AllocError>
    ensures { IfOk result (λ member. member.items ≡ element_of (frame_of element.entry).kind [] (frame_of element.entry).payload) }
{
    let mut member = Vec::new(alloc);
    member.push(element.element_type().to_tag())?;
    member.push(0)?;
    member.extend_from_slice(element.payload())?;
    Ok(member)
}

/// The Extended JSON of a document with these bytes.
fn json_of(alloc: Global, bytes: &[u8], depth: usize) -> Result<String, AllocError>
    ensures { IfOk result (λ text. IsJson row_style bytes.now (string_bytes text)) }
{
    let Ok(document) = RawDocument::from_bytes(bytes) else {
        return Err(AllocError);
    };
    let style = Style {
        format: Format::Relaxed,
        layout: Layout::OneLine,
    };
    let limits = Limits {
        bytes: bytes.len(),
        depth,
    };
    match to_json(alloc, document, style, limits) {
        Ok(text) => Ok(text),
        Err(_) => Err(AllocError),
    }
}

/// What is in the text of a document of one value with an empty key, which has that form.
fn inside(alloc: Global, text: &[u8]) -> Result<Vec<u8>, AllocError>
    ensures { IfOk result (λ inside. text.now ≡ codes "{\"\":" ++ (inside.items ++ codes "}")) }
{
    match text {
        [b'{', b'"', b'"', b':', inside @ .., b'}'] => Vec::from_slice(alloc, inside),
        _ => Err(AllocError),
    }
}

/// What is before the text in quotes where the Extended JSON of a value of this kind is an object of one text.
fn wrapper(kind: ElementType) -> Option<&'static [u8]>
    ensures { MatchOption result (wrapper_of kind ≡ None) (λ wrapper. wrapper_of kind ≡ Some wrapper.now) }
{
    match kind {
        ElementType::ObjectId => Some(b"{\"$oid\":\""),
        ElementType::Decimal128 => Some(b"{\"$numberDecimal\":\""),
        ElementType::Double => Some(b"{\"$numberDouble\":\""),
        _ => None,
    }
}

/// The text in quotes, if that is before it; otherwise all.
fn unwrapped<'a>(wrapper: &[u8], text: &'a [u8]) -> &'a [u8]
    ensures { result.now ≡ says.unwrapped (Some wrapper.now) text.now }
{
    let (front, rest) = text.split_at(wrapper.len().min(text.len()));
    if front == wrapper {
        rest.split_at(rest.len().saturating_sub(2)).0
    } else {
        text
    }
}
