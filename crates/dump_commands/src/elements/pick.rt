//! The elements of a document that paths name, and the document of them.
#![tactic(auto)]

ghost use Rattle.std.specs.Prelude.{◌≡◌, ◌++◌, Option, IfOk, OnOk};
ghost use Rattle.std.specs.Option.{option_map};
ghost use Rattle.raw_view.specs.Document.{bytes_of};
ghost use Rattle.raw_view.specs.Frame.{Frame};
ghost use Rattle.raw_view.specs.Frame.ElementSteps.{frame_of};
ghost use Rattle.raw_view.specs.Frame.Envelope.{IsEnvelope};
ghost use Rattle.raw_view.specs.Frame.Format.{framed};
ghost use Rattle.dump_commands.specs.elements.Pick.{FindsFirst, FindsInner, IsPicked, LeadsTo, PicksEach, comma, dot, parts, renamed};

use raw_view::{ElementType, RawDocument, RawElement};
use std::alloc::{AllocError, Global};

/// The document of the elements that these paths name, each with its path as its key. One that is over the range of lengths counts as
/// out of memory.
pub fn picked(alloc: Global, document: RawDocument<'_>, paths: &str) -> Result<Vec<u8>, AllocError>
    ensures picked { IfOk result (λ picked. IsPicked (bytes_of document.entry) paths.now picked.items) }
    ensures envelope { IfOk result (λ picked. IsEnvelope picked.items) }
{
    let elements = picked_elements(alloc, document, paths)?;
    document_of(alloc, &elements)
}

/// A document with these elements. One that is over the range of lengths counts as out of memory.
pub(crate) fn document_of(alloc: Global, elements: &[u8]) -> Result<Vec<u8>, AllocError>
    ensures framed { IfOk result (λ document. document.items ≡ framed elements.now) }
    ensures envelope { IfOk result (λ document. IsEnvelope document.items) }
{
    let len = i32::try_from(elements.len().saturating_add(5)).map_err(|_| AllocError)?;
    let mut document = Vec::from_slice(alloc, &len.to_le_bytes())?;
    document.extend_from_slice(elements)?;
    document.push(0)?;
    Ok(document)
}

/// The elements that these paths name, one after the other.
fn picked_elements(
    alloc: Global,
    document: RawDocument<'_>,
    paths: &str,
) -> Result<Vec<u8>, AllocError>
    ensures { IfOk result (λ elements. PicksEach (bytes_of document.entry) (parts comma paths.now) elements.items) }
{
    let mut elements = Vec::new(alloc);
    let mut rest = paths;
    'paths: while let Some((path, more)) = rest.split_once(',') {
        pick_one(document, path, &mut elements)?;
        rest = more;
    }
    pick_one(document, rest, &mut elements)?;
    Ok(elements)
}

/// Puts the element that a path leads to after the others, with the path as its key.
fn pick_one(document: RawDocument<'_>, path: &str, elements: &mut Vec<u8>) -> Result<(), AllocError>
    ensures { OnOk result ((goal : Option Frame) × LeadsTo (bytes_of document.entry) (parts dot path.now) goal
        × (elements.new.items ≡ elements.old.items ++ renamed path.now goal)) }
{
    let Some(element) = element_at(document, path) else {
        return Ok(());
    };
    elements.push(element.element_type().to_tag())?;
    elements.extend_from_slice(path.as_bytes())?;
    elements.push(0)?;
    elements.extend_from_slice(element.payload())
}

/// The element that a path leads to.
pub(crate) fn element_at<'a>(document: RawDocument<'a>, path: &str) -> Option<RawElement<'a>>
    ensures { LeadsTo (bytes_of document.entry) (parts dot path.now) (option_map frame_of result) }
{
    let mut level = document;
    let mut rest = path;
    'steps: while let Some((step, more)) = rest.split_once('.') {
        level = inside(level, step)?;
        rest = more;
    }
    first_with(level, rest)
}

/// The first element with this key.
pub fn first_with<'a>(document: RawDocument<'a>, key: &str) -> Option<RawElement<'a>>
    ensures { FindsFirst (bytes_of document.entry) key.now (option_map frame_of result) }
{
    match document.get_element(key) {
        Ok(element) => element,
        Err(_) => None,
    }
}

/// The document or the array that is the value of the first element with this key.
fn inside<'a>(document: RawDocument<'a>, key: &str) -> Option<RawDocument<'a>>
    ensures { FindsInner (bytes_of document.entry) key.now (option_map bytes_of result) }
{
    let element = first_with(document, key)?;
    match element.element_type() {
        ElementType::EmbeddedDocument | ElementType::Array => {
            RawDocument::from_bytes(element.payload()).ok()
        }
        _ => None,
    }
}
