//! A document without the elements that paths name, or with these alone.
#![tactic(auto)]

ghost use Rattle.std.specs.Prelude.{◌≡◌, ◌++◌, ◌+◌, ◌∷◌, [], flat_map, IfOk, OnOk};
ghost use Rattle.std.specs.List.{list_any};
ghost use Rattle.std.specs.Option.{option_copied, option_to_list};
ghost use Rattle.std.specs.Str.{bytes_eq};
ghost use Rattle.raw_view.specs.Document.{bytes_of};
ghost use Rattle.raw_view.specs.Frame.ElementSteps.{frame_of};
ghost use Rattle.raw_view.specs.Frame.Envelope.{IsEnvelope};
ghost use Rattle.raw_view.specs.Frame.Format.{element_of};
ghost use Rattle.dump_commands.specs.elements.Cut.{IsCut, IsCutAt, comes_of, is_named, key_at, onward, onwards, steps_of, texts_of};
ghost use Rattle.dump_commands.specs.elements.Cut as says;
ghost use Rattle.dump_commands.specs.elements.Pick.{comma, parts};

use crate::elements::pick::document_of;
use dump_io::lines::text::push_number;
use raw_view::{ElementType, Elements, RawDocument, RawElement};
use std::alloc::{AllocError, Global};

/// The step of a path that stands for any item of an array.
const ITEM: &[u8] = b"[]";

/// What becomes of an element.
#[derive(Drop)]
pub(crate) enum Fate<'a> {
    /// it stays as it is
    Stays,
    /// it is left out
    Goes,
    /// it stays, and these paths lead on to what is inside it
    Opens(Vec<&'a [u8]>),
}

/// The document without the elements that these paths name, where the others stay; or with these alone, and what is around them. One that
/// is over the range of lengths counts as out of memory, and so does one that has a fault.
pub fn cut_at(
    alloc: Global,
    document: RawDocument<'_>,
    paths: &str,
    others: bool,
) -> Result<Vec<u8>, AllocError>
    ensures cut { IfOk result (λ made. IsCutAt others (bytes_of document.entry) paths.now made.items) }
    ensures envelope { IfOk result (λ made. IsEnvelope made.items) }
{
    let each = split(alloc, paths)?;
    let made = cut(alloc, document, false, &each, others, paths.len() + 1)?;
    Ok(made)
}

/// The paths of a text, which have commas between them.
fn split<'a>(alloc: Global, paths: &'a str) -> Result<Vec<&'a [u8]>, AllocError>
    ensures { IfOk result (λ each. texts_of each.items ≡ parts comma paths.now) }
{
    let mut each = Vec::new(alloc);
    let mut rest = paths;
    'paths: while let Some((path, more)) = rest.split_once(',') {
        push_path(&mut each, path)?;
        rest = more;
    }
    push_path(&mut each, rest)?;
    Ok(each)
}

fn push_path<'a>(each: &mut Vec<&'a [u8]>, path: &'a str) -> Result<(), AllocError>
    ensures { OnOk result (texts_of each.new.items ≡ texts_of each.old.items ++ path.now ∷ []) }
{
    each.push(path.as_bytes())?;
    Ok(())
}

/// A document or an array without the elements that these paths name, where the others stay; or with these alone. Paths lead inside it
/// over at most `depth` levels.
fn cut(
    alloc: Global,
    level: RawDocument<'_>,
    in_array: bool,
    paths: &[&[u8]],
    others: bool,
    depth: usize,
) -> Result<Vec<u8>, AllocError>
    ensures cut { IfOk result (λ made. IsCut others depth in_array (texts_of paths.now) (bytes_of level.entry) made.items) }
    ensures envelope { IfOk result (λ made. IsEnvelope made.items) }
{
    if depth == 0 {
        return Vec::from_slice(alloc, level.as_bytes());
    }
    let mut out = Vec::new(alloc);
    let mut number: u64 = 0;
    for item in Elements::new(level) {
        let Ok(element) = item else {
            return Err(AllocError);
        };
        match decided(alloc, others, in_array, paths, element)? {
            Fate::Goes => {}
            Fate::Stays => {
                put_element(&mut out, in_array, &mut number, element, element.payload())?;
            }
            Fate::Opens(rests) => {
                let inside = level_of(element)?;
                let is_inner_array = is_array(element.element_type());
                let value = cut(alloc, inside, is_inner_array, &rests, others, depth - 1)?;
                put_element(&mut out, in_array, &mut number, element, &value)?;
            }
        }
    }
    let made = document_of(alloc, &out)?;
    Ok(made)
}

/// Whether a value of this kind is an array.
pub(crate) fn is_array(kind: ElementType) -> bool
    ensures { result ≡ says.is_array kind }
{
    matches!(kind, ElementType::Array)
}

/// The document or the array that an element has as its value.
pub(crate) fn level_of(element: RawElement<'_>) -> Result<RawDocument<'_>, AllocError>
    ensures { IfOk result (λ level. bytes_of level ≡ (frame_of element.entry).payload) }
{
    match RawDocument::from_bytes(element.payload()) {
        Ok(level) => Ok(level),
        Err(_) => Err(AllocError),
    }
}

/// What becomes of an element of a level.
pub(crate) fn decided<'a>(
    alloc: Global,
    others: bool,
    in_array: bool,
    paths: &[&'a [u8]],
    element: RawElement<'_>,
) -> Result<Fate<'a>, AllocError>
    ensures { IfOk result (λ fate. comes_of fate ≡ says.fate_of others in_array (texts_of paths.now) (frame_of element.entry)) }
{
    let key = element.key().as_bytes();
    if names(in_array, paths, key) {
        return Ok(if others { Fate::Goes } else { Fate::Stays });
    }
    let rests = leading_on(alloc, in_array, paths, key)?;
    let has_elements = matches!(
        element.element_type(),
        ElementType::EmbeddedDocument | ElementType::Array
    );
    if has_elements && !rests.is_empty() {
        return Ok(Fate::Opens(rests));
    }
    Ok(if others { Fate::Stays } else { Fate::Goes })
}

/// Whether one of these paths is a step that stands for an element with this key.
fn names(in_array: bool, paths: &[&[u8]], key: &[u8]) -> bool
    ensures { result ≡ is_named (steps_of in_array key.now) (texts_of paths.now) }
{
    has_path(paths, key) || in_array && has_path(paths, ITEM)
}

/// Whether one of these paths is this step.
fn has_path(paths: &[&[u8]], step: &[u8]) -> bool
    ensures { result ≡ list_any (bytes_eq step.now) (texts_of paths.now) }
{
    let mut rest = paths;
    'paths: while let [path, more @ ..] = rest {
        if step == *path {
            return true;
        }
        rest = more;
    }
    false
}

/// The paths that lead on from an element with this key.
fn leading_on<'a>(
    alloc: Global,
    in_array: bool,
    paths: &[&'a [u8]],
    key: &[u8],
) -> Result<Vec<&'a [u8]>, AllocError>
    ensures { IfOk result (λ rests. texts_of rests.items ≡ onwards (steps_of in_array key.now) (texts_of paths.now)) }
{
    let mut rests = Vec::new(alloc);
    push_onward(&mut rests, paths, key)?;
    if in_array {
        push_onward(&mut rests, paths, ITEM)?;
    }
    Ok(rests)
}

/// Puts what is after this step and a dot in each of these paths that begins with them after the others.
fn push_onward<'a>(
    rests: &mut Vec<&'a [u8]>,
    paths: &[&'a [u8]],
    step: &[u8],
) -> Result<(), AllocError>
    ensures { OnOk result (texts_of rests.new.items ≡ texts_of rests.old.items ++ flat_map (onward step.now) (texts_of paths.now)) }
{
    for path in paths {
        if let Some(rest) = after_step(*path, step) {
            rests.push(rest)?;
        }
    }
    Ok(())
}

/// What is after this step and a dot in a path, if it begins with them.
fn after_step<'a>(path: &'a [u8], step: &[u8]) -> Option<&'a [u8]>
    ensures { option_to_list (option_copied result) ≡ onward step.now path.now }
{
    let (front, rest) = path.split_at(step.len().min(path.len()));
    match rest {
        [b'.', more @ ..] if front == step => Some(more),
        _ => None,
    }
}

/// Puts an element with this value after the others, in an array under this number, which is counted on.
fn put_element(
    out: &mut Vec<u8>,
    in_array: bool,
    number: &mut u64,
    element: RawElement<'_>,
    value: &[u8],
) -> Result<(), AllocError>
    ensures put { OnOk result (out.new.items ≡ out.old.items
        ++ element_of (frame_of element.entry).kind (key_at in_array number.old (frame_of element.entry).key) value.now) }
    ensures counted { OnOk result (number.new ≡ number.old + 1) }
{
    out.push(element.element_type().to_tag())?;
    put_key(out, in_array, *number, element.key())?;
    out.push(0)?;
    out.extend_from_slice(value)?;
    let Some(next) = number.checked_add(1) else {
        return Err(AllocError);
    };
    *number = next;
    Ok(())
}

/// Puts the key of an element after the rest: in an array this number.
fn put_key(out: &mut Vec<u8>, in_array: bool, number: u64, key: &str) -> Result<(), AllocError>
    ensures { OnOk result (out.new.items ≡ out.old.items ++ key_at in_array number key.now) }
{
    if in_array {
        push_number(out, number)
    } else {
        out.extend_from_slice(key.as_bytes())
    }
}
