//! How paths are shown.
#![tactic(auto)]

ghost use Rattle.std.specs.Prelude.{◌≡◌, ◌≤◌, ◌++◌, ◌∷◌, [], codes, cond, decimal, get_or, length, map, nat_lt, reverse, IfErr, IfOk, OnOk};
ghost use Rattle.std.specs.List.{list_any};
ghost use Rattle.dump_commands.specs.elements.Changes.{is_separator, items_of, listing_by, listing_of};
ghost use Rattle.dump_commands.specs.elements.Changes as says;
ghost use Rattle.dump_commands.specs.elements.Cut.{texts_of};
ghost use Rattle.dump_commands.specs.elements.Numbered.{AreAfter, AreNumbered, AreWithin, after_paths, at_numbers, paths_by, paths_of};
ghost use Rattle.dump_io.specs.lines.Failing.{IsReading};
ghost use Rattle.dump_io.specs.lines.Quoting.{quoted};

use crate::elements::changes::Changes;
use crate::elements::changes::numbers::{Numbers, Step};
use dump_io::lines::failure::Failure;
use dump_io::lines::quote::quotation;
use dump_io::lines::text::{push_number, push_words};
use std::alloc::{AllocError, Global};

/// How many bytes the paths have at most that are shown.
const ROOM: usize = 65536;

/// The first of the paths with these numbers, and how many more there are.
pub fn listed(alloc: Global, numbers: &Numbers<'_>, paths: &[usize]) -> Result<Changes, Failure>
    requires numbered { AreNumbered numbers.now }
    requires within { AreWithin (length (paths_of numbers.now)) paths.now }
    ensures listed { IfOk result (λ changes. listing_by changes ≡ listing_of (map says.path_shown (at_numbers (paths_of numbers.now) paths.now))) }
    ensures failed { IfErr result (λ failure. ¬ IsReading failure) }
{
    let mut texts = Vec::new(alloc);
    let mut room = ROOM;
    for path in paths {
        let text = path_shown(alloc, &numbers.steps, *path)?;
        if text.len() > room {
            break;
        }
        room -= text.len();
        push_text(&mut texts, text)?;
    }
    let more = paths.len() - texts.len();
    Ok(Changes { paths: texts, more })
}

/// How the path with this number is shown.
fn path_shown(alloc: Global, steps: &[Step<'_>], path: usize) -> Result<Vec<u8>, Failure>
    requires order { AreAfter 1 steps.now }
    requires within { path ≤ length steps.now }
    ensures shown { IfOk result (λ text. text.items ≡ says.path_shown (get_or (paths_by steps.now) path [])) }
    ensures failed { IfErr result (λ failure. ¬ IsReading failure) }
{
    let mut keys = keys_back(alloc, steps, path)?;
    let mut texts = Vec::new(alloc);
    while let Some(key) = keys.pop() {
        let text = step_shown(alloc, key)?;
        push_text(&mut texts, text)?;
    }
    let text = separated(alloc, ".", &texts)?;
    Ok(text)
}

fn push_text(texts: &mut Vec<Vec<u8>>, text: Vec<u8>) -> Result<(), AllocError>
    ensures { OnOk result (items_of texts.new.items ≡ items_of texts.old.items ++ text.items ∷ []) }
{
    texts.push(text)?;
    Ok(())
}

/// The keys of the path with this number, from the last one to the first.
fn keys_back<'a>(
    alloc: Global,
    steps: &[Step<'a>],
    path: usize,
) -> Result<Vec<&'a [u8]>, AllocError>
    requires order { AreAfter 1 steps.now }
    requires within { path ≤ length steps.now }
    ensures { IfOk result (λ keys. reverse (texts_of keys.items) ≡ get_or (paths_by steps.now) path []) }
{
    let mut keys = Vec::new(alloc);
    let mut number = path;
    while number > 0 {
        let step = steps[number - 1];
        keys.push(step.key)?;
        number = step.before;
    }
    Ok(keys)
}

/// How a key is shown. One that isn't UTF-8, which no element of a sound document has, counts as out of memory.
fn step_shown(alloc: Global, key: &[u8]) -> Result<Vec<u8>, Failure>
    ensures shown { IfOk result (λ text. text.items ≡ says.step_shown key.now) }
    ensures failed { IfErr result (λ failure. ¬ IsReading failure) }
{
    let Ok(text) = str::from_utf8(key) else {
        return Err(Failure::Memory);
    };
    let quoted = quotation(alloc, text)?;
    if is_bare(key, &quoted) {
        Ok(Vec::from_slice(alloc, key)?)
    } else {
        Ok(quoted)
    }
}

/// Whether a key that is this in quotes is shown without them.
fn is_bare(key: &[u8], in_quotes: &[u8]) -> bool
    requires { in_quotes.now ≡ quoted key.now }
    ensures { result ≡ says.is_bare key.now }
{
    match in_quotes {
        [_, inner @ .., _] => !key.is_empty() && !has_separator(key) && inner == key,
        _ => false,
    }
}

/// Whether a space, a comma, a dot, or a byte beyond ASCII is among these.
fn has_separator(bytes: &[u8]) -> bool
    ensures { result ≡ list_any is_separator bytes.now }
{
    for byte in bytes {
        if matches!(*byte, b' ' | b',' | b'.' | 128..) {
            return true;
        }
    }
    false
}

/// Texts with a separator between them.
pub fn separated(alloc: Global, separator: &str, texts: &[Vec<u8>]) -> Result<Vec<u8>, AllocError>
    ensures { IfOk result (λ text. text.items ≡ says.separated separator.now (items_of texts.now)) }
{
    let mut whole = Vec::new(alloc);
    for (place, text) in texts.iter().enumerate() {
        push_after(&mut whole, separator, place, text)?;
    }
    Ok(whole)
}

/// Appends a text that has this place among others: after a separator, unless it is the first.
fn push_after(
    whole: &mut Vec<u8>,
    separator: &str,
    place: usize,
    text: &[u8],
) -> Result<(), AllocError>
    ensures { OnOk result (whole.new.items ≡ whole.old.items ++ (cond (nat_lt 0 place) separator.now [] ++ text.now)) }
{
    if place == 0 {
        return whole.extend_from_slice(text);
    }
    push_words(whole, separator)?;
    whole.extend_from_slice(text)
}

/// Appends to paths how many more there are. Without any path it is the order of elements that differs.
pub fn push_more(text: &mut Vec<u8>, is_first: bool, more: usize) -> Result<(), AllocError>
    ensures { OnOk result (text.new.items ≡ text.old.items ++ after_paths is_first more) }
{
    match (is_first, more) {
        (true, 0) => push_words(text, "the order of elements"),
        (false, 0) => Ok(()),
        (true, _) => push_count(text, more),
        (false, _) => {
            push_words(text, ", ")?;
            push_count(text, more)
        }
    }
}

fn push_count(text: &mut Vec<u8>, more: usize) -> Result<(), AllocError>
    ensures { OnOk result (text.new.items ≡ text.old.items ++ (codes "and " ++ decimal more ++ codes " more")) }
{
    push_words(text, "and ")?;
    push_number(text, more as u64)?;
    push_words(text, " more")
}
