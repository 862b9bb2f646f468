//! What is found in documents, in words.
#![tactic(auto)]

ghost use Rattle.std.specs.Prelude.{◌≡◌, ◌++◌, ℕ, List, Some, codes, decimal, IfOk, flat_map, length, map, OnOk};
ghost use Rattle.std.specs.Fmt.{signed_decimal};
ghost use Rattle.std.specs.Option.{option_map};
ghost use Rattle.raw_tree.specs.Barriers.{step_of};
ghost use Rattle.dump_io.specs.lines.Find.{account_of, explanation_of, explanation_text, spot_of};
ghost use Rattle.dump_io.specs.lines.Told.{first_text, line, path_text, spot_text, step_text, head_text};
ghost use Rattle.dump_io.specs.lines.Told as says;
ghost use Rattle.dump_io.specs.lines.Origins.{origin_of};

use crate::lines::find::Told;
use crate::lines::origin::Origin;
use crate::lines::quote::{push_quoted, quotation};
use crate::lines::reason::Why;
use itoa::Buffer;
use raw_tree::{PathStep, Place};
use std::alloc::{AllocError, Global};

/// The number of steps that are shown at each end of a path with more than twice that number.
const SHOWN: usize = 10;

/// Appends words to the text.
pub fn push_words(text: &mut Vec<u8>, words: &str) -> Result<(), AllocError>
    ensures { OnOk result (text.new.items ≡ text.old.items ++ words.now) }
{
    text.extend_from_slice(words.as_bytes())
}

/// Appends a number with a sign to the text, in decimal.
pub fn push_signed(text: &mut Vec<u8>, number: i64) -> Result<(), AllocError>
    ensures { OnOk result (text.new.items ≡ text.old.items ++ signed_decimal number) }
{
    let mut digits = Buffer::new();
    text.extend_from_slice(digits.format(number).as_bytes())
}

/// Appends a number to the text, in decimal.
pub fn push_number(text: &mut Vec<u8>, number: u64) -> Result<(), AllocError>
    ensures { OnOk result (text.new.items ≡ text.old.items ++ decimal number) }
{
    let mut digits = Buffer::new();
    text.extend_from_slice(digits.format(number).as_bytes())
}

fn push_step(text: &mut Vec<u8>, step: &PathStep<'_>) -> Result<(), AllocError>
    ensures { OnOk result (text.new.items ≡ text.old.items ++ step_text (step_of step.now)) }
{
    push_words(text, "/")?;
    push_number(text, step.number as u64)?;
    if let Some(key) = step.key {
        push_words(text, ":")?;
        push_quoted(text, key)?;
    }
    Ok(())
}

/// Appends the steps of a path to the text; of a long path those at its ends.
fn push_path(text: &mut Vec<u8>, path: &[PathStep<'_>]) -> Result<(), AllocError>
    ensures { OnOk result (text.new.items ≡ text.old.items ++ path_text (map step_of path.now)) }
{
    if path.len() <= 2 * SHOWN {
        return push_steps(text, path);
    }
    push_steps(text, &path[..SHOWN])?;
    push_words(text, "/..")?;
    push_steps(text, &path[path.len() - SHOWN..])
}

fn push_steps(text: &mut Vec<u8>, path: &[PathStep<'_>]) -> Result<(), AllocError>
    ensures { OnOk result
        (text.new.items ≡ text.old.items ++ flat_map step_text (map step_of path.now)) }
{
    for step in path {
        push_step(text, step)?;
    }
    Ok(())
}

/// Appends a place to the text.
fn push_place(text: &mut Vec<u8>, place: &Place<'_>) -> Result<(), AllocError>
    ensures { OnOk result
        (text.new.items ≡ text.old.items ++ spot_text (Some (spot_of place.now))) }
{
    push_words(text, " at ")?;
    push_path(text, &place.path)?;
    push_words(text, ", byte ")?;
    push_number(text, place.offset as u64)
}

/// Appends to the text why a document is damaged, with its numbers.
pub fn push_why(text: &mut Vec<u8>, why: Why) -> Result<(), AllocError>
    ensures { OnOk result (text.new.items ≡ text.old.items ++ explanation_text (explanation_of why)) }
{
    push_words(text, why.words)?;
    match (why.number, why.left) {
        (None, None) => Ok(()),
        (Some(number), None) => {
            push_words(text, ": ")?;
            push_number(text, number)
        }
        (None, Some(left)) => {
            push_words(text, ": ")?;
            push_left(text, left)
        }
        (Some(number), Some(left)) => {
            push_words(text, ": ")?;
            push_number(text, number)?;
            push_words(text, " where ")?;
            push_left(text, left)
        }
    }
}

fn push_left(text: &mut Vec<u8>, left: u64) -> Result<(), AllocError>
    ensures { OnOk result (text.new.items ≡ text.old.items ++ (decimal left ++ codes " are left")) }
{
    push_number(text, left)?;
    push_words(text, " are left")
}

/// What is told of a document, in words.
fn words_of(alloc: Global, told: &Told<'_>) -> Result<Vec<u8>, AllocError>
    ensures { IfOk result (λ text. text.items ≡ says.words_of (account_of told.now)) }
{
    let mut text = Vec::from_slice(alloc, told.word.as_bytes())?;
    if let Some(place) = &told.place {
        push_place(&mut text, place)?;
    }
    if let Some(why) = told.reason {
        push_words(&mut text, ": ")?;
        push_why(&mut text, why)?;
    }
    Ok(text)
}

/// The line that tells this of a document.
pub fn told_line(
    alloc: Global,
    name: &str,
    offset: u64,
    told: &Told<'_>,
) -> Result<Vec<u8>, AllocError>
    ensures { IfOk result
        (λ text. text.items ≡ line name.now offset (says.words_of (account_of told.now))) }
{
    let words = words_of(alloc, told)?;
    line_of(alloc, name, offset, &words)
}

/// The line of a document that repeats the form of the first one.
pub fn repeat_line(
    alloc: Global,
    origin: Origin<'_>,
    first: Origin<'_>,
) -> Result<Vec<u8>, AllocError>
    ensures { IfOk result (λ text. text.items ≡ line origin.entry.name.now origin.entry.offset (first_text (origin_of first.entry))) }
{
    let words = first_words(alloc, first)?;
    line_of(alloc, origin.name, origin.offset, &words)
}

fn first_words(alloc: Global, first: Origin<'_>) -> Result<Vec<u8>, AllocError>
    ensures { IfOk result (λ text. text.items ≡ first_text (origin_of first.entry)) }
{
    let mut text = Vec::new(alloc);
    push_words(&mut text, "repeats ")?;
    push_quoted(&mut text, first.name)?;
    push_words(&mut text, ":")?;
    push_number(&mut text, first.offset)?;
    Ok(text)
}

/// A line of a report.
pub fn line_of(alloc: Global, name: &str, offset: u64, words: &[u8]) -> Result<Vec<u8>, AllocError>
    ensures { IfOk result (λ text. text.items ≡ line name.now offset words.now) }
{
    let mut text = quotation(alloc, name)?;
    push_words(&mut text, ":")?;
    push_number(&mut text, offset)?;
    push_words(&mut text, ": ")?;
    text.extend_from_slice(words)?;
    push_words(&mut text, "\n")?;
    Ok(text)
}

/// The number of bytes of a document, and then what is told of it.
pub fn sized(alloc: Global, len: usize, told: &Option<Told<'_>>) -> Result<Vec<u8>, AllocError>
    ensures { (b : List ℕ) → length b ≡ len → IfOk result
        (λ text. text.items ≡ head_text b (option_map account_of told.now)) }
{
    let mut text = Vec::new(alloc);
    push_number(&mut text, len as u64)?;
    push_words(&mut text, " bytes")?;
    if let Some(told) = told {
        push_words(&mut text, ": ")?;
        text.extend_from_slice(&words_of(alloc, told)?)?;
    }
    Ok(text)
}
