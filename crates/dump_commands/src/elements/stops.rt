//! Puts the runs of what is left of a level that stops.
#![tactic(auto)]

ghost use Rattle.std.specs.Prelude.{◌≡◌, ◌*◌, ◌+◌, ◌-◌, ◌<◌, ◌^◌, ◌∷◌, [], ◌++◌, ℕ, List, codes, length, IfErr, OnOk};
ghost use Rattle.dump_io.specs.lines.Failing.{IsReading};
ghost use Rattle.dump_io.specs.lines.Find as find;
ghost use Rattle.bson_model.specs.Bytes.{NulFree};
ghost use Rattle.raw_view.specs.Frame.{HasKey};
ghost use Rattle.raw_view.specs.Frame.Front.{StopsWith};
ghost use Rattle.std.specs.Option.{option_copied};
ghost use Rattle.dump_commands.specs.elements.Runs as sheets;
ghost use Rattle.dump_commands.specs.elements.Runs.{Writes, fault_run};
ghost use Rattle.dump_commands.specs.elements.Showing.{HasEndRuns, SaysTag};
ghost use Rattle.dump_commands.specs.elements.Showing as says;

use crate::elements::hexed::split_at_most;
use crate::elements::listing::push_fault;
use crate::elements::page::{Page, Run, push_run};
use crate::elements::runs::{push_key, push_worded, split_head};
use dump_io::lines::failure::Failure;
use dump_io::lines::text::push_words;
use dump_io::lines::value::push_kind;
use raw_view::{BorrowedError, ElementType};
use std::alloc::AllocError;

/// Puts what is left of a level that stops.
pub fn push_stop(
    depth: usize,
    rest: &[u8],
    error: &BorrowedError<'_>,
    page: &mut Page,
) -> Result<(), Failure>
    requires { (depth < 2 ^ 32) × StopsWith error.now.kind (option_copied error.now.key) rest.now }
    ensures put { OnOk result ((runs : List sheets.Run) × HasEndRuns depth rest.now runs × Writes page.old page.new runs) }
    ensures failed { IfErr result (λ failure. ¬ IsReading failure) }
{
    if rest.is_empty() {
        push_reason(depth, rest, error, page)?;
        return Ok(());
    }
    let Some(key) = error.key else {
        push_bad_key(depth, rest, error, page)?;
        return Ok(());
    };
    push_no_value(depth, rest, key, error, page)?;
    Ok(())
}

/// Puts what is left of a level that stops at a key that isn't UTF-8.
fn push_bad_key(
    depth: usize,
    rest: &[u8],
    error: &BorrowedError<'_>,
    page: &mut Page,
) -> Result<(), Failure>
    requires { depth < 2 ^ 32 }
    ensures put { (key : List ℕ) (at : HasKey rest.now key) → OnOk result ((name : List ℕ) × SaysTag at.tag name × Writes page.old page.new
        (says.bad_key_runs depth rest.now key at name (codes "damaged: " ++ find.kind_text error.now.kind))) }
    ensures failed { IfErr result (λ failure. ¬ IsReading failure) }
{
    let (tag, others) = split_at_most(rest, 1);
    push_any_tag(depth, tag, page)?;
    let (key, others) = split_key(others);
    push_reason(depth, key, error, page)?;
    push_worded(depth, others, false, "not read", page)?;
    Ok(())
}

/// Puts what is left of a level that stops after this key.
fn push_no_value(
    depth: usize,
    rest: &[u8],
    key: &str,
    error: &BorrowedError<'_>,
    page: &mut Page,
) -> Result<(), Failure>
    requires { depth < 2 ^ 32 }
    ensures put { (at : HasKey rest.now key.now) → OnOk result ((name : List ℕ) × SaysTag at.tag name × Writes page.old page.new
        (says.no_value_runs depth rest.now key.now at name (codes "damaged: " ++ find.kind_text error.now.kind))) }
    ensures failed { IfErr result (λ failure. ¬ IsReading failure) }
{
    let (tag, key_bytes, others) = split_head(rest, key.len());
    push_any_tag(depth, tag, page)?;
    push_key(depth, key, key_bytes, page)?;
    push_reason(depth, others, error, page)?;
    Ok(())
}

/// Splits bytes after the first 0.
fn split_key(bytes: &[u8]) -> (&[u8], &[u8])
    ensures { (key others : List ℕ) → bytes.now ≡ key ++ 0 ∷ others → NulFree key
        → (result.0.now ≡ key ++ 0 ∷ []) × (result.1.now ≡ others) }
{
    split_at_most(bytes, key_len(bytes))
}

/// How many bytes the first 0 and those before it are.
fn key_len(bytes: &[u8]) -> usize
    ensures { (key others : List ℕ) → bytes.now ≡ key ++ 0 ∷ others → NulFree key → result ≡ length key + 1 }
{
    let mut rest = bytes;
    'bytes: while let [byte, more @ ..] = rest {
        if *byte == 0 {
            return bytes.len().saturating_sub(more.len());
        }
        rest = more;
    }
    bytes.len()
}

/// Puts bytes at which reading stops, with the reason.
fn push_reason(
    depth: usize,
    bytes: &[u8],
    error: &BorrowedError<'_>,
    page: &mut Page,
) -> Result<(), Failure>
    requires { depth < 2 ^ 32 }
    ensures put { OnOk result (Writes page.old page.new (fault_run depth bytes.now (codes "damaged: " ++ find.kind_text error.now.kind) ∷ [])) }
    ensures failed { IfErr result (λ failure. ¬ IsReading failure) }
{
    page.words.clear();
    push_fault(&mut page.words, error)?;
    let run = Run {
        bytes,
        depth,
        is_fault: true,
    };
    push_run(page, run, 0)
}

/// Puts a tag at which reading fails.
fn push_any_tag(depth: usize, tag: &[u8], page: &mut Page) -> Result<(), Failure>
    requires { depth < 2 ^ 32 }
    ensures put { (byte : ℕ) → tag.now ≡ byte ∷ [] → OnOk result ((name : List ℕ) × SaysTag byte name
        × Writes page.old page.new (fault_run depth (byte ∷ []) name ∷ [])) }
    ensures failed { IfErr result (λ failure. ¬ IsReading failure) }
{
    page.words.clear();
    push_tag_words(&mut page.words, tag)?;
    let run = Run {
        bytes: tag,
        depth,
        is_fault: true,
    };
    push_run(page, run, 0)?;
    Ok(())
}

/// Appends what this tag says.
fn push_tag_words(words: &mut Vec<u8>, tag: &[u8]) -> Result<(), AllocError>
    ensures { (byte : ℕ) → tag.now ≡ byte ∷ [] → OnOk result ((name : List ℕ) × SaysTag byte name × (words.new.items ≡ words.old.items ++ name)) }
{
    let Some((tag, _)) = tag.split_first() else {
        return Ok(());
    };
    match ElementType::from(*tag) {
        Some(kind) => push_kind(words, kind),
        None => push_words(words, no_tag_words(*tag)),
    }
}

fn no_tag_words(byte: u8) -> &'static str
    ensures { result.now ≡ says.no_tag_text byte }
{
    match byte {
        0 => "no such tag; a final 0 may be too early",
        _ => "no such tag",
    }
}
