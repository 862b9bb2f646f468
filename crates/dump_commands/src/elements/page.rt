//! The lines that show runs of bytes.
#![tactic(auto)]

ghost use Rattle.std.specs.Prelude.{◌≡◌, ◌*◌, ◌+◌, ◌-◌, ◌<◌, ◌^◌, ◌∷◌, [], ◌++◌, IfErr, OnOk, List, codes, decimal, drop, length, replicate, take, ℕ};
ghost use Rattle.dump_io.specs.lines.Failing.{IsReading};
ghost use Rattle.dump_commands.specs.elements.Runs.{Writes, rest_line, row_text, sheet_of, told_run};
ghost use Rattle.dump_commands.specs.elements.Runs as says;

use crate::elements::hexed::{
    ROW, begin_line, push_more_line, push_next_lines, push_rest_line, push_row, push_spaces,
    split_at_most,
};
use dump_io::lines::failure::{Failure, in_range};
use dump_io::lines::text::{push_number, push_words};
use std::alloc::{AllocError, Global};

/// How many lines a run has after the first at most.
const ROWS: usize = 15;

/// How many bytes of a run are shown at most.
const SHOWN: usize = 256;

/// The column in which words begin, after the offset.
const COLUMN: usize = 50;

/// How many levels words are indented for at most.
const INDENTED: usize = 20;

/// Bytes that are one thing.
#[derive(Clone, Copy)]
pub struct Run<'a> {
    /// the bytes
    pub bytes: &'a [u8],
    /// how many levels are around theirs
    pub depth: usize,
    /// whether reading fails there
    pub is_fault: bool,
}

/// Lines that show the runs of a document, one after the other.
#[derive(Drop)]
pub struct Page {
    /// the lines that aren't written yet
    pub text: Vec<u8>,
    /// what is said of the next run
    pub words: Vec<u8>,
    /// where the document begins
    pub base: u64,
    /// how many bytes it has
    pub size: u64,
    /// how many of them are before the next run
    pub at: u64,
    /// in how many of its first bytes runs begin that are shown; `None`: all are
    pub most: Option<u64>,
}

impl Page {
    /// No lines yet of a document of this number of bytes that begins there.
    pub fn new(alloc: Global, most: Option<u64>, base: u64, size: usize) -> Page
        ensures text { result.text.items ≡ [] }
        ensures at { result.at ≡ 0 }
        ensures sheet { sheet_of result ≡ record { most = most; base = base; size = size } }
    {
        Page {
            text: Vec::new(alloc),
            words: Vec::new(alloc),
            base,
            size: size as u64,
            at: 0,
            most,
        }
    }

    /// Whether the next run is shown.
    pub fn goes_on(&self) -> bool
        ensures { result ≡ says.is_shown (sheet_of self.now) self.now.at }
    {
        if self.at == self.size {
            return true;
        }
        match self.most {
            None => true,
            Some(most) => self.at < most,
        }
    }
}

/// Puts the lines of a run after the others, if it is shown. What it is are the words that the page has, from this one on.
pub fn push_run(page: &mut Page, run: Run<'_>, from: usize) -> Result<(), Failure>
    requires { run.depth < 2 ^ 32 }
    ensures put { OnOk result (Writes page.old page.new (told_run run.entry (drop from page.old.words.items) ∷ [])) }
    ensures failed { IfErr result (λ failure. ¬ IsReading failure) }
{
    if !page.goes_on() {
        return Ok(());
    }
    let end = in_range(page.at.checked_add(run.bytes.len() as u64))?;
    let last = in_range(page.base.checked_add(end))?;
    in_range(last.checked_add(SHOWN as u64))?;
    if run.is_fault || !run.bytes.is_empty() {
        let words = split_at_most(&page.words, from).1;
        push_first_line(&mut page.text, page.base, page.at, run, words)?;
        push_other_lines(&mut page.text, page.most, page.base + page.at, run.bytes)?;
    }
    page.at = end;
    Ok(())
}

/// Puts the line after the others that says how many bytes of the document aren't shown, if there are any.
pub fn push_rest(page: &mut Page) -> Result<(), Failure>
    ensures put { OnOk result (page.new.text.items ≡ page.old.text.items ++ rest_line (page.old.base + page.old.at) (page.old.size - page.old.at)) }
    ensures failed { IfErr result (λ failure. ¬ IsReading failure) }
{
    let offset = in_range(page.base.checked_add(page.at))?;
    let left = page.size.saturating_sub(page.at);
    push_rest_line(&mut page.text, offset, left)?;
    Ok(())
}

/// Appends the first line of a run of a document that begins at `base`, before which `at` of its bytes are.
fn push_first_line(
    text: &mut Vec<u8>,
    base: u64,
    at: u64,
    run: Run<'_>,
    words: &[u8],
) -> Result<(), AllocError>
    requires { (run.depth < 2 ^ 32) × (base + at < 2 ^ 64) }
    ensures { OnOk result (text.new.items ≡ text.old.items ++ says.first_line (base + at) at (told_run run.entry words.now)) }
{
    begin_line(text, base + at)?;
    push_row_with_words(text, at, run, words)?;
    push_words(text, "\n")
}

/// Appends the first bytes of a run, and its words.
fn push_row_with_words(
    text: &mut Vec<u8>,
    at: u64,
    run: Run<'_>,
    words: &[u8],
) -> Result<(), AllocError>
    requires { run.depth < 2 ^ 32 }
    ensures { OnOk result (text.new.items ≡ text.old.items
        ++ says.with_words (row_text (says.mark_of run.entry.is_fault) (take 16 run.entry.bytes.now)) run.entry.depth (says.words_of at (told_run run.entry words.now))) }
{
    let start = text.len();
    push_row(text, mark_of(run.is_fault), split_at_most(run.bytes, ROW).0)?;
    let wide = text.len() - start;
    if run.is_fault {
        push_column(text, wide, run.depth, words)?;
        push_place(text, at)?;
    } else if !words.is_empty() {
        push_column(text, wide, run.depth, words)?;
    }
    Ok(())
}

/// Appends words after the bytes of a line, which take this number of columns.
fn push_column(
    text: &mut Vec<u8>,
    wide: usize,
    depth: usize,
    words: &[u8],
) -> Result<(), AllocError>
    requires { depth < 2 ^ 32 }
    ensures { (row : List ℕ) → length row ≡ wide → OnOk result
        (text.new.items ≡ text.old.items ++ (replicate (50 - length row) 32 ++ says.indent depth ++ words.now)) }
{
    push_spaces(text, COLUMN.saturating_sub(wide))?;
    push_indent(text, depth)?;
    text.extend_from_slice(words)
}

/// Appends where reading fails.
fn push_place(text: &mut Vec<u8>, at: u64) -> Result<(), AllocError>
    ensures { OnOk result (text.new.items ≡ text.old.items ++ (codes ", byte " ++ decimal at)) }
{
    push_words(text, ", byte ")?;
    push_number(text, at)
}

/// Appends what is before the words of a line.
fn push_indent(text: &mut Vec<u8>, depth: usize) -> Result<(), AllocError>
    requires { depth < 2 ^ 32 }
    ensures { OnOk result (text.new.items ≡ text.old.items ++ says.indent depth) }
{
    if depth <= INDENTED {
        return push_spaces(text, 2 * depth);
    }
    push_spaces(text, 2 * INDENTED)?;
    push_words(text, "level ")?;
    push_number(text, depth as u64)?;
    push_words(text, ": ")
}

/// Appends the lines of a run after the first.
fn push_other_lines(
    text: &mut Vec<u8>,
    most: Option<u64>,
    offset: u64,
    bytes: &[u8],
) -> Result<(), AllocError>
    requires { offset + length bytes.now + 256 < 2 ^ 64 }
    ensures { OnOk result (text.new.items ≡ text.old.items ++ says.other_lines most offset bytes.now) }
{
    let others = split_at_most(bytes, ROW).1;
    let offset_of_others = offset + ROW as u64;
    if most.is_none() {
        return push_next_lines(text, bytes.len(), offset_of_others, others);
    }
    push_next_lines(text, ROWS, offset_of_others, others)?;
    push_more_line(text, offset + SHOWN as u64, split_at_most(bytes, SHOWN).1)
}

/// What is before the first byte of a run.
fn mark_of(is_fault: bool) -> u8
    ensures { result ≡ says.mark_of is_fault }
{
    if is_fault { b'>' } else { b' ' }
}
