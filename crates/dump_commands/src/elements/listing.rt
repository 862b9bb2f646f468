//! Writes the elements of every level of a document, a line each.
#![tactic(auto)]

ghost use Rattle.std.specs.Prelude.{◌≡◌, ◌*◌, ◌<◌, ◌^◌, ◌∷◌, [], ◌++◌, ℕ, List, Some, codes, drop, replicate, IfErr, IfOk, OnErr, OnOk};
ghost use Rattle.std.specs.Io.KnownBytes.{Appends};
ghost use Rattle.raw_view.specs.Document.{bytes_of};
ghost use Rattle.raw_view.specs.Frame.ElementSteps.{frame_of};
ghost use Rattle.raw_view.specs.Frame.Kind.{kind_text};
ghost use Rattle.raw_view.specs.Meaning.Value.{value_of};
ghost use Rattle.dump_io.specs.lines.Find as find;
ghost use Rattle.dump_io.specs.lines.Quoting.{quoted};
ghost use Rattle.dump_commands.specs.elements.Listing.{indented, HasLinesFront, Lists, ListsNext, TellsElement, TellsStop};
ghost use Rattle.dump_commands.specs.elements.Listing as says;
ghost use Rattle.dump_io.specs.lines.Failing.{IsReading};
ghost use Rattle.dump_io.specs.lines.Values.{ShowsValue};

use crate::elements::text::shown_text;
use dump_io::lines::failure::Failure;
use dump_io::lines::quote::push_quoted;
use dump_io::lines::reason::kind_of;
use dump_io::lines::text::{push_why, push_words};
use dump_io::lines::value::{push_kind, push_value};
use dump_io::lines::write::put;
use raw_view::{BorrowedError, Elements, RawBsonRef, RawDocument, RawElement, RawLevel};
use std::alloc::{AllocError, Global};
use std::io::Write;
use std::mem;

/// How many levels are listed, the document among them.
const LEVELS: usize = 500;

/// What comes next in a level.
#[derive(Clone, Copy)]
enum Next<'a> {
    /// its end
    End,
    /// a line
    Line,
    /// a line, and the level that its value holds
    Inside(RawLevel<'a>),
}

/// Writes the lines of a document and of the levels inside it, each line made in the same memory. The levels around the
/// innermost one wait in memory, too, so that no document fills the stack.
pub fn list_levels<W: Write>(
    alloc: Global,
    document: RawDocument<'_>,
    out: &mut W,
) -> Result<(), Failure>
    ensures listed { OnOk result ((text : List ℕ) × Lists 500 1 (bytes_of document.entry) text
        × Appends (W.contents out.old) (W.contents out.new) text) }
    ensures front { OnErr result ((text : List ℕ) × HasLinesFront 500 1 (bytes_of document.entry) text
        × Appends (W.contents out.old) (W.contents out.new) text) }
    ensures failed { IfErr result (λ failure. ¬ IsReading failure) }
{
    let mut waiting: Vec<Elements<'_>> = Vec::new(alloc);
    let mut line: Vec<u8> = Vec::new(alloc);
    let mut level = Elements::new(document);
    'levels: loop {
        let depth = waiting.len() + 1;
        match next_line(alloc, depth, &mut level, &mut line)? {
            Next::End => {
                let Some(outer) = waiting.pop() else {
                    return Ok(());
                };
                level = outer;
            }
            Next::Line => put(out, &line)?,
            Next::Inside(inner) => {
                put(out, &line)?;
                if depth == LEVELS {
                    deep_line(depth + 1, &mut line)?;
                    put(out, &line)?;
                } else {
                    enter(inner.document, &mut level, &mut waiting)?;
                }
            }
        }
    }
}

/// Lets a level wait, and goes into one inside it.
fn enter<'a>(
    inner: RawDocument<'a>,
    level: &mut Elements<'a>,
    waiting: &mut Vec<Elements<'a>>,
) -> Result<(), AllocError>
    ensures waits { OnOk result (waiting.new.items ≡ waiting.old.items ++ level.old ∷ []) }
    ensures inside { OnOk result (level.new ≡ Some (drop 4 (bytes_of inner.entry))) }
{
    let outer = mem::replace(level, Elements::new(inner));
    waiting.push(outer)?;
    Ok(())
}

/// Makes the line of what comes next in a level.
fn next_line<'a>(
    alloc: Global,
    depth: usize,
    level: &mut Elements<'a>,
    line: &mut Vec<u8>,
) -> Result<Next<'a>, AllocError>
    requires { depth < 2 ^ 32 }
    ensures { IfOk result (ListsNext depth level.old level.new line.new.items) }
{
    match level.next() {
        None => Ok(Next::End),
        Some(Err(error)) => {
            stop_line(alloc, depth, &error, line)?;
            Ok(Next::Line)
        }
        Some(Ok(element)) => match element_line(alloc, depth, element, line)? {
            None => Ok(Next::Line),
            Some(inner) => Ok(Next::Inside(inner)),
        },
    }
}

/// Begins a line: two spaces for each level around.
fn begin(depth: usize, line: &mut Vec<u8>) -> Result<(), AllocError>
    requires { depth < 2 ^ 32 }
    ensures { OnOk result (line.new.items ≡ replicate (2 * depth) 32) }
{
    line.clear();
    line.resize(2 * depth, b' ')
}

/// Begins the line of an element: spaces, the key in quotes, and a colon.
fn begin_element(depth: usize, key: &str, line: &mut Vec<u8>) -> Result<(), AllocError>
    requires { depth < 2 ^ 32 }
    ensures { OnOk result
        (line.new.items ≡ replicate (2 * depth) 32 ++ (quoted key.now ++ codes ": ")) }
{
    begin(depth, line)?;
    push_quoted(line, key)?;
    push_words(line, ": ")
}

/// Makes the line of a level that is too deep.
fn deep_line(depth: usize, line: &mut Vec<u8>) -> Result<(), AllocError>
    requires { depth < 2 ^ 32 }
    ensures { OnOk result (line.new.items ≡ indented depth (codes "too deep")) }
{
    begin(depth, line)?;
    push_words(line, "too deep\n")
}

/// Appends the reason of a fault to the text.
pub fn push_fault(text: &mut Vec<u8>, error: &BorrowedError<'_>) -> Result<(), AllocError>
    ensures { OnOk result
        (text.new.items ≡ text.old.items ++ (codes "damaged: " ++ find.kind_text error.now.kind)) }
{
    push_words(text, "damaged: ")?;
    push_why(text, kind_of(&error.kind))
}

/// Makes the line of a stop.
fn stop_line(
    alloc: Global,
    depth: usize,
    error: &BorrowedError<'_>,
    line: &mut Vec<u8>,
) -> Result<(), AllocError>
    requires { depth < 2 ^ 32 }
    ensures { OnOk result (TellsStop depth error.now line.new.items) }
{
    match error.key {
        Some(key) => begin_element(depth, key, line)?,
        None => begin(depth, line)?,
    }
    push_fault(line, error)?;
    push_words(line, "\n")
}

/// Makes the line of an element, and returns the level that its value holds, if it holds one.
fn element_line<'a>(
    alloc: Global,
    depth: usize,
    element: RawElement<'a>,
    line: &mut Vec<u8>,
) -> Result<Option<RawLevel<'a>>, AllocError>
    requires { depth < 2 ^ 32 }
    ensures { IfOk result (TellsElement depth (frame_of element.entry) line.new.items) }
{
    match element.resolve() {
        Ok(value) => {
            value_line(alloc, depth, element.key(), value, line)?;
            Ok(value.level())
        }
        Err(error) => {
            let shown = shown_text(alloc, element)?;
            fault_line(depth, element, &error, &shown, line)?;
            Ok(None)
        }
    }
}

/// Makes the line of an element with this value.
fn value_line(
    alloc: Global,
    depth: usize,
    key: &str,
    value: RawBsonRef<'_>,
    line: &mut Vec<u8>,
) -> Result<(), AllocError>
    requires { depth < 2 ^ 32 }
    ensures { OnOk result ((shown : List ℕ) × ShowsValue (value_of value.entry) shown
        × (line.new.items ≡ says.element_line depth key.now shown)) }
{
    begin_element(depth, key, line)?;
    push_value(alloc, line, value)?;
    push_words(line, "\n")
}

/// Makes the line of an element whose value is at fault, with what shows its text.
fn fault_line(
    depth: usize,
    element: RawElement<'_>,
    error: &BorrowedError<'_>,
    shown: &[u8],
    line: &mut Vec<u8>,
) -> Result<(), AllocError>
    requires { depth < 2 ^ 32 }
    ensures { OnOk result (line.new.items
        ≡ says.element_line depth (frame_of element.entry).key (kind_text (frame_of element.entry).kind ++ codes ", " ++ (codes "damaged: " ++ find.kind_text error.now.kind ++ shown.now))) }
{
    begin_element(depth, element.key(), line)?;
    push_kind(line, element.element_type())?;
    push_words(line, ", ")?;
    push_fault(line, error)?;
    line.extend_from_slice(shown)?;
    push_words(line, "\n")
}
