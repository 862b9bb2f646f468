//! Shows the bytes of a document with what they are, at every level.
#![tactic(auto)]

ghost use Rattle.std.specs.Prelude.{◌≡◌, ◌≤◌, ◌*◌, ◌+◌, ◌-◌, ◌<◌, ◌^◌, ◌∷◌, [], ◌++◌, ℕ, List, Option, codes, drop, length, IfErr, IfOk, OnErr, OnOk};
ghost use Rattle.std.specs.Io.KnownBytes.{Appends};
ghost use Rattle.dump_io.specs.lines.Failing.{IsReading};
ghost use Rattle.dump_io.specs.lines.Find as find;
ghost use Rattle.raw_view.specs.Document.{bytes_of};
ghost use Rattle.raw_view.specs.declared.error.Reason as reasons;
ghost use Rattle.raw_view.specs.declared.error.ErrorKind.TheVariants.{MalformedValue};
ghost use Rattle.raw_view.specs.Frame.{IsFrame};
ghost use Rattle.raw_view.specs.Frame.ElementSteps.{frame_of};
ghost use Rattle.dump_commands.specs.elements.Runs as sheets;
ghost use Rattle.dump_commands.specs.elements.Runs.{Writes, document_lines, sheet_of};
ghost use Rattle.dump_io.specs.lines.Fronts.{AppendsFront};
ghost use Rattle.dump_commands.specs.elements.Showing.{ShowsPiece, ShowsPieceFront, StepsRuns, left_in};
ghost use Rattle.dump_commands.specs.elements.Showing as says;
ghost use Rattle.dump_commands.specs.elements.ShownLevels.{GoesOn, IsPartly, IsShown, IsShownFront, IsWritten, levels_after, levels_of, page_text};

use crate::elements::level::{Level, Next};
use crate::elements::page::{Page, push_rest};
use crate::elements::refusals::push_refused;
use crate::elements::runs::{push_element, push_length, push_worded};
use crate::elements::stops::push_stop;
use dump_io::lines::failure::Failure;
use dump_io::lines::write::put;
use raw_tree::behind;
use raw_view::{Elements, ErrorKind, RawDocument, RawElement};
use std::alloc::{AllocError, Global};
use std::io::Write;

/// How many levels are shown, the document among them.
const LEVELS: usize = 500;

/// Writes the lines that show a piece at the offset `base`: what begins in its first `most` bytes, or all.
pub fn show_piece<W: Write>(
    alloc: Global,
    most: Option<u64>,
    base: u64,
    bytes: &[u8],
    out: &mut W,
) -> Result<(), Failure>
    ensures shown { OnOk result ((text : List ℕ) × ShowsPiece most base bytes.now text × Appends (W.contents out.old) (W.contents out.new) text) }
    ensures front { OnErr result ((text : List ℕ) × ShowsPieceFront most base bytes.now text × Appends (W.contents out.old) (W.contents out.new) text) }
    ensures failed { IfErr result (λ failure. ¬ IsReading failure) }
{
    let mut page = Page::new(alloc, most, base, bytes.len());
    let document = match RawDocument::from_bytes(bytes) {
        Ok(document) => document,
        Err(error) => {
            show_refused(bytes, &error.kind, &mut page, out)?;
            return Ok(());
        }
    };
    show_document(alloc, document, &mut page, out)?;
    Ok(())
}

/// Writes the lines of a document.
fn show_document<W: Write>(
    alloc: Global,
    document: RawDocument<'_>,
    page: &mut Page,
    out: &mut W,
) -> Result<(), Failure>
    requires { (page.old.text.items ≡ []) × (page.old.at ≡ 0) }
    ensures shown { OnOk result (IsWritten (bytes_of document.entry) (sheet_of page.old) (W.contents out.old) (W.contents out.new)) }
    ensures front { OnErr result (IsPartly (bytes_of document.entry) (sheet_of page.old) (W.contents out.old) (W.contents out.new)) }
    ensures failed { IfErr result (λ failure. ¬ IsReading failure) }
{
    show_levels(alloc, document, page, out)?;
    put_page(page, out)?;
    Ok(())
}

/// Writes the lines of bytes without an envelope.
fn show_refused<W: Write>(
    bytes: &[u8],
    kind: &ErrorKind,
    page: &mut Page,
    out: &mut W,
) -> Result<(), Failure>
    requires { (page.old.text.items ≡ []) × (page.old.at ≡ 0) }
    ensures shown { (why : reasons.Reason) → kind.now ≡ MalformedValue why → OnOk result (Appends (W.contents out.old) (W.contents out.new)
        (document_lines (sheet_of page.old) (says.refused_runs bytes.now why (codes "damaged: " ++ find.kind_text kind.now)))) }
    ensures front { (why : reasons.Reason) → kind.now ≡ MalformedValue why → OnErr result (AppendsFront (W.contents out.old) (W.contents out.new)
        (document_lines (sheet_of page.old) (says.refused_runs bytes.now why (codes "damaged: " ++ find.kind_text kind.now)))) }
    ensures failed { IfErr result (λ failure. ¬ IsReading failure) }
{
    push_refused(bytes, kind, page)?;
    put_page(page, out)?;
    Ok(())
}

/// Writes what is on a page, and how many bytes of the document aren't shown.
fn put_page<W: Write>(page: &mut Page, out: &mut W) -> Result<(), Failure>
    ensures written { OnOk result (Appends (W.contents out.old) (W.contents out.new) (page_text page.old)) }
    ensures front { OnErr result (AppendsFront (W.contents out.old) (W.contents out.new) (page_text page.old)) }
    ensures failed { IfErr result (λ failure. ¬ IsReading failure) }
{
    push_rest(page)?;
    put(out, &page.text)
}

/// Writes the lines of a document and of the levels inside it, as many as are shown, but for the last, which stay on the page. The
/// levels around the innermost one wait in memory, so that no document fills the stack.
fn show_levels<W: Write>(
    alloc: Global,
    document: RawDocument<'_>,
    page: &mut Page,
    out: &mut W,
) -> Result<(), Failure>
    requires { (page.old.text.items ≡ []) × (page.old.at ≡ 0) }
    ensures shown { OnOk result (IsShown (bytes_of document.entry) page.new (W.contents out.old) (W.contents out.new) page.old) }
    ensures front { OnErr result (IsShownFront (bytes_of document.entry) page.old (W.contents out.old) (W.contents out.new)) }
    ensures failed { IfErr result (λ failure. ¬ IsReading failure) }
{
    let mut waiting: Vec<Level<'_>> = Vec::new(alloc);
    let mut level = Level {
        document,
        offset: 4,
    };
    push_length(page, 0, document.as_bytes())?;
    'levels: loop {
        if !page.goes_on() {
            return Ok(());
        }
        let is_over = step(alloc, &mut level, &mut waiting, page)?;
        if is_over {
            return Ok(());
        }
        put(out, &page.text)?;
        page.text.clear();
    }
}

/// Puts the lines of what comes next in the innermost level, and goes into the level that is there, or out of one that ends. Returns whether
/// the document ends.
fn step<'a>(
    alloc: Global,
    level: &mut Level<'a>,
    waiting: &mut Vec<Level<'a>>,
    page: &mut Page,
) -> Result<bool, Failure>
    requires { length waiting.old.items < 500 }
    ensures goes { IfOk result (λ is_over. (runs : List sheets.Run)
        × GoesOn (levels_of waiting.old.items level.old) (levels_after is_over waiting.new.items level.new) runs × Writes page.old page.new runs) }
    ensures few { length waiting.new.items < 500 }
    ensures failed { IfErr result (λ failure. ¬ IsReading failure) }
{
    let depth = waiting.len();
    match push_next(alloc, depth, level, page)? {
        Next::End => {
            let Some(outer) = waiting.pop() else {
                return Ok(true);
            };
            *level = outer;
        }
        Next::Element => {}
        Next::Inside(inner) => {
            if depth + 1 == LEVELS {
                push_worded(
                    depth + 1,
                    inner.document.as_bytes(),
                    true,
                    "over 500 levels",
                    page,
                )?;
            } else {
                push_length(page, depth + 1, inner.document.as_bytes())?;
                enter(inner.document, level, waiting)?;
            }
        }
    }
    Ok(false)
}

/// Lets a level wait, and goes into one inside it.
fn enter<'a>(
    inner: RawDocument<'a>,
    level: &mut Level<'a>,
    waiting: &mut Vec<Level<'a>>,
) -> Result<(), AllocError>
    ensures waits { OnOk result (waiting.new.items ≡ waiting.old.items ++ level.old ∷ []) }
    ensures inside { OnOk result (left_in level.new ≡ drop 4 (bytes_of inner.entry)) }
    ensures few { length waiting.new.items ≤ length waiting.old.items + 1 }
{
    waiting.push(*level)?;
    *level = Level {
        document: inner,
        offset: 4,
    };
    Ok(())
}

/// Puts the runs of what comes next in a level.
fn push_next<'a>(
    alloc: Global,
    depth: usize,
    level: &mut Level<'a>,
    page: &mut Page,
) -> Result<Next<'a>, Failure>
    requires { depth < 2 ^ 32 }
    ensures put { IfOk result (λ next. (runs : List sheets.Run) × StepsRuns depth (left_in level.old) (left_in level.new) runs next × Writes page.old page.new runs) }
    ensures failed { IfErr result (λ failure. ¬ IsReading failure) }
{
    let rest = level.document.as_bytes().split_at(level.offset).1;
    let Some(mut elements) = Elements::from_offset(level.document, level.offset) else {
        unreachable!()
    };
    match elements.next() {
        None => {
            push_worded(depth, rest, false, "final 0", page)?;
            Ok(Next::End)
        }
        Some(Err(error)) => {
            push_stop(depth, rest, &error, page)?;
            Ok(Next::End)
        }
        Some(Ok(element)) => {
            *level = after(*level, element);
            match push_element(alloc, depth, rest, element, page)? {
                None => Ok(Next::Element),
                Some(inner) => Ok(Next::Inside(inner)),
            }
        }
    }
}

/// The level after this element, which is next in it.
pub fn after<'a>(level: Level<'a>, element: RawElement<'a>) -> Level<'a>
    requires { (r : List ℕ) × IsFrame (left_in level) (frame_of element) r }
    ensures { (r : List ℕ) → IsFrame (left_in level.entry) (frame_of element.entry) r → left_in result ≡ r }
{
    Level {
        document: level.document,
        offset: behind(level.offset, element),
    }
}
