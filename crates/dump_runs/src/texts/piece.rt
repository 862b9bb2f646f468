//! Passes one text of an input: makes its document and writes it, or says what is wrong with it.
#![tactic(auto)]

ghost use Rattle.std.specs.Prelude.{◌≡◌, ◌^◌, ◌≤◌, ℕ, List, length, take, IfErr, IfOk, OnErr, OnOk, true};
ghost use Rattle.raw_tree.specs.declared.reader.limits.Limits.{Limits};
ghost use Rattle.dump_io.specs.input.Reading.{IsWindow, ahead_of};
ghost use Rattle.dump_io.specs.input.Between.{may_begin};
ghost use Rattle.dump_io.specs.input.Places.{position_over};
ghost use Rattle.dump_io.specs.input.Scans.{HasBrace, ScansAhead};
ghost use Rattle.dump_io.specs.input.Texts.{MayGoOn};
ghost use Rattle.dump_io.specs.lines.Failing.{IsReading};
ghost use Rattle.dump_runs.specs.Plays.{Played, held};
ghost use Rattle.dump_runs.specs.texts.Faults.{fault_line};
ghost use Rattle.dump_runs.specs.texts.Reading.{PassesAhead};
ghost use Rattle.dump_runs.specs.texts.Run as says;
ghost use Rattle.dump_runs.specs.texts.Run.{Gives, IsFaultOf, IsUnendedFault, IsWholeText, events_of};
ghost use Rattle.dump_runs.specs.texts.Steps.{HaltsSaid, HasNext, IsMadeOf, PassesPart, TellsNoText, line_of};
ghost use Rattle.dump_runs.specs.declared.reading.TextJob.{TextJob};
ghost use Rattle.dump_runs.specs.declared.texts.cursor.NextText.{NextText as Told};
ghost use Rattle.dump_runs.specs.declared.texts.cursor.NextText.TheVariants.{Text};

use crate::reading::TextJob;
use crate::style::style_at;
use crate::texts::cursor::{Cursor, NextText};
use crate::texts::fault::{TextReason, line_of_fault};
use crate::writers::{Tally, Writers};
use bson_from_json::{JsonReason, from_json};
use dump_io::input::scan::{MOST_TEXT, Scanned};
use dump_io::lines::failure::{Failure, in_range};
use dump_io::lines::style::Style;
use dump_io::lines::write::put;
use raw_bson::RawDocumentBuf;
use raw_tree::Limits;
use std::alloc::Global;
use std::io::Write;
use std::str;

/// An input of texts, and what is asked of it.
#[derive(Clone, Copy)]
pub struct TextInput<'a> {
    /// its name
    pub name: &'a str,
    /// what is asked of it
    pub job: TextJob,
}

/// What came of the bytes that are next.
#[derive(Clone, Copy)]
pub enum Went {
    /// a document was written
    Document,
    /// a text is passed that isn't a document's
    Refused,
    /// no whole text was there
    Astray,
}

/// What is made of the text of a document.
#[derive(Drop)]
enum Made {
    /// its bytes
    Document(RawDocumentBuf),
    /// nothing: this number of bytes after its beginning it has a fault
    Fault(usize, TextReason),
}

/// A fault that ends what is read as a text.
#[derive(Clone, Copy)]
struct Fault {
    /// how many bytes are passed
    len: usize,
    /// how many of them are before the fault
    at: usize,
    /// what is wrong there
    reason: TextReason,
}

/// Passes what is next.
pub fn pass_next<D: Write + Drop, A: Write + Drop, W: Write + Drop>(
    alloc: Global,
    input: TextInput<'_>,
    next: NextText,
    cursor: &mut Cursor,
    writers: &mut Writers<D, A, W>,
    tally: &mut Tally<'_>,
) -> Result<Went, Failure>
    requires { IsWindow cursor.old.window × HasNext (ahead_of cursor.old.window) cursor.old.turn next }
    ensures { PassesPart input.entry.job input.entry.name.now next cursor.old cursor.new (held writers.old tally.old) (held writers.new tally.new) result }
{
    match next {
        NextText::Text(found) => pass_found(alloc, input, found, cursor, writers, tally),
        NextText::Wrong(reason) => {
            let fault = Fault {
                len: 0,
                at: 0,
                reason,
            };
            pass_astray(alloc, input, fault, cursor, writers, tally)
        }
        NextText::End => unreachable!(),
    }
}

/// Passes the text of a document, as far as it comes.
fn pass_found<D: Write + Drop, A: Write + Drop, W: Write + Drop>(
    alloc: Global,
    input: TextInput<'_>,
    found: Scanned,
    cursor: &mut Cursor,
    writers: &mut Writers<D, A, W>,
    tally: &mut Tally<'_>,
) -> Result<Went, Failure>
    requires { IsWindow cursor.old.window × (may_begin cursor.old.turn ≡ true) × HasBrace (ahead_of cursor.old.window) × ScansAhead (ahead_of cursor.old.window) found }
    ensures { PassesPart input.entry.job input.entry.name.now (Text found) cursor.old cursor.new (held writers.old tally.old) (held writers.new tally.new) result }
{
    let len = found.len;
    match made_of(alloc, input.job.limits, &cursor.window.ahead()[..len])? {
        Made::Document(document) => pass_document(len, &document, cursor, writers, tally),
        Made::Fault(at, reason) if found.is_whole() => {
            let fault = Fault { len, at, reason };
            pass_refused(alloc, input, fault, cursor, writers, tally)
        }
        Made::Fault(at, reason) => {
            let fault = fault_of(len, found.begun(), at, reason);
            pass_astray(alloc, input, fault, cursor, writers, tally)
        }
    }
}

/// What a text makes within limits.
fn made_of(alloc: Global, limits: Limits, text: &[u8]) -> Result<Made, Failure>
    ensures made { IfOk result (IsMadeOf limits text.now) }
    ensures failed { IfErr result (λ failure. ¬ IsReading failure) }
{
    let text = match str::from_utf8(text) {
        Ok(text) => text,
        Err(error) => {
            return Ok(Made::Fault(error.valid_up_to(), TextReason::NotUtf8));
        }
    };
    match from_json(alloc, text, limits) {
        Ok(document) => Ok(Made::Document(document)),
        Err(error) => match error.reason {
            JsonReason::OutOfMemory => Err(Failure::Memory),
            reason => Ok(Made::Fault(error.offset, TextReason::Json(reason))),
        },
    }
}

/// The fault of a text that doesn't come to its end, of which `len` bytes were read and `begun` are begun, where this fault was found.
fn fault_of(len: usize, begun: usize, at: usize, reason: TextReason) -> Fault
    requires { len ≤ 2 ^ 27 }
    ensures begun { result.len ≡ begun }
    ensures within { result.at ≤ begun }
    ensures fault { (limits : Limits) (text : List ℕ) → length text ≡ len → IsFaultOf limits text at reason
        → IsUnendedFault limits text begun result.at result.reason }
{
    if len == MOST_TEXT {
        Fault {
            len: begun,
            at: 0,
            reason: TextReason::Json(JsonReason::TooManyBytes),
        }
    } else {
        Fault {
            len: begun,
            at: at.min(begun),
            reason,
        }
    }
}

/// Writes the document of a whole text, of `len` bytes, and passes the text.
fn pass_document<D: Write + Drop, A: Write + Drop, W: Write + Drop>(
    len: usize,
    document: &RawDocumentBuf,
    cursor: &mut Cursor,
    writers: &mut Writers<D, A, W>,
    tally: &mut Tally<'_>,
) -> Result<Went, Failure>
    requires { IsWindow cursor.old.window × (len ≤ length (ahead_of cursor.old.window)) × IsWholeText cursor.old.turn (take len (ahead_of cursor.old.window)) }
    ensures { (job : TextJob) (name : List ℕ) (told : Told) → Gives job.limits (take len (ahead_of cursor.old.window)) document.now
        → PassesPart job name told cursor.old cursor.new (held writers.old tally.old) (held writers.new tally.new) result }
{
    let bytes = document.as_bytes();
    let counted = in_range(tally.counts.with_said(bytes.len()))?;
    cursor.pass(len)?;
    put(&mut writers.out, bytes)?;
    tally.counts = counted;
    cursor.turn = cursor.turn.behind_document();
    Ok(Went::Document)
}

/// Tells the fault of a whole text, and passes the text.
fn pass_refused<D: Write + Drop, A: Write + Drop, W: Write + Drop>(
    alloc: Global,
    input: TextInput<'_>,
    fault: Fault,
    cursor: &mut Cursor,
    writers: &mut Writers<D, A, W>,
    tally: &mut Tally<'_>,
) -> Result<Went, Failure>
    requires { IsWindow cursor.old.window × (fault.len ≤ length (ahead_of cursor.old.window))
        × IsWholeText cursor.old.turn (take fault.len (ahead_of cursor.old.window)) × (fault.at ≤ fault.len)
        × IsFaultOf input.job.limits (take fault.len (ahead_of cursor.old.window)) fault.at fault.reason }
    ensures { (told : Told) → PassesPart input.entry.job input.entry.name.now told cursor.old cursor.new (held writers.old tally.old) (held writers.new tally.new) result }
{
    tell_fault(alloc, input, fault, cursor, writers, tally)?;
    cursor.turn = cursor.turn.behind_document();
    Ok(Went::Refused)
}

/// Tells why no whole text is there, and passes what there is of one.
fn pass_astray<D: Write + Drop, A: Write + Drop, W: Write + Drop>(
    alloc: Global,
    input: TextInput<'_>,
    fault: Fault,
    cursor: &mut Cursor,
    writers: &mut Writers<D, A, W>,
    tally: &mut Tally<'_>,
) -> Result<Went, Failure>
    requires { IsWindow cursor.old.window × (fault.len ≤ length (ahead_of cursor.old.window))
        × MayGoOn (take fault.len (ahead_of cursor.old.window)) × (fault.at ≤ fault.len) }
    ensures { (told : Told) → TellsNoText input.entry.job.limits (ahead_of cursor.old.window) told fault.len fault.at fault.reason
        → PassesPart input.entry.job input.entry.name.now told cursor.old cursor.new (held writers.old tally.old) (held writers.new tally.new) result }
{
    tell_fault(alloc, input, fault, cursor, writers, tally)?;
    cursor.turn = cursor.turn.behind_gap();
    Ok(Went::Astray)
}

/// Tells a fault, counts it, and passes the bytes that it ends.
fn tell_fault<D: Write + Drop, A: Write + Drop, W: Write + Drop>(
    alloc: Global,
    input: TextInput<'_>,
    fault: Fault,
    cursor: &mut Cursor,
    writers: &mut Writers<D, A, W>,
    tally: &mut Tally<'_>,
) -> Result<(), Failure>
    requires { IsWindow cursor.old.window × (fault.len ≤ length (ahead_of cursor.old.window)) × (fault.at ≤ fault.len) }
    ensures told { OnOk result (Played (events_of (says.refused (line_of input.entry.job input.entry.name.now cursor.old tally.old.counts fault)))
        (held writers.old tally.old) (held writers.new tally.new)) }
    ensures passed { OnOk result (PassesAhead cursor.old cursor.new fault.len) }
    ensures front { OnErr result (HaltsSaid (says.refused (line_of input.entry.job input.entry.name.now cursor.old tally.old.counts fault))
        (held writers.old tally.old) (held writers.new tally.new)) }
    ensures failed { IfErr result (λ failure. ¬ IsReading failure) }
{
    let style = style_at(input.job.style, input.job.limit, tally.counts);
    let line = line_at(alloc, style, input.name, fault, cursor)?;
    let counted = in_range(tally.counts.with_fault())?;
    cursor.pass(fault.len)?;
    put(&mut writers.report, &line)?;
    tally.counts = counted;
    Ok(())
}

/// The line of a fault in the bytes ahead.
fn line_at(
    alloc: Global,
    style: Style,
    name: &str,
    fault: Fault,
    cursor: &Cursor,
) -> Result<Vec<u8>, Failure>
    requires { IsWindow cursor.now.window × (fault.at ≤ length (ahead_of cursor.now.window)) }
    ensures line { IfOk result (λ line. line.items ≡ fault_line style name.now
        (position_over cursor.now.place (take fault.at (ahead_of cursor.now.window))) fault.reason) }
    ensures failed { IfErr result (λ failure. ¬ IsReading failure) }
{
    let place = cursor.place.over(&cursor.window.ahead()[..fault.at])?;
    Ok(line_of_fault(alloc, style, name, place, fault.reason)?)
}
