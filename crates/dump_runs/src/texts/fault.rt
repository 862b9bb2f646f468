//! What is wrong with a text, and the line that tells it.
#![tactic(auto)]

ghost use Rattle.std.specs.Prelude.{◌≡◌, IfOk};
ghost use Rattle.dump_runs.specs.texts.Faults.{fault_line, reason_text};
ghost use Rattle.dump_io.specs.declared.lines.style.Style.TheVariants.{Json, Words};

use bson_from_json::JsonReason;
use dump_io::input::position::Position;
use dump_io::lines::object::{begun, ended, put_number, put_text};
use dump_io::lines::quote::quotation;
use dump_io::lines::style::Style;
use dump_io::lines::text::{push_number, push_words};
use std::alloc::{AllocError, Global};

/// Why a text isn't read.
#[derive(Clone, Copy)]
pub enum TextReason {
    /// its bytes aren't UTF-8
    NotUtf8,
    /// it isn't a document's
    Json(JsonReason),
}

impl TextReason {
    /// In words.
    pub fn words(self) -> &'static str
        ensures { result.now ≡ reason_text self }
    {
        match self {
            TextReason::NotUtf8 => "not UTF-8",
            TextReason::Json(reason) => reason.words(),
        }
    }
}

/// The line of what is wrong at a place of an input.
pub fn line_of_fault(
    alloc: Global,
    style: Style,
    name: &str,
    place: Position,
    reason: TextReason,
) -> Result<Vec<u8>, AllocError>
    ensures { IfOk result (λ line. line.items ≡ fault_line style name.now place reason) }
{
    match style {
        Style::Words => fault_words(alloc, name, place, reason),
        Style::Json => fault_object(alloc, name, place, reason),
        Style::Quiet => Ok(Vec::new(alloc)),
    }
}

fn fault_words(
    alloc: Global,
    name: &str,
    place: Position,
    reason: TextReason,
) -> Result<Vec<u8>, AllocError>
    ensures { IfOk result (λ line. line.items ≡ fault_line Words name.now place reason) }
{
    let mut line = quotation(alloc, name)?;
    push_words(&mut line, ":")?;
    push_number(&mut line, place.line)?;
    push_words(&mut line, ":")?;
    push_number(&mut line, place.column)?;
    push_words(&mut line, ": ")?;
    push_words(&mut line, reason.words())?;
    push_words(&mut line, "\n")?;
    Ok(line)
}

fn fault_object(
    alloc: Global,
    name: &str,
    place: Position,
    reason: TextReason,
) -> Result<Vec<u8>, AllocError>
    ensures { IfOk result (λ line. line.items ≡ fault_line Json name.now place reason) }
{
    let mut object = begun(alloc)?;
    put_text(&mut object, "file", name)?;
    put_number(&mut object, "line", place.line)?;
    put_number(&mut object, "column", place.column)?;
    put_text(&mut object, "finding", "fault")?;
    put_text(&mut object, "reason", reason.words())?;
    ended(object)
}
