ghost use Rattle.std.specs.Prelude.{◌≡◌, length};
ghost use Rattle.bsonraw_c.specs.Forms.{FillsRoom};
ghost use Rattle.bsonraw_c.specs.Json.{JsonBytes, JsonIn, style_of};
ghost use Rattle.bsonraw_c.specs.Reports.{Fits, no_report};
ghost use Rattle.raw_bson.specs.Document.{bytes_of};

use crate::codes::Status;
use crate::first_fault::fault_in;
use crate::report::Report;
use crate::room::put;
use crate::view::document_of;
use bson_to_json::{Format, Layout, Measured, Style, measured_json};
use raw_bson::{Limits, RawDocument};
use std::alloc::Global;

/// Puts a document within the limits into the caller's room as Extended JSON, with a 0 after it, and reports how many bytes the
/// text has without that 0. Puts nothing where both don't fit. Reports why and where, if there is no text.
#[unsafe(no_mangle)]
pub extern "C" fn bsonraw_json(
    alloc: Global,
    bytes: &[u8],
    max_bytes: usize,
    max_depth: usize,
    canonical: u32,
    indented: u32,
    text: &mut [u8],
    report: &mut Report,
    path: &mut [usize],
) -> i32
    ensures { JsonBytes (style_of canonical indented) (record { bytes = max_bytes; depth = max_depth })
        bytes.now text.old text.new path.old path.new report.new result }
{
    let limits = Limits {
        bytes: max_bytes,
        depth: max_depth,
    };
    match document_of(bytes) {
        Ok(document) => {
            let style = style_of(canonical, indented);
            json_in(alloc, document, style, limits, text, report, path).number()
        }
        Err(reason) => {
            *report = Report::no_document(bytes.len(), reason);
            Status::NoDocument.number()
        }
    }
}

/// The style that two flags name; any number but 0 sets one.
fn style_of(canonical: u32, indented: u32) -> Style
    ensures { result ≡ style_of canonical indented }
{
    Style {
        format: if canonical == 0 {
            Format::Relaxed
        } else {
            Format::Canonical
        },
        layout: if indented == 0 {
            Layout::OneLine
        } else {
            Layout::Indented
        },
    }
}

/// Puts the text of this document into the room. Where it has none, and no barrier either, memory ran out. Of a text that is
/// longer than the room, no more than fits is kept meanwhile.
fn json_in(
    alloc: Global,
    document: RawDocument<'_>,
    style: Style,
    limits: Limits,
    room: &mut [u8],
    report: &mut Report,
    path: &mut [usize],
) -> Status
    ensures { JsonIn style limits (bytes_of document.entry)
        room.old room.new path.old path.new report.new result }
{
    let end = document.as_bytes().len();
    let most = room.len().saturating_sub(1);
    if let Ok(Measured { len, text }) = measured_json(alloc, document, style, limits, most) {
        let Some(text) = text else {
            *report = Report::counted(end, len);
            return Status::SmallBuffer;
        };
        let mut ended = text.into_bytes();
        if ended.push(0).is_ok() {
            return put_text(end, len, &ended, room, report);
        }
    }
    match fault_in(alloc, document, limits, report, path) {
        Status::Done => Status::NoMemory,
        status => status,
    }
}

/// Puts a text of `count` bytes and the 0 after it into the room, of a document of `end` bytes.
fn put_text(end: usize, count: usize, ended: &[u8], room: &mut [u8], report: &mut Report) -> Status
    ensures filled { FillsRoom ended.now room.old room.new }
    ensures report { report.new ≡ record (no_report end) { count = count } }
    ensures status { Fits (length ended.now) (length room.old) result }
{
    *report = Report::counted(end, count);
    if put(room, ended) {
        Status::Done
    } else {
        Status::SmallBuffer
    }
}
