ghost use Rattle.std.specs.Prelude.{IsTrue, ◌↔◌, ◌≡◌};
ghost use Rattle.bsonraw_c.specs.Forms.{FormsBytes, FormsIn, PutsForm};
ghost use Rattle.raw_bson.specs.Document.{bytes_of};
ghost use Rattle.raw_form.specs.FormsWithin.{IsFormWithin};

use crate::codes::Status;
use crate::first_fault::fault_in;
use crate::report::Report;
use crate::room::put;
use crate::view::document_of;
use raw_bson::{ErrorKind, Limits, RawDocument, Reason};
use raw_form::{canonical_within, validate_within};
use std::alloc::Global;

/// Puts the canonical form of a document within the limits into the caller's room, and reports how many bytes it has. Puts
/// nothing where it doesn't fit. Reports why and where, if there is no form.
#[unsafe(no_mangle)]
pub extern "C" fn bsonraw_canonical(
    alloc: Global,
    bytes: &[u8],
    max_bytes: usize,
    max_depth: usize,
    form: &mut [u8],
    report: &mut Report,
    path: &mut [usize],
) -> i32
    ensures { FormsBytes (record { bytes = max_bytes; depth = max_depth })
        bytes.now form.old form.new path.old path.new report.new result }
{
    let limits = Limits {
        bytes: max_bytes,
        depth: max_depth,
    };
    match document_of(bytes) {
        Ok(document) => form_in(alloc, document, limits, form, report, path).number(),
        Err(reason) => {
            *report = Report::no_document(bytes.len(), reason);
            Status::NoDocument.number()
        }
    }
}

/// Puts the canonical form of this document into the room. Where it has none, and no barrier either, memory ran out. A
/// canonical document that doesn't fit the room takes no memory for its form.
fn form_in(
    alloc: Global,
    document: RawDocument<'_>,
    limits: Limits,
    room: &mut [u8],
    report: &mut Report,
    path: &mut [usize],
) -> Status
    ensures { FormsIn limits (bytes_of document.entry) room.old room.new path.old path.new report.new result }
{
    let end = document.as_bytes().len();
    if room.len() < end && is_canonical(alloc, document, limits) {
        *report = Report::counted(end, end);
        return Status::SmallBuffer;
    }
    let error = match canonical_within(alloc, document.as_bytes(), limits) {
        Ok(form) => return put_form(end, &form, room, report),
        Err(error) => error,
    };
    if is_too_long(&error.kind) {
        *report = Report::none(end);
        return Status::TooLong;
    }
    match fault_in(alloc, document, limits, report, path) {
        Status::Done => Status::NoMemory,
        status => status,
    }
}

/// Whether a document is found to be canonical within limits, so that it is its own form.
fn is_canonical(alloc: Global, document: RawDocument<'_>, limits: Limits) -> bool
    ensures { IsTrue result → IsFormWithin limits (bytes_of document.entry) (bytes_of document.entry) }
{
    matches!(validate_within(alloc, document, limits), Ok(None))
}

/// Whether a form would be too long.
fn is_too_long(kind: &ErrorKind) -> bool
    ensures { IsTrue result ↔ (kind.now ≡ ErrorKind.MalformedValue Reason.TooLong) }
{
    match kind {
        ErrorKind::MalformedValue { reason } => matches!(reason, Reason::TooLong),
        ErrorKind::Utf8EncodingError(_) | ErrorKind::OutOfMemory => false,
    }
}

/// Puts the form of a document of `end` bytes into the room.
fn put_form(end: usize, form: &[u8], room: &mut [u8], report: &mut Report) -> Status
    ensures { PutsForm end form.now room.old room.new report.new result }
{
    *report = Report::counted(end, form.len());
    if put(room, form) {
        Status::Done
    } else {
        Status::SmallBuffer
    }
}
