ghost use Rattle.std.specs.Prelude.{◌≡◌, ◌≤◌, length};
ghost use Rattle.bsonraw_c.specs.FromJson.{
  IsAtPlace,
  PutsDocument,
  ReadsIn,
  ReadsText,
  not_text,
  no_place,
  reason_number,
  report_of,
  status_of_reason,
  wrapper_of_reason,
  wrapper_number,
};

use crate::codes::Status;
use crate::room::put;
use bson_from_json::{JsonError, JsonReason, Wrapper, from_json};
use raw_bson::Limits;
use std::alloc::Global;
use std::str;
use values_from_json::place::{count_characters, count_line_feeds, last_line};

/// How many bytes a document has that was read from a text; or why none is read, and where in the text.
#[repr(C)]
#[derive(Clone, Copy)]
pub struct JsonReport {
    /// how many bytes the document has
    pub count: u64,
    /// how many bytes of the text are before the place
    pub offset: u64,
    /// the number of its line, from 1 on
    pub line: u64,
    /// the number of its character in the line, from 1 on
    pub column: u64,
    /// the number of the reason; 0 where the status says it
    pub reason: u32,
    /// the number of the wrapper that the reason names; else 0
    pub wrapper: u32,
}

/// Puts the document that a text of Extended JSON writes into the caller's room, and reports how many bytes it has. Puts nothing
/// where it doesn't fit. Reports why and where in the text, if there is no document.
#[unsafe(no_mangle)]
pub extern "C" fn bsonraw_from_json(
    alloc: Global,
    text: &[u8],
    max_bytes: usize,
    max_depth: usize,
    document: &mut [u8],
    report: &mut JsonReport,
) -> i32
    ensures { ReadsText (record { bytes = max_bytes; depth = max_depth })
        text.now document.old document.new report.new result }
{
    let limits = Limits {
        bytes: max_bytes,
        depth: max_depth,
    };
    match str::from_utf8(text) {
        Ok(text) => document_in(alloc, text, limits, document, report).number(),
        Err(error) => {
            *report = JsonReport::not_text(text, error.valid_up_to());
            Status::Fault.number()
        }
    }
}

/// Puts the document that this text writes into the room; or reports why there is none, and where in the text.
fn document_in(
    alloc: Global,
    text: &str,
    limits: Limits,
    room: &mut [u8],
    report: &mut JsonReport,
) -> Status
    ensures { ReadsIn limits text.now room.old room.new report.new result }
{
    match from_json(alloc, text, limits) {
        Ok(document) => put_document(document.as_bytes(), room, report),
        Err(error) => {
            *report = JsonReport::of_error(error);
            status_of(error.reason)
        }
    }
}

/// Puts a document into the room.
fn put_document(document: &[u8], room: &mut [u8], report: &mut JsonReport) -> Status
    ensures { PutsDocument document.now room.old room.new report.new result }
{
    *report = JsonReport::counted(document.len());
    if put(room, document) {
        Status::Done
    } else {
        Status::SmallBuffer
    }
}

impl JsonReport {
    /// A document of `count` bytes.
    fn counted(count: usize) -> JsonReport
        ensures { result ≡ record no_place { count = count } }
    {
        JsonReport {
            count: count as u64,
            offset: 0,
            line: 0,
            column: 0,
            reason: 0,
            wrapper: 0,
        }
    }

    /// An error and its place.
    fn of_error(error: JsonError) -> JsonReport
        ensures { result ≡ report_of error }
    {
        JsonReport {
            count: 0,
            offset: error.offset as u64,
            line: error.line as u64,
            column: error.column as u64,
            reason: number_of(error.reason),
            wrapper: wrapper_of(error.reason),
        }
    }

    /// Bytes that are UTF-8 up to this offset, and no further.
    fn not_text(bytes: &[u8], offset: usize) -> JsonReport
        requires { offset ≤ length bytes.now }
        ensures place { IsAtPlace bytes.now result }
        ensures rest { result ≡ record not_text { offset = offset; line = result.line; column = result.column } }
    {
        let before = &bytes[..offset];
        JsonReport {
            count: 0,
            offset: offset as u64,
            line: (count_line_feeds(before) + 1) as u64,
            column: (count_characters(last_line(before)) + 1) as u64,
            reason: NOT_UTF8,
            wrapper: 0,
        }
    }
}

/// The number of the reason that bytes aren't UTF-8.
pub const NOT_UTF8: u32 = 18;

/// The status of a reason.
fn status_of(reason: JsonReason) -> Status
    ensures { result ≡ status_of_reason reason }
{
    match reason {
        JsonReason::OutOfMemory => Status::NoMemory,
        JsonReason::TooManyBytes => Status::TooManyBytes,
        JsonReason::TooDeep => Status::TooDeep,
        _ => Status::Fault,
    }
}

/// The number of a reason that no status says.
fn number_of(reason: JsonReason) -> u32
    ensures { result ≡ reason_number reason }
{
    match reason {
        JsonReason::OutOfMemory | JsonReason::TooManyBytes | JsonReason::TooDeep => 0,
        JsonReason::EndOfText => 1,
        JsonReason::ByteOrderMark => 2,
        JsonReason::ExpectedDocument => 3,
        JsonReason::ExpectedKey => 4,
        JsonReason::ExpectedColon => 5,
        JsonReason::ExpectedComma => 6,
        JsonReason::ExpectedValue => 7,
        JsonReason::TextBehind => 8,
        JsonReason::BadNumber => 9,
        JsonReason::IntegerTooLarge => 10,
        JsonReason::NumberTooLarge => 11,
        JsonReason::ControlCharacter => 12,
        JsonReason::BadEscape => 13,
        JsonReason::LoneSurrogate => 14,
        JsonReason::InteriorNul => 15,
        JsonReason::Malformed(_) => 16,
        JsonReason::InexactDecimal => 17,
    }
}

/// The number of the wrapper that a reason names.
fn wrapper_of(reason: JsonReason) -> u32
    ensures { result ≡ wrapper_of_reason reason }
{
    match reason {
        JsonReason::Malformed(wrapper) => number_of_wrapper(wrapper),
        _ => 0,
    }
}

/// The number of a wrapper.
fn number_of_wrapper(wrapper: Wrapper) -> u32
    ensures { result ≡ wrapper_number wrapper }
{
    match wrapper {
        Wrapper::Oid => 1,
        Wrapper::NumberInt => 2,
        Wrapper::NumberLong => 3,
        Wrapper::NumberDouble => 4,
        Wrapper::NumberDecimal => 5,
        Wrapper::Binary => 6,
        Wrapper::Uuid => 7,
        Wrapper::Date => 8,
        Wrapper::RegularExpression => 9,
        Wrapper::Timestamp => 10,
        Wrapper::Code => 11,
        Wrapper::Scope => 12,
        Wrapper::DbPointer => 13,
        Wrapper::Symbol => 14,
        Wrapper::Undefined => 15,
        Wrapper::MinKey => 16,
        Wrapper::MaxKey => 17,
    }
}
