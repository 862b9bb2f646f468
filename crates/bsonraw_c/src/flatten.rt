ghost use Rattle.std.specs.Prelude.{◌≡◌};
ghost use Rattle.raw_bson.specs.Document.{bytes_of};
ghost use Rattle.bsonraw_c.specs.Tokens.{FlattensBytes, FlattensIn};

use crate::codes::Status;
use crate::report::{Report, key_of_kind, status_of_kind, why_of_kind};
use crate::view::document_of;
use raw_bson::{Limits, RawDocument};
use raw_form::{FlattenError, Token, flatten_within};
use std::alloc::Global;

/// Puts the elements of all levels of a document within the limits into the caller's room as tokens, depth first in byte order,
/// as many as there is room for; or reports the first barrier, and where it is.
#[unsafe(no_mangle)]
pub extern "C" fn bsonraw_flatten(
    alloc: Global,
    bytes: &[u8],
    max_bytes: usize,
    max_depth: usize,
    tokens: &mut [Token],
    report: &mut Report,
    path: &mut [usize],
) -> i32
    ensures { FlattensBytes (record { bytes = max_bytes; depth = max_depth })
        bytes.now tokens.old tokens.new path.old path.new report.new result }
{
    let limits = Limits {
        bytes: max_bytes,
        depth: max_depth,
    };
    match document_of(bytes) {
        Ok(document) => flatten_in(alloc, document, limits, tokens, report, path).number(),
        Err(reason) => {
            *report = Report::no_document(bytes.len(), reason);
            Status::NoDocument.number()
        }
    }
}

/// The tokens of this document.
fn flatten_in(
    alloc: Global,
    document: RawDocument<'_>,
    limits: Limits,
    tokens: &mut [Token],
    report: &mut Report,
    path: &mut [usize],
) -> Status
    ensures { FlattensIn limits (bytes_of document.entry) tokens.old tokens.new path.old path.new report.new result }
{
    let end = document.as_bytes().len();
    let room = tokens.len();
    match flatten_within(alloc, document, limits, tokens) {
        Ok(count) => {
            *report = Report::counted(end, count);
            if count <= room {
                Status::Done
            } else {
                Status::SmallBuffer
            }
        }
        Err(FlattenError::Barrier(barrier)) => {
            let key = key_of_kind(&barrier.kind, barrier.place.key());
            let why = why_of_kind(&barrier.kind);
            *report = Report::at(end, &barrier.place, key, why, path);
            status_of_kind(&barrier.kind)
        }
        Err(FlattenError::OutOfMemory) => {
            *report = Report::none(end);
            Status::NoMemory
        }
    }
}
