ghost use Rattle.bsonraw_c.specs.Violations.{ValidatesBytes, ValidatesIn};
ghost use Rattle.raw_bson.specs.Document.{bytes_of};

use crate::answers::FaultCode;
use crate::codes::{Status, number_of_cause};
use crate::report::Report;
use crate::view::document_of;
use raw_bson::{Limits, RawDocument};
use raw_form::{ValidateError, validate_within};
use std::alloc::Global;

/// Whether a document is canonical within limits; or reports the first place where it fails to be, depth first in byte order,
/// and why.
#[unsafe(no_mangle)]
pub extern "C" fn bsonraw_check(
    alloc: Global,
    bytes: &[u8],
    max_bytes: usize,
    max_depth: usize,
    report: &mut Report,
    path: &mut [usize],
) -> i32
    ensures { ValidatesBytes (record { bytes = max_bytes; depth = max_depth })
        bytes.now path.old path.new report.new result }
{
    let limits = Limits {
        bytes: max_bytes,
        depth: max_depth,
    };
    match document_of(bytes) {
        Ok(document) => validate_in(alloc, document, limits, report, path).number(),
        Err(reason) => {
            *report = Report::no_document(bytes.len(), reason);
            Status::NoDocument.number()
        }
    }
}

/// Whether this document is canonical.
fn validate_in(
    alloc: Global,
    document: RawDocument<'_>,
    limits: Limits,
    report: &mut Report,
    path: &mut [usize],
) -> Status
    ensures { ValidatesIn limits (bytes_of document.entry) path.old path.new report.new result }
{
    let end = document.as_bytes().len();
    *report = Report::none(end);
    match validate_within(alloc, document, limits) {
        Ok(None) => Status::Done,
        Ok(Some(breach)) => {
            let place = &breach.place;
            *report = Report {
                cause: number_of_cause(breach.cause),
                ..Report::at(end, place, place.key(), FaultCode::none(), path)
            };
            Status::Breach
        }
        Err(ValidateError::TooManyBytes) => Status::TooManyBytes,
        Err(ValidateError::TooDeep(place)) => {
            *report = Report::at(end, &place, place.key(), FaultCode::none(), path);
            Status::TooDeep
        }
        Err(ValidateError::OutOfMemory) => Status::NoMemory,
    }
}
