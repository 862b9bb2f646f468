ghost use Rattle.bsonraw_c.specs.Reports.{FaultsBytes, FaultsIn};
ghost use Rattle.raw_bson.specs.Document.{bytes_of};

use crate::codes::Status;
use crate::report::{Report, key_of_kind, status_of_kind, why_of_kind};
use crate::view::document_of;
use raw_bson::{Limits, RawDocument};
use raw_form::first_fault_within;
use std::alloc::Global;

/// Reports the first barrier of a document within limits, depth first in byte order, and where it is; or that it has none.
#[unsafe(no_mangle)]
pub extern "C" fn bsonraw_first_fault(
    alloc: Global,
    bytes: &[u8],
    max_bytes: usize,
    max_depth: usize,
    report: &mut Report,
    path: &mut [usize],
) -> i32
    ensures { FaultsBytes (record { bytes = max_bytes; depth = max_depth })
        bytes.now path.old path.new report.new result }
{
    let limits = Limits {
        bytes: max_bytes,
        depth: max_depth,
    };
    match document_of(bytes) {
        Ok(document) => fault_in(alloc, document, limits, report, path).number(),
        Err(reason) => {
            *report = Report::no_document(bytes.len(), reason);
            Status::NoDocument.number()
        }
    }
}

/// The first barrier of this document.
pub fn fault_in(
    alloc: Global,
    document: RawDocument<'_>,
    limits: Limits,
    report: &mut Report,
    path: &mut [usize],
) -> Status
    ensures { FaultsIn limits (bytes_of document.entry) path.old path.new report.new result }
{
    let end = document.as_bytes().len();
    match first_fault_within(alloc, document, limits) {
        Ok(None) => {
            *report = Report::none(end);
            Status::Done
        }
        Ok(Some(barrier)) => {
            let key = key_of_kind(&barrier.kind, barrier.place.key());
            let why = why_of_kind(&barrier.kind);
            *report = Report::at(end, &barrier.place, key, why, path);
            status_of_kind(&barrier.kind)
        }
        Err(_) => {
            *report = Report::none(end);
            Status::NoMemory
        }
    }
}
