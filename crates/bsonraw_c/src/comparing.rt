//! The order of documents by their canonical forms.

ghost use Rattle.std.specs.Prelude.{◌≡◌, IfErr, IfOk};
ghost use Rattle.bsonraw_c.specs.Comparing.{Compares, LacksForm, error_status, no_limits, order_number};
ghost use Rattle.raw_form.specs.FormsWithin.{IsFormWithin};

use crate::codes::Status;
use crate::view::document_of;
use raw_bson::{ErrorKind, Limits, Reason};
use raw_form::canonical_within;
use std::alloc::Global;
use std::cmp::Ordering;

/// The order of two documents by the bytes of their canonical forms: -1, 0 or 1.
#[unsafe(no_mangle)]
pub extern "C" fn bsonraw_compare(alloc: Global, one: &[u8], other: &[u8], order: &mut i32) -> i32
    ensures { Compares one.now other.now order.new result }
{
    *order = 0;
    let first = match form_of(alloc, one) {
        Ok(form) => form,
        Err(status) => return status.number(),
    };
    let second = match form_of(alloc, other) {
        Ok(form) => form,
        Err(status) => return status.number(),
    };
    *order = number_of_order(first.as_slice().cmp(second.as_slice()));
    Status::Done.number()
}

/// The canonical form of a document, or the status that says why there is none.
fn form_of(alloc: Global, bytes: &[u8]) -> Result<Vec<u8>, Status>
    ensures form { IfOk result (λ form. IsFormWithin no_limits bytes.now form.items) }
    ensures none { IfErr result (LacksForm bytes.now) }
{
    let limits = Limits {
        bytes: usize::MAX,
        depth: usize::MAX,
    };
    if document_of(bytes).is_err() {
        return Err(Status::NoDocument);
    }
    match canonical_within(alloc, bytes, limits) {
        Ok(form) => Ok(form),
        Err(error) => Err(status_of(&error.kind)),
    }
}

/// The status for an error of making a form.
fn status_of(kind: &ErrorKind) -> Status
    ensures { result ≡ error_status kind.now }
{
    match kind {
        ErrorKind::MalformedValue { reason } => match reason {
            Reason::TooLong => Status::TooLong,
            _ => Status::Fault,
        },
        ErrorKind::Utf8EncodingError(_) => Status::Fault,
        ErrorKind::OutOfMemory => Status::NoMemory,
    }
}

fn number_of_order(order: Ordering) -> i32
    ensures { result ≡ order_number order }
{
    match order {
        Ordering::Less => -1,
        Ordering::Equal => 0,
        Ordering::Greater => 1,
    }
}
