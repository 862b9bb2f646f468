//! What is reported of a whole document.

ghost use Rattle.std.specs.Prelude.{◌≡◌, ◌<◌, ◌^◌, length};
ghost use Rattle.std.specs.Option.{option_copied};
ghost use Rattle.raw_bson.specs.ErrorKind.TheVariants.{MalformedValue};
ghost use Rattle.raw_bson.specs.WithinLimits.{Barrier};
ghost use Rattle.raw_form.specs.Barriers.{IsBarrier, steps_of};
ghost use Rattle.bsonraw_c.specs.Codes.{SaysKind};
ghost use Rattle.bsonraw_c.specs.Reports.{HasNumbers, HasPlace, SaysWhy, carried_by, key_or, no_report, status_of_barrier};

use crate::answers::FaultCode;
use crate::codes::Status;
use crate::fault::Fault;
use raw_bson::Reason;
use raw_form::{BarrierKind, Place};

/// How many there are of what was asked for; or a place, and what is wrong there.
#[repr(C)]
#[derive(Clone, Copy)]
pub struct Report {
    /// how many tokens the document has, or how many bytes the form
    pub count: u64,
    /// how many numbers the path has
    pub path_len: u64,
    /// the number of the cause of a breach; else 0
    pub cause: u32,
    /// 1 where the place has a key; else 0
    pub has_key: u32,
    /// where the key begins; without one the length of the bytes
    pub key_at: u64,
    /// how many bytes the key has
    pub key_len: u64,
    /// what is wrong, and where the element or the stop begins
    pub fault: Fault,
}

impl Report {
    /// Nothing, of `end` bytes.
    pub fn none(end: usize) -> Report
        ensures { result ≡ no_report end }
    {
        Report {
            count: 0,
            path_len: 0,
            cause: 0,
            has_key: 0,
            key_at: end as u64,
            key_len: 0,
            fault: Fault::none(),
        }
    }

    /// How many there are of what was asked for.
    pub fn counted(end: usize, count: usize) -> Report
        ensures { result ≡ record (no_report end) { count = count } }
    {
        Report {
            count: count as u64,
            ..Report::none(end)
        }
    }

    /// Bytes that are no document, for this reason.
    pub fn no_document(end: usize, reason: Reason) -> Report
        ensures why { SaysKind (MalformedValue reason) result.fault.why }
        ensures rest { result ≡ record (no_report end) { fault = record { why = result.fault.why; offset = 0 } } }
    {
        Report {
            fault: Fault {
                why: FaultCode::malformed(reason),
                offset: 0,
            },
            ..Report::none(end)
        }
    }

    /// The place of an element or a stop that begins at this offset, with its key if it has one, and a path of `path_len` steps.
    pub fn placed(
        end: usize,
        offset: usize,
        key: Option<&str>,
        path_len: usize,
        why: FaultCode,
    ) -> Report
        requires { offset < 2 ^ 63 }
        ensures place { HasPlace end offset path_len (option_copied key.entry) result }
        ensures no_cause { result.cause ≡ 0 }
        ensures why { result.fault.why ≡ why }
    {
        let (has_key, key_at, key_len) = match key {
            None => (0, end, 0),
            Some(key) => (1, offset + 1, key.len()),
        };
        Report {
            path_len: path_len as u64,
            has_key,
            key_at: key_at as u64,
            key_len: key_len as u64,
            fault: Fault {
                why,
                offset: offset as u64,
            },
            ..Report::none(end)
        }
    }

    /// This place, with its key if it has one, and what is wrong there. As many numbers of its path as there is room for are
    /// put at the front of the room.
    pub fn at(
        end: usize,
        place: &Place<'_>,
        key: Option<&str>,
        why: FaultCode,
        path: &mut [usize],
    ) -> Report
        requires { place.now.offset < 2 ^ 63 }
        ensures place { HasPlace end place.now.offset (length (steps_of place.now)) (option_copied key.entry) result }
        ensures no_cause { result.cause ≡ 0 }
        ensures why { result.fault.why ≡ why }
        ensures numbers { HasNumbers (steps_of place.now) path.old path.new }
    {
        place.put_path(path);
        Report::placed(end, place.offset, key, place.path.len(), why)
    }
}

/// The status of what ends a reading.
pub fn status_of_kind(kind: &BarrierKind<'_>) -> Status
    ensures { (x : Barrier) → IsBarrier kind.now x → result ≡ status_of_barrier x }
{
    match kind {
        BarrierKind::TooManyBytes => Status::TooManyBytes,
        BarrierKind::TooDeep => Status::TooDeep,
        BarrierKind::Fault(_) => Status::Fault,
    }
}

/// What is wrong where a reading ends; a limit is no fault.
pub fn why_of_kind(kind: &BarrierKind<'_>) -> FaultCode
    ensures { (x : Barrier) → IsBarrier kind.now x → SaysWhy x result }
{
    match kind {
        BarrierKind::TooManyBytes | BarrierKind::TooDeep => FaultCode::none(),
        BarrierKind::Fault(error) => FaultCode::of_kind(&error.kind),
    }
}

/// This key of an element; without one the key that the stop carries, if it is a stop and has one.
pub fn key_of_kind<'a>(kind: &BarrierKind<'a>, key: Option<&'a str>) -> Option<&'a str>
    ensures { (x : Barrier)
        → IsBarrier kind.now x
        → option_copied result ≡ key_or (option_copied key.entry) (carried_by x) }
{
    if key.is_some() {
        return key;
    }
    match kind {
        BarrierKind::TooManyBytes | BarrierKind::TooDeep => None,
        BarrierKind::Fault(error) => error.key,
    }
}
