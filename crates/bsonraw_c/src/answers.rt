//! Faults as numbers.

ghost use Rattle.std.specs.Prelude.{◌≡◌};
ghost use Rattle.bsonraw_c.specs.Codes.{IsNoFault, SaysKind, reason_left, reason_number};

use crate::codes::number_of_reason;
use raw_bson::{ErrorKind, Reason};

/// A fault: its kind, and the reason where it has one, with the numbers that the reason has.
#[repr(C)]
#[derive(Clone, Copy)]
pub struct FaultCode {
    /// 1 malformed, 2 a text that isn't UTF-8; 0 no fault
    pub kind: u32,
    /// the number of the reason, of malformed bytes; else 0
    pub reason: u32,
    /// the tag, the byte or the size that the reason names; else 0
    pub number: usize,
    /// how many bytes are left, where the reason says that; else 0
    pub left: usize,
}

impl FaultCode {
    /// No fault.
    pub fn none() -> FaultCode
        ensures { IsNoFault result }
    {
        FaultCode {
            kind: 0,
            reason: 0,
            number: 0,
            left: 0,
        }
    }

    /// Malformed, for this reason.
    pub fn malformed(reason: Reason) -> FaultCode
        ensures { SaysKind (ErrorKind.MalformedValue reason) result }
    {
        let (number, left) = numbers_of(reason);
        FaultCode {
            kind: 1,
            reason: number_of_reason(reason),
            number,
            left,
        }
    }

    /// What an error of this kind says.
    pub fn of_kind(kind: &ErrorKind) -> FaultCode
        ensures { SaysKind kind.now result }
    {
        match kind {
            ErrorKind::MalformedValue { reason } => FaultCode::malformed(*reason),
            ErrorKind::Utf8EncodingError(_) => FaultCode {
                kind: 2,
                ..FaultCode::none()
            },
            ErrorKind::OutOfMemory => FaultCode::none(),
        }
    }
}

/// The numbers of a reason: what it names, and how many bytes are left.
fn numbers_of(reason: Reason) -> (usize, usize)
    ensures number { result.0 ≡ reason_number reason }
    ensures left { result.1 ≡ reason_left reason }
{
    match reason {
        Reason::InvalidTag(byte) | Reason::BadBoolean(byte) => (byte as usize, 0),
        Reason::StringHeadShort(left) | Reason::LengthHeadShort(left) => (0, left),
        Reason::StringPastEnd(size, left) | Reason::PastEnd(size, left) => (size, left),
        Reason::DocumentTooSmall(size) => (size, 0),
        _ => (0, 0),
    }
}
