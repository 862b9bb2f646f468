//! The fault that a call tells.

ghost use Rattle.std.specs.Prelude.{◌≡◌};
ghost use Rattle.bsonraw_c.specs.Codes.{IsNoFault, SaysKind};

use crate::answers::FaultCode;
use raw_bson::ErrorKind;

/// A fault: what it is, and where.
#[repr(C)]
#[derive(Clone, Copy)]
pub struct Fault {
    /// its kind, and the reason with its numbers
    pub why: FaultCode,
    /// where the element at fault begins, or the stop; of bytes that are no document, where they begin
    pub offset: u64,
}

impl Fault {
    /// No fault.
    pub fn none() -> Fault
        ensures { IsNoFault result.why × (result.offset ≡ 0) }
    {
        Fault {
            why: FaultCode::none(),
            offset: 0,
        }
    }

    /// What an error of this kind says, of what begins at this offset.
    pub fn at(kind: &ErrorKind, offset: u64) -> Fault
        ensures why { SaysKind kind.now result.why }
        ensures offset { result.offset ≡ offset }
    {
        Fault {
            why: FaultCode::of_kind(kind),
            offset,
        }
    }
}
