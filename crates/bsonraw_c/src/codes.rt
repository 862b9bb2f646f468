//! Statuses, reasons and causes as numbers, which never change.

ghost use Rattle.std.specs.Prelude.{◌≡◌, ◌<◌, ◌^◌};
ghost use Rattle.bsonraw_c.specs.Codes.{cause_code, reason_code, status_code};
ghost use Rattle.bsonraw_c.specs.Iters.{Returns};

use raw_bson::{Cause, Reason};

/// How a call ended.
#[derive(Clone, Copy)]
pub enum Status {
    /// an element; the canonical form; no fault; canonical
    Done,
    /// the final 0; no element with the key
    Nothing,
    /// a fault
    Fault,
    /// not canonical
    Breach,
    /// bytes without an envelope
    NoDocument,
    /// more bytes than the caller allows
    TooManyBytes,
    /// a level deeper than the caller allows
    TooDeep,
    /// a form of over 2147483647 bytes
    TooLong,
    /// a form that doesn't fit the caller's buffer
    SmallBuffer,
    /// an offset in the header, or past the end
    BadOffset,
    /// memory ran out
    NoMemory,
    /// a value of another kind
    OtherKind,
    /// a call out of turn
    Misuse,
}

impl Status {
    /// The number of the status.
    pub fn code(self) -> u32
        ensures code { result ≡ status_code self }
        ensures small { result < 2 ^ 31 }
    {
        match self {
            Status::Done => 0,
            Status::Nothing => 1,
            Status::Fault => 2,
            Status::Breach => 3,
            Status::NoDocument => 4,
            Status::TooManyBytes => 5,
            Status::TooDeep => 6,
            Status::TooLong => 7,
            Status::SmallBuffer => 8,
            Status::BadOffset => 9,
            Status::NoMemory => 10,
            Status::OtherKind => 11,
            Status::Misuse => 13,
        }
    }

    /// The number of the status, as a call returns it.
    pub fn number(self) -> i32
        ensures { Returns self result }
    {
        self.code() as i32
    }
}

/// The number of a reason.
pub fn number_of_reason(reason: Reason) -> u32
    ensures { result ≡ reason_code reason }
{
    match reason {
        Reason::TooShort => 1,
        Reason::LengthIncorrect => 2,
        Reason::NotTerminated => 3,
        Reason::Overflowed => 4,
        Reason::InvalidTag(_) => 5,
        Reason::StringHeadShort(_) => 6,
        Reason::NegativeLength => 7,
        Reason::StringTooSmall => 8,
        Reason::StringPastEnd(_, _) => 9,
        Reason::StringNotTerminated => 10,
        Reason::PastEnd(_, _) => 11,
        Reason::DocumentTooSmall(_) => 12,
        Reason::NestedNotTerminated => 13,
        Reason::LengthHeadShort(_) => 14,
        Reason::NoTerminator => 15,
        Reason::BadBoolean(_) => 16,
        Reason::OldNoInner => 17,
        Reason::AddOverflow => 18,
        Reason::OldWrongInner => 19,
        Reason::CodeTooSmall => 20,
        Reason::InteriorNul => 21,
        Reason::TooLong => 22,
        Reason::TooManyBytes => 23,
        Reason::TooDeep => 24,
    }
}

/// The number of a cause.
pub fn number_of_cause(cause: Cause) -> u32
    ensures { result ≡ cause_code cause }
{
    match cause {
        Cause::Stop => 1,
        Cause::Value => 2,
        Cause::RepeatedKey => 3,
        Cause::ArrayKey => 4,
        Cause::Options => 5,
    }
}
