//! Faults as texts.

ghost use Rattle.std.specs.Prelude.{◌≡◌, ◌<◌, ◌^◌, ◌++◌, ℕ, List, Option, codes, decimal};
ghost use Rattle.raw_bson.specs.Reason.{Reason};
ghost use Rattle.bsonraw_c.specs.FaultTexts.{IsFaultText, NamesReason, PutsFault, numbers_text};
ghost use Rattle.bsonraw_c.specs.FaultTexts as says;
ghost use Rattle.bsonraw_c.specs.TextRooms.{Grows};

use crate::answers::FaultCode;
use crate::fault::Fault;
use crate::text_room::{end_text, put_number, put_words};
use raw_bson::Reason;

/// Puts the text of a fault into the room, as far as it fits, with a 0 after it. Returns how many bytes the text has.
#[unsafe(no_mangle)]
pub extern "C" fn bsonraw_fault_text(fault: &Fault, text: &mut [u8]) -> usize
    ensures text { PutsFault fault.now.why text.old text.new result }
    ensures enough { result < 150 }
{
    let count = put_fault(text, fault.why);
    end_text(text, count);
    count
}

/// Puts the text of a fault. Returns how many bytes it has.
fn put_fault(room: &mut [u8], told: FaultCode) -> usize
    ensures text { (text : List ℕ) × IsFaultText told text × Grows text room.old 0 room.new result }
    ensures sizes { (told.number < 2 ^ 64) × (told.left < 2 ^ 64) }
{
    match told.kind {
        0 => put_words(room, 0, "no fault"),
        1 => put_reason(room, told),
        2 => put_words(room, 0, "a text isn't UTF-8"),
        _ => put_words(room, 0, reason_words(reason_of(told.reason))),
    }
}

/// Puts a reason and its numbers.
fn put_reason(room: &mut [u8], told: FaultCode) -> usize
    ensures { (r : Option Reason) × NamesReason told.reason r
        × Grows (says.reason_words r ++ numbers_text r told.number told.left) room.old 0 room.new result }
{
    let reason = reason_of(told.reason);
    let count = put_words(room, 0, reason_words(reason));
    put_numbers(room, count, reason, told)
}

/// Puts the numbers of a fault that its reason has.
fn put_numbers(room: &mut [u8], count: usize, reason: Option<Reason>, told: FaultCode) -> usize
    ensures { Grows (numbers_text reason told.number told.left) room.old count room.new result }
{
    match reason {
        Some(Reason::InvalidTag(_) | Reason::BadBoolean(_) | Reason::DocumentTooSmall(_)) => {
            put_first(room, count, told.number)
        }
        Some(Reason::StringHeadShort(_) | Reason::LengthHeadShort(_)) => {
            let begun = put_first(room, count, told.left);
            put_words(room, begun, " are left")
        }
        Some(Reason::StringPastEnd(_, _) | Reason::PastEnd(_, _)) => put_both(room, count, told),
        _ => count,
    }
}

/// Puts both numbers of a fault.
fn put_both(room: &mut [u8], count: usize, told: FaultCode) -> usize
    ensures { Grows (codes ": " ++ decimal told.number ++ codes " where " ++ decimal told.left ++ codes " are left") room.old count room.new result }
{
    let begun = put_first(room, count, told.number);
    let between = put_words(room, begun, " where ");
    let numbered = put_number(room, between, told.left);
    put_words(room, numbered, " are left")
}

/// Puts a number after a colon.
fn put_first(room: &mut [u8], count: usize, number: usize) -> usize
    ensures { Grows (codes ": " ++ decimal number) room.old count room.new result }
{
    let begun = put_words(room, count, ": ");
    put_number(room, begun, number)
}

/// The reason of a number, without the numbers of its own.
fn reason_of(number: u32) -> Option<Reason>
    ensures { NamesReason number result }
{
    match number {
        1 => Some(Reason::TooShort),
        2 => Some(Reason::LengthIncorrect),
        3 => Some(Reason::NotTerminated),
        4 => Some(Reason::Overflowed),
        5 => Some(Reason::InvalidTag(0)),
        6 => Some(Reason::StringHeadShort(0)),
        7 => Some(Reason::NegativeLength),
        8 => Some(Reason::StringTooSmall),
        9 => Some(Reason::StringPastEnd(0, 0)),
        10 => Some(Reason::StringNotTerminated),
        11 => Some(Reason::PastEnd(0, 0)),
        12 => Some(Reason::DocumentTooSmall(0)),
        13 => Some(Reason::NestedNotTerminated),
        14 => Some(Reason::LengthHeadShort(0)),
        15 => Some(Reason::NoTerminator),
        16 => Some(Reason::BadBoolean(0)),
        17 => Some(Reason::OldNoInner),
        18 => Some(Reason::AddOverflow),
        19 => Some(Reason::OldWrongInner),
        20 => Some(Reason::CodeTooSmall),
        _ => None,
    }
}

/// A reason in words.
fn reason_words(reason: Option<Reason>) -> &'static str
    ensures { result.now ≡ says.reason_words reason }
{
    let Some(reason) = reason else {
        return "no reason";
    };
    match reason {
        Reason::TooShort => "a document of under five bytes",
        Reason::LengthIncorrect => "a document's length is wrong",
        Reason::NotTerminated => "no final 0",
        Reason::Overflowed => "no element and no final 0",
        Reason::InvalidTag(_) => "no kind has this tag",
        Reason::StringHeadShort(_) => "a string's length is cut off",
        Reason::NegativeLength => "a length is negative",
        Reason::StringTooSmall => "a string's length is 0",
        Reason::StringPastEnd(_, _) => "a string is longer than what is left",
        Reason::StringNotTerminated => "a string has no final 0",
        Reason::PastEnd(_, _) => "a value is longer than what is left",
        Reason::DocumentTooSmall(_) => "a nested document's length is under 5",
        Reason::NestedNotTerminated => "a nested document has no final 0",
        Reason::LengthHeadShort(_) => "a value's length is cut off",
        Reason::NoTerminator => "a text has no final 0",
        Reason::BadBoolean(_) => "a boolean is neither 0 nor 1",
        Reason::OldNoInner => "an old binary has no inner length",
        Reason::AddOverflow => "an old binary's inner length is negative",
        Reason::OldWrongInner => "an old binary's inner length is wrong",
        Reason::CodeTooSmall => "a code with scope is too short",
        Reason::InteriorNul | Reason::TooLong | Reason::TooManyBytes | Reason::TooDeep => {
            "no reason"
        }
    }
}
