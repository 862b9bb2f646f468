//! Decimal128s and times as text.

ghost use Rattle.std.specs.Prelude.{◌<◌, length};
ghost use Rattle.bsonraw_c.specs.Texts.{HasText, PutsDecimal, PutsTime, ReadsDecimal, ReadsTime};

use crate::codes::Status;
use bson_from_json::{decimal128_of, millis_of};
use bson_model::Decimal128;
use bson_to_json::{decimal128_text, time_text};

/// The sixteen bytes of a Decimal128, the least first.
#[repr(C)]
#[derive(Clone, Copy)]
pub struct Decimal {
    /// its bytes, in order
    pub bytes: [u8; 16],
}

/// Room for the text of a Decimal128, and a 0.
#[repr(C)]
#[derive(Clone, Copy)]
pub struct DecimalText {
    /// the room
    pub bytes: [u8; 43],
}

/// Room for the text of a time, and a 0.
#[repr(C)]
#[derive(Clone, Copy)]
pub struct TimeText {
    /// the room
    pub bytes: [u8; 25],
}

/// Puts a Decimal128 into the room as text, with a 0 after it. It takes no memory.
#[unsafe(no_mangle)]
pub extern "C" fn bsonraw_decimal128_to_text(decimal: &Decimal, text: &mut DecimalText) -> i32
    ensures { PutsDecimal decimal.now.bytes text.old.bytes text.new.bytes result }
{
    let own = decimal128_text(Decimal128::from_bytes(decimal.bytes));
    put_text(own.as_bytes(), &mut text.bytes);
    Status::Done.number()
}

/// Puts the bytes of the Decimal128 that a text writes into the room.
#[unsafe(no_mangle)]
pub extern "C" fn bsonraw_decimal128_from_text(text: &[u8], decimal: &mut Decimal) -> i32
    ensures { ReadsDecimal text.now decimal.old.bytes decimal.new.bytes result }
{
    match decimal128_of(text) {
        Some(bytes) => {
            decimal.bytes = bytes;
            Status::Done.number()
        }
        None => Status::Fault.number(),
    }
}

/// Puts a time, as milliseconds from 1970 on, into the room as text, with a 0 after it. It takes no memory.
#[tactic(auto, using(crate::proofs::TimeTexts::instant_short))]
#[unsafe(no_mangle)]
pub extern "C" fn bsonraw_date_time_to_text(millis: i64, text: &mut TimeText) -> i32
    ensures { PutsTime millis text.old.bytes text.new.bytes result }
{
    let Some(own) = time_text(millis) else {
        return Status::Fault.number();
    };
    put_text(own.as_bytes(), &mut text.bytes);
    Status::Done.number()
}

/// Puts the milliseconds from 1970 on that a text writes into the room.
#[unsafe(no_mangle)]
pub extern "C" fn bsonraw_date_time_from_text(text: &[u8], millis: &mut i64) -> i32
    ensures { ReadsTime text.now millis.old millis.new result }
{
    match millis_of(text) {
        Some(found) => {
            *millis = found;
            Status::Done.number()
        }
        None => Status::Fault.number(),
    }
}

/// Puts a text and a 0 after it into the room, which has place for both.
fn put_text(text: &[u8], room: &mut [u8])
    requires { length text.now < length room.old }
    ensures { HasText text.now room.old room.new }
{
    let (front, rest) = room.split_at_mut(text.len());
    front.copy_from_slice(text);
    rest[0] = 0;
}
