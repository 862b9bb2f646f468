ghost use Rattle.std.specs.Prelude.{◌≡◌, ◌+◌, ◌<◌, ◌^◌, length, IfNone, IfSome};
ghost use Rattle.raw_bson.specs.ElementSteps.{frame_of};
ghost use Rattle.raw_bson.specs.Frame.{Frame};
ghost use Rattle.raw_bson.specs.Kind.{tag_of};
ghost use Rattle.raw_bson.specs.Meaning.{Means, kind_of_raw, value};
ghost use Rattle.raw_bson.specs.Value.{value_of};
ghost use Rattle.bsonraw_c.specs.Iters.{place_of_none};
ghost use Rattle.bsonraw_c.specs.Places.{StandsAt};
ghost use Rattle.bsonraw_c.specs.Values.{GivesValue, IsOn, SaysValue, no_value};

use crate::codes::Status;
use crate::fault::Fault;
use crate::iter::{Iter, end_of};
use raw_bson::{RawBsonRef, RawElement};

/// A value. What its kind doesn't have is 0; the offset of a part that it doesn't have is the end of the bytes.
#[repr(C)]
#[derive(Clone, Copy)]
pub struct Value {
    /// the tag of its kind; 0 where there is no value
    pub tag: u32,
    /// of a binary
    pub subtype: u32,
    /// a number of 32 or 64 bits, the milliseconds of a time, a boolean's 0 or 1
    pub integer: i64,
    /// the bits of a double
    pub bits: u64,
    /// where the text begins, or the bytes
    pub text_at: u32,
    /// how many bytes they are
    pub text_len: u32,
    /// where the second part begins: options, a scope, the id of a pointer
    pub more_at: u32,
    /// how many bytes it has
    pub more_len: u32,
    /// of a timestamp
    pub time: u32,
    /// of a timestamp
    pub increment: u32,
    /// why there is no value
    pub fault: Fault,
}

/// The value of the element that an iterator is at.
#[unsafe(no_mangle)]
pub extern "C" fn bsonraw_iter_value(iter: &Iter, bytes: &[u8], value: &mut Value) -> i32
    ensures { GivesValue bytes.now iter.now value.new result }
{
    let end = end_of(bytes);
    *value = Value::none(end);
    let Some(element) = element_at(iter, bytes) else {
        return Status::BadOffset.number();
    };
    match element.resolve() {
        Ok(found) => {
            let payload_at = iter.key_at + element.key().len() as u32 + 1;
            *value = Value::of(bytes, payload_at, element, found);
            Status::Done.number()
        }
        Err(fault) => {
            value.fault = Fault::at(&fault.kind, (iter.key_at - 1) as u64);
            Status::Fault.number()
        }
    }
}

/// The element that an iterator is at.
pub fn element_at<'a>(iter: &Iter, bytes: &'a [u8]) -> Option<RawElement<'a>>
    ensures there { IfSome result (λ element. IsOn bytes.now iter.now (frame_of element)) }
    ensures none { IfNone result ((f : Frame) → ¬ IsOn bytes.now iter.now f) }
{
    let mut here = *iter;
    here.next = iter.key_at.checked_sub(1)?;
    let mut elements = here.elements(bytes)?;
    let Ok(element) = elements.next()? else {
        return None;
    };
    Some(element)
}

impl Value {
    /// No value.
    pub fn none(end: u32) -> Value
        ensures { result ≡ no_value end 0 }
    {
        Value {
            tag: 0,
            subtype: 0,
            integer: 0,
            bits: 0,
            text_at: end,
            text_len: 0,
            more_at: end,
            more_len: 0,
            time: 0,
            increment: 0,
            fault: Fault::none(),
        }
    }

    /// What this value is, which the element means; its payload is at this offset of the bytes.
    fn of(bytes: &[u8], at: u32, element: RawElement<'_>, found: RawBsonRef<'_>) -> Value
        requires there { StandsAt bytes.now at (length (frame_of element).payload) (frame_of element).payload }
        requires small { at + length (frame_of element).payload < 2 ^ 32 }
        requires means { Means (frame_of element) (value (value_of found)) }
        ensures { SaysValue bytes.now at (value_of found.entry) result }
    {
        let len = element.len() as u32;
        let none = Value::of_kind(bytes, found);
        match found {
            RawBsonRef::Undefined | RawBsonRef::Null | RawBsonRef::MaxKey | RawBsonRef::MinKey =>
                none,
            RawBsonRef::Double(double) => Value {
                bits: double.0,
                ..none
            },
            RawBsonRef::Boolean(is_true) => none.integer(is_true as i64),
            RawBsonRef::Int32(number) => none.integer(number as i64),
            RawBsonRef::Int64(number) => none.integer(number),
            RawBsonRef::DateTime(time) => none.integer(time.timestamp_millis()),
            RawBsonRef::Timestamp(stamp) => Value {
                time: stamp.time,
                increment: stamp.increment,
                ..none
            },
            RawBsonRef::String(text) => none.text(at + 4, text.len()),
            RawBsonRef::JavaScriptCode(text) => none.text(at + 4, text.len()),
            RawBsonRef::Symbol(text) => none.text(at + 4, text.len()),
            RawBsonRef::Document(_)
            | RawBsonRef::Array(_)
            | RawBsonRef::ObjectId(_)
            | RawBsonRef::Decimal128(_) => none.text(at, element.len()),
            RawBsonRef::Binary(binary) => {
                let size = binary.bytes.len();
                none.text(at + (len - size as u32), size)
                    .subtype(binary.subtype.to_u8())
            }
            RawBsonRef::RegularExpression(regex) => {
                let size = regex.pattern.len();
                none.text(at, size)
                    .more(at + (size as u32 + 1), regex.options.len())
            }
            RawBsonRef::DbPointer(_) => none
                .text(at + 4, element.len() - 17)
                .more(at + (len - 12), 12),
            RawBsonRef::JavaScriptCodeWithScope(code) => {
                let size = code.scope.as_bytes().len();
                none.text(at + 8, code.code.len())
                    .more(at + (len - size as u32), size)
            }
        }
    }

    /// A value of this kind, of which nothing else is said.
    fn of_kind(bytes: &[u8], found: RawBsonRef<'_>) -> Value
        ensures { result ≡ no_value (place_of_none bytes.now) (tag_of (kind_of_raw (value_of found.entry))) }
    {
        Value {
            tag: found.element_type().to_tag() as u32,
            ..Value::none(end_of(bytes))
        }
    }

    fn subtype(self, byte: u8) -> Value
        ensures { result ≡ record self { subtype = byte } }
    {
        Value {
            subtype: byte as u32,
            ..self
        }
    }

    fn integer(self, integer: i64) -> Value
        ensures { result ≡ record self { integer = integer } }
    {
        Value { integer, ..self }
    }

    fn text(self, text_at: u32, len: usize) -> Value
        requires { len < 2 ^ 32 }
        ensures { result ≡ record self { text_at = text_at; text_len = len } }
    {
        Value {
            text_at,
            text_len: len as u32,
            ..self
        }
    }

    fn more(self, more_at: u32, len: usize) -> Value
        requires { len < 2 ^ 32 }
        ensures { result ≡ record self { more_at = more_at; more_len = len } }
    {
        Value {
            more_at,
            more_len: len as u32,
            ..self
        }
    }
}
