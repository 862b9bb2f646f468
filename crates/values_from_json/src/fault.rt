//! What is wrong at a place where a text can't be read. This is slow, and runs only once.
ghost use Rattle.std.specs.Prelude.{◌<◌, ◌≤◌, length, IfOk};

use crate::error::JsonReason;
use crate::wrapper::Wrapper;
use json::is_number;
use std::str;

/// What has to come at a place.
#[derive(Clone, Copy)]
pub enum Wanted {
    /// the brace of the whole text
    Document,
    /// a key, or the end of an object
    Member,
    /// an item, or the end of an array
    Item,
    /// the value of a member
    Value,
    /// a key in a wrapper's object, or its value
    Part(Wrapper),
    /// after the token at the place, the closing brace of this wrapper
    End(Wrapper),
    /// after the token at the place, a comma or an end
    Comma,
    /// after the token at the place, nothing
    EndOfText,
}

/// Why a text can't be read, and how many bytes are left from the place on that this is about.
#[derive(Clone, Copy)]
pub(crate) struct Fault {
    pub(crate) reason: JsonReason,
    pub(crate) left: usize,
}

const END: Fault = Fault {
    reason: JsonReason::EndOfText,
    left: 0,
};

/// The fault that is about the first of these bytes.
fn about(reason: JsonReason, rest: &[u8]) -> Fault {
    if rest.is_empty() {
        END
    } else {
        Fault {
            reason,
            left: rest.len(),
        }
    }
}

/// What is wrong at a place of a text where `wanted` should be.
pub(crate) fn fault_at(text: &[u8], place: usize, wanted: Wanted) -> Fault {
    let place = place.min(text.len());
    let (before, rest) = text.split_at(place);
    match wanted {
        Wanted::Document if text.starts_with(b"\xEF\xBB\xBF") => {
            about(JsonReason::ByteOrderMark, text)
        }
        Wanted::Document => about(JsonReason::ExpectedDocument, rest),
        Wanted::Member | Wanted::Item if is_behind_value(before) => {
            about(JsonReason::ExpectedComma, rest)
        }
        Wanted::Part(wrapper) if is_behind_value(before) => {
            about(JsonReason::Malformed(wrapper), rest)
        }
        Wanted::Member => key_fault(rest),
        Wanted::Item | Wanted::Value => {
            value_fault(rest, JsonReason::ExpectedValue, JsonReason::BadNumber)
        }
        Wanted::Part(wrapper) => {
            let reason = JsonReason::Malformed(wrapper);
            value_fault(rest, reason, reason)
        }
        Wanted::End(wrapper) => behind_token(rest, JsonReason::Malformed(wrapper)),
        Wanted::Comma => behind_token(rest, JsonReason::ExpectedComma),
        Wanted::EndOfText => behind_token(rest, JsonReason::TextBehind),
    }
}

/// Whether these bytes end with a value.
fn is_behind_value(before: &[u8]) -> bool {
    match before.iter().rev().find(|byte| !is_space(**byte)) {
        Some(byte) => !matches!(*byte, b'{' | b'[' | b',' | b':'),
        None => false,
    }
}

fn is_space(byte: u8) -> bool {
    matches!(byte, b' ' | b'\t' | b'\n' | b'\r')
}

/// What is wrong where a key should be.
fn key_fault(rest: &[u8]) -> Fault {
    match rest {
        [b'"', ..] => behind_token(rest, JsonReason::ExpectedColon),
        _ => about(JsonReason::ExpectedKey, rest),
    }
}

/// What is wrong where a value should be: a string, perhaps followed by a colon; a number; or anything else.
fn value_fault(rest: &[u8], reason: JsonReason, of_number: JsonReason) -> Fault {
    match rest {
        [b'"', ..] => behind_token(rest, reason),
        _ if is_cut(rest) => END,
        [b'-' | b'0'..=b'9', ..] => about(of_number, rest),
        _ => about(reason, rest),
    }
}

/// What is wrong in the string at the front; otherwise this reason, after the token at the front.
fn behind_token(rest: &[u8], reason: JsonReason) -> Fault {
    let behind = match rest {
        [b'"', string @ ..] => match behind_string(string) {
            Ok(behind) => behind,
            Err(fault) => return fault,
        },
        [b'{' | b'}' | b'[' | b']', behind @ ..] => behind,
        _ => behind_word(rest),
    };
    about(reason, behind_space(behind))
}

fn behind_space(rest: &[u8]) -> &[u8] {
    let space = rest
        .iter()
        .position(|byte| !is_space(*byte))
        .unwrap_or(rest.len());
    &rest[space..]
}

/// What follows a number, `true`, `false` or `null`.
fn behind_word(rest: &[u8]) -> &[u8] {
    let word = rest
        .iter()
        .position(|byte| is_space(*byte) || b"{}[]:,".contains(byte))
        .unwrap_or(rest.len());
    &rest[word..]
}

/// Whether the text ends inside a word or a number.
fn is_cut(rest: &[u8]) -> bool {
    match rest {
        [b'-'] => true,
        [whole @ .., b'.'] => is_numeral(whole, b"."),
        [number @ .., b'e' | b'E'] => is_numeral(number, b""),
        [number @ .., b'e' | b'E', b'+' | b'-'] => is_numeral(number, b""),
        _ => b"true".starts_with(rest) || b"false".starts_with(rest) || b"null".starts_with(rest),
    }
}

/// Whether this is a JSON number without an exponent and without these bytes.
fn is_numeral(text: &[u8], without: &[u8]) -> bool {
    match str::from_utf8(text) {
        Ok(number) => {
            is_number(number)
                && !text.iter().any(|byte| matches!(*byte, b'e' | b'E') || without.contains(byte))
        }
        Err(_) => false,
    }
}

/// What follows a string, which begins after its first quote; or what is wrong in it.
fn behind_string(string: &[u8]) -> Result<&[u8], Fault> {
    let mut rest = string;
    'string: loop {
        rest = match rest {
            [] => return Err(END),
            [b'"', behind @ ..] => return Ok(behind),
            [b'\\', ..] => behind_escape(rest)?,
            [0..0x20, ..] => return Err(about(JsonReason::ControlCharacter, rest)),
            [_, behind @ ..] => behind,
        };
    }
}

/// What follows an escape; or what is wrong in it.
fn behind_escape(rest: &[u8]) -> Result<&[u8], Fault>
    ensures { IfOk result (λ behind. length behind.now < length rest.now) }
{
    match rest {
        [_, b'u', digits @ ..] => behind_unicode(rest, digits),
        [
            _,
            b'"' | b'\\' | b'/' | b'b' | b'f' | b'n' | b'r' | b't',
            behind @ ..,
        ] => Ok(behind),
        [_, _, ..] => Err(about(JsonReason::BadEscape, rest)),
        _ => Err(END),
    }
}

/// What follows the digits of an escape `\u` and the second escape of a surrogate pair; or what is wrong in
/// `escape`.
fn behind_unicode<'a>(escape: &'a [u8], digits: &'a [u8]) -> Result<&'a [u8], Fault>
    ensures { IfOk result (λ behind. length behind.now ≤ length digits.now) }
{
    let (unit, behind) = code_unit(escape, digits)?;
    let lone = about(JsonReason::LoneSurrogate, escape);
    match (unit, behind) {
        (0xDC00..0xE000, _) => Err(lone),
        (0xD800..0xDC00, [b'\\', b'u', digits @ ..]) => match code_unit(behind, digits)? {
            (0xDC00..0xE000, behind) => Ok(behind),
            _ => Err(lone),
        },
        (0xD800..0xDC00, [] | [b'\\']) => Err(END),
        (0xD800..0xDC00, _) => Err(lone),
        _ => Ok(behind),
    }
}

/// The number of four hex digits, and what follows them; or what is wrong in `escape`.
fn code_unit<'a>(escape: &[u8], digits: &'a [u8]) -> Result<(u32, &'a [u8]), Fault>
    ensures { IfOk result (λ found. length found.1.now ≤ length digits.now) }
{
    match digits {
        [a, b, c, d, behind @ ..] => match number_of_digits(*a, *b, *c, *d) {
            Some(unit) => Ok((unit, behind)),
            None => Err(about(JsonReason::BadEscape, escape)),
        },
        _ if digits.iter().all(|digit| digit.is_ascii_hexdigit()) => Err(END),
        _ => Err(about(JsonReason::BadEscape, escape)),
    }
}

/// The number that four hex digits write.
fn number_of_digits(a: u8, b: u8, c: u8, d: u8) -> Option<u32> {
    let high = char::from(a).to_digit(16)? << 12 | char::from(b).to_digit(16)? << 8;
    Some(high | char::from(c).to_digit(16)? << 4 | char::from(d).to_digit(16)?)
}
