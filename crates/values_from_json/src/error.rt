//! Why a text can't be read, and where.
ghost use Rattle.std.specs.Prelude.{◌≡◌, Some};
ghost use Rattle.values_from_json.specs.Place.{IsPlaceIn};
ghost use Rattle.values_from_json.specs.Reasons.{error_words, reason_words};

use crate::place::{count_characters, count_line_feeds, last_line};
use crate::wrapper::Wrapper;
use std::alloc::{AllocError, AllocFailed};
use std::fmt;

/// Why a text can't be read as a document.
#[derive(Clone, Copy, Debug, PartialEq, Eq)]
pub enum JsonReason {
    /// Memory ran out.
    OutOfMemory,
    /// The document would have more bytes than allowed, or more than 2147483647.
    TooManyBytes,
    /// Objects, arrays and scopes are nested deeper than allowed.
    TooDeep,
    /// The text ends inside the document.
    EndOfText,
    /// The text begins with a byte order mark.
    ByteOrderMark,
    /// A document has to be here, and no other value.
    ExpectedDocument,
    /// A key, in quotes, has to be here.
    ExpectedKey,
    /// A colon has to be here.
    ExpectedColon,
    /// A comma or the end of the object or array has to be here.
    ExpectedComma,
    /// A value has to be here.
    ExpectedValue,
    /// The text continues after the document.
    TextBehind,
    /// This is no JSON number.
    BadNumber,
    /// This integer takes more than 64 bits.
    IntegerTooLarge,
    /// This number is beyond the greatest double.
    NumberTooLarge,
    /// A string has a control character, which has to be escaped.
    ControlCharacter,
    /// JSON has no such escape.
    BadEscape,
    /// An escape is one half of a surrogate pair, and the other half isn't next to it.
    LoneSurrogate,
    /// A key, a pattern or options contain U+0000, which ends them in BSON.
    InteriorNul,
    /// The object has a key of this wrapper, but isn't one.
    Malformed(Wrapper),
    /// No Decimal128 equals this decimal.
    InexactDecimal,
}

impl From<AllocError> for JsonReason {
    fn from(_: AllocError) -> JsonReason {
        JsonReason::OutOfMemory
    }
}

impl<T: Drop> From<AllocFailed<T>> for JsonReason {
    fn from(_: AllocFailed<T>) -> JsonReason {
        JsonReason::OutOfMemory
    }
}

impl fmt::Display for JsonReason {
    ghost output = { λ reason. Some (reason_words reason) };

    fn fmt<W: fmt::Write>(&self, f: &mut fmt::Formatter<W>) -> fmt::Result {
        f.write_str(self.words())
    }
}

impl JsonReason {
    /// The reason in words.
    /// ```
    /// assert_eq!(rt; JsonReason::EndOfText.words(), "the text ends too early");
    /// ```
    pub fn words(self) -> &'static str
        ensures { result.now ≡ reason_words self }
    {
        match self {
            JsonReason::OutOfMemory => "out of memory",
            JsonReason::TooManyBytes => "more bytes than allowed",
            JsonReason::TooDeep => "deeper than allowed",
            JsonReason::EndOfText => "the text ends too early",
            JsonReason::ByteOrderMark => "a byte order mark in front of the text",
            JsonReason::ExpectedDocument => "expected a document",
            JsonReason::ExpectedKey => "expected a key in quotes",
            JsonReason::ExpectedColon => "expected a colon",
            JsonReason::ExpectedComma => "expected a comma or the end of the object or array",
            JsonReason::ExpectedValue => "expected a value",
            JsonReason::TextBehind => "text after the document",
            JsonReason::BadNumber => "not a number of JSON",
            JsonReason::IntegerTooLarge => "an integer of more than 64 bits",
            JsonReason::NumberTooLarge => "a number beyond the greatest double",
            JsonReason::ControlCharacter => "a control character that is not escaped",
            JsonReason::BadEscape => "not an escape of JSON",
            JsonReason::LoneSurrogate => "half a surrogate pair",
            JsonReason::InteriorNul => "U+0000 in a key, a pattern or options",
            JsonReason::Malformed(wrapper) => wrapper.words(),
            JsonReason::InexactDecimal => "a decimal that no Decimal128 is exactly",
        }
    }
}

/// Why a text can't be read, and where.
/// ```
/// let error = from_json(alloc, "{\"a\":\n  1,,}", Limits { bytes: 1000, depth: 10 }).unwrap_err();
/// assert_eq!(rt; (error.reason, error.line, error.column), (JsonReason::ExpectedKey, 2, 5));
/// ```
#[derive(Clone, Copy, Debug, PartialEq, Eq)]
pub struct JsonError {
    /// the reason
    pub reason: JsonReason,
    /// the number of bytes of the text before the place
    pub offset: usize,
    /// the number of the place's line, from 1 on
    pub line: usize,
    /// the number of the place's character in its line, from 1 on
    pub column: usize,
}

impl fmt::Display for JsonError {
    ghost output = { λ error. Some (error_words error) };

    fn fmt<W: fmt::Write>(&self, f: &mut fmt::Formatter<W>) -> fmt::Result {
        let JsonError {
            reason,
            line,
            column,
            ..
        } = *self;
        write!(f, "line {line}, column {column}: {reason}")
    }
}

impl std::error::Error for JsonError {}

/// The error at `place` of a text, or at its end if the place is beyond it.
pub fn error_at(reason: JsonReason, text: &[u8], place: usize) -> JsonError
    ensures reason { result.reason ≡ reason }
    ensures place { IsPlaceIn text.now result }
{
    let offset = place.min(text.len());
    let before = &text[..offset];
    JsonError {
        reason,
        offset,
        line: count_line_feeds(before) + 1,
        column: count_characters(last_line(before)) + 1,
    }
}
