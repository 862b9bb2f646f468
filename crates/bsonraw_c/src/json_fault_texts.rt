//! Why a text of JSON isn't read, as text.

ghost use Rattle.std.specs.Prelude.{◌≡◌, ◌<◌, ◌≢◌, ◌⊎◌, IfNone, IfSome};
ghost use Rattle.bson_from_json.specs.Wrapper.{Wrapper};
ghost use Rattle.bsonraw_c.specs.FromJson.{wrapper_number};
ghost use Rattle.bsonraw_c.specs.JsonFaultTexts.{IsJsonFaultText, IsNoJsonReason, NamesJsonReason, NamesNoWrapper, PutsJsonFault};

use crate::from_json::{JsonReport, NOT_UTF8};
use crate::text_room::{end_text, put_words};
use bson_from_json::{JsonReason, Wrapper};

/// Puts the text of what is wrong with a text of JSON into the room, as far as it fits, with a 0 after it. Returns how
/// many bytes the text has.
#[unsafe(no_mangle)]
pub extern "C" fn bsonraw_json_fault_text(report: &JsonReport, text: &mut [u8]) -> usize
    ensures text { PutsJsonFault report.now text.old text.new result }
    ensures enough { result < 100 }
{
    let count = put_words(text, 0, report.words());
    end_text(text, count);
    count
}

impl JsonReport {
    /// What is wrong, in words.
    fn words(&self) -> &'static str
        ensures { IsJsonFaultText self.now result.now }
    {
        if let Some(reason) = self.named() {
            return reason.words();
        }
        match self.reason {
            16 => "no value of its wrapper",
            NOT_UTF8 => "not UTF-8",
            _ => "no fault",
        }
    }

    /// The reason that the numbers say, if they say one.
    fn named(&self) -> Option<JsonReason>
        ensures named { IfSome result (NamesJsonReason self.now) }
        ensures none { IfNone result (NamesNoWrapper self.now ⊎ IsNoJsonReason self.now) }
    {
        match self.reason {
            1 => Some(JsonReason::EndOfText),
            2 => Some(JsonReason::ByteOrderMark),
            3 => Some(JsonReason::ExpectedDocument),
            4 => Some(JsonReason::ExpectedKey),
            5 => Some(JsonReason::ExpectedColon),
            6 => Some(JsonReason::ExpectedComma),
            7 => Some(JsonReason::ExpectedValue),
            8 => Some(JsonReason::TextBehind),
            9 => Some(JsonReason::BadNumber),
            10 => Some(JsonReason::IntegerTooLarge),
            11 => Some(JsonReason::NumberTooLarge),
            12 => Some(JsonReason::ControlCharacter),
            13 => Some(JsonReason::BadEscape),
            14 => Some(JsonReason::LoneSurrogate),
            15 => Some(JsonReason::InteriorNul),
            16 => match wrapper_of(self.wrapper) {
                Some(wrapper) => Some(JsonReason::Malformed(wrapper)),
                None => None,
            },
            17 => Some(JsonReason::InexactDecimal),
            _ => None,
        }
    }
}

/// The wrapper of a number.
fn wrapper_of(number: u32) -> Option<Wrapper>
    ensures wrapper { IfSome result (λ wrapper. wrapper_number wrapper ≡ number) }
    ensures none { IfNone result ((wrapper : Wrapper) → wrapper_number wrapper ≢ number) }
{
    match number {
        1 => Some(Wrapper::Oid),
        2 => Some(Wrapper::NumberInt),
        3 => Some(Wrapper::NumberLong),
        4 => Some(Wrapper::NumberDouble),
        5 => Some(Wrapper::NumberDecimal),
        6 => Some(Wrapper::Binary),
        7 => Some(Wrapper::Uuid),
        8 => Some(Wrapper::Date),
        9 => Some(Wrapper::RegularExpression),
        10 => Some(Wrapper::Timestamp),
        11 => Some(Wrapper::Code),
        12 => Some(Wrapper::Scope),
        13 => Some(Wrapper::DbPointer),
        14 => Some(Wrapper::Symbol),
        15 => Some(Wrapper::Undefined),
        16 => Some(Wrapper::MinKey),
        17 => Some(Wrapper::MaxKey),
        _ => None,
    }
}
