//! Faults in words and numbers.
#![tactic(auto)]

ghost use Rattle.std.specs.Prelude.{◌≡◌};
ghost use Rattle.dump_io.specs.lines.Find.{explanation_of, kind_explained, reason_explained, reason_text, words_alone};
ghost use Rattle.dump_io.specs.lines.Find as says;

use raw_view::{ErrorKind, Reason};

/// Why a document is damaged.
#[derive(Clone, Copy)]
pub struct Why {
    /// the reason in words
    pub words: &'static str,
    /// the tag or the byte at fault, the length, or how many bytes a value has; `None` if the words say all
    pub number: Option<u64>,
    /// how many bytes are left for the value
    pub left: Option<u64>,
}

/// Words without numbers.
fn words_only(words: &'static str) -> Why
    ensures { explanation_of result ≡ words_alone words.now }
{
    Why {
        words,
        number: None,
        left: None,
    }
}

/// The kind of a fault.
pub fn kind_of(kind: &ErrorKind) -> Why
    ensures { explanation_of result ≡ kind_explained kind.now }
{
    match kind {
        ErrorKind::MalformedValue { reason } => reason_of(reason),
        ErrorKind::Utf8EncodingError(_) => words_only("a text isn't UTF-8"),
        ErrorKind::OutOfMemory => words_only(""),
    }
}

fn reason_of(reason: &Reason) -> Why
    ensures { explanation_of result ≡ reason_explained reason.now }
{
    Why {
        words: reason_words(reason),
        number: number_of(reason),
        left: left_of(reason),
    }
}

/// The tag or the byte at fault, the length, or how many bytes a value has.
fn number_of(reason: &Reason) -> Option<u64>
    ensures { result ≡ says.number_of reason.now }
{
    match reason {
        Reason::InvalidTag(byte) | Reason::BadBoolean(byte) => Some(u64::from(*byte)),
        Reason::StringPastEnd(len, _) | Reason::PastEnd(len, _) | Reason::DocumentTooSmall(len) => {
            Some(*len as u64)
        }
        _ => None,
    }
}

/// How many bytes are left for a value.
fn left_of(reason: &Reason) -> Option<u64>
    ensures { result ≡ says.left_of reason.now }
{
    match reason {
        Reason::StringHeadShort(left)
        | Reason::StringPastEnd(_, left)
        | Reason::PastEnd(_, left)
        | Reason::LengthHeadShort(left) => Some(*left as u64),
        _ => None,
    }
}

/// The reason of a fault in words.
fn reason_words(reason: &Reason) -> &'static str
    ensures { result.now ≡ reason_text reason.now }
{
    match reason {
        Reason::TooShort => "a document of under five bytes",
        Reason::LengthIncorrect => "a document's length is wrong",
        Reason::NotTerminated => "no final 0",
        Reason::Overflowed => "no element and no final 0",
        Reason::InvalidTag(_) => "no kind has this tag",
        Reason::StringHeadShort(_) => "a string's length is cut off",
        Reason::NegativeLength => "a length is negative",
        Reason::StringTooSmall => "a string's length is 0",
        Reason::StringPastEnd(_, _) => "a string is longer than what is left",
        Reason::StringNotTerminated => "a string has no final 0",
        Reason::PastEnd(_, _) => "a value is longer than what is left",
        Reason::DocumentTooSmall(_) => "a nested document's length is under 5",
        Reason::NestedNotTerminated => "a nested document has no final 0",
        Reason::LengthHeadShort(_) => "a value's length is cut off",
        Reason::NoTerminator => "a text has no final 0",
        Reason::BadBoolean(_) => "a boolean is neither 0 nor 1",
        Reason::OldNoInner => "an old binary has no inner length",
        Reason::AddOverflow => "an old binary's inner length is negative",
        Reason::OldWrongInner => "an old binary's inner length is wrong",
        Reason::CodeTooSmall => "a code with scope is too short",
        _ => "no value",
    }
}
