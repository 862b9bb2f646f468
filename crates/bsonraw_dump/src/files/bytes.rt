//! Lines that show bytes, in their parts.
#![tactic(auto)]

/// How many columns the bytes of a line take, with the spaces around them.
const COLUMNS: usize = 51;

/// What the words of a line say.
#[derive(Clone, Copy)]
pub enum About {
    Tag,
    Key,
    Value,
    Length,
    End,
    Fault,
    /// how many bytes aren't shown
    More,
}

/// A line that shows bytes: two spaces, and then these parts.
#[derive(Clone, Copy)]
pub struct Bytes<'a> {
    /// the digits of the offset
    pub offset: &'a [u8],
    /// the digits of the bytes, with the spaces around them
    pub bytes: &'a [u8],
    /// the words
    pub words: &'a [u8],
    pub about: About,
}

/// The parts of a line, if it shows bytes.
pub fn bytes_of(line: &[u8]) -> Option<Bytes<'_>> {
    let line = line.strip_prefix(b"  ")?;
    let digits = line
        .iter()
        .take_while(|byte| byte.is_ascii_hexdigit())
        .count();
    if digits != 8 && digits != 16 {
        return None;
    }
    let (offset, rest) = split(line, digits);
    let rest = rest.strip_suffix(b"\n").unwrap_or(rest);
    let columns = if rest.starts_with(b"  ... ") {
        2
    } else {
        COLUMNS
    };
    let (_, words) = split(rest, columns);
    let words = words.trim_ascii_start();
    let (bytes, words) = split(rest, rest.len().saturating_sub(words.len()));
    Some(Bytes {
        offset,
        bytes,
        words,
        about: said_by(bytes, words),
    })
}

/// The bytes of a line before the one where reading fails, that one with its mark, and those after it.
pub fn parted(bytes: &[u8]) -> (&[u8], &[u8], &[u8]) {
    let before = bytes.iter().take_while(|byte| **byte != b'>').count();
    let (before, rest) = split(bytes, before);
    let (marked, after) = split(rest, 3);
    (before, marked, after)
}

fn split(bytes: &[u8], at: usize) -> (&[u8], &[u8]) {
    bytes.split_at(at.min(bytes.len()))
}

/// What these words of bytes say.
fn said_by(bytes: &[u8], words: &[u8]) -> About {
    if bytes.iter().any(|byte| *byte == b'>') {
        About::Fault
    } else if words.starts_with(b"key") {
        About::Key
    } else if words.starts_with(b"length") {
        About::Length
    } else if words.starts_with(b"final 0") {
        About::End
    } else if words.starts_with(b"... ") {
        About::More
    } else if is_kind(words) {
        About::Tag
    } else {
        About::Value
    }
}

/// The names of kinds.
const KINDS: &[&[u8]] = &[
    b"Double",
    b"String",
    b"EmbeddedDocument",
    b"Array",
    b"Binary",
    b"Undefined",
    b"ObjectId",
    b"Boolean",
    b"DateTime",
    b"Null",
    b"RegularExpression",
    b"DbPointer",
    b"JavaScriptCode",
    b"Symbol",
    b"JavaScriptCodeWithScope",
    b"Int32",
    b"Timestamp",
    b"Int64",
    b"Decimal128",
    b"MaxKey",
    b"MinKey",
];

fn is_kind(words: &[u8]) -> bool {
    KINDS.iter().any(|kind| *kind == words)
}
