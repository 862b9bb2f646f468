//! The slow lister: what `list` prints of bytes, by the definitions of the format. It tries every way to cut the bytes
//! into a tag, a key, a 0, a payload and a rest, and calls nothing of the library, so that the two can be compared.

use std::alloc::{AllocError, Global};
use std::str;

/// What `list` prints, and its exit status.
#[derive(Drop)]
pub(super) struct Listing {
    pub(super) status: u8,
    pub(super) output: String,
}

/// What `list` prints of these bytes.
pub(super) fn listing_of(alloc: Global, bytes: &[u8]) -> Result<Listing, AllocError> {
    match (refusal_of(bytes), bytes.get(4..)) {
        (None, Some(elements)) => walk(alloc, elements),
        (refusal, _) => {
            let output = String::from_str(alloc, refusal.unwrap_or(""))?;
            Ok(Listing { status: 1, output })
        }
    }
}

/// The line of the refusal that applies first to bytes that have no envelope.
pub(super) fn refusal_of(bytes: &[u8]) -> Option<&'static str> {
    if bytes.len() < 5 {
        Some("refused 1\n")
    } else if !begins_with_number(bytes, bytes.len()) {
        Some("refused 2\n")
    } else if !bytes.ends_with(&[0]) {
        Some("refused 3\n")
    } else {
        None
    }
}

/// A line for each frame, and then how the walk ends.
fn walk(alloc: Global, elements: &[u8]) -> Result<Listing, AllocError> {
    let mut output = String::new(alloc);
    let mut left = elements;
    // each frame has at least one byte
    for _ in 0..elements.len() {
        let Some(frame) = first_frame(left) else {
            break;
        };
        push_frame(alloc, &mut output, frame)?;
        left = frame.rest;
    }
    let end = end_of(left);
    push_end(alloc, &mut output, end)?;
    let status = match end {
        End::Sound => 0,
        End::Malformed(_) | End::Utf8(_) => 1,
    };
    Ok(Listing { status, output })
}

fn push_frame(alloc: Global, output: &mut String, frame: Frame<'_>) -> Result<(), AllocError> {
    let tag = frame.tag;
    let key = key_text(alloc, frame.key)?;
    let len = frame.payload.len();
    writeln!(output, "{tag:02x} {key} {len}")
}

fn push_end(alloc: Global, output: &mut String, end: End<'_>) -> Result<(), AllocError> {
    let (kind, key) = match end {
        End::Sound => return output.push_str("end\n"),
        End::Malformed(key) => ("malformed", key),
        End::Utf8(key) => ("utf8", key),
    };
    let key = match key {
        Some(key) => key_text(alloc, key)?,
        None => String::from_str(alloc, "none")?,
    };
    writeln!(output, "fault {kind} {key}")
}

fn key_text(alloc: Global, key: &[u8]) -> Result<String, AllocError> {
    if key.is_empty() {
        String::from_str(alloc, "-")
    } else {
        hex::encode(alloc, key)
    }
}

/// A tag, a key, a payload, and the rest after it.
#[derive(Clone, Copy)]
struct Frame<'a> {
    tag: u8,
    key: &'a [u8],
    payload: &'a [u8],
    rest: &'a [u8],
}

/// The first frame among all ways to cut the bytes.
fn first_frame(bytes: &[u8]) -> Option<Frame<'_>> {
    for key_len in 0..bytes.len() {
        if let Some((tag, key, after)) = cut_key(bytes, key_len) {
            for payload_len in 0..=after.len() {
                if let Some((payload, rest)) = cut_payload(tag, after, payload_len) {
                    return Some(Frame {
                        tag,
                        key,
                        payload,
                        rest,
                    });
                }
            }
        }
    }
    None
}

/// A tag, a key of this length, and what is after its 0.
fn cut_key(bytes: &[u8], len: usize) -> Option<(u8, &[u8], &[u8])> {
    let (tag, text) = bytes.split_first()?;
    let (key, text) = text.split_at_checked(len)?;
    let (nul, after) = text.split_first()?;
    let is_key = *nul == 0 && !key.contains(&0) && is_utf8(key);
    is_key.then_some((*tag, key, after))
}

/// A payload of this length, and the rest.
fn cut_payload(tag: u8, after: &[u8], len: usize) -> Option<(&[u8], &[u8])> {
    let (payload, rest) = after.split_at_checked(len)?;
    has_shape(tag, payload, after).then_some((payload, rest))
}

/// The shape of a payload.
#[derive(Clone, Copy)]
enum Shape {
    /// this many bytes
    Bytes(usize),
    /// a length, a text and a 0
    Text,
    /// a text and twelve bytes
    Pointer,
    /// a document
    Level,
    /// a length, a subtype and bytes
    Binary,
    /// a pattern and options, each with a 0 after it
    Regex,
    /// framed by its length alone
    CodeWithScope,
}

/// The shape of payloads with this tag, if it is the tag of a kind.
fn shape_of(tag: u8) -> Option<Shape> {
    Some(match tag {
        0x06 | 0x0A | 0x7F | 0xFF => Shape::Bytes(0),
        0x08 => Shape::Bytes(1),
        0x10 => Shape::Bytes(4),
        0x01 | 0x09 | 0x11 | 0x12 => Shape::Bytes(8),
        0x07 => Shape::Bytes(12),
        0x13 => Shape::Bytes(16),
        0x02 | 0x0D | 0x0E => Shape::Text,
        0x0C => Shape::Pointer,
        0x03 | 0x04 => Shape::Level,
        0x05 => Shape::Binary,
        0x0B => Shape::Regex,
        0x0F => Shape::CodeWithScope,
        _ => return None,
    })
}

/// Whether this is a payload of the tag, where `after` are the payload and the rest.
fn has_shape(tag: u8, payload: &[u8], after: &[u8]) -> bool {
    match shape_of(tag) {
        Some(Shape::Bytes(len)) => payload.len() == len,
        Some(Shape::Text) => is_text(payload),
        Some(Shape::Pointer) => match payload.split_last_chunk::<12>() {
            Some((text, _id)) => is_text(text),
            None => false,
        },
        Some(Shape::Level) => refusal_of(payload).is_none(),
        Some(Shape::Binary) => match payload {
            [_, _, _, _, _subtype, bytes @ ..] => begins_with_number(payload, bytes.len()),
            _ => false,
        },
        Some(Shape::Regex) => is_regex(payload),
        Some(Shape::CodeWithScope) => begins_with_number(after, payload.len()),
        None => false,
    }
}

/// Whether the first four bytes are this number, least first.
fn begins_with_number(bytes: &[u8], number: usize) -> bool {
    match i32::try_from(number) {
        Ok(number) => bytes.starts_with(&number.to_le_bytes()),
        Err(_) => false,
    }
}

/// Whether the payload is the length of a text with its 0, the text and the 0.
fn is_text(payload: &[u8]) -> bool {
    match payload {
        [_, _, _, _, text @ ..] => {
            begins_with_number(payload, text.len()) && text.ends_with(&[0])
        }
        _ => false,
    }
}

/// Whether the payload is two texts in UTF-8, each with its 0.
fn is_regex(payload: &[u8]) -> bool {
    let Some((pattern, after)) = split_at_nul(payload) else {
        return false;
    };
    let Some((options, after)) = split_at_nul(after) else {
        return false;
    };
    is_utf8(pattern) && is_utf8(options) && after.is_empty()
}

/// The bytes up to the first 0, and those after it.
fn split_at_nul(bytes: &[u8]) -> Option<(&[u8], &[u8])> {
    let mut parts = bytes.splitn(2, |byte| *byte == 0);
    Some((parts.next()?, parts.next()?))
}

fn is_utf8(bytes: &[u8]) -> bool {
    str::from_utf8(bytes).is_ok()
}

/// How a walk ends.
#[derive(Clone, Copy)]
enum End<'a> {
    /// at the final 0
    Sound,
    /// a stop that is malformed, with its key
    Malformed(Option<&'a [u8]>),
    /// a stop at a text that isn't UTF-8, with its key
    Utf8(Option<&'a [u8]>),
}

/// How a walk ends if these bytes, which have no first frame, are left of a document.
fn end_of(left: &[u8]) -> End<'_> {
    if left == [0].as_slice() {
        return End::Sound;
    }
    let Some((tag, text)) = left.split_first() else {
        return End::Malformed(None);
    };
    // a document ends in a 0, so one follows
    let Some((key, after)) = split_at_nul(text) else {
        return End::Malformed(None);
    };
    if !is_utf8(key) {
        End::Utf8(None)
    } else if *tag == 0x0B && has_text_not_utf8(after) {
        End::Utf8(Some(key))
    } else {
        End::Malformed(Some(key))
    }
}

/// Whether a pattern with its 0 isn't UTF-8, or it is and the options with their 0 aren't.
fn has_text_not_utf8(after: &[u8]) -> bool {
    let Some((pattern, after)) = split_at_nul(after) else {
        return false;
    };
    !is_utf8(pattern)
        || match split_at_nul(after) {
            Some((options, _)) => !is_utf8(options),
            None => false,
        }
}
