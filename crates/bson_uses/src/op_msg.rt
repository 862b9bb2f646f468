//! Messages of MongoDB's wire protocol.
ghost use Rattle.std.specs.Prelude.{◌≡◌, ◌≤◌, ◌+◌, [], length, IsTrue, IfOk, IfErr, IfSome, MatchOption};
ghost use Rattle.raw_bson.specs.Document.{bytes_of};
ghost use Rattle.raw_bson.specs.Bytes.{NulFree};
ghost use Rattle.bson_uses.specs.Messages.{message_bytes, HasNumber, IsSized, IsIdentified, IsSection, BeginWith, IsMessage, HasNoSize, RefusesSequence, RefusesSection, RefusesSections, RefusesMessage, RefusesLength};

use crate::dump::split_dump;
use raw_bson::{Error, NoDocument, RawDocument, Reason, Result};
use std::alloc::Global;

/// A part of a message.
/// ```
/// // a sequence `docs` of two documents, a body, and a checksum
/// let bytes = b"\x35\0\0\0\x02\0\0\0\x01\0\0\0\xDD\x07\0\0\x01\0\0\0\x01\x16\0\0\0docs\0\x05\0\0\0\0\x08\0\0\0\x0Aa\0\0\0\x05\0\0\0\0\x01\x02\x03\x04";
/// let message = read_message(alloc, bytes)?;
/// let sections = message.sections.as_slice();
/// assert!(rt; matches!(sections, [Section::Sequence("docs", documents), Section::Body(_)] if documents.len() == 2));
/// assert!(rt; message.response_to == 1 && message.checksum == b"\x01\x02\x03\x04".as_slice());
/// ```
#[derive(Drop)]
pub enum Section<'a> {
    /// one document
    Body(RawDocument<'a>),
    /// documents under an identifier
    Sequence(&'a str, Vec<RawDocument<'a>>),
}

/// A message, which borrows from its bytes.
#[derive(Drop)]
pub struct Message<'a> {
    /// the number that the sender gave it
    pub request_id: i32,
    /// the number of the message to which it is a reply
    pub response_to: i32,
    /// the flags: bit 0 means that a checksum follows, bit 1 that more messages come, bit 16 that several replies
    /// may come
    pub flags: u32,
    /// its sections, in order; the protocol requires one body, which the caller has to test
    pub sections: Vec<Section<'a>>,
    /// the checksum, of four bytes, or nothing; it isn't verified
    pub checksum: &'a [u8],
}

/// Why bytes are no message.
#[derive(Clone, Copy, Debug, PartialEq, Eq, thiserror::Error)]
pub enum MessageError {
    /// no header and flags
    #[error("too short")]
    TooShort,
    /// the header's size is another
    #[error("another size")]
    WrongSize,
    /// the header's code is another
    #[error("another code")]
    OtherCode,
    /// one of the flags 0 to 15, which a reader has to know, is set and isn't known
    #[error("unknown flags among {0:#x}")]
    UnknownFlags(u32),
    /// no bytes for the checksum that the flags announce
    #[error("no checksum")]
    NoChecksum,
    /// a section of this kind, which isn't known
    #[error("a section of kind {0}")]
    OtherKind(u8),
    /// a sequence's size is missing, or isn't that of the bytes that follow
    #[error("another size of a sequence")]
    WrongSequenceSize,
    /// a sequence's identifier has no end
    #[error("an identifier without end")]
    NoIdentifier,
    /// a sequence's identifier isn't UTF-8
    #[error("an identifier that isn't UTF-8")]
    NotText,
    /// no document is where a section has one
    #[error("no document: {}", Error::from(*.0))]
    NoDocument(NoDocument),
    /// memory ran out
    #[error("out of memory")]
    OutOfMemory,
}

/// A part of a message, or why the bytes are no message.
pub type Read<T> = std::result::Result<T, MessageError>;

/// Ok if this holds, otherwise the error.
fn check(holds: bool, error: MessageError) -> Read<()>
    ensures holds { IfOk result (λ _. IsTrue holds) }
    ensures fails { IfErr result (λ e. (e ≡ error) × ¬ IsTrue holds) }
{
    if holds { Ok(()) } else { Err(error) }
}

/// The number whose four bytes begin at `at`.
fn i32_at(bytes: &[u8], at: usize) -> i32
    requires { at + 4 ≤ length bytes.now }
    ensures { HasNumber at bytes.now result }
{
    i32::from_le_bytes([bytes[at], bytes[at + 1], bytes[at + 2], bytes[at + 3]])
}

/// The bytes that a size at the front counts, without the size, and what follows them; `None` if there are fewer.
fn split_sized(bytes: &[u8]) -> Option<(&[u8], &[u8])>
    ensures parts { MatchOption result (HasNoSize bytes.now) (λ parts. IsSized bytes.now parts.0.now parts.1.now) }
    ensures shorter { IfSome result (λ parts. length parts.1.now ≤ length bytes.now) }
{
    let (_, behind) = bytes.split_at_checked(4)?;
    let size = usize::try_from(i32_at(bytes, 0)).ok()?;
    behind.split_at_checked(size.checked_sub(4)?)
}

/// The bytes before the first 0, and those after it; `None` if there is no 0.
fn split_at_nul(bytes: &[u8]) -> Option<(&[u8], &[u8])>
    ensures { MatchOption result (NulFree bytes.now) (λ parts. IsIdentified bytes.now parts.0.now parts.1.now) }
{
    let end = memchr::memchr(0, bytes)?;
    Some((&bytes[..end], &bytes[end + 1..]))
}

/// The sequence at the front of the bytes, which begin after its kind, and what follows it.
fn first_sequence<'a>(alloc: Global, bytes: &'a [u8]) -> Read<(Section<'a>, &'a [u8])>
    ensures section { IfOk result (λ parts. IsSection 1 bytes.now parts.0 parts.1.now) }
    ensures refused { IfErr result (RefusesSequence bytes.now) }
    ensures shorter { IfOk result (λ parts. length parts.1.now ≤ length bytes.now) }
{
    let (inside, rest) = split_sized(bytes).ok_or(MessageError::WrongSequenceSize)?;
    let (text, behind) = split_at_nul(inside).ok_or(MessageError::NoIdentifier)?;
    let identifier = std::str::from_utf8(text).map_err(|_| MessageError::NotText)?;
    let dump = split_dump(alloc, behind).map_err(|_| MessageError::OutOfMemory)?;
    let documents = dump.whole().map_err(MessageError::NoDocument)?;
    Ok((Section::Sequence(identifier, documents), rest))
}

/// The section of this kind at the front of the bytes, which begin after the kind, and what follows it.
fn first_section<'a>(alloc: Global, kind: u8, bytes: &'a [u8]) -> Read<(Section<'a>, &'a [u8])>
    ensures section { IfOk result (λ parts. IsSection kind bytes.now parts.0 parts.1.now) }
    ensures refused { IfErr result (RefusesSection kind bytes.now) }
    ensures shorter { IfOk result (λ parts. length parts.1.now ≤ length bytes.now) }
{
    match kind {
        0 => RawDocument::split_first(bytes)
            .map(|(body, rest)| (Section::Body(body), rest))
            .map_err(MessageError::NoDocument),
        1 => first_sequence(alloc, bytes),
        _ => Err(MessageError::OtherKind(kind)),
    }
}

/// The sections in the bytes, end to end.
fn all_sections<'a>(alloc: Global, mut rest: &'a [u8]) -> Read<Vec<Section<'a>>>
    ensures sections { IfOk result (λ sections. BeginWith sections.items rest.entry.now []) }
    ensures refused { IfErr result (RefusesSections rest.entry.now) }
{
    let mut all = Vec::new(alloc);
    while let Some((kind, behind)) = rest.split_first() {
        let (section, next) = first_section(alloc, *kind, behind)?;
        check(all.push(section).is_ok(), MessageError::OutOfMemory)?;
        rest = next;
    }
    Ok(all)
}

/// The message in these bytes.
/// ```
/// // the command `{ping: 1, $db: "admin"}` under the number 7, as MongoDB's package for Python writes it
/// let ping = b"\x33\0\0\0\x07\0\0\0\0\0\0\0\xDD\x07\0\0\0\0\0\0\0\x1E\0\0\0\x10ping\0\x01\0\0\0\x02$db\0\x06\0\0\0admin\0\0";
/// let message = read_message(alloc, ping)?;
/// assert!(rt; message.request_id == 7 && message.response_to == 0 && message.flags == 0 && message.checksum.is_empty());
/// assert!(rt; matches!(message.sections.as_slice(), [Section::Body(body)] if body.get_str(alloc, "$db").ok() == Some("admin")));
/// ```
pub fn read_message<'a>(alloc: Global, bytes: &'a [u8]) -> Read<Message<'a>>
    ensures message { IfOk result (IsMessage bytes.now) }
    ensures refused { IfErr result (RefusesMessage bytes.now) }
{
    // five numbers come first: the size, the message's number, that of the other message, the code, the flags
    check(bytes.len() >= 20, MessageError::TooShort)?;
    let size = i32_at(bytes, 0);
    check(size as i64 == bytes.len() as i64, MessageError::WrongSize)?;
    check(i32_at(bytes, 12) == 2013, MessageError::OtherCode)?;
    let flags = i32_at(bytes, 16).cast_unsigned();
    check(flags % 0x1_0000 < 4, MessageError::UnknownFlags(flags))?;
    let end = bytes.len() - 4 * (flags as usize % 2);
    check(end >= 20, MessageError::NoChecksum)?;
    Ok(Message {
        request_id: i32_at(bytes, 4),
        response_to: i32_at(bytes, 8),
        flags,
        sections: all_sections(alloc, &bytes[20..end])?,
        checksum: &bytes[end..],
    })
}

/// The message with this number and the document; or too long, or out of memory.
/// ```
/// let body = RawDocument::from_bytes(b"\x1E\0\0\0\x10ping\0\x01\0\0\0\x02$db\0\x06\0\0\0admin\0\0")?;
/// let message = message_of(alloc, 7, body)?;
/// let head = b"\x33\0\0\0\x07\0\0\0\0\0\0\0\xDD\x07\0\0\0\0\0\0\0";
/// assert!(rt; message.starts_with(head) && &message[21..] == body.as_bytes());
/// ```
pub fn message_of(alloc: Global, request_id: i32, body: RawDocument<'_>) -> Result<Vec<u8>>
    ensures message { IfOk result (λ m. m.items ≡ message_bytes request_id (bytes_of body.entry)) }
    ensures refused { IfErr result (RefusesLength (length (bytes_of body.entry))) }
{
    let bytes = body.as_bytes();
    let size = i32::try_from(bytes.len() + 21).map_err(|_| Error::malformed(Reason::TooLong))?;
    let mut message = Vec::from_slice(alloc, &size.to_le_bytes())?;
    message.extend_from_slice(&request_id.to_le_bytes())?;
    // no reply, code 2013, no flags, and the kind of a body
    message.extend_from_slice(b"\0\0\0\0\xDD\x07\0\0\0\0\0\0\0")?;
    message.extend_from_slice(bytes)?;
    Ok(message)
}
