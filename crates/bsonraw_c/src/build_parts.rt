//! The parts of an element that is appended, and the bytes that it becomes.

ghost use Rattle.std.specs.Prelude.{◌≡◌, ◌≢◌, ◌⊎◌, ◌≤◌, ◌+◌, ◌∷◌, ◌^◌, ◌-◌, ◌↔◌, [], length, min, nat_eq, get_or, IsOk, IsTrue, IfOk, IfErr, IfSome, IfNone};
ghost use Rattle.std.specs.Str.{IsUtf8};
ghost use Rattle.raw_bson.specs.ElementType.{ElementType};
ghost use Rattle.raw_bson.specs.Envelope.{IsEnvelope};
ghost use Rattle.raw_bson.specs.Kind.{tag_of};
ghost use Rattle.raw_bson.specs.Number.{max_length};
ghost use Rattle.bsonraw_c.specs.Build.{AreParts, IsCText, RefusesParts, binary_of, layout_of, put_bytes};
ghost use Rattle.bsonraw_c.specs.BuildParts.{payload_of_parts};
ghost use Rattle.bsonraw_c.specs.Numbers.{number_size};

use crate::build_bytes::{put_at, put_c_text, put_len, put_string};
use crate::codes::Status;
use crate::plain_bytes::{is_long_plain, is_plain};
use raw_bson::{ElementType, RawDocument, RawElement};

/// What the payload of a kind is made of.
#[derive(Clone, Copy)]
pub enum Layout {
    /// this many bytes, as they are
    Fixed(usize),
    /// a byte that is 0 or 1
    Flag,
    /// a text, as a string
    Text,
    /// a document, as it is
    Nested,
    /// bytes, and a subtype
    Binary,
    /// a pattern, and options
    Regex,
    /// a namespace, and an identifier
    Pointer,
    /// a code, and its scope
    Scoped,
}

/// An element without its key: its kind, and one part or two of its payload.
#[derive(Clone, Copy)]
pub struct Parts<'a> {
    pub kind: ElementType,
    pub layout: Layout,
    pub one: &'a [u8],
    pub two: &'a [u8],
}

/// Whether a text is UTF-8.
#[inline(always)]
pub fn is_text(text: &[u8]) -> bool
    ensures { IsTrue result ↔ IsUtf8 text.now }
{
    is_plain(text) || is_any_text(text)
}

/// The same of a text that may be long, not ASCII, or have a 0.
#[inline(never)]
fn is_any_text(text: &[u8]) -> bool
    ensures { IsTrue result ↔ IsUtf8 text.now }
{
    is_long_plain(text) || std::str::from_utf8(text).is_ok()
}

/// Whether a text is UTF-8 without a 0.
#[inline(always)]
pub fn is_c_text(text: &[u8]) -> bool
    ensures { IsTrue result ↔ IsCText text.now }
{
    is_plain(text) || is_any_c_text(text)
}

/// The same of a text that may be long, or not ASCII.
#[inline(never)]
fn is_any_c_text(text: &[u8]) -> bool
    ensures { IsTrue result ↔ IsCText text.now }
{
    is_long_plain(text) || (!text.contains(&0) && is_any_text(text))
}

/// Nothing, or this status.
#[inline(always)]
fn unless(good: bool, status: Status) -> Result<(), Status>
    ensures good { IsOk result ↔ IsTrue good }
    ensures refused { IfErr result (λ s. s ≡ status) }
{
    if good { Ok(()) } else { Err(status) }
}

/// Whether these bytes are a boolean's.
#[inline(always)]
fn is_flag(bytes: &[u8]) -> bool
    ensures { IsTrue result ↔ ((bytes.now ≡ 0 ∷ []) ⊎ (bytes.now ≡ 1 ∷ [])) }
{
    match bytes {
        [byte] => *byte < 2,
        _ => false,
    }
}

/// Whether these bytes are a document.
#[inline(always)]
fn is_document(bytes: &[u8]) -> bool
    ensures { IsTrue result ↔ IsEnvelope bytes.now }
{
    RawDocument::from_bytes(bytes).is_ok()
}

/// Whether this is the subtype of old binaries.
#[inline(always)]
fn is_old(subtype: &[u8]) -> bool
    ensures { result ≡ nat_eq (get_or subtype.now 0 0) 2 }
{
    subtype.first() == Some(&2)
}

/// The kind of a tag.
#[inline(always)]
pub fn kind_of(tag: u32) -> Option<ElementType>
    ensures kind { IfSome result (λ kind. tag ≡ tag_of kind) }
    ensures none { IfNone result ((kind : ElementType) → tag ≢ tag_of kind) }
{
    if tag > 255 {
        return None;
    }
    ElementType::from(tag as u8)
}

/// Puts a binary of this subtype at an offset; an old one with its inner length.
#[inline(always)]
fn put_binary(room: &mut [u8], at: usize, subtype: u8, bytes: &[u8])
    requires room { at + length (binary_of subtype bytes.now) ≤ length room.old }
    requires fits { length (binary_of subtype bytes.now) ≤ max_length }
    ensures { room.new ≡ put_bytes at (binary_of subtype bytes.now) room.old }
{
    let len = bytes.len();
    if subtype == 2 {
        put_len(room, at, len + 4);
        put_at(room, at + 4, &[2]);
        put_len(room, at + 5, len);
        put_at(room, at + 9, bytes);
    } else {
        put_len(room, at, len);
        put_at(room, at + 4, &[subtype]);
        put_at(room, at + 5, bytes);
    }
}

impl Layout {
    /// The layout of a kind.
    #[inline(always)]
    pub fn of(kind: ElementType) -> Layout
        ensures { result ≡ layout_of kind }
    {
        match kind {
            ElementType::Undefined
            | ElementType::Null
            | ElementType::MaxKey
            | ElementType::MinKey => Layout::Fixed(0),
            ElementType::Int32 => Layout::Fixed(4),
            ElementType::Double
            | ElementType::DateTime
            | ElementType::Timestamp
            | ElementType::Int64 => Layout::Fixed(8),
            ElementType::ObjectId => Layout::Fixed(12),
            ElementType::Decimal128 => Layout::Fixed(16),
            ElementType::Boolean => Layout::Flag,
            ElementType::String | ElementType::JavaScriptCode | ElementType::Symbol => Layout::Text,
            ElementType::EmbeddedDocument | ElementType::Array => Layout::Nested,
            ElementType::Binary => Layout::Binary,
            ElementType::RegularExpression => Layout::Regex,
            ElementType::DbPointer => Layout::Pointer,
            ElementType::JavaScriptCodeWithScope => Layout::Scoped,
        }
    }

    /// How many bytes the payload has, if each has as many, and at most eight.
    #[inline(always)]
    pub fn number_size(self) -> Option<usize>
        ensures { result ≡ number_size self }
    {
        match self {
            Layout::Fixed(len) if len <= 8 => Some(len),
            Layout::Flag => Some(1),
            _ => None,
        }
    }

    /// Whether the parts are as this layout wants them, or why not.
    #[inline(always)]
    pub fn validate(self, one: &[u8], two: &[u8]) -> Result<(), Status>
        ensures good { IfOk result (λ _. AreParts self one.now two.now) }
        ensures refused { IfErr result (RefusesParts self one.now two.now) }
    {
        match self {
            Layout::Fixed(len) => unless(one.len() == len, Status::OtherKind),
            Layout::Flag => unless(is_flag(one), Status::OtherKind),
            Layout::Text => unless(is_text(one), Status::Fault),
            Layout::Nested => unless(is_document(one), Status::NoDocument),
            Layout::Binary => unless(two.len() == 1, Status::OtherKind),
            Layout::Regex => unless(is_c_text(one) && is_c_text(two), Status::Fault),
            Layout::Pointer => {
                unless(two.len() == 12, Status::OtherKind)?;
                unless(is_text(one), Status::Fault)
            }
            Layout::Scoped => {
                unless(is_text(one), Status::Fault)?;
                unless(is_document(two), Status::NoDocument)
            }
        }
    }
}

impl<'a> Parts<'a> {
    /// How many bytes the payload has, at most the greatest number.
    #[inline(always)]
    pub fn len(&self) -> usize
        ensures { result ≡ min (length (payload_of_parts self.now)) (2 ^ 64 - 1) }
    {
        match self.layout {
            Layout::Fixed(_) | Layout::Flag | Layout::Nested => self.one.len(),
            Layout::Text => self.one.len().saturating_add(5),
            Layout::Binary => self
                .one
                .len()
                .saturating_add(if is_old(self.two) { 9 } else { 5 }),
            Layout::Regex => self
                .one
                .len()
                .saturating_add(self.two.len())
                .saturating_add(2),
            Layout::Pointer => self
                .one
                .len()
                .saturating_add(self.two.len())
                .saturating_add(5),
            Layout::Scoped => self
                .one
                .len()
                .saturating_add(self.two.len())
                .saturating_add(9),
        }
    }

    /// Puts the payload at an offset.
    #[inline(always)]
    pub fn put_payload(&self, room: &mut [u8], at: usize)
        requires parts { AreParts self.now.layout self.now.one.now self.now.two.now }
        requires room { at + length (payload_of_parts self.now) ≤ length room.old }
        requires fits { length (payload_of_parts self.now) ≤ max_length }
        ensures { room.new ≡ put_bytes at (payload_of_parts self.now) room.old }
    {
        let len = self.one.len();
        match self.layout {
            Layout::Fixed(_) | Layout::Flag | Layout::Nested => put_at(room, at, self.one),
            Layout::Text => put_string(room, at, self.one),
            Layout::Binary => put_binary(room, at, self.two[0], self.one),
            Layout::Regex => {
                put_c_text(room, at, self.one);
                put_c_text(room, at + len + 1, self.two);
            }
            Layout::Pointer => {
                put_string(room, at, self.one);
                put_at(room, at + len + 5, self.two);
            }
            Layout::Scoped => {
                put_len(room, at, 4 + (len + 5 + self.two.len()));
                put_string(room, at + 4, self.one);
                put_at(room, at + len + 9, self.two);
            }
        }
    }
}
