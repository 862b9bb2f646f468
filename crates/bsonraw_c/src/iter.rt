//! An iterator over the elements of a document, as C keeps it: offsets in the caller's bytes.

ghost use Rattle.std.specs.Prelude.{◌≡◌, ◌+◌, ◌<◌, ◌^◌, length, ℕ, List, Some, IfSome, IfNone};
ghost use Rattle.std.specs.Option.{option_copied};
ghost use Rattle.raw_bson.specs.Document.{bytes_of};
ghost use Rattle.raw_bson.specs.ElementSteps.{frame_of};
ghost use Rattle.raw_bson.specs.Envelope.{IsEnvelope};
ghost use Rattle.bsonraw_c.specs.Codes.{IsNoFault, SaysKind};
ghost use Rattle.bsonraw_c.specs.Places.{StandsAt};
ghost use Rattle.bsonraw_c.specs.Iters.{GoesThrough, HasNoElement, HasSameDocument, IsAstray, IsKeyAt, IsShortKey, IsWorkedOut, place_of_none};

use crate::answers::FaultCode;
use crate::fault::Fault;
use raw_bson::{ErrorKind, RawDocument, RawElement, Reason};
use raw_view::{BorrowedError, Elements};

/// An element by its offsets in the caller's bytes, and the document whose elements are gone through.
#[repr(C)]
#[derive(Clone, Copy)]
pub struct Iter {
    /// the element's tag; 0 where the iterator is at none
    pub tag: u32,
    /// where the key begins
    pub key_at: u32,
    /// how many bytes the key has, its 0 not counted
    pub key_len: u32,
    /// where the payload begins
    pub payload_at: u32,
    /// how many bytes the payload has
    pub payload_len: u32,
    /// where the next element begins
    pub next: u32,
    /// where the document begins
    pub document_at: u32,
    /// how many bytes the document has
    pub document_len: u32,
    /// the last fault that was met
    pub fault: Fault,
}

/// The offset of what isn't there: the end of the bytes.
pub fn end_of(bytes: &[u8]) -> u32
    ensures { result ≡ place_of_none bytes.now }
{
    bytes.len().min(u32::MAX as usize) as u32
}

/// The document that the `len` bytes from this offset on are.
#[inline(always)]
fn document_at(bytes: &[u8], offset: u32, len: u32) -> Option<RawDocument<'_>>
    ensures stands { IfSome result (λ document. StandsAt bytes.now offset len (bytes_of document)) }
    ensures none { IfNone result ((d : List ℕ) → StandsAt bytes.now offset len d → ¬ IsEnvelope d) }
{
    if bytes.len() < offset as usize {
        return None;
    }
    let Ok((document, _)) = RawDocument::split_first(bytes.split_at(offset as usize).1) else {
        return None;
    };
    if document.as_bytes().len() != len as usize {
        return None;
    }
    Some(document)
}

/// Where this element ends; its tag is at this offset.
#[inline(always)]
pub fn behind(offset: u32, element: RawElement<'_>) -> u32
    requires { offset + (2 + (length (frame_of element).key
        + length (frame_of element).payload)) < 2 ^ 32 }
    ensures { result ≡ offset + (2 + (length (frame_of element.entry).key
        + length (frame_of element.entry).payload)) }
{
    offset + 2 + element.key().len() as u32 + element.len() as u32
}

impl Iter {
    /// Before the first element of a document.
    pub fn begin(end: u32, document_at: u32, document_len: u32) -> Iter
        requires { document_at + 4 < 2 ^ 32 }
        ensures at { (result.document_at ≡ document_at) × (result.document_len ≡ document_len) }
        ensures next { result.next ≡ document_at + 4 }
        ensures none { HasNoElement end result }
        ensures no_fault { IsNoFault result.fault.why × (result.fault.offset ≡ 0) }
    {
        Iter {
            next: document_at + 4,
            document_at,
            document_len,
            ..Iter::shut(end)
        }
    }

    /// In no document.
    pub fn shut(end: u32) -> Iter
        ensures at { (result.document_at ≡ 0) × (result.document_len ≡ 0) }
        ensures next { result.next ≡ 0 }
        ensures none { HasNoElement end result }
        ensures no_fault { IsNoFault result.fault.why × (result.fault.offset ≡ 0) }
    {
        Iter {
            tag: 0,
            key_at: end,
            key_len: 0,
            payload_at: end,
            payload_len: 0,
            next: 0,
            document_at: 0,
            document_len: 0,
            fault: Fault::none(),
        }
    }

    /// In no document, since these bytes are none for this reason.
    pub fn refused(end: u32, offset: u32, reason: Reason) -> Iter
        ensures at { (result.document_at ≡ 0) × (result.document_len ≡ 0) }
        ensures next { result.next ≡ 0 }
        ensures none { HasNoElement end result }
        ensures why { SaysKind (ErrorKind.MalformedValue reason) result.fault.why }
        ensures offset { result.fault.offset ≡ offset }
    {
        Iter {
            fault: Fault {
                why: FaultCode::malformed(reason),
                offset: offset as u64,
            },
            ..Iter::shut(end)
        }
    }

    /// The elements from the iterator's next offset on; none where it goes through no document of the bytes, or is nowhere
    /// in it.
    #[inline(always)]
    pub fn elements<'a>(&self, bytes: &'a [u8]) -> Option<Elements<'a>>
        ensures left { IfSome result (λ elements.
            (d s : List ℕ) × GoesThrough bytes.now self.now d s × (elements ≡ Some s)) }
        ensures none { IfNone result (IsAstray bytes.now self.now) }
    {
        self.document_at.checked_add(self.document_len)?;
        let offset = self.next.checked_sub(self.document_at)?;
        let document = document_at(bytes, self.document_at, self.document_len)?;
        Elements::from_offset(document, offset as usize)
    }

    /// No element: the offsets are the end of the bytes, and the lengths 0.
    #[inline(always)]
    pub fn leave(&mut self, end: u32)
        ensures none { HasNoElement end self.new }
        ensures document { HasSameDocument self.old self.new }
        ensures next { self.new.next ≡ self.old.next }
        ensures fault { self.new.fault ≡ self.old.fault }
    {
        self.tag = 0;
        self.key_at = end;
        self.key_len = 0;
        self.payload_at = end;
        self.payload_len = 0;
    }

    /// This element, whose tag is at this offset.
    #[inline(always)]
    pub fn enter(&mut self, offset: u32, element: RawElement<'_>)
        requires { offset + (2 + (length (frame_of element).key
            + length (frame_of element).payload)) < 2 ^ 32 }
        ensures placed { IsWorkedOut offset (frame_of element.entry) self.new }
        ensures document { HasSameDocument self.old self.new }
        ensures fault { self.new.fault ≡ self.old.fault }
    {
        let key_len = element.key().len() as u32;
        let payload_len = element.len() as u32;
        self.tag = element.element_type().to_tag() as u32;
        self.key_at = offset + 1;
        self.key_len = key_len;
        self.payload_at = offset + 2 + key_len;
        self.payload_len = payload_len;
        self.next = offset + 2 + key_len + payload_len;
    }

    /// No element for this stop, which is at this offset: its key, where it has one, and the fault.
    pub fn stop(&mut self, end: u32, offset: u32, stop: &BorrowedError<'_>)
        requires { IsShortKey offset (option_copied stop.now.key) }
        ensures key { IsKeyAt end offset (option_copied stop.now.key) self.new }
        ensures document { HasSameDocument self.old self.new }
        ensures next { self.new.next ≡ self.old.next }
        ensures why { SaysKind stop.now.kind self.new.fault.why }
        ensures offset { self.new.fault.offset ≡ offset }
    {
        self.leave(end);
        if let Some(key) = stop.key {
            self.key_at = offset + 1;
            self.key_len = key.len() as u32;
        }
        self.fault = Fault::at(&stop.kind, offset as u64);
    }
}
