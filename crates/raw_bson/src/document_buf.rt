//! Documents that own their bytes.
ghost use Rattle.std.specs.Prelude.{◌≡◌, ◌↔◌, ℕ, List, IsOk, IfOk, IfErr, OnOk};
ghost use denote.Ref.{Bor};
ghost use Rattle.raw_bson.specs.Append.{AddsValue, Appends, AppendsFrame, HoldsFrames, KeepsWalk, value_frame};
ghost use Rattle.std.specs.Iterator.{Drains, IsFinite};
ghost use Rattle.raw_bson.specs.Fills.{Fills, TakesEach, TakesPair, empty_document, frames_of_pairs};
ghost use Rattle.raw_bson.specs.Owned.{owned_value};
ghost use Rattle.raw_bson.specs.declared.bson.RawBson.{RawBson};
ghost use Rattle.raw_view.specs.Document.{bytes_of};
ghost use Rattle.raw_view.specs.Frame.ElementSteps.{frame_of};
ghost use Rattle.raw_view.specs.Frame.Envelope.{IsEnvelope};
ghost use Rattle.raw_view.specs.Errors.{IsOutOfMemory, TellsRefusal};
ghost use Rattle.raw_view.specs.Frame.{IsShortScope};
ghost use Rattle.raw_view.specs.Meaning.Value.{value_of};

use crate::appending::{append_raw_element, append_value};
use crate::bson::RawBson;
use raw_view::{HexDigits, RawBsonRef, RawDocument, RawElement, Result};
use std::alloc::{AllocError, Global};
use std::fmt;
use std::marker::Model;

/// The bytes of one document with a sound envelope, owned. The content is read only where a call needs it. A
/// clause sees the bytes. BSON 1.1, `document`.
/// ```
/// let mut document = RawDocumentBuf::new(alloc)?;
/// document.append("a", RawBson::from(1))?;
/// assert_eq!(rt; document.as_bytes(), b"\x0C\0\0\0\x10a\0\x01\0\0\0\0".as_slice());
/// ```
#[derive(Drop)]
pub struct RawDocumentBuf {
    bytes: Vec<u8>,
}

impl Model for RawDocumentBuf {
    ghost use Rattle.std.specs.Prelude.{ℕ, List};
    ghost use Rattle.raw_view.specs.Frame.Envelope.{IsEnvelope};

    ghost Value = { List ℕ };

    ghost view = { λ a. a.bytes.items };

    ghost invariant = { λ a. IsEnvelope a.bytes.items };
}

impl RawDocumentBuf {
    /// The document without elements; or out of memory.
    pub fn new(alloc: Global) -> Result<RawDocumentBuf>
        ensures empty { IfOk result (λ d. d ≡ empty_document) }
        ensures err { IfErr result IsOutOfMemory }
    {
        Ok(RawDocumentBuf {
            bytes: Vec::from_slice(alloc, &[5, 0, 0, 0, 0])?,
        })
    }

    /// The document of these pairs, appended in order; or the first error. The iterator must be finite.
    /// ```
    /// let pairs = [("a", RawBson::from(1)), ("b", RawBson::Null)];
    /// let document = RawDocumentBuf::from_iter(alloc, pairs.into_iter())?;
    /// assert_eq!(rt; document.get_i32("a")?, 1);
    /// ```
    pub fn from_iter<'k, I: Iterator<Item = (&'k str, RawBson)> + Drop>(
        alloc: Global,
        pairs: I,
    ) -> Result<RawDocumentBuf>
        requires can { I.can_next pairs }
        requires ends { IsFinite (I.remaining pairs) }
        ensures fills { Fills TakesPair empty_document I.next_gives pairs result }
        ensures walk { IfOk result (λ d. (given : List (Bor (List ℕ) × RawBson))
            × Drains I.next_gives pairs given × TakesEach TakesPair empty_document given d
            × HoldsFrames d (frames_of_pairs given)) }
    {
        let mut document = RawDocumentBuf::new(alloc)?;
        for (key, value) in pairs {
            document.append(key, value)?;
        }
        Ok(document)
    }

    /// A buffer of these bytes if their envelope is sound, otherwise the first error of these, without a key: too
    /// short, wrong length, not terminated. Then the bytes are dropped. It takes no memory.
    /// ```
    /// let bytes = Vec::from_slice(alloc, b"\x05\0\0\0\0")?;
    /// assert!(rt; RawDocumentBuf::from_bytes(bytes)?.is_empty());
    /// ```
    pub fn from_bytes(bytes: Vec<u8>) -> Result<RawDocumentBuf>
        ensures sound { IsOk result ↔ IsEnvelope bytes.items }
        ensures same { IfOk result (λ d. d ≡ bytes.items) }
        ensures refused { IfErr result (TellsRefusal bytes.items) }
    {
        match RawDocument::from_bytes(&bytes) {
            Ok(_) => Ok(RawDocumentBuf { bytes }),
            Err(error) => Err(error),
        }
    }

    /// All bytes of the document, its header and its final 0 included.
    /// ```
    /// let bytes = RawDocumentBuf::new(alloc)?.into_bytes();
    /// assert_eq!(rt; bytes.as_slice(), b"\x05\0\0\0\0".as_slice());
    /// ```
    pub fn into_bytes(self) -> Vec<u8>
        ensures { result.items ≡ self }
    {
        self.bytes
    }

    /// A view of the document.
    /// ```
    /// let mut document = RawDocumentBuf::new(alloc)?;
    /// document.append("a", RawBson::from(1))?;
    /// assert_eq!(rt; document.as_ref().get_i32(alloc, "a")?, 1);
    /// ```
    pub fn as_ref(&self) -> RawDocument<'_>
        ensures { bytes_of result ≡ self.now }
    {
        match RawDocument::from_bytes(&self.bytes) {
            Ok(document) => document,
            Err(_) => unreachable!(),
        }
    }

    /// All bytes of the document, its header and its final 0 included.
    pub fn as_bytes(&self) -> &[u8]
        ensures bytes { result.now ≡ self.now }
        ensures envelope { IsEnvelope self.now }
    {
        &self.bytes
    }

    /// Appends a value under a key, without looking at the old content. It fails for the first of these reasons: a
    /// 0 in the key, in a pattern or in options (`InteriorNul`); a new length over 2147483647 (`TooLong`); out of
    /// memory (`OutOfMemory`). These errors have no key, and the bytes are unchanged. The value is dropped. The
    /// walk is then the old one followed by the new element, unless the old content ends with a code with scope of
    /// length less than 4. If the buffer holds whole frames only, it holds the value's frame after them, and that
    /// frame means the value.
    /// ```
    /// let mut document = RawDocumentBuf::new(alloc)?;
    /// document.append("name", RawBson::from_str(alloc, "Ada")?)?;
    /// assert!(rt; document.append("\0", RawBson::Null).is_err());
    /// assert_eq!(rt; document.get_str("name")?, "Ada");
    /// ```
    #[inline(always)]
    pub fn append(&mut self, key: &str, value: RawBson) -> Result<()>
        ensures appends { Appends self.old key.now (owned_value value) result self.new }
        ensures walk { OnOk result (KeepsWalk self.old (value_frame key.now (owned_value value)) self.new) }
        ensures adds { OnOk result (AddsValue self.old key.now (owned_value value) self.new) }
    {
        self.append_ref(key, value.as_raw_bson_ref())
    }

    /// Appends a value that borrows its parts, without looking at the old content. No part is copied except into
    /// the buffer. It fails as `append` does, for the same reasons in the same order: `InteriorNul`, `TooLong`,
    /// `OutOfMemory`. The walk and the frames are then as after `append`.
    /// ```
    /// let mut document = RawDocumentBuf::new(alloc)?;
    /// document.append_ref("name", RawBsonRef::from("Ada"))?;
    /// assert_eq!(rt; document.get_str("name")?, "Ada");
    /// ```
    #[inline(always)]
    pub fn append_ref(&mut self, key: &str, value: RawBsonRef<'_>) -> Result<()>
        ensures appends { Appends self.old key.now (value_of value.entry) result self.new }
        ensures walk { OnOk result (KeepsWalk self.old (value_frame key.now (value_of value.entry)) self.new) }
        ensures adds { OnOk result (AddsValue self.old key.now (value_of value.entry) self.new) }
    {
        append_value(&mut self.bytes, key, value)
    }

    /// Appends an element as it is: its key, its kind and the bytes of its payload. It looks neither at the old
    /// content nor at the element's value, so a value at fault is appended too. It fails for the first of these
    /// reasons: a new length over 2147483647; out of memory. These errors have no key, and the bytes are
    /// unchanged.
    /// ```
    /// let document = RawDocument::from_bytes(b"\x0C\0\0\0\x10a\0\x01\0\0\0\0")?;
    /// let mut copy = RawDocumentBuf::new(alloc)?;
    /// for element in document.iter_elements(alloc) {
    ///     copy.append_element(element?)?;
    /// }
    /// assert_eq!(rt; copy.as_bytes(), document.as_bytes());
    /// ```
    #[inline(always)]
    pub fn append_element(&mut self, element: RawElement<'_>) -> Result<()>
        ensures appends { AppendsFrame self.old (frame_of element.entry) result self.new }
        ensures walk { OnOk result
            (¬ IsShortScope (frame_of element.entry) → KeepsWalk self.old (frame_of element.entry) self.new) }
    {
        append_raw_element(&mut self.bytes, element)
    }

    /// The allocator of the bytes.
    pub(crate) fn alloc(&self) -> Global {
        *self.bytes.allocator()
    }
}

impl PartialEq for RawDocumentBuf {
    ghost use Rattle.std.specs.Prelude.{nat_eq};
    ghost use Rattle.std.specs.Cmp.Lexicographic.{pointwise, lists_per};
    ghost use Rattle.std.specs.Cmp.{nat_eq_equiv, partial_equiv_from_equiv};

    ghost eq = { pointwise nat_eq };

    ghost laws = { lists_per (partial_equiv_from_equiv nat_eq_equiv) };

    fn eq(&self, other: &RawDocumentBuf) -> bool {
        self.as_bytes() == other.as_bytes()
    }
}

impl Eq for RawDocumentBuf {
    ghost use Rattle.std.specs.Cmp.Lexicographic.{lists_equiv};
    ghost use Rattle.std.specs.Cmp.{nat_eq_equiv};

    ghost laws = { lists_equiv nat_eq_equiv };
}

impl fmt::Debug for RawDocumentBuf {
    fn fmt<W: fmt::Write>(&self, f: &mut fmt::Formatter<W>) -> fmt::Result {
        let data = HexDigits(self.as_bytes());
        write!(f, "RawDocumentBuf {{ data: \"{data}\" }}")
    }
}

impl Clone for RawDocumentBuf {
    ghost use Rattle.std.specs.Prelude.{◌≡◌};

    ghost is_clone = { λ s t. t ≡ s };

    fn clone(&self) -> std::result::Result<RawDocumentBuf, AllocError> {
        let bytes = Vec::from_slice(self.alloc(), &self.bytes)?;
        Ok(RawDocumentBuf { bytes })
    }
}

impl<'a> From<&'a RawDocumentBuf> for RawBsonRef<'a> {
    ghost use Rattle.std.specs.Prelude.{◌≡◌};
    ghost use Rattle.raw_view.specs.Meaning.{document};
    ghost use Rattle.raw_view.specs.Meaning.Value.{value_of};

    ghost from_gives = { λ x r. value_of r ≡ document x.now };

    fn from(value: &'a RawDocumentBuf) -> RawBsonRef<'a> {
        RawBsonRef::Document(value.as_ref())
    }
}
