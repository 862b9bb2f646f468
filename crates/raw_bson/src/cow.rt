//! Documents and arrays that are borrowed or owned.
ghost use Rattle.std.specs.Prelude.{◌≡◌};
ghost use Rattle.raw_view.specs.Document.{bytes_of};
ghost use Rattle.raw_view.specs.Meaning.Value.{array_bytes_of};

use crate::array_buf::RawArrayBuf;
use crate::document_buf::RawDocumentBuf;
use raw_view::{RawArray, RawDocument};

/// A document that is borrowed or owned.
/// ```
/// let document = RawDocument::from_bytes(b"\x0C\0\0\0\x10a\0\x01\0\0\0\0")?;
/// let cow = CowRawDocument::from(document);
/// assert_eq!(rt; cow.as_ref(), document);
/// ```
#[derive(Drop)]
pub enum CowRawDocument<'a> {
    /// a view of bytes that are owned elsewhere
    Borrowed(RawDocument<'a>),
    /// a buffer
    Owned(RawDocumentBuf),
}

impl CowRawDocument<'_> {
    ghost use Rattle.raw_bson.specs.Cows.{cow_bytes};

    /// A view of the document.
    pub fn as_ref(&self) -> RawDocument<'_>
        ensures { bytes_of result ≡ cow_bytes self.now }
    {
        match self {
            CowRawDocument::Borrowed(document) => *document,
            CowRawDocument::Owned(document) => document.as_ref(),
        }
    }
}

impl<'a> From<RawDocument<'a>> for CowRawDocument<'a> {
    ghost use Rattle.std.specs.Prelude.{◌≡◌};
    ghost use Rattle.raw_bson.specs.declared.cow.CowRawDocument.TheVariants as cow;

    ghost from_gives = { λ x r. r ≡ cow.Borrowed x };

    fn from(value: RawDocument<'a>) -> CowRawDocument<'a> {
        CowRawDocument::Borrowed(value)
    }
}

impl<'a> From<&'a RawDocumentBuf> for CowRawDocument<'a> {
    ghost use Rattle.raw_bson.specs.Cows.{BorrowsDocument};

    ghost from_gives = { λ x r. BorrowsDocument x.now r };

    fn from(value: &'a RawDocumentBuf) -> CowRawDocument<'a> {
        CowRawDocument::Borrowed(value.as_ref())
    }
}

impl<'a> From<RawDocumentBuf> for CowRawDocument<'a> {
    ghost use Rattle.std.specs.Prelude.{◌≡◌};
    ghost use Rattle.raw_bson.specs.declared.cow.CowRawDocument.TheVariants as cow;

    ghost from_gives = { λ x r. r ≡ cow.Owned x };

    fn from(value: RawDocumentBuf) -> CowRawDocument<'a> {
        CowRawDocument::Owned(value)
    }
}

/// An array that is borrowed or owned.
#[derive(Drop)]
pub enum CowRawArray<'a> {
    /// a view of bytes that are owned elsewhere
    Borrowed(RawArray<'a>),
    /// a buffer
    Owned(RawArrayBuf),
}

impl CowRawArray<'_> {
    ghost use Rattle.raw_bson.specs.Cows.{cow_array_bytes};

    /// A view of the array.
    pub fn as_ref(&self) -> RawArray<'_>
        ensures { array_bytes_of result ≡ cow_array_bytes self.now }
    {
        match self {
            CowRawArray::Borrowed(array) => *array,
            CowRawArray::Owned(array) => array.as_ref(),
        }
    }
}

impl<'a> From<RawArray<'a>> for CowRawArray<'a> {
    ghost use Rattle.std.specs.Prelude.{◌≡◌};
    ghost use Rattle.raw_bson.specs.declared.cow.CowRawArray.TheVariants as cow;

    ghost from_gives = { λ x r. r ≡ cow.Borrowed x };

    fn from(value: RawArray<'a>) -> CowRawArray<'a> {
        CowRawArray::Borrowed(value)
    }
}

impl<'a> From<&'a RawArrayBuf> for CowRawArray<'a> {
    ghost use Rattle.raw_bson.specs.Cows.{BorrowsArray};

    ghost from_gives = { λ x r. BorrowsArray x.now.bytes r };

    fn from(value: &'a RawArrayBuf) -> CowRawArray<'a> {
        CowRawArray::Borrowed(value.as_ref())
    }
}

impl<'a> From<RawArrayBuf> for CowRawArray<'a> {
    ghost use Rattle.std.specs.Prelude.{◌≡◌};
    ghost use Rattle.raw_bson.specs.declared.cow.CowRawArray.TheVariants as cow;

    ghost from_gives = { λ x r. r ≡ cow.Owned x };

    fn from(value: RawArrayBuf) -> CowRawArray<'a> {
        CowRawArray::Owned(value)
    }
}
