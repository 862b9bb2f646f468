//! The document at the front of bytes.
#![tactic(auto)]

ghost use Rattle.std.specs.Prelude.{◌≡◌, ◌++◌, IfOk, IfErr};
ghost use Rattle.raw_view.specs.Document.{bytes_of};
ghost use Rattle.raw_view.specs.Frame.FirstDocument.{HasNoDocument, OneFirstDocument, RefusesFirst};

use crate::document::RawDocument;
use crate::error::{Error, Reason};
use crate::front::payload::declared_len;

/// Why no document is at the front of bytes.
/// ```
/// assert_eq!(rt; RawDocument::split_first(b"\x05\0").unwrap_err(), NoDocument::TooShort);
/// ```
#[derive(Clone, Copy, Debug, PartialEq, Eq)]
pub enum NoDocument {
    /// There are fewer than five bytes.
    TooShort,
    /// The length at the front is less than five, or more than the number of bytes.
    LengthIncorrect,
    /// The length at the front is this and fits, but the last of these bytes isn't 0.
    NotTerminated(usize),
}

impl<'a> RawDocument<'a> {
    /// The document at the front of the bytes and the bytes after it, or why there is none: the first that applies
    /// of too short, a length that doesn't fit, not terminated. The last has the length, so that a caller can skip
    /// the damaged document. At most one document is at the front of any bytes. BSON 1.1, `document`.
    /// ```
    /// let (first, behind) = RawDocument::split_first(b"\x05\0\0\0\0and more")?;
    /// assert!(rt; first.is_empty() && behind == b"and more".as_slice());
    /// ```
    #[inline(always)]
    pub fn split_first(
        bytes: &'a [u8],
    ) -> std::result::Result<(RawDocument<'a>, &'a [u8]), NoDocument>
        ensures parts { IfOk result (λ parts. bytes.now ≡ bytes_of parts.0 ++ parts.1.now) }
        ensures refused { IfErr result (RefusesFirst bytes.now) }
        ensures none { IfErr result (λ _. HasNoDocument bytes.now) }
        ensures one_document { OneFirstDocument }
    {
        if bytes.len() < 5 {
            return Err(NoDocument::TooShort);
        }
        let Ok(len) = declared_len(bytes) else {
            return Err(NoDocument::LengthIncorrect);
        };
        if len < 5 || bytes.len() < len {
            return Err(NoDocument::LengthIncorrect);
        }
        if bytes[len - 1] != 0 {
            return Err(NoDocument::NotTerminated(len));
        }
        let (first, behind) = bytes.split_at(len);
        Ok((RawDocument::framed(first), behind))
    }
}

impl From<NoDocument> for Error {
    ghost use Rattle.raw_view.specs.Errors.{TellsFirst};

    ghost from_gives = { TellsFirst };

    fn from(why: NoDocument) -> Error {
        Error::malformed(match why {
            NoDocument::TooShort => Reason::TooShort,
            NoDocument::LengthIncorrect => Reason::LengthIncorrect,
            NoDocument::NotTerminated(_) => Reason::NotTerminated,
        })
    }
}
