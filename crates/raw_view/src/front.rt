//! The element at the front of bytes.
ghost use Rattle.std.specs.Prelude.{◌≢◌, length, IfOk, IfErr, IfSome};
ghost use Rattle.std.specs.Option.{option_copied};
ghost use Rattle.raw_view.specs.Frame.ElementSteps.{frame_of};
ghost use Rattle.raw_view.specs.Frame.{IsFrame};
ghost use Rattle.raw_view.specs.Frame.Front.{EndsWithNul, StopsWith};

pub(crate) mod c_string;
pub(crate) mod number;
pub(crate) mod payload;
pub(crate) mod utf8;

use crate::element::RawElement;
use crate::element_type::ElementType;
use crate::error::{BorrowedError, Reason};
use crate::front::c_string::{split_plain_text, split_text};
use crate::front::payload::{front_len, plain_len};

/// The element at the front of the remaining bytes, and the bytes after it, in few steps for most elements.
/// `None` means that `any_front` has to be asked.
#[inline(always)]
pub(crate) fn plain_front<'a>(rest: &'a [u8]) -> Option<(RawElement<'a>, &'a [u8])>
    ensures { IfSome result (λ x. IsFrame rest.now (frame_of x.0) x.1.now) }
{
    let (tag, behind) = rest.split_first()?;
    let (key, behind) = split_plain_text(behind)?;
    let kind = ElementType::from(*tag)?;
    let len = plain_len(kind, behind)?;
    let (payload, rest) = behind.split_at(len);
    Some((RawElement { key, kind, payload }, rest))
}

/// The element at the front of the remaining bytes, of which there are none or at least two, and the bytes
/// after it; or the fault at which the elements stop. Nothing is copied.
#[inline(never)]
pub(crate) fn any_front<'a>(rest: &'a [u8]) -> Result<(RawElement<'a>, &'a [u8]), BorrowedError<'a>>
    requires ends { EndsWithNul rest.now }
    requires more { length rest.now ≢ 1 }
    ensures element { IfOk result (λ x. IsFrame rest.now (frame_of x.0) x.1.now) }
    ensures stop { IfErr result (λ e. StopsWith e.kind (option_copied e.key) rest.now) }
{
    let Some((tag, behind)) = rest.split_first() else {
        return Err(BorrowedError::malformed(Reason::Overflowed));
    };
    let (key, behind) = match split_text(behind) {
        Ok(parts) => parts,
        Err(kind) => return Err(BorrowedError { kind, key: None }),
    };
    let Some(kind) = ElementType::from(*tag) else {
        return Err(BorrowedError::malformed_at(Reason::InvalidTag(*tag), key));
    };
    match front_len(kind, behind) {
        Err(kind) => Err(BorrowedError {
            kind,
            key: Some(key),
        }),
        Ok(len) => {
            let (payload, rest) = behind.split_at(len);
            Ok((RawElement { key, kind, payload }, rest))
        }
    }
}
