//! How many bytes a payload takes.
ghost use Rattle.std.specs.Prelude.{◌≡◌, ◌≢◌, ◌≤◌, ◌<◌, ◌+◌, ◌++◌, ℕ, List, length, take, drop, pos, negsuc, IfOk, IfErr, IfSome, OnErr};
ghost use Rattle.raw_view.specs.Frame.Envelope.{IsEnvelope};
ghost use Rattle.raw_view.specs.Errors.{IsReadingKind, IsReadingReason};
ghost use Rattle.raw_view.specs.Frame.{HasShape, HasText, HasDeclaredLength, IsPayloadReason, IsPointerReason};
ghost use Rattle.raw_view.specs.Frame.Reasons.{IsStringReason, IsDocumentReason, IsBinaryReason, IsScopeReason};
ghost use Rattle.raw_view.specs.Frame.Front.{IsPayloadFault};
ghost use Rattle.raw_view.specs.Frame.Number.{IsLe32};
ghost use Rattle.raw_view.specs.declared.element_type.ElementType.TheVariants.{Binary, DbPointer, RegularExpression};

use crate::element_type::ElementType;
use crate::error::{ErrorKind, Reason};
use crate::front::c_string::split_text;
use crate::front::number::front_i32;

#[inline(always)]
fn fixed_len(size: usize, rest: &[u8]) -> Result<usize, Reason>
    ensures found { IfOk result (λ n. (n ≡ size) × (size ≤ length rest.now)) }
    ensures none { OnErr result (length rest.now < size) }
    ensures reason { IfErr result (λ why. why ≡ Reason.PastEnd size (length rest.now)) }
    ensures reading { IfErr result IsReadingReason }
{
    if rest.len() < size {
        Err(Reason::PastEnd(size, rest.len()))
    } else {
        Ok(size)
    }
}

/// The length that the first four bytes declare.
#[inline(always)]
pub(crate) fn declared_len(rest: &[u8]) -> Result<usize, Reason>
    requires { 4 ≤ length rest.now }
    ensures found { IfOk result (λ n. IsLe32 (take 4 rest.now) (pos n)) }
    ensures none { OnErr result ((n : ℕ) → ¬ IsLe32 (take 4 rest.now) (pos n)) }
    ensures reason { IfErr result
        (λ why. (n : ℕ) × IsLe32 (take 4 rest.now) (negsuc n) × (why ≡ Reason.NegativeLength)) }
    ensures reading { IfErr result IsReadingReason }
{
    let declared = front_i32(rest);
    if declared < 0 {
        return Err(Reason::NegativeLength);
    }
    Ok(declared as usize)
}

#[inline(always)]
pub(crate) fn front_string_len(rest: &[u8]) -> Result<usize, Reason>
    ensures within { IfOk result (λ n. n ≤ length rest.now) }
    ensures found { IfOk result (λ n. HasText (take n rest.now)) }
    ensures none { OnErr result ((p r : List ℕ) → rest.now ≡ p ++ r → ¬ HasText p) }
    ensures reason { IfErr result (IsStringReason rest.now) }
    ensures reading { IfErr result IsReadingReason }
{
    if rest.len() < 4 {
        return Err(Reason::StringHeadShort(rest.len()));
    }
    let declared = declared_len(rest)?;
    if declared == 0 {
        return Err(Reason::StringTooSmall);
    }
    let size = declared + 4;
    if rest.len() < size {
        return Err(Reason::StringPastEnd(size, rest.len()));
    }
    if rest[size - 1] != 0 {
        return Err(Reason::StringNotTerminated);
    }
    Ok(size)
}

#[inline(always)]
fn document_len(rest: &[u8]) -> Result<usize, Reason>
    ensures within { IfOk result (λ n. n ≤ length rest.now) }
    ensures found { IfOk result (λ n. IsEnvelope (take n rest.now)) }
    ensures none { OnErr result ((p r : List ℕ) → rest.now ≡ p ++ r → ¬ IsEnvelope p) }
    ensures reason { IfErr result (IsDocumentReason rest.now) }
    ensures reading { IfErr result IsReadingReason }
{
    if rest.len() < 5 {
        return Err(Reason::PastEnd(5, rest.len()));
    }
    let size = declared_len(rest)?;
    if size < 5 {
        return Err(Reason::DocumentTooSmall(size));
    }
    if rest.len() < size {
        return Err(Reason::PastEnd(size, rest.len()));
    }
    if rest[size - 1] != 0 {
        return Err(Reason::NestedNotTerminated);
    }
    Ok(size)
}

#[inline(always)]
fn binary_len(rest: &[u8]) -> Result<usize, Reason>
    ensures within { IfOk result (λ n. n ≤ length rest.now) }
    ensures found { IfOk result (λ n. HasShape Binary (take n rest.now) (drop n rest.now)) }
    ensures none { OnErr result ((p r : List ℕ) → rest.now ≡ p ++ r → ¬ HasShape Binary p r) }
    ensures reason { IfErr result (IsBinaryReason rest.now) }
    ensures reading { IfErr result IsReadingReason }
{
    if rest.len() < 4 {
        return Err(Reason::LengthHeadShort(rest.len()));
    }
    let size = declared_len(rest)? + 5;
    if rest.len() < size {
        return Err(Reason::PastEnd(size, rest.len()));
    }
    Ok(size)
}

fn code_with_scope_len(rest: &[u8]) -> Result<usize, Reason>
    ensures within { IfOk result (λ n. n ≤ length rest.now) }
    ensures found { IfOk result (λ n. HasDeclaredLength (take n rest.now) (drop n rest.now)) }
    ensures none { OnErr result ((p r : List ℕ) → rest.now ≡ p ++ r → ¬ HasDeclaredLength p r) }
    ensures reason { IfErr result (IsScopeReason rest.now) }
    ensures reading { IfErr result IsReadingReason }
{
    if rest.len() < 4 {
        return Err(Reason::LengthHeadShort(rest.len()));
    }
    let size = declared_len(rest)?;
    if rest.len() < size {
        return Err(Reason::PastEnd(size, rest.len()));
    }
    Ok(size)
}

fn db_pointer_len(rest: &[u8]) -> Result<usize, Reason>
    ensures within { IfOk result (λ n. n ≤ length rest.now) }
    ensures found { IfOk result (λ n. HasShape DbPointer (take n rest.now) (drop n rest.now)) }
    ensures none { OnErr result ((p r : List ℕ) → rest.now ≡ p ++ r → ¬ HasShape DbPointer p r) }
    ensures reason { IfErr result (IsPointerReason rest.now) }
    ensures reading { IfErr result IsReadingReason }
{
    let size = front_string_len(rest)? + 12;
    if rest.len() < size {
        return Err(Reason::PastEnd(size, rest.len()));
    }
    Ok(size)
}

fn regex_len(rest: &[u8]) -> Result<usize, ErrorKind>
    ensures within { IfOk result (λ n. n ≤ length rest.now) }
    ensures found { IfOk result
        (λ n. HasShape RegularExpression (take n rest.now) (drop n rest.now)) }
    ensures none { OnErr result ((p r : List ℕ) → rest.now ≡ p ++ r →
        ¬ HasShape RegularExpression p r) }
    ensures fault { IfErr result (IsPayloadFault RegularExpression rest.now) }
    ensures reading { IfErr result IsReadingKind }
{
    let (_pattern, behind) = split_text(rest)?;
    let (_options, behind) = split_text(behind)?;
    Ok(rest.len() - behind.len())
}

/// The length of the payload at the front, of a kind without C strings; or why none is there.
#[inline(always)]
fn sized_len(kind: ElementType, rest: &[u8]) -> Result<usize, Reason>
    requires { kind ≢ RegularExpression }
    ensures within { IfOk result (λ n. n ≤ length rest.now) }
    ensures found { IfOk result (λ n. HasShape kind (take n rest.now) (drop n rest.now)) }
    ensures none { OnErr result ((p r : List ℕ) → rest.now ≡ p ++ r → ¬ HasShape kind p r) }
    ensures reason { IfErr result (IsPayloadReason kind rest.now) }
    ensures reading { IfErr result IsReadingReason }
{
    match kind {
        ElementType::String | ElementType::JavaScriptCode | ElementType::Symbol => front_string_len(
            rest,
        ),
        ElementType::EmbeddedDocument | ElementType::Array => document_len(rest),
        ElementType::Binary => binary_len(rest),
        ElementType::DbPointer => db_pointer_len(rest),
        ElementType::JavaScriptCodeWithScope => code_with_scope_len(rest),
        ElementType::Undefined | ElementType::Null | ElementType::MaxKey | ElementType::MinKey => {
            fixed_len(0, rest)
        }
        ElementType::Boolean => fixed_len(1, rest),
        ElementType::Int32 => fixed_len(4, rest),
        ElementType::Double | ElementType::DateTime | ElementType::Timestamp | ElementType::Int64 =>
            fixed_len(8, rest),
        ElementType::ObjectId => fixed_len(12, rest),
        ElementType::Decimal128 => fixed_len(16, rest),
        ElementType::RegularExpression => unreachable!(),
    }
}

/// The length of the payload at the front; or why none of this kind is there.
#[inline(always)]
pub(crate) fn front_len(kind: ElementType, rest: &[u8]) -> Result<usize, ErrorKind>
    ensures within { IfOk result (λ n. n ≤ length rest.now) }
    ensures found { IfOk result (λ n. HasShape kind (take n rest.now) (drop n rest.now)) }
    ensures none { OnErr result ((p r : List ℕ) → rest.now ≡ p ++ r → ¬ HasShape kind p r) }
    ensures fault { IfErr result (IsPayloadFault kind rest.now) }
    ensures reading { IfErr result IsReadingKind }
{
    match kind {
        ElementType::RegularExpression => regex_len(rest),
        _ => match sized_len(kind, rest) {
            Ok(len) => Ok(len),
            Err(reason) => Err(ErrorKind::MalformedValue { reason }),
        },
    }
}

/// The length of the payload at the front, of a kind whose length is fixed or declared; otherwise `None`.
#[inline(always)]
pub(crate) fn plain_len(kind: ElementType, rest: &[u8]) -> Option<usize>
    ensures within { IfSome result (λ n. n ≤ length rest.now) }
    ensures found { IfSome result (λ n. HasShape kind (take n rest.now) (drop n rest.now)) }
{
    match kind {
        ElementType::RegularExpression
        | ElementType::DbPointer
        | ElementType::JavaScriptCodeWithScope => None,
        _ => match sized_len(kind, rest) {
            Ok(len) => Some(len),
            Err(_) => None,
        },
    }
}
