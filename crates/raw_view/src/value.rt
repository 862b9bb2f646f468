//! The values of payloads that can be at fault.

ghost use Rattle.std.specs.Prelude.{◌≡◌, length, ℕ, List, IfOk, IfErr};
ghost use Rattle.std.specs.Str.{IsUtf8};
ghost use Rattle.bson_model.specs.Leaf.{binary, boolean};
ghost use Rattle.raw_view.specs.Document.{bytes_of};
ghost use Rattle.raw_view.specs.Frame.Envelope.{IsEnvelope};
ghost use Rattle.raw_view.specs.Frame.{HasText, HasPayload, IsBinary, IsDbPointer, IsRegex};
ghost use Rattle.raw_view.specs.Frame.Front.{TellsBorrowed};
ghost use Rattle.raw_view.specs.Meaning.{KeyedFault, SpellsText, SpellsNoText, MeansValue, MeansFault, single, HasInnerLength, OldBinaryFault, IsCodeWithScope, IsTimestamp, not_text};
ghost use Rattle.raw_view.specs.Meaning.Value.{namespace_of, id_of};
ghost use Rattle.raw_view.specs.declared.element_type.ElementType.TheVariants.{RegularExpression, JavaScriptCodeWithScope};

mod accessors;
mod from;
pub(crate) mod typed;

use crate::bson_ref::{RawBinaryRef, RawDbPointerRef, RawJavaScriptCodeWithScopeRef, RawRegexRef};
use crate::document::RawDocument;
use crate::element_type::ElementType;
use crate::error::{BorrowedError, ErrorKind, Reason};
use crate::front::c_string::split_text;
use crate::front::number::{array_of, front_i32, u32_of};
use crate::front::payload::front_string_len;
use crate::front::utf8::text_from;
use bson_model::{BinarySubtype, ObjectId, Timestamp};

/// The text of a string.
#[inline(always)]
pub(crate) fn text_of(string: &[u8]) -> Result<&str, BorrowedError<'_>>
    requires { HasText string.now }
    ensures text { IfOk result (λ text. SpellsText string.now text.now) }
    ensures fault { IfErr result
        (λ e. (fault : KeyedFault) × (SpellsNoText string.now × (fault ≡ not_text))
        × TellsBorrowed e fault) }
{
    match text_from(&string[4..string.len() - 1]) {
        Ok(text) => Ok(text),
        Err(error) => Err(BorrowedError {
            kind: ErrorKind::Utf8EncodingError(error),
            key: None,
        }),
    }
}

/// The boolean of one byte.
#[inline(always)]
pub(crate) fn boolean_of<'a>(key: &'a str, payload: &'a [u8]) -> Result<bool, BorrowedError<'a>>
    requires { length payload.now ≡ 1 }
    ensures value { IfOk result
        (λ b. MeansValue ElementType.Boolean payload.now (single (boolean b))) }
    ensures fault { IfErr result
        (λ e. (fault : KeyedFault) × MeansFault ElementType.Boolean key.now payload.now fault
        × TellsBorrowed e fault) }
{
    match payload[0] {
        0 => Ok(false),
        1 => Ok(true),
        byte => Err(BorrowedError::malformed_at(Reason::BadBoolean(byte), key)),
    }
}

/// The increment and the time of a timestamp.
#[inline(always)]
pub(crate) fn timestamp_of(payload: &[u8]) -> Timestamp
    requires { length payload.now ≡ 8 }
    ensures { IsTimestamp payload.now result.time result.increment }
{
    let (increment, time) = payload.split_at(4);
    Timestamp {
        time: u32_of(time),
        increment: u32_of(increment),
    }
}

/// The bytes of an old binary after their inner length.
fn inner_bytes<'a>(key: &'a str, outer: &'a [u8]) -> Result<&'a [u8], BorrowedError<'a>>
    ensures inner { IfOk result (λ inner. HasInnerLength outer.now inner.now) }
    ensures fault { IfErr result
        (λ e. (fault : KeyedFault) × OldBinaryFault key.now outer.now fault
        × TellsBorrowed e fault) }
{
    if outer.len() < 4 {
        return Err(BorrowedError::malformed_at(Reason::OldNoInner, key));
    }
    let inner = front_i32(outer);
    if (-4..0).contains(&inner) {
        return Err(BorrowedError::malformed(Reason::AddOverflow));
    }
    if i64::from(inner) + 4 != outer.len() as i64 {
        return Err(BorrowedError::malformed_at(Reason::OldWrongInner, key));
    }
    Ok(&outer[4..])
}

/// The bytes of a binary and their subtype.
pub(crate) fn binary_of<'a>(
    key: &'a str,
    payload: &'a [u8],
) -> Result<RawBinaryRef<'a>, BorrowedError<'a>>
    requires { (subtype : ℕ) × (bytes : List ℕ) × IsBinary payload.now subtype bytes }
    ensures value { IfOk result
        (λ b. MeansValue ElementType.Binary payload.now (single (binary b.subtype b.bytes.now))) }
    ensures fault { IfErr result
        (λ e. (fault : KeyedFault) × MeansFault ElementType.Binary key.now payload.now fault
        × TellsBorrowed e fault) }
{
    let bytes = &payload[5..];
    match BinarySubtype::from_u8(payload[4]) {
        BinarySubtype::BinaryOld => Ok(RawBinaryRef {
            subtype: BinarySubtype::BinaryOld,
            bytes: inner_bytes(key, bytes)?,
        }),
        subtype => Ok(RawBinaryRef { subtype, bytes }),
    }
}

/// The pattern and the options of a regular expression.
pub(crate) fn regex_of(payload: &[u8]) -> RawRegexRef<'_>
    requires { ∥ HasPayload RegularExpression payload.now ∥₁ }
    ensures { IsRegex payload.now result.pattern.now result.options.now }
{
    let Ok((pattern, behind)) = split_text(payload) else {
        unreachable!()
    };
    let Ok((options, _)) = split_text(behind) else {
        unreachable!()
    };
    RawRegexRef { pattern, options }
}

/// The pointer to an object.
pub(crate) fn db_pointer_of(payload: &[u8]) -> Result<RawDbPointerRef<'_>, BorrowedError<'_>>
    requires { (namespace id : List ℕ) × IsDbPointer payload.now namespace id }
    ensures value { IfOk result
        (λ p. IsDbPointer payload.now (namespace_of p) (id_of p) × IsUtf8 (namespace_of p)) }
    ensures fault { IfErr result
        (λ e. (fault : KeyedFault)
        × ((namespace id : List ℕ) × IsDbPointer payload.now namespace id × (¬ IsUtf8 namespace)
        × (fault ≡ not_text)) × TellsBorrowed e fault) }
{
    let (string, id) = payload.split_at(payload.len() - 12);
    let namespace = text_of(string)?;
    Ok(RawDbPointerRef::new(namespace, ObjectId::from_bytes(array_of(id))))
}

/// A code and its scope.
pub(crate) fn code_with_scope_of<'a>(
    key: &'a str,
    payload: &'a [u8],
) -> Result<RawJavaScriptCodeWithScopeRef<'a>, BorrowedError<'a>>
    requires { ∥ HasPayload JavaScriptCodeWithScope payload.now ∥₁ }
    ensures value { IfOk result
        (λ c. IsCodeWithScope payload.now c.code.now (bytes_of c.scope) × IsUtf8 c.code.now
        × IsEnvelope (bytes_of c.scope)) }
    ensures fault { IfErr result
        (λ e. (fault : KeyedFault) × MeansFault JavaScriptCodeWithScope key.now payload.now fault
        × TellsBorrowed e fault) }
{
    if payload.len() < 14 {
        return Err(BorrowedError::malformed_at(Reason::CodeTooSmall, key));
    }
    let (_, behind) = payload.split_at(4);
    let len = match front_string_len(behind) {
        Ok(len) => len,
        Err(reason) => return Err(BorrowedError::malformed(reason)),
    };
    let (string, scope) = behind.split_at(len);
    let code = text_of(string)?;
    match RawDocument::from_bytes(scope) {
        Ok(scope) => Ok(RawJavaScriptCodeWithScopeRef { code, scope }),
        Err(error) => Err(BorrowedError {
            kind: error.into_kind(),
            key: None,
        }),
    }
}
