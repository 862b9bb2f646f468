//! Values of wrappers, from the text of their strings.
ghost use Rattle.std.specs.Prelude.{◌≡◌, ◌≢◌, ◌∷◌, ◌⊎◌, [], ℤ, ℕ, List, Some, None, Ok, IfErr, IfOk, IfSome, MatchOption, FitsSigned};
ghost use Rattle.std.specs.Int.{w64};
ghost use Rattle.base64.specs.Engines.{standard};
ghost use Rattle.base64.specs.GeneralPurpose.{decode_of};
ghost use Rattle.hex.specs.Hex.{decode_sized};
ghost use Rattle.uuid.specs.Text.{parsed_hyphenated};
ghost use Rattle.values_from_json.specs.Numbers.{WritesInteger, WritesQuotedInteger, WritesFinite, WritesNearest, WritesDouble};
ghost use Rattle.values_from_json.specs.Spaces.{trimmed, without_spaces as spaceless};
ghost use Rattle.values_from_json.specs.Wrapped.{two_hex_digits};
ghost use Rattle.values_from_json.specs.declared.error.JsonReason.TheVariants.{OutOfMemory};

use crate::decimal::{is_word, split_sign};
use crate::error::JsonReason;
use crate::space::{is_space, trim, trim_start, without_spaces};
use crate::wrapper::Wrapper;
use base64::DecodeAllocError;
use base64::engine::general_purpose::STANDARD;
use itoa::Buffer;
use json::is_number;
use std::alloc::Global;
use uuid::Uuid;

/// The bits of infinity.
const INFINITY: u64 = 0x7FF0_0000_0000_0000;

/// The bits of the default NaN.
const NAN: u64 = 0x7FF8_0000_0000_0000;

/// The bit of the sign.
const SIGN: u64 = 1 << 63;

/// The integer of 64 bits that a text writes.
pub fn integer_of(text: &[u8]) -> Option<i64>
    ensures some { IfSome result (λ z. WritesInteger text.now z × FitsSigned w64 z) }
    ensures only { IfSome result (λ z. (y : ℤ) → FitsSigned w64 y → WritesInteger text.now y → y ≡ z) }
    ensures none { result ≡ None → (z : ℤ) → FitsSigned w64 z → ¬ WritesInteger text.now z }
{
    let value = match fast_float::parse_i64(text) {
        Ok(value) => value,
        Err(_) => return None,
    };
    let mut buffer = Buffer::new();
    if text == buffer.format(value).as_bytes() {
        return Some(value);
    }
    if text == b"-0".as_slice() {
        return Some(value);
    }
    None
}

/// The integer of 64 bits that a text writes: digits, perhaps after a sign, and perhaps after white space.
pub(crate) fn quoted_integer_of(text: &[u8]) -> Option<i64>
    ensures some { IfSome result (λ z. WritesQuotedInteger text.now z × FitsSigned w64 z) }
    ensures none { result ≡ None → (z : ℤ) → FitsSigned w64 z → ¬ WritesQuotedInteger text.now z }
{
    match fast_float::parse_i64(trim_start(text)) {
        Ok(value) => Some(value),
        Err(_) => None,
    }
}

/// The bits of the double nearest to a JSON number, if that is finite.
pub fn double_of(text: &str) -> Option<u64>
    ensures some { IfSome result (λ bits. WritesFinite text.now bits) }
    ensures none { result ≡ None → (bits : ℕ) → ¬ WritesFinite text.now bits }
{
    if !is_number(text) {
        return None;
    }
    nearest_of(text.as_bytes())
}

/// The bits of the double nearest to a number, if that is finite.
#[inline]
fn nearest_of(text: &[u8]) -> Option<u64>
    ensures some { IfSome result (λ bits. WritesNearest text.now bits) }
    ensures none { result ≡ None → (bits : ℕ) → ¬ WritesNearest text.now bits }
{
    let value: f64 = match fast_float::parse(text) {
        Ok(value) => value,
        Err(_) => return None,
    };
    if value.is_finite() {
        Some(value.to_bits())
    } else {
        None
    }
}

/// The bits of the double that a text writes: a finite number, or perhaps a sign and then a word, as in `-Infinity`.
pub(crate) fn quoted_double_of(text: &[u8]) -> Option<u64>
    ensures some { IfSome result (λ bits. WritesDouble (trimmed text.now) bits) }
    ensures none { result ≡ None → (bits : ℕ) → ¬ WritesDouble (trimmed text.now) bits }
{
    double_or_word_of(trim(text))
}

/// The same of a text without white space around it.
fn double_or_word_of(text: &[u8]) -> Option<u64>
    ensures some { IfSome result (λ bits. WritesDouble text.now bits) }
    ensures none { result ≡ None → (bits : ℕ) → ¬ WritesDouble text.now bits }
{
    let (is_negative, size) = split_sign(text);
    let sign = if is_negative { SIGN } else { 0 };
    if is_word(size, b"infinity") || is_word(size, b"inf") {
        return Some(sign + INFINITY);
    }
    if is_word(size, b"nan") {
        return Some(sign + NAN);
    }
    nearest_of(text)
}

/// The bytes that a text writes in base64, in which white space counts for nothing.
pub(crate) fn base64_of(alloc: Global, text: &[u8]) -> Result<Vec<u8>, JsonReason>
    ensures some { IfOk result (λ bytes. decode_of standard (spaceless text.now) ≡ Ok bytes.items) }
    ensures none { IfErr result (λ reason. (reason ≡ OutOfMemory)
        ⊎ ((bytes : List ℕ) → decode_of standard (spaceless text.now) ≢ Ok bytes)) }
{
    match STANDARD.decode(alloc, text) {
        Ok(bytes) => Ok(bytes),
        Err(DecodeAllocError::OutOfMemory) => Err(JsonReason::OutOfMemory),
        Err(_) => spaced_base64_of(alloc, text),
    }
}

/// The same, where the text may have white space.
#[cold]
fn spaced_base64_of(alloc: Global, text: &[u8]) -> Result<Vec<u8>, JsonReason>
    ensures some { IfOk result (λ bytes. decode_of standard (spaceless text.now) ≡ Ok bytes.items) }
    ensures none { IfErr result (λ reason. (reason ≡ OutOfMemory)
        ⊎ ((bytes : List ℕ) → decode_of standard (spaceless text.now) ≢ Ok bytes)) }
{
    let Ok(dense) = without_spaces(alloc, text) else {
        return Err(JsonReason::OutOfMemory);
    };
    match STANDARD.decode(alloc, dense.as_slice()) {
        Ok(bytes) => Ok(bytes),
        Err(DecodeAllocError::OutOfMemory) => Err(JsonReason::OutOfMemory),
        Err(_) => Err(JsonReason::Malformed(Wrapper::Binary)),
    }
}

/// The twelve bytes of an ObjectId that 24 hex digits write.
pub(crate) fn oid_of(text: &[u8]) -> Option<[u8; 12]>
    ensures { MatchOption result ((id : List ℕ) → decode_sized text.now 12 ≢ Ok id) (λ id. decode_sized text.now 12 ≡ Ok id) }
{
    let mut id = [0; 12];
    match hex::decode_to_slice(text, &mut id) {
        Ok(()) => Some(id),
        Err(_) => None,
    }
}

/// Two hex digits, where white space in place of either, or a plus in place of the first, means a 0 in front.
fn two_digits(high: u8, low: u8) -> [u8; 2]
    ensures { result ≡ two_hex_digits (high ∷ low ∷ []) }
{
    if is_space(high) || high == b'+' {
        [b'0', low]
    } else if is_space(low) {
        [b'0', high]
    } else {
        [high, low]
    }
}

/// The subtype that one or two hex digits write.
pub(crate) fn subtype_of_digits(text: &[u8]) -> Option<u8>
    ensures { MatchOption result ((b : List ℕ) → decode_sized (two_hex_digits text.now) 1 ≢ Ok b)
        (λ b. decode_sized (two_hex_digits text.now) 1 ≡ Ok (b ∷ [])) }
{
    let padded = match text {
        [low] => [b'0', *low],
        [high, low] => two_digits(*high, *low),
        _ => return None,
    };
    let mut subtype = [0];
    hex::decode_to_slice(padded.as_slice(), &mut subtype).ok()?;
    let [subtype] = subtype;
    Some(subtype)
}

/// The bytes of a UUID: 32 hex digits in groups of 8, 4, 4, 4 and 12.
pub(crate) fn uuid_of(text: &str) -> Option<[u8; 16]>
    ensures { MatchOption result (parsed_hyphenated text.now ≡ None) (λ b. parsed_hyphenated text.now ≡ Some b) }
{
    if text.len() != 36 {
        return None;
    }
    match Uuid::parse_str(text) {
        Ok(uuid) => Some(uuid.into_bytes()),
        Err(_) => None,
    }
}
