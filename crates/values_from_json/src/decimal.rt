//! Decimal128 from text: IEEE 754-2008, in the binary encoding of coefficients, which BSON uses.
ghost use Rattle.std.specs.Prelude.{◌≡◌, ◌+◌, ◌*◌, ◌^◌, ◌<◌, ◌≤◌, ◌++◌, ◌↔◌, min, map, ℕ, List, IfSome, IfOk, OnErr, IsTrue, None, length, if◌then◌else◌};
ghost use Rattle.std.specs.Char.{to_ascii_lowercase};
ghost use Rattle.std.specs.Str.Parse.{AllDigits, digits_value, digits_value_after, starts_with_minus};
ghost use Rattle.std.specs.Float.Parse.{without_sign};
ghost use Rattle.values_from_json.specs.DecimalTexts.{IsExactly, IsPreferred, WritesDecimal, WritesBits, WritesFinite, sign_bit};
ghost use Rattle.values_from_json.specs.Digits.{FitsDecimal128, FitsNoDecimal128};

use crate::error::JsonReason;
use crate::wrapper::Wrapper;
use fast_float::Numeral;

/// The greatest coefficient, which has 34 digits, plus one.
const COEFFICIENTS: u128 = 10_000_000_000_000_000_000_000_000_000_000_000;

/// The least coefficient of 34 digits.
const LEAST_FULL: u128 = 1_000_000_000_000_000_000_000_000_000_000_000;

/// What is added to an exponent before it is stored.
const BIAS: u128 = 6176;

/// The greatest exponent, as it is stored.
const GREATEST: u128 = 12287;

const INFINITY: u128 = 0x7800 << 112;

const NAN: u128 = 0x7C00 << 112;

const SIGN: u128 = 1 << 127;

/// The error for a text that isn't a decimal.
const NO_DECIMAL: JsonReason = JsonReason::Malformed(Wrapper::NumberDecimal);

/// Digits that were read: a number, and the number of zeros that follow it.
#[derive(Clone, Copy)]
struct Kept {
    coefficient: u128,
    zeros: u64,
    ghost room: { FitsDecimal128 coefficient zeros },
}

/// The bytes of the Decimal128 that a text writes. It is exactly the value of the text; no digit is rounded away.
pub(crate) fn decimal_of(text: &[u8]) -> Result<[u8; 16], JsonReason>
    ensures some { IfOk result (λ bytes. WritesDecimal text.now bytes) }
    ensures none { OnErr result ((bytes : List ℕ) → ¬ WritesDecimal text.now bytes) }
{
    let (is_negative, size) = split_sign(text);
    Ok(bits_of(is_negative, size)?.to_le_bytes())
}

/// The sixteen bytes of the Decimal128 that a text writes exactly, as `1.50`, `1.5E+20`, `NaN` or `-Infinity`.
/// ```
/// let one = [1, 0, 0, 0, 0, 0, 0, 0, 0, 0, 0, 0, 0, 0, 0x40, 0x30];
/// assert_eq!(rt; decimal128_of(b"1"), Some(one));
/// ```
pub fn decimal128_of(text: &[u8]) -> Option<[u8; 16]>
    ensures some { IfSome result (λ bytes. WritesDecimal text.now bytes) }
    ensures none { result ≡ None → (bytes : List ℕ) → ¬ WritesDecimal text.now bytes }
{
    match decimal_of(text) {
        Ok(bytes) => Some(bytes),
        Err(_) => None,
    }
}

/// Whether a text begins with a minus, and what follows its sign.
pub(crate) fn split_sign(text: &[u8]) -> (bool, &[u8])
    ensures negative { result.0 ≡ starts_with_minus text.now }
    ensures behind { result.1.now ≡ without_sign text.now }
{
    match text {
        [b'-', rest @ ..] => (true, rest),
        [b'+', rest @ ..] => (false, rest),
        _ => (false, text),
    }
}

/// The bits of the Decimal128 that a text without its sign writes.
fn bits_of(is_negative: bool, size: &[u8]) -> Result<u128, JsonReason>
    ensures some { IfOk result (λ bits. WritesBits is_negative size.now bits) }
    ensures none { OnErr result ((bits : ℕ) → ¬ WritesBits is_negative size.now bits) }
{
    let sign = sign_of(is_negative);
    if is_word(size, b"infinity") || is_word(size, b"inf") {
        return Ok(sign + INFINITY);
    }
    if is_word(size, b"nan") {
        return Ok(NAN);
    }
    let (coefficient, exponent) = finite_of(size)?;
    Ok(sign + exponent * (1 << 113) + coefficient)
}

/// The bit of a sign.
fn sign_of(is_negative: bool) -> u128
    ensures { result ≡ sign_bit is_negative }
{
    if is_negative { SIGN } else { 0 }
}

/// Whether a text is this word, whatever its case.
pub(crate) fn is_word(text: &[u8], word: &[u8]) -> bool
    ensures { IsTrue result ↔ (map to_ascii_lowercase text.now ≡ map to_ascii_lowercase word.now) }
{
    text.eq_ignore_ascii_case(word)
}

/// The coefficient and the exponent, as it is stored, that a text of digits writes.
fn finite_of(size: &[u8]) -> Result<(u128, u128), JsonReason>
    ensures some { IfOk result (λ r. WritesFinite size.now r.0 r.1) }
    ensures none { OnErr result ((c n : ℕ) → ¬ WritesFinite size.now c n) }
{
    let numeral = Numeral::scan(size);
    if !numeral.has_digits() || numeral.len() < size.len() {
        return Err(NO_DECIMAL);
    }
    let (whole, fraction) = (numeral.whole(), numeral.fraction());
    let Some(kept) = digits_of(whole, fraction) else {
        return Err(JsonReason::InexactDecimal);
    };
    let exponent = size_of(numeral.exponent());
    let is_negative = numeral.is_exponent_negative();
    scale(kept, is_negative, exponent, fraction.len() as u128).ok_or(JsonReason::InexactDecimal)
}

/// The digits times 10 to an exponent, less one for each digit after the point.
fn scale(kept: Kept, is_negative: bool, exponent: u128, after_point: u128) -> Option<(u128, u128)>
    requires zeros { kept.zeros ≤ 2 ^ 63 }
    requires exponent { exponent ≤ 2 ^ 70 }
    requires after_point { after_point ≤ 2 ^ 63 }
    ensures some { (x : ℕ) → exponent ≡ min x (2 ^ 70) → IfSome result (λ r. IsPreferred (kept.coefficient * 10 ^ kept.zeros)
        (if is_negative then 0 else x) (after_point + (if is_negative then x else 0)) r.0 r.1) }
    ensures none { (x : ℕ) → exponent ≡ min x (2 ^ 70) → result ≡ None → (c n : ℕ) → ¬ IsExactly (kept.coefficient * 10 ^ kept.zeros)
        (if is_negative then 0 else x) (after_point + (if is_negative then x else 0)) c n }
{
    let zeros = u128::from(kept.zeros);
    if is_negative {
        return settle(kept.coefficient, zeros, after_point + exponent);
    }
    settle(kept.coefficient, zeros + exponent, after_point)
}

/// The number that the digits before and after a point write.
fn digits_of(whole: &[u8], fraction: &[u8]) -> Option<Kept>
    requires whole { AllDigits 10 whole.now }
    requires fraction { AllDigits 10 fraction.now }
    requires bound { length whole.now + length fraction.now ≤ 2 ^ 63 }
    ensures some { IfSome result (λ kept. digits_value 10 (whole.now ++ fraction.now) ≡ kept.coefficient * 10 ^ kept.zeros) }
    ensures none { result ≡ None → FitsNoDecimal128 (digits_value 10 (whole.now ++ fraction.now)) }
    ensures bound { IfSome result (λ kept. kept.zeros ≤ 2 ^ 63) }
{
    let kept = Kept {
        coefficient: 0,
        zeros: 0,
    };
    kept.with_digits(whole)?.with_digits(fraction)
}

/// The number that the digits of an exponent write. If there are many digits, it is some number far from 0.
fn size_of(digits: &[u8]) -> u128
    requires { AllDigits 10 digits.now }
    ensures { result ≡ min (digits_value 10 digits.now) (2 ^ 70) }
{
    let mut size: u128 = 0;
    for byte in digits {
        size = (size * 10 + u128::from(*byte - b'0')).min(1 << 70);
    }
    size
}

impl Kept {
    /// The same number followed by more digits.
    fn with_digits(self, digits: &[u8]) -> Option<Kept>
        requires digits { AllDigits 10 digits.now }
        requires bound { self.zeros + length digits.now ≤ 2 ^ 63 }
        ensures some { IfSome result (λ kept. digits_value_after 10 (self.coefficient * 10 ^ self.zeros) digits.now
            ≡ kept.coefficient * 10 ^ kept.zeros) }
        ensures none { result ≡ None → FitsNoDecimal128 (digits_value_after 10 (self.coefficient * 10 ^ self.zeros) digits.now) }
        ensures bound { IfSome result (λ kept. kept.zeros ≤ self.zeros + length digits.now) }
    {
        let mut kept = self;
        for byte in digits {
            kept = kept.with_digit(*byte - b'0')?;
        }
        Some(kept)
    }

    /// The same number followed by a digit; if there is no room, the digit must be 0.
    fn with_digit(self, digit: u8) -> Option<Kept>
        requires digit { digit < 10 }
        requires bound { self.zeros < 2 ^ 63 }
        ensures some { IfSome result (λ kept. kept.coefficient * 10 ^ kept.zeros ≡ self.coefficient * 10 ^ self.zeros * 10 + digit) }
        ensures none { result ≡ None → FitsNoDecimal128 (self.coefficient * 10 ^ self.zeros * 10 + digit) }
        ensures bound { IfSome result (λ kept. kept.zeros ≤ self.zeros + 1) }
    {
        if self.coefficient < LEAST_FULL {
            return Some(Kept {
                coefficient: self.coefficient * 10 + u128::from(digit),
                zeros: 0,
            });
        }
        if digit == 0 {
            return Some(Kept {
                coefficient: self.coefficient,
                zeros: self.zeros + 1,
            });
        }
        None
    }
}

/// The coefficient times 10 to the power of `up` less `down`, with the nearest possible exponent, as it is stored.
fn settle(coefficient: u128, up: u128, down: u128) -> Option<(u128, u128)>
    requires few { coefficient < 10 ^ 34 }
    requires bound { up < 2 ^ 100 }
    ensures some { IfSome result (λ r. IsPreferred coefficient up down r.0 r.1) }
    ensures none { result ≡ None → (c n : ℕ) → ¬ IsExactly coefficient up down c n }
{
    let up = up + BIAS;
    if coefficient == 0 {
        return Some((0, up.saturating_sub(down).min(GREATEST)));
    }
    if up < down {
        let coefficient = without_zeros(coefficient, down - up)?;
        return Some((coefficient, 0));
    }
    let exponent = up - down;
    if exponent <= GREATEST {
        return Some((coefficient, exponent));
    }
    let coefficient = with_zeros(coefficient, exponent - GREATEST)?;
    Some((coefficient, GREATEST))
}

/// The number without `count` zeros at its end, if it has them.
fn without_zeros(number: u128, count: u128) -> Option<u128>
    requires some { 0 < number }
    requires few { number < 10 ^ 34 }
    ensures some { IfSome result (λ c. number ≡ c * 10 ^ count) }
    ensures none { result ≡ None → (c : ℕ) → ¬ (number ≡ c * 10 ^ count) }
{
    if count > 33 {
        return None;
    }
    let mut left = number;
    for _ in 0..count {
        if left % 10 != 0 {
            return None;
        }
        left /= 10;
    }
    Some(left)
}

/// The number followed by `count` zeros, if there is room for them.
fn with_zeros(number: u128, count: u128) -> Option<u128>
    requires some { 0 < number }
    ensures some { IfSome result (λ c. (c < 10 ^ 34) × (c ≡ number * 10 ^ count)) }
    ensures none { result ≡ None → 10 ^ 34 ≤ number * 10 ^ count }
{
    if count > 33 {
        return None;
    }
    let power = 10_u128.pow(count as u32);
    match number.checked_mul(power) {
        Some(product) if product < COEFFICIENTS => Some(product),
        _ => None,
    }
}
