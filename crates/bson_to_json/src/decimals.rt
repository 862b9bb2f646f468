//! Decimal128 as text.
#![tactic(auto)]

ghost use Rattle.std.specs.Prelude.{◌≡◌, ◌<◌, ◌≤◌, ◌+◌, ◌^◌, length};
ghost use Rattle.std.specs.Fmt.{sign_text};
ghost use Rattle.std.specs.Int.{w64, from_le_bytes};
ghost use Rattle.bson_model.specs.Scalars.{bytes_of_decimal128};
ghost use Rattle.bson_to_json.specs.Decimals.{behind_point, decimal_of, decimal_text, decimal128_text as text_of_decimal, exponent_text, finite_text, plain_text, scientific_text};
ghost use Rattle.bson_to_json.specs.ShortTexts.{Adds, short_bytes};

use crate::short_text::ShortText;
use bson_model::Decimal128;
use itoa::Buffer;

/// The value of a Decimal128.
pub(crate) enum Decimal {
    /// no number
    NaN,
    /// an infinity, and whether it is negative
    Infinity(bool),
    /// a number, and whether it is negative: the coefficient times 10 to the exponent less 6176
    Finite(bool, u128, u16),
}

/// The greatest coefficient has 34 digits.
const COEFFICIENTS: u128 = 10_000_000_000_000_000_000_000_000_000_000_000;

/// What is added to an exponent before it is stored.
const BIAS: u64 = 6176;

/// The number of eight bytes, least significant byte first.
fn number_of(bytes: &[u8]) -> u64
    requires { length bytes.now ≡ 8 }
    ensures { result ≡ from_le_bytes w64 bytes.now }
{
    u64::from_le_bytes(*bytes.as_array::<8>().unwrap())
}

/// The number of two halves, the low one first.
fn parts_of(low: u64, high: u64) -> Decimal
    ensures { result ≡ decimal_of low high }
{
    let is_negative = high >= 1 << 63;
    match high / (1 << 58) % 32 {
        31 => return Decimal::NaN,
        30 => return Decimal::Infinity(is_negative),
        _ => {}
    }
    if high / (1 << 61) % 4 == 3 {
        return Decimal::Finite(is_negative, 0, (high / (1 << 47) % (1 << 14)) as u16);
    }
    let coefficient = u128::from(high % (1 << 49)) * (1 << 64) + u128::from(low);
    let coefficient = if coefficient < COEFFICIENTS {
        coefficient
    } else {
        0
    };
    Decimal::Finite(
        is_negative,
        coefficient,
        (high / (1 << 49) % (1 << 14)) as u16,
    )
}

/// The text with a minus after it if a number is negative.
fn with_sign(text: ShortText, is_negative: bool) -> ShortText
    ensures { Adds text result (sign_text is_negative) }
{
    if is_negative { text.with(b"-") } else { text }
}

/// The text with a point and these digits after it, if there are any.
fn with_fraction(text: ShortText, digits: &[u8]) -> ShortText
    ensures { Adds text result (behind_point digits.now) }
{
    match digits {
        [] => text,
        _ => text.with(b".").with(digits),
    }
}

/// The text with an exponent after it, which is given plus 6177.
fn with_exponent(text: ShortText, reach: u64) -> ShortText
    requires { reach < 2 ^ 17 }
    ensures { Adds text result (exponent_text reach) }
{
    let mut digits = Buffer::new();
    if reach > BIAS {
        return text
            .with(b"E+")
            .with(digits.format(reach - (BIAS + 1)).as_bytes());
    }
    text.with(b"E-")
        .with(digits.format(BIAS + 1 - reach).as_bytes())
}

/// The text with digits and an exponent after it, one digit before the point.
fn with_scientific(text: ShortText, digits: &[u8], exponent: u64) -> ShortText
    requires few { length digits.now ≤ 40 }
    requires exponent { exponent < 2 ^ 16 }
    ensures { Adds text result (scientific_text digits.now exponent) }
{
    let (first, others) = digits.split_at(digits.len().min(1));
    let number = with_fraction(text.with(first), others);
    with_exponent(number, exponent + digits.len() as u64)
}

/// The text with digits after it, and a point before the last `places` of them.
fn with_plain(text: ShortText, digits: &[u8], places: usize) -> ShortText
    requires { places ≤ length digits.now + 5 }
    ensures { Adds text result (plain_text digits.now places) }
{
    if places == 0 {
        return text.with(digits);
    }
    if places < digits.len() {
        let (whole, fraction) = digits.split_at(digits.len() - places);
        return text.with(whole).with(b".").with(fraction);
    }
    let zeros = [b'0'; 5];
    text.with(b"0.")
        .with(&zeros[..places - digits.len()])
        .with(digits)
}

/// The text with digits times 10 to an exponent after it.
fn with_finite(text: ShortText, digits: &[u8], exponent: u64) -> ShortText
    requires few { length digits.now ≤ 40 }
    requires exponent { exponent < 2 ^ 16 }
    ensures { Adds text result (finite_text digits.now exponent) }
{
    if exponent > BIAS || exponent + digits.len() as u64 + 5 < BIAS {
        return with_scientific(text, digits, exponent);
    }
    with_plain(text, digits, (BIAS - exponent) as usize)
}

/// The text with the value of a Decimal128 after it.
fn with_parts(text: ShortText, parts: Decimal) -> ShortText
    ensures { Adds text result (decimal_text parts) }
{
    match parts {
        Decimal::NaN => text.with(b"NaN"),
        Decimal::Infinity(is_negative) => with_sign(text, is_negative).with(b"Infinity"),
        Decimal::Finite(is_negative, coefficient, exponent) => {
            let mut digits = Buffer::new();
            with_finite(
                with_sign(text, is_negative),
                digits.format(coefficient).as_bytes(),
                u64::from(exponent),
            )
        }
    }
}

/// A Decimal128 as text, as `1.50`, `1.5E+20`, `NaN` or `-Infinity`. It takes no memory.
/// ```
/// let one = Decimal128::from_bytes([1, 0, 0, 0, 0, 0, 0, 0, 0, 0, 0, 0, 0, 0, 0x40, 0x30]);
/// assert_eq!(rt; decimal128_text(one).as_bytes(), b"1".as_slice());
/// ```
pub fn decimal128_text(number: Decimal128) -> ShortText
    ensures { short_bytes result ≡ text_of_decimal (bytes_of_decimal128 number) }
{
    let bytes = number.bytes();
    let (low, high) = bytes.split_at(8);
    with_parts(ShortText::new(), parts_of(number_of(low), number_of(high)))
}
