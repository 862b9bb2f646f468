//! Doubles and decimals, by their bits and bytes.
ghost use Rattle.std.specs.Prelude.{◌≡◌, false, is_nan, from_bits, to_bits};
ghost use Rattle.std.specs.Float.{binary64};
ghost use Rattle.bson_model.specs.Bytes.{AreBytesOf};
ghost use Rattle.bson_model.specs.Scalars.{bytes_of_decimal128};

use crate::ranges::{attest_bytes, attest_u64};
use std::num::{f64_from_bits_with_nan, f64_to_bits_with_nan};

/// A double by its 64 bits, so that equality is equality of bits (BSON 1.1, `double`).
/// ```
/// let half = DoubleBits(0x3FE0_0000_0000_0000);
/// assert_eq!(rt; RawBsonRef::from(half).as_f64(), Some(half));
/// ```
#[derive(Clone, Copy, Debug, PartialEq, Eq)]
pub struct DoubleBits(
    /// The sign, the exponent and the fraction, as IEEE 754 orders the bits of binary64.
    pub u64,
);

impl DoubleBits {
    /// The number with these bits. A NaN is a NaN, but its sign and payload may differ.
    pub fn to_f64(self) -> f64
        ensures number { result ≡ from_bits binary64 self.0 }
        ensures back { is_nan result ≡ false → to_bits binary64 result ≡ self.0 }
    {
        attest_u64(self.0);
        f64_from_bits_with_nan(self.0)
    }

    /// The bits of this number. Every NaN has those of the quiet NaN without a sign.
    pub fn from_f64(number: f64) -> DoubleBits
        ensures bits { result.0 ≡ to_bits binary64 number }
    {
        DoubleBits(f64_to_bits_with_nan(number))
    }
}

/// A decimal number by its sixteen bytes (BSON 1.1, `decimal128`).
/// ```
/// assert_eq!(rt; Decimal128::from_bytes([1; 16]).bytes(), [1; 16]);
/// ```
#[derive(Clone, Copy, Debug, PartialEq, Eq)]
pub struct Decimal128 {
    bytes: [u8; 16],
}

impl Decimal128 {
    /// The number of these sixteen bytes.
    pub fn from_bytes(bytes: [u8; 16]) -> Decimal128
        ensures { bytes_of_decimal128 result ≡ bytes }
    {
        Decimal128 { bytes }
    }

    /// Its sixteen bytes, in order.
    pub fn bytes(self) -> [u8; 16]
        ensures bytes { result ≡ bytes_of_decimal128 self }
        ensures in_range { AreBytesOf 16 result }
    {
        attest_bytes(&self.bytes[..]);
        self.bytes
    }
}
