//! C strings at the front of bytes.
ghost use Rattle.std.specs.Prelude.{◌≡◌, ◌+◌, ◌++◌, ◌∷◌, ◌<◌, ◌≤◌, length, take, IfSome, IfOk, IfErr, Some};
ghost use Rattle.std.specs.Str.{IsAscii, IsUtf8};
ghost use Rattle.memchr.specs.Find.{IsFirstByte, is_byte};
ghost use Rattle.raw_view.specs.Errors.{IsReadingKind};
ghost use Rattle.bson_model.specs.Bytes.{NulFree};
ghost use Rattle.raw_view.specs.Frame.Front.{IsTextFault};

use crate::error::{ErrorKind, Reason};
use crate::front::utf8::{ascii_text, front_text, short_text};
use std::simd::prelude::*;

/// The number of bytes that one step compares.
const LANES: usize = 16;

/// The number of bytes that are searched first: most C strings are short.
const NEAR: usize = 32;

/// The index of the first 0, if one step finds it.
#[inline(always)]
fn nearest_nul(bytes: &[u8]) -> Option<usize>
    ensures { IfSome result (λ at. IsFirstByte (is_byte 0) bytes.now (Some at)) }
{
    if bytes.len() < LANES {
        return None;
    }
    let nuls = u8x16::from_slice(bytes)
        .simd_eq(u8x16::splat(0))
        .to_bitmask();
    if nuls == 0 {
        return None;
    }
    Some(nuls.trailing_zeros() as usize)
}

/// The index of the first 0.
#[inline(always)]
fn first_nul(bytes: &[u8]) -> Option<usize>
    ensures { IsFirstByte (is_byte 0) bytes.now result }
{
    if NEAR <= bytes.len() {
        if let Some(at) = memchr::memchr(0, &bytes[..NEAR]) {
            return Some(at);
        }
    }
    memchr::memchr(0, bytes)
}

/// The text up to the first 0 and what follows that 0, if one step finds them: the text is short and ASCII.
#[inline(always)]
fn split_short_text(bytes: &[u8]) -> Option<(&str, &[u8])>
    ensures { IfSome result
        (λ x. (bytes.now ≡ x.0.now ++ 0 ∷ x.1.now) × NulFree x.0.now × IsUtf8 x.0.now) }
{
    let at = nearest_nul(bytes)?;
    let text = short_text(bytes, at)?;
    Some((text, bytes.split_at(at + 1).1))
}

/// The number of bytes at the front of the first N that are ASCII and not 0, by one comparison.
#[inline(always)]
fn plain_lanes<const N: usize>(bytes: &[u8]) -> usize
    requires few { N ≤ 64 }
    requires long { N ≤ length bytes.now }
    ensures within { result ≤ N }
    ensures nul_free { NulFree (take result bytes.now) }
    ensures ascii { IsAscii (take result bytes.now) }
{
    let lanes = Simd::<u8, N>::from_slice(bytes);
    let nuls = lanes.simd_eq(Simd::splat(0));
    let wide = lanes.simd_ge(Simd::splat(128));
    let ends = (nuls | wide).to_bitmask();
    if ends == 0 {
        return N;
    }
    ends.trailing_zeros() as usize
}

/// The number of bytes at the front that are ASCII and not 0, for N to 2 N bytes, by two comparisons that
/// overlap.
#[inline(always)]
fn plain_overlapping<const N: usize>(bytes: &[u8]) -> usize
    requires few { N ≤ 64 }
    requires long { N ≤ length bytes.now }
    requires short { length bytes.now ≤ N + N }
    ensures within { result ≤ length bytes.now }
    ensures nul_free { NulFree (take result bytes.now) }
    ensures ascii { IsAscii (take result bytes.now) }
{
    let front = plain_lanes::<N>(bytes);
    if front < N {
        return front;
    }
    let before = bytes.len() - N;
    before + plain_lanes::<N>(bytes.split_at(before).1)
}

/// The number of bytes at the front that are ASCII and not 0, for fewer than sixteen bytes.
#[inline(always)]
fn plain_len(bytes: &[u8]) -> usize
    requires short { length bytes.now < LANES }
    ensures within { result ≤ length bytes.now }
    ensures nul_free { NulFree (take result bytes.now) }
    ensures ascii { IsAscii (take result bytes.now) }
{
    match bytes.len() {
        8.. => plain_overlapping::<8>(bytes),
        4.. => plain_overlapping::<4>(bytes),
        2.. => plain_overlapping::<2>(bytes),
        1 => plain_lanes::<1>(bytes),
        0 => 0,
    }
}

/// The same for fewer than sixteen bytes, by comparisons that overlap.
#[inline(always)]
fn split_last_text(bytes: &[u8]) -> Option<(&str, &[u8])>
    requires short { length bytes.now < LANES }
    ensures { IfSome result
        (λ x. (bytes.now ≡ x.0.now ++ 0 ∷ x.1.now) × NulFree x.0.now × IsUtf8 x.0.now) }
{
    let (text, behind) = bytes.split_at(plain_len(bytes));
    let (end, behind) = behind.split_first()?;
    if *end != 0 {
        return None;
    }
    Some((ascii_text(text), behind))
}

/// The text up to the first 0 and what follows that 0, if the text is ASCII and shorter than 16 bytes. `None`
/// means that `split_text` has to be asked.
#[inline(always)]
pub(crate) fn split_plain_text(bytes: &[u8]) -> Option<(&str, &[u8])>
    ensures { IfSome result
        (λ x. (bytes.now ≡ x.0.now ++ 0 ∷ x.1.now) × NulFree x.0.now × IsUtf8 x.0.now) }
{
    if bytes.len() < LANES {
        return split_last_text(bytes);
    }
    split_short_text(bytes)
}

/// The text up to the first 0, and what follows that 0.
#[inline(always)]
pub(crate) fn split_text(bytes: &[u8]) -> Result<(&str, &[u8]), ErrorKind>
    ensures found { IfOk result
        (λ x. (bytes.now ≡ x.0.now ++ 0 ∷ x.1.now) × NulFree x.0.now × IsUtf8 x.0.now) }
    ensures fault { IfErr result (IsTextFault bytes.now) }
    ensures reading { IfErr result IsReadingKind }
{
    let Some(at) = first_nul(bytes) else {
        return Err(ErrorKind::MalformedValue {
            reason: Reason::NoTerminator,
        });
    };
    match front_text(bytes, at) {
        Ok(text) => Ok((text, bytes.split_at(at + 1).1)),
        Err(error) => Err(ErrorKind::Utf8EncodingError(error)),
    }
}
