//! UTF-8: texts from bytes, as `std::str::from_utf8` gives them.

ghost use Rattle.std.specs.Prelude.{◌≡◌, ◌≤◌, length, take, IsTrue, IfOk, IfSome, OnErr};
ghost use Rattle.std.specs.Str.{IsAscii, IsUtf8};

use std::simd::prelude::*;
use std::str::Utf8Error;

/// From this many bytes on, a text is tested 64 bytes a step.
const LONG: usize = 64;

/// The number of bytes that one step tests.
const LANES: usize = 16;

/// The text of bytes under 128.
#[inline(always)]
pub(crate) fn ascii_text(bytes: &[u8]) -> &str
    requires { IsAscii bytes.now }
    ensures text { result.now ≡ bytes.now }
    ensures utf8 { IsUtf8 bytes.now }
{
    // bytes under 128 are UTF-8
    unsafe { std::str::from_utf8_unchecked(bytes) }
}

/// Whether one step finds that the first `len` bytes are under 128.
#[inline(always)]
fn begins_ascii(bytes: &[u8], len: usize) -> bool
    ensures { IsTrue result → IsAscii (take len bytes.now) }
{
    if LANES < len || bytes.len() < LANES {
        return false;
    }
    let wide = u8x16::from_slice(bytes)
        .simd_ge(u8x16::splat(128))
        .to_bitmask();
    wide == 0 || len <= wide.trailing_zeros() as usize
}

/// The text of the first `len` bytes, if one step finds that they are ASCII.
#[inline(always)]
pub(crate) fn short_text(bytes: &[u8], len: usize) -> Option<&str>
    requires { len ≤ length bytes.now }
    ensures { IfSome result (λ text. (text.now ≡ take len bytes.now) × IsUtf8 text.now) }
{
    if !begins_ascii(bytes, len) {
        return None;
    }
    Some(ascii_text(bytes.split_at(len).0))
}

/// The text of bytes that may not be ASCII. If a long text is faulty, `std` reads it again to say where.
#[inline(never)]
fn wide_text(bytes: &[u8]) -> Result<&str, Utf8Error>
    ensures text { IfOk result (λ text. (text.now ≡ bytes.now) × IsUtf8 bytes.now) }
    ensures fault { OnErr result (¬ IsUtf8 bytes.now) }
{
    if bytes.len() >= LONG {
        if let Ok(text) = simdutf8::basic::from_utf8(bytes) {
            return Ok(text);
        }
    }
    std::str::from_utf8(bytes)
}

/// The text of the bytes, or why they are not UTF-8.
#[inline(always)]
pub(crate) fn text_from(bytes: &[u8]) -> Result<&str, Utf8Error>
    ensures text { IfOk result (λ text. (text.now ≡ bytes.now) × IsUtf8 bytes.now) }
    ensures fault { OnErr result (¬ IsUtf8 bytes.now) }
{
    if bytes.is_ascii() {
        return Ok(ascii_text(bytes));
    }
    wide_text(bytes)
}

/// The text of the first `len` bytes, or why they are not UTF-8.
#[inline(always)]
pub(crate) fn front_text(bytes: &[u8], len: usize) -> Result<&str, Utf8Error>
    requires { len ≤ length bytes.now }
    ensures text { IfOk result (λ text. (text.now ≡ take len bytes.now) × IsUtf8 text.now) }
    ensures fault { OnErr result (¬ IsUtf8 (take len bytes.now)) }
{
    let front = bytes.split_at(len).0;
    if LANES < len {
        return text_from(front);
    }
    match short_text(bytes, len) {
        Some(text) => Ok(text),
        None => wide_text(front),
    }
}
