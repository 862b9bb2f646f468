//! Whether a text is written as it is.
#![tactic(auto)]

ghost use Rattle.std.specs.Prelude.{◌≡◌, ◌≤◌, ◌+◌, length};
ghost use Rattle.std.specs.Bool.{OnTrue};
ghost use Rattle.json.specs.Print.{escape};
ghost use Rattle.json.specs.Written.{PlainBetween};

use std::simd::prelude::*;

/// The number of bytes of a long text that one step tests.
const LANES: usize = 16;

/// Whether the N bytes from `at` on are written as they are.
#[inline(always)]
fn are_plain<const N: usize>(bytes: &[u8], at: usize) -> bool
    requires few { N ≤ 64 }
    requires within { at + N ≤ length bytes.now }
    ensures { OnTrue result (PlainBetween bytes.now at (at + N)) }
{
    let lanes = Simd::<u8, N>::from_slice(&bytes[at..]);
    let quotes = lanes.simd_eq(Simd::splat(b'"'));
    let backslashes = lanes.simd_eq(Simd::splat(b'\\'));
    let controls = lanes.simd_lt(Simd::splat(32));
    (quotes | backslashes | controls).to_bitmask() == 0
}

/// The same of N to 2 N bytes, by tests of both ends that may overlap.
#[inline(always)]
fn are_ends_plain<const N: usize>(bytes: &[u8]) -> bool
    requires few { N ≤ 32 }
    requires long { N ≤ length bytes.now }
    requires short { length bytes.now ≤ N + N }
    ensures { OnTrue result (PlainBetween bytes.now 0 (length bytes.now)) }
{
    are_plain::<N>(bytes, 0) && are_plain::<N>(bytes, bytes.len() - N)
}

/// The same of few bytes, one by one.
#[inline(always)]
fn are_few_plain(bytes: &[u8]) -> bool
    ensures { OnTrue result (PlainBetween bytes.now 0 (length bytes.now)) }
{
    for byte in bytes {
        if *byte < 32 || *byte == b'"' || *byte == b'\\' {
            return false;
        }
    }
    true
}

/// The same of many bytes.
#[inline(always)]
fn are_many_plain(bytes: &[u8]) -> bool
    requires { LANES ≤ length bytes.now }
    ensures { OnTrue result (PlainBetween bytes.now 0 (length bytes.now)) }
{
    let mut at = 0;
    'steps: while bytes.len() - at > LANES {
        if !are_plain::<LANES>(bytes, at) {
            return false;
        }
        at += LANES;
    }
    are_plain::<LANES>(bytes, bytes.len() - LANES)
}

/// Whether the bytes of a text are all written as they are.
#[inline(always)]
#[tactic(auto, using(json::proofs::Printed::Plain::escape_on_plain))]
pub(crate) fn is_plain(bytes: &[u8]) -> bool
    ensures { OnTrue result (escape bytes.now ≡ bytes.now) }
{
    match bytes.len() {
        17.. => are_many_plain(bytes),
        8.. => are_ends_plain::<8>(bytes),
        4.. => are_ends_plain::<4>(bytes),
        _ => are_few_plain(bytes),
    }
}
