//! Whether bytes are ASCII without a 0, by a few comparisons.

ghost use Rattle.std.specs.Prelude.{◌≤◌, ◌+◌, IsTrue, length, take};
ghost use Rattle.std.specs.Str.{IsAscii};
ghost use Rattle.raw_bson.specs.Bytes.{NulFree};
ghost use Rattle.bsonraw_c.specs.Build.{IsCText};

use std::simd::prelude::*;

/// How many bytes a comparison looks at, of many.
const MOST: usize = 32;

/// Whether one comparison finds that the first N bytes are ASCII without a 0.
#[inline(always)]
fn begins_plain<const N: usize>(bytes: &[u8]) -> bool
    requires few { N ≤ 64 }
    requires long { N ≤ length bytes.now }
    ensures nul_free { IsTrue result → NulFree (take N bytes.now) }
    ensures ascii { IsTrue result → IsAscii (take N bytes.now) }
{
    let lanes = Simd::<u8, N>::from_slice(bytes);
    let nuls = lanes.simd_eq(Simd::splat(0));
    let wide = lanes.simd_ge(Simd::splat(128));
    let ends = (nuls | wide).to_bitmask();
    ends == 0
}

/// The same of all bytes, N to 2 N, by two comparisons that overlap.
#[inline(always)]
fn is_plain_by<const N: usize>(bytes: &[u8]) -> bool
    requires few { N ≤ 64 }
    requires long { N ≤ length bytes.now }
    requires short { length bytes.now ≤ N + N }
    ensures { IsTrue result → IsCText bytes.now }
{
    let before = bytes.len() - N;
    begins_plain::<N>(bytes) && begins_plain::<N>(bytes.split_at(before).1)
}

/// Whether the bytes are ASCII without a 0, of at most 32.
#[inline(always)]
pub fn is_plain(bytes: &[u8]) -> bool
    ensures { IsTrue result → IsCText bytes.now }
{
    match bytes.len() {
        33.. => false,
        16.. => is_plain_by::<16>(bytes),
        8.. => is_plain_by::<8>(bytes),
        4.. => is_plain_by::<4>(bytes),
        2.. => is_plain_by::<2>(bytes),
        1 => is_plain_by::<1>(bytes),
        0 => true,
    }
}

/// Whether the bytes are ASCII without a 0, of any number.
pub fn is_long_plain(bytes: &[u8]) -> bool
    ensures { IsTrue result → IsCText bytes.now }
{
    let mut rest = bytes;
    while MOST < rest.len() {
        if !begins_plain::<MOST>(rest) {
            return false;
        }
        rest = rest.split_at(MOST).1;
    }
    is_plain(rest)
}
