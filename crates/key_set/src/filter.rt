//! A filter of keys: each key sets one of 64 bits, so a key whose bit isn't set is none of them.
#![tactic(auto)]

ghost use Rattle.std.specs.Prelude.{◌≡◌, ◌<◌, ◌↔◌, ℕ, IsTrue, position};
ghost use Rattle.std.specs.Str.{bytes_eq};
ghost use Rattle.key_set.specs.KeyFilter.{filter_bit, AreInFilter, IsInFilter};
ghost use Rattle.key_set.specs.References.{texts};

use crate::listed::place_of;

/// The number of a key's bit. It is made of what most keys differ in: the last two bytes, the first, and the
/// length.
#[inline(always)]
pub(crate) fn filter_bit(key: &str) -> u32
    ensures bit { result ≡ filter_bit key.now }
    ensures within { result < 64 }
{
    let bytes = key.as_bytes();
    let len = bytes.len();
    if len < 2 {
        return 0;
    }
    let ends = 3 * bytes[len - 1] as u32 + 10 * bytes[len - 2] as u32 + bytes[0] as u32;
    (ends + 7 * (len % 64) as u32) % 64
}

#[inline(always)]
fn has_bit(filter: u64, bit: u32) -> bool
    requires { bit < 64 }
    ensures { IsTrue result ↔ IsInFilter filter bit }
{
    (filter >> bit) % 2 == 1
}

/// The filter with one more bit.
#[inline(always)]
pub(crate) fn with_bit(filter: u64, bit: u32) -> u64
    requires { bit < 64 }
    ensures filtered { IsInFilter result bit }
    ensures kept { (n : ℕ) → IsInFilter filter n → IsInFilter result n }
{
    filter | 1 << bit
}

/// The filter of these keys.
pub(crate) fn filter_of(keys: &[&str]) -> u64
    ensures { AreInFilter result (texts keys.now) }
{
    let mut filter = 0;
    for key in keys {
        filter = with_bit(filter, filter_bit(*key));
    }
    filter
}

/// The place of `key` among `keys`; `bit` is that of the key, and `filter` that of the keys.
#[inline(always)]
pub(crate) fn place_among(keys: &[&str], filter: u64, bit: u32, key: &str) -> Option<usize>
    requires filtered { AreInFilter filter (texts keys.now) }
    requires bit { bit ≡ filter_bit key.now }
    requires within { bit < 64 }
    ensures { result ≡ position (bytes_eq key.now) (texts keys.now) }
{
    if has_bit(filter, bit) {
        place_of(keys, key)
    } else {
        None
    }
}
