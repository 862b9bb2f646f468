//! Short texts in arrays, which take no memory.
#![tactic(auto)]

ghost use Rattle.std.specs.Prelude.{◌≤◌};

mod with;

/// The greatest number of bytes of a short text: the longest text of a Decimal128 has as many.
const MOST: usize = 42;

/// A text of at most 42 bytes, in an array.
#[derive(Clone, Copy)]
pub struct ShortText {
    bytes: [u8; MOST],
    len: usize,
    ghost within: { len ≤ 42 },
}
