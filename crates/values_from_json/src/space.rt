//! White space in the strings of wrappers.
ghost use Rattle.std.specs.Prelude.{◌≡◌, IfOk};
ghost use Rattle.values_from_json.specs.Spaces.{is_space as is_white_space, trimmed, trimmed_start, without_spaces as spaceless};

use std::alloc::{AllocError, Global};

/// Whether a byte is white space of ASCII: a blank, a tab, a line feed, a vertical tab, a form feed or a carriage return.
#[inline(always)]
pub(crate) fn is_space(byte: u8) -> bool
    ensures { result ≡ is_white_space byte }
{
    byte == b' ' || (byte > 8 && byte < 14)
}

/// A text without the white space that it begins with.
pub(crate) fn trim_start(text: &[u8]) -> &[u8]
    ensures { result.now ≡ trimmed_start text.now }
{
    let mut rest = text;
    'spaces: while let [first, more @ ..] = rest {
        if !is_space(*first) {
            return rest;
        }
        rest = more;
    }
    rest
}

/// A text without the white space around it.
pub(crate) fn trim(text: &[u8]) -> &[u8]
    ensures { result.now ≡ trimmed text.now }
{
    let mut rest = trim_start(text);
    'spaces: while let Some((last, more)) = rest.split_last() {
        if !is_space(*last) {
            return rest;
        }
        rest = more;
    }
    rest
}

/// A text without any white space.
pub(crate) fn without_spaces(alloc: Global, text: &[u8]) -> Result<Vec<u8>, AllocError>
    ensures { IfOk result (λ dense. dense.items ≡ spaceless text.now) }
{
    text.iter()
        .copied()
        .filter(|byte| !is_space(*byte))
        .collect(alloc)
}
