//! Whether bytes end as they do before the length of a nested document, or before a number that looks like one.
#![tactic(auto)]

ghost use Rattle.std.specs.Prelude.{◌≡◌, ◌≤◌, ◌<◌, ◌+◌, MatchBool, get_or, length};
ghost use Rattle.raw_resync.specs.Resync.{EndsInKey};
ghost use Rattle.raw_resync.specs.Seeking.{IsKeyAfter};

use std::str::from_utf8;

/// The tags of a document, of an array and of an int32.
const DOCUMENT: u8 = 3;

const ARRAY: u8 = 4;

const INT32: u8 = 16;

/// Control characters are less than this.
const SPACE: u8 = 32;

/// The greatest number of bytes of a key that is looked for.
const LONGEST_KEY: usize = 64;

/// The greatest number of bytes of a key with its tag and its 0.
pub const BEFORE_PLACE: usize = LONGEST_KEY + 2;

/// Whether the last bytes are the tag of a document, an array or an int32, a key and its 0.
pub(crate) fn ends_in_key(bytes: &[u8]) -> bool
    ensures { MatchBool result (EndsInKey bytes.now) (¬ EndsInKey bytes.now) }
{
    let Some((last, text)) = bytes.split_last() else {
        return false;
    };
    if *last != 0 {
        return false;
    }
    let mut start = text.len();
    'bytes: while 0 < start && text.len() - start <= LONGEST_KEY {
        if text[start - 1] < SPACE {
            return is_key_after(text[start - 1], text.split_at(start).1);
        }
        start -= 1;
    }
    false
}

/// Whether this is the tag of a document, an array or an int32, and what follows it is a key: UTF-8, and not empty.
fn is_key_after(tag: u8, key: &[u8]) -> bool
    ensures { MatchBool result (IsKeyAfter tag key.now) (¬ IsKeyAfter tag key.now) }
{
    if tag != DOCUMENT && tag != ARRAY && tag != INT32 {
        return false;
    }
    if key.is_empty() {
        return false;
    }
    from_utf8(key).is_ok()
}
