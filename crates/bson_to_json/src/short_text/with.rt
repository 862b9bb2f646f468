//! What is made of short texts, and read of them.
#![tactic(auto)]

ghost use Rattle.std.specs.Prelude.{◌≡◌, ◌≤◌, [], length};
ghost use Rattle.bson_to_json.specs.ShortTexts.{Adds, short_bytes};

use super::{MOST, ShortText};

impl ShortText {
    /// The empty text.
    pub(crate) fn new() -> ShortText
        ensures { short_bytes result ≡ [] }
    {
        ShortText {
            bytes: [0; MOST],
            len: 0,
        }
    }

    /// The text with these bytes after it, if there is room for them; otherwise the text itself.
    pub(crate) fn with(self, more: &[u8]) -> ShortText
        ensures { Adds self result more.now }
    {
        let mut bytes = self.bytes;
        let (_, room) = bytes.split_at_mut(self.len);
        if room.len() < more.len() {
            return self;
        }
        let (front, _) = room.split_at_mut(more.len());
        front.copy_from_slice(more);
        ShortText {
            bytes,
            len: self.len + more.len(),
        }
    }

    /// The bytes of the text.
    pub fn as_bytes(&self) -> &[u8]
        ensures bytes { result.now ≡ short_bytes self.now }
        ensures few { length result.now ≤ 42 }
    {
        &self.bytes[..self.len]
    }
}
