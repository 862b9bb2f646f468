//! Texts in the caller's room, as far as they fit.

ghost use Rattle.std.specs.Prelude.{◌≡◌, decimal};
ghost use Rattle.bsonraw_c.specs.TextRooms.{Ends, Grows, laid};

use crate::overwriting::put_from;
use itoa::Buffer;

/// Puts a part of a text after its first `count` bytes, as far as it fits. Returns how many bytes the text has then.
pub fn put_part(room: &mut [u8], count: usize, part: &[u8]) -> usize
    ensures { Grows part.now room.old count room.new result }
{
    lay(room, count, part);
    count.saturating_add(part.len())
}

/// Puts words.
pub fn put_words(room: &mut [u8], count: usize, words: &str) -> usize
    ensures { Grows words.now room.old count room.new result }
{
    put_part(room, count, words.as_bytes())
}

/// Puts a number in decimal.
pub fn put_number(room: &mut [u8], count: usize, number: usize) -> usize
    ensures { Grows (decimal number) room.old count room.new result }
{
    let mut digits = Buffer::new();
    put_part(room, count, digits.format(number).as_bytes())
}

/// Puts a 0 after a text of `count` bytes, or in the last place.
pub fn end_text(room: &mut [u8], count: usize)
    ensures { Ends room.old count room.new }
{
    let last = room.len().saturating_sub(1);
    lay(room, count.min(last), b"\0");
}

/// Lays bytes from this place on, as far as they fit.
fn lay(room: &mut [u8], at: usize, bytes: &[u8])
    ensures { room.new ≡ laid room.old at bytes.now }
{
    let Some(left) = room.len().checked_sub(at) else {
        return;
    };
    put_from(room, at, &bytes[..bytes.len().min(left)]);
}
