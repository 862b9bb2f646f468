//! Texts in quotes, for people.

ghost use Rattle.std.specs.Prelude.{◌≡◌, ◌<◌};
ghost use Rattle.std.specs.Char.{digit_char};
ghost use Rattle.bsonraw_c.specs.Quoting.{escape_letter, quoted, shown_char, shown_text};
ghost use Rattle.bsonraw_c.specs.TextRooms.{Grows};

use crate::text_room::put_part;

/// Puts a text in quotes, as JSON has it, without a character that a terminal obeys.
pub fn put_quoted(room: &mut [u8], count: usize, words: &str) -> usize
    ensures { Grows (quoted words.now) room.old count room.new result }
{
    let begun = put_part(room, count, b"\"");
    let shown = put_shown(room, begun, words);
    put_part(room, shown, b"\"")
}

/// Puts what is in the quotes.
fn put_shown(room: &mut [u8], count: usize, words: &str) -> usize
    ensures { Grows (shown_text words.now) room.old count room.new result }
{
    let mut so_far = count;
    for char in words.chars() {
        so_far = put_char(room, so_far, char);
    }
    so_far
}

fn put_char(room: &mut [u8], count: usize, char: char) -> usize
    ensures { Grows (shown_char char) room.old count room.new result }
{
    let letter = short_escape(char);
    if letter > 0 {
        return put_part(room, count, &[b'\\', letter]);
    }
    if char.is_control() {
        let byte = char as u32 as u8;
        let (high, low) = (hex_digit(byte / 16), hex_digit(byte % 16));
        return put_part(room, count, &[b'\\', b'u', b'0', b'0', high, low]);
    }
    let mut own = [0; 4];
    put_part(room, count, char.encode_utf8(&mut own).as_bytes())
}

/// The letter of a character's short escape, or 0.
fn short_escape(char: char) -> u8
    ensures { result ≡ escape_letter char }
{
    match char {
        '"' => b'"',
        '\\' => b'\\',
        '\u{8}' => b'b',
        '\u{c}' => b'f',
        '\n' => b'n',
        '\r' => b'r',
        '\t' => b't',
        _ => 0,
    }
}

/// A digit in hex.
fn hex_digit(value: u8) -> u8
    requires { value < 16 }
    ensures { result ≡ digit_char value }
{
    if value < 10 {
        b'0' + value
    } else {
        b'a' + (value - 10)
    }
}
