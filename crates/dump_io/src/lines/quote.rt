//! Texts in quotes, for people.
#![tactic(auto)]

ghost use Rattle.std.specs.Prelude.{◌≡◌, ◌++◌, ◌<◌, IfOk, IsTrue, OnOk};
ghost use Rattle.std.specs.Char.{digit_char};
ghost use Rattle.json.specs.Print.{escape_letter};
ghost use Rattle.dump_io.specs.lines.Quoting.{ArePlain, IsPlain, quoted, shown_char, shown_text};

use std::alloc::{AllocError, Global};

/// A text in quotes, as JSON has it, without a character that a terminal obeys.
pub fn quotation(alloc: Global, words: &str) -> Result<Vec<u8>, AllocError>
    ensures { IfOk result (λ text. text.items ≡ quoted words.now) }
{
    let mut text = Vec::new(alloc);
    push_quoted(&mut text, words)?;
    Ok(text)
}

/// Appends to the text another one, in quotes.
pub fn push_quoted(text: &mut Vec<u8>, words: &str) -> Result<(), AllocError>
    ensures { OnOk result (text.new.items ≡ text.old.items ++ quoted words.now) }
{
    text.push(b'"')?;
    push_shown(text, words)?;
    text.push(b'"')?;
    Ok(())
}

/// Appends to the text what is in the quotes: in one piece if nothing is escaped.
fn push_shown(text: &mut Vec<u8>, words: &str) -> Result<(), AllocError>
    ensures { OnOk result (text.new.items ≡ text.old.items ++ shown_text words.now) }
{
    if are_plain(words.as_bytes()) {
        return text.extend_from_slice(words.as_bytes());
    }
    push_chars(text, words)
}

fn are_plain(bytes: &[u8]) -> bool
    ensures { IsTrue result → ArePlain bytes.now }
{
    for &byte in bytes {
        if !is_plain(byte) {
            return false;
        }
    }
    true
}

/// Whether the byte is a character of ASCII that isn't escaped.
fn is_plain(byte: u8) -> bool
    ensures { IsTrue result → IsPlain byte }
{
    byte >= b' ' && byte <= b'~' && byte != b'"' && byte != b'\\'
}

fn push_chars(text: &mut Vec<u8>, words: &str) -> Result<(), AllocError>
    ensures { OnOk result (text.new.items ≡ text.old.items ++ shown_text words.now) }
{
    for char in words.chars() {
        push_char(text, char)?;
    }
    Ok(())
}

fn push_char(text: &mut Vec<u8>, char: char) -> Result<(), AllocError>
    ensures { OnOk result (text.new.items ≡ text.old.items ++ shown_char char) }
{
    let letter = short_escape(char);
    if letter > 0 {
        return text.extend_from_slice(&[b'\\', letter]);
    }
    if char.is_control() {
        let byte = char as u32 as u8;
        let (high, low) = (hex_digit(byte / 16), hex_digit(byte % 16));
        return text.extend_from_slice(&[b'\\', b'u', b'0', b'0', high, low]);
    }
    let mut room = [0; 4];
    text.extend_from_slice(char.encode_utf8(&mut room).as_bytes())
}

/// The letter of a character's short escape, or 0.
fn short_escape(char: char) -> u8
    ensures { result ≡ escape_letter char }
{
    match char {
        '"' => b'"',
        '\\' => b'\\',
        '\u{8}' => b'b',
        '\u{c}' => b'f',
        '\n' => b'n',
        '\r' => b'r',
        '\t' => b't',
        _ => 0,
    }
}

/// A digit in hex.
fn hex_digit(value: u8) -> u8
    requires { value < 16 }
    ensures { result ≡ digit_char value }
{
    if value < 10 {
        b'0' + value
    } else {
        b'a' + (value - 10)
    }
}
