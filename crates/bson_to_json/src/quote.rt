//! Texts in quotes.
#![tactic(auto)]

ghost use Rattle.std.specs.Prelude.{◌≡◌, ◌≤◌, ◌<◌, ◌∷◌, [], length, take, IsFalse, OnOk};
ghost use Rattle.std.specs.Char.{digit_char};
ghost use Rattle.std.specs.Io.KnownBytes.{Appends};
ghost use Rattle.json.specs.Print.{escape, escape_byte, escape_letter, quoted};

use crate::plain::is_plain;
use crate::put::put;
use std::io;
use std::io::Write;

/// Whether a byte of a text is escaped.
#[inline(always)]
#[tactic(auto, unfolding(json::specs::Print::escape_byte))]
fn is_escaped(byte: u8) -> bool
    ensures { IsFalse result → escape_byte byte ≡ byte ∷ [] }
{
    byte < 32 || byte == b'"' || byte == b'\\'
}

/// The number of bytes at the front that are written as they are.
#[inline]
fn plain_len(bytes: &[u8]) -> usize
    ensures within { result ≤ length bytes.now }
    ensures plain { escape (take result bytes.now) ≡ take result bytes.now }
{
    let mut len = 0;
    while len < bytes.len() && !is_escaped(bytes[len]) {
        len += 1;
    }
    len
}

/// A digit in hex.
fn hex_digit(value: u8) -> u8
    requires { value < 16 }
    ensures { result ≡ digit_char value }
{
    if value < 10 {
        b'0' + value
    } else {
        b'a' + (value - 10)
    }
}

/// The letter of a byte's short escape, or 0.
fn short_escape(byte: u8) -> u8
    ensures { result ≡ escape_letter byte }
{
    match byte {
        b'"' | b'\\' => byte,
        8 => b'b',
        12 => b'f',
        10 => b'n',
        13 => b'r',
        9 => b't',
        _ => 0,
    }
}

/// Writes a byte of a text, escaped if JSON requires it.
#[cold]
#[inline(never)]
#[tactic(auto, unfolding(json::specs::Print::escape_byte))]
fn put_escape<W: Write>(out: &mut W, byte: u8) -> io::Result<()>
    ensures { OnOk result (Appends (W.contents out.old) (W.contents out.new) (escape_byte byte)) }
{
    let letter = short_escape(byte);
    if letter > 0 {
        return put(out, &[b'\\', letter]);
    }
    if byte < 32 {
        let (high, low) = (hex_digit(byte / 16), hex_digit(byte % 16));
        return put(out, &[b'\\', b'u', b'0', b'0', high, low]);
    }
    put(out, &[byte])
}

/// Writes the bytes of a text, escaped where JSON requires it.
#[cold]
#[inline(never)]
fn put_escaped<W: Write>(out: &mut W, bytes: &[u8]) -> io::Result<()>
    ensures { OnOk result (Appends (W.contents out.old) (W.contents out.new) (escape bytes.now)) }
{
    let mut at = 0;
    'runs: loop {
        let len = plain_len(&bytes[at..]);
        put(out, &bytes[at..at + len])?;
        at += len;
        if at == bytes.len() {
            return Ok(());
        }
        put_escape(out, bytes[at])?;
        at += 1;
    }
}

/// Writes the bytes of a text, in one call if none is escaped.
#[inline]
fn put_inside<W: Write>(out: &mut W, bytes: &[u8]) -> io::Result<()>
    ensures { OnOk result (Appends (W.contents out.old) (W.contents out.new) (escape bytes.now)) }
{
    if is_plain(bytes) {
        return put(out, bytes);
    }
    put_escaped(out, bytes)
}

/// Writes a text in quotes.
#[inline]
pub(crate) fn put_quoted<W: Write>(out: &mut W, text: &str) -> io::Result<()>
    ensures { OnOk result
        (Appends (W.contents out.old) (W.contents out.new) (quoted text.now)) }
{
    put(out, b"\"")?;
    put_inside(out, text.as_bytes())?;
    put(out, b"\"")
}
