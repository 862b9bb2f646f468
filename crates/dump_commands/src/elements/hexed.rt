//! Bytes in hex, and the lines that they are in.
#![tactic(auto)]

ghost use Rattle.std.specs.Prelude.{◌≡◌, ◌*◌, ◌+◌, ◌-◌, ◌<◌, ◌^◌, ◌++◌, OnOk, codes, drop, flat_map, length, replicate, take};
ghost use Rattle.dump_commands.specs.elements.Runs.{byte_digits, line_at, more_line, next_lines, offset_text, rest_line, row_text, spaced};
ghost use Rattle.dump_commands.specs.elements.Runs as says;
ghost use Rattle.std.specs.Char.{digit_char};

use dump_io::lines::text::{push_number, push_words};
use std::alloc::AllocError;

/// How many bytes a line has at most.
pub const ROW: usize = 16;

/// Appends the line that says how many bytes of a document aren't shown, if there are any.
pub fn push_rest_line(text: &mut Vec<u8>, offset: u64, left: u64) -> Result<(), AllocError>
    ensures { OnOk result (text.new.items ≡ text.old.items ++ rest_line offset left) }
{
    if left == 0 {
        return Ok(());
    }
    begin_line(text, offset)?;
    push_more(text, left)?;
    push_words(text, ", not looked at here; --whole shows them\n")
}

/// The first bytes, this number at most, and the others.
pub fn split_at_most(bytes: &[u8], len: usize) -> (&[u8], &[u8])
    ensures first { result.0.now ≡ take len bytes.now }
    ensures others { result.1.now ≡ drop len bytes.now }
{
    bytes.split_at(len.min(bytes.len()))
}

/// Begins a line with an offset.
pub fn begin_line(text: &mut Vec<u8>, offset: u64) -> Result<(), AllocError>
    ensures { OnOk result (text.new.items ≡ text.old.items ++ (codes "  " ++ offset_text offset ++ codes " ")) }
{
    push_words(text, "  ")?;
    push_offset(text, offset)?;
    push_words(text, " ")
}

fn push_offset(text: &mut Vec<u8>, offset: u64) -> Result<(), AllocError>
    ensures { OnOk result (text.new.items ≡ text.old.items ++ offset_text offset) }
{
    if offset < 1 << 32 {
        push_digits(text, &(offset as u32).to_be_bytes())
    } else {
        push_digits(text, &offset.to_be_bytes())
    }
}

fn push_digits(text: &mut Vec<u8>, bytes: &[u8]) -> Result<(), AllocError>
    ensures { OnOk result (text.new.items ≡ text.old.items ++ flat_map byte_digits bytes.now) }
{
    for &byte in bytes {
        push_byte(text, byte)?;
    }
    Ok(())
}

fn push_byte(text: &mut Vec<u8>, byte: u8) -> Result<(), AllocError>
    ensures { OnOk result (text.new.items ≡ text.old.items ++ byte_digits byte) }
{
    let digits = [hex_digit(byte / 16), hex_digit(byte % 16)];
    text.extend_from_slice(&digits)
}

/// A digit in hex.
fn hex_digit(value: u8) -> u8
    requires { value < 16 }
    ensures { result ≡ digit_char value }
{
    if value < 10 {
        b'0' + value
    } else {
        b'a' + (value - 10)
    }
}

/// Appends the bytes of a line, with a mark before the first.
pub fn push_row(text: &mut Vec<u8>, mark: u8, row: &[u8]) -> Result<(), AllocError>
    ensures { OnOk result (text.new.items ≡ text.old.items ++ row_text mark row.now) }
{
    text.push(mark)?;
    let Some((first, others)) = row.split_first() else {
        return Ok(());
    };
    push_byte(text, *first)?;
    push_spaced(text, others)
}

fn push_spaced(text: &mut Vec<u8>, bytes: &[u8]) -> Result<(), AllocError>
    ensures { OnOk result (text.new.items ≡ text.old.items ++ spaced bytes.now) }
{
    for &byte in bytes {
        text.push(b' ')?;
        push_byte(text, byte)?;
    }
    Ok(())
}

pub fn push_spaces(text: &mut Vec<u8>, len: usize) -> Result<(), AllocError>
    ensures { OnOk result (text.new.items ≡ text.old.items ++ replicate len 32) }
{
    let Some(wide) = text.len().checked_add(len) else {
        return Err(AllocError);
    };
    text.resize(wide, b' ')
}

/// Appends at most this number of lines of a run after the first.
pub fn push_next_lines(
    text: &mut Vec<u8>,
    rows: usize,
    offset: u64,
    bytes: &[u8],
) -> Result<(), AllocError>
    requires { offset + length bytes.now + 16 < 2 ^ 64 }
    ensures { OnOk result (text.new.items ≡ text.old.items ++ next_lines rows offset bytes.now) }
{
    let mut at = offset;
    let mut rest = bytes;
    let mut left = rows;
    'lines: while left > 0 && !rest.is_empty() {
        let (row, others) = split_at_most(rest, ROW);
        push_next_line(text, at, row)?;
        at += ROW as u64;
        rest = others;
        left -= 1;
    }
    Ok(())
}

fn push_next_line(text: &mut Vec<u8>, offset: u64, row: &[u8]) -> Result<(), AllocError>
    ensures { OnOk result (text.new.items ≡ text.old.items ++ line_at offset (row_text 32 row.now)) }
{
    begin_line(text, offset)?;
    push_row(text, b' ', row)?;
    push_words(text, "\n")
}

/// Appends how many bytes aren't shown.
fn push_more(text: &mut Vec<u8>, len: u64) -> Result<(), AllocError>
    ensures { OnOk result (text.new.items ≡ text.old.items ++ says.more_text len) }
{
    push_words(text, " ... ")?;
    push_number(text, len)?;
    push_words(text, more_words(len))
}

fn more_words(len: u64) -> &'static str
    ensures { result.now ≡ says.more_words len }
{
    if len == 1 {
        " more byte"
    } else {
        " more bytes"
    }
}

/// Appends the line that stands for bytes that aren't shown, if there are any.
pub fn push_more_line(text: &mut Vec<u8>, offset: u64, bytes: &[u8]) -> Result<(), AllocError>
    ensures { OnOk result (text.new.items ≡ text.old.items ++ more_line offset bytes.now) }
{
    if bytes.is_empty() {
        return Ok(());
    }
    begin_line(text, offset)?;
    push_more(text, bytes.len() as u64)?;
    push_words(text, "\n")
}
