//! Places in an input of text: lines, and characters in a line.
#![tactic(auto)]

ghost use Rattle.std.specs.Prelude.{◌≡◌, IfErr, IfOk, OnErr, length};
ghost use Rattle.dump_io.specs.lines.Failing.{IsReading};
ghost use Rattle.dump_io.specs.input.Places.{IsFar, first_position, position_over};
ghost use Rattle.dump_io.specs.input.Places as says;

use crate::lines::failure::{Failure, in_range};

/// A place in a text of UTF-8.
#[derive(Clone, Copy)]
pub struct Position {
    /// the number of its line, from 1 on
    pub line: u64,
    /// the number of its character in the line, from 1 on
    pub column: u64,
}

impl Position {
    /// The place of the first character.
    pub fn new() -> Position
        ensures { result ≡ first_position }
    {
        Position { line: 1, column: 1 }
    }

    /// The place after these bytes. Fails if it could be over the range of a number.
    pub fn over(self, bytes: &[u8]) -> Result<Position, Failure>
        ensures over { IfOk result (λ place. place ≡ position_over self bytes.now) }
        ensures most { OnErr result (IsFar self (length bytes.now)) }
        ensures failed { IfErr result (λ failure. ¬ IsReading failure) }
    {
        in_range(self.line.checked_add(bytes.len() as u64))?;
        in_range(self.column.checked_add(bytes.len() as u64))?;
        let mut line = self.line;
        let mut column = self.column;
        for byte in bytes {
            if *byte == b'\n' {
                line += 1;
                column = 1;
            } else if begins_character(*byte) {
                column += 1;
            }
        }
        Ok(Position { line, column })
    }
}

/// Whether a character begins with a byte.
fn begins_character(byte: u8) -> bool
    ensures { result ≡ says.begins_character byte }
{
    byte < 0x80 || byte >= 0xC0
}

/// Whether a byte is the brace with which a line begins.
pub fn begins_line(place: Position, byte: u8) -> bool
    ensures { result ≡ says.begins_line place byte }
{
    place.column == 1 && byte == b'{'
}
