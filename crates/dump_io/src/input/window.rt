//! What was read of an input but not passed yet.
#![tactic(auto)]

ghost use Rattle.std.specs.Prelude.{◌≡◌, ◌+◌, ◌≤◌, ◌<◌, ◌^◌, ◌⊎◌, ℕ, List, MatchBool, Option, [], true, drop, length, IfErr, IfOk, OnErr, OnOk};
ghost use Rattle.std.specs.Io.KnownBytes.{IsAtEnd};
ghost use Rattle.dump_io.specs.input.Cut.{said_len, IsSoundLength};
ghost use Rattle.dump_io.specs.input.Reading.{FillsBuffer, IsNextPiece, IsWindow, ReadsRest, SeesAhead, Stays, TellsNext, ahead_of, offset_of};
ghost use Rattle.dump_io.specs.lines.Failing.{IsReading};

use crate::input::ending::Ending;
use crate::lines::failure::{Failure, in_range};
use std::alloc::{AllocError, Global};
use std::io;
use std::io::{ErrorKind, Read};

/// The least number of bytes that are read at a time.
const BLOCK: usize = 1 << 18;

/// What was read of an input but not passed yet.
#[derive(Drop)]
pub struct Window {
    /// room for what is read
    room: Vec<u8>,
    /// where in the room the bytes ahead begin
    at: usize,
    /// how many bytes are ahead
    len: usize,
    /// how many bytes of the input were passed
    offset: u64,
}

/// What is next in an input.
#[derive(Clone, Copy)]
pub enum Next {
    /// a document of this length, which is ahead
    Document(usize),
    /// nothing: the input is at its end
    Nothing,
    /// bytes where no document begins
    End(Ending),
}

impl Window {
    /// A window before anything is read.
    pub fn new(alloc: Global) -> Window
        ensures window { IsWindow result }
        ensures nothing { ahead_of result ≡ [] }
        ensures start { offset_of result ≡ 0 }
    {
        Window {
            room: Vec::new(alloc),
            at: 0,
            len: 0,
            offset: 0,
        }
    }

    /// How many bytes of the input were passed.
    pub fn offset(&self) -> u64
        ensures { result ≡ offset_of self.now }
    {
        self.offset
    }

    /// The bytes ahead.
    pub fn ahead(&self) -> &[u8]
        requires { IsWindow self.now }
        ensures { result.now ≡ ahead_of self.now }
    {
        &self.room[self.at..self.at + self.len]
    }

    /// How many bytes of the input were read. Fails if they are over the range of an offset.
    pub fn end(&self) -> Result<u64, Failure>
        requires { IsWindow self.now }
        ensures end { IfOk result (λ end. end ≡ offset_of self.now + length (ahead_of self.now)) }
        ensures over { OnErr result (2 ^ 64 ≤ offset_of self.now + length (ahead_of self.now)) }
        ensures failed { IfErr result (λ failure. ¬ IsReading failure) }
    {
        in_range(self.offset.checked_add(self.len as u64))
    }

    /// Passes `count` bytes. Fails if the offset would be over its range.
    pub fn pass(&mut self, count: usize) -> Result<(), Failure>
        requires { IsWindow self.old × (count ≤ length (ahead_of self.old)) }
        ensures passed { OnOk result (IsWindow self.new × (ahead_of self.new ≡ drop count (ahead_of self.old)) × (offset_of self.new ≡ offset_of self.old + count)) }
        ensures over { OnErr result (2 ^ 64 ≤ offset_of self.old + count) }
        ensures failed { IfErr result (λ failure. ¬ IsReading failure) }
    {
        self.offset = in_range(self.offset.checked_add(count as u64))?;
        self.at += count;
        self.len -= count;
        Ok(())
    }

    /// Reads on until `want` bytes are ahead or the input ends, and returns whether they are. Mostly they are ahead already.
    #[inline(always)]
    pub fn look<R: Read>(&mut self, reader: &mut R, want: usize) -> Result<bool, Failure>
        requires { IsWindow self.old }
        ensures looks { IfOk result (SeesAhead (R.remaining reader.old) (R.remaining reader.new) self.old self.new want) }
        ensures fails { IfErr result (λ _. Stays (R.remaining reader.old) (R.remaining reader.new) self.old self.new) }
    {
        if want <= self.len {
            return Ok(true);
        }
        self.read_on(reader, want)
    }

    #[inline(never)]
    fn read_on<R: Read>(&mut self, reader: &mut R, want: usize) -> Result<bool, Failure>
        requires { IsWindow self.old }
        ensures looks { IfOk result (SeesAhead (R.remaining reader.old) (R.remaining reader.new) self.old self.new want) }
        ensures fails { IfErr result (λ _. Stays (R.remaining reader.old) (R.remaining reader.new) self.old self.new) }
    {
        self.make_room(want)?;
        let filled = fill(reader, &mut self.room[self.at..], self.len, want);
        self.len = filled.len;
        match filled.failure {
            None => Ok(want <= self.len),
            Some(error) => Err(Failure::Reading(error)),
        }
    }

    /// Reads the rest of the input and counts its bytes. At least one is ahead.
    pub fn drain<R: Read>(&mut self, reader: &mut R) -> Result<Drained, Failure>
        requires { IsWindow self.old × (0 < length (ahead_of self.old)) }
        ensures drained { IfOk result (ReadsRest (R.remaining reader.old) (R.remaining reader.new) (ahead_of self.old)) }
        ensures failed { IfErr result (λ failure. ¬ IsReading failure) }
    {
        let more = drain(reader, &mut self.room)?;
        Ok(Drained {
            count: in_range(more.count.checked_add(self.len as u64))?,
            failure: more.failure,
        })
    }

    /// Makes room for `want` bytes from the first one ahead on. No more bytes are moved than were passed.
    fn make_room(&mut self, want: usize) -> Result<(), AllocError>
        requires { IsWindow self.old }
        ensures window { IsWindow self.new }
        ensures wide { OnOk result (self.new.at + want ≤ length self.new.room.items) }
        ensures ahead { ahead_of self.new ≡ ahead_of self.old }
        ensures len { self.new.len ≡ self.old.len }
        ensures offset { self.new.offset ≡ self.old.offset }
    {
        if self.len <= self.at {
            self.room.copy_within(self.at..self.at + self.len, 0);
            self.at = 0;
        }
        let least = self.at.checked_add(want).ok_or(AllocError)?;
        if least > self.room.len() {
            let wide = least.checked_add(BLOCK).ok_or(AllocError)?;
            self.room.resize(wide, 0)?;
        }
        Ok(())
    }
}

/// How far a buffer is filled, and the error with which reading failed, if it did.
#[derive(Drop)]
struct Filled {
    len: usize,
    failure: Option<io::Error>,
}

/// Reads on after the front of the buffer, until `enough` bytes are filled, the input ends or reading fails.
fn fill<R: Read>(reader: &mut R, buffer: &mut [u8], front: usize, enough: usize) -> Filled
    requires { (front ≤ length buffer.old) × (enough ≤ length buffer.old) }
    ensures { FillsBuffer (R.remaining reader.old) (R.remaining reader.new) front enough buffer.old buffer.new result }
{
    let mut len = front;
    for _ in 0..u64::MAX {
        if len >= enough {
            return Filled { len, failure: None };
        }
        match reader.read(&mut buffer[len..]) {
            Ok(0) => return Filled { len, failure: None },
            Ok(count) => len += count,
            Err(error) => {
                if error.kind() != ErrorKind::Interrupted {
                    return Filled {
                        len,
                        failure: Some(error),
                    };
                }
            }
        }
    }
    Filled {
        len,
        failure: Some(io::Error::from(ErrorKind::TimedOut)),
    }
}

/// The number of bytes in the rest of an input, and the error with which reading failed, if it did.
#[derive(Drop)]
pub struct Drained {
    /// how many bytes
    pub count: u64,
    /// the error
    pub failure: Option<io::Error>,
}

/// Reads the input to its end through a buffer that isn't empty.
fn drain<R: Read>(reader: &mut R, buffer: &mut [u8]) -> Result<Drained, Failure>
    requires { 0 < length buffer.old }
    ensures drained { IfOk result (ReadsRest (R.remaining reader.old) (R.remaining reader.new) []) }
    ensures failed { IfErr result (λ failure. ¬ IsReading failure) }
{
    let mut count: u64 = 0;
    for _ in 0..u64::MAX {
        match reader.read(buffer) {
            Ok(0) => {
                return Ok(Drained {
                    count,
                    failure: None,
                });
            }
            Ok(more) => count = in_range(count.checked_add(more as u64))?,
            Err(error) => {
                if error.kind() != ErrorKind::Interrupted {
                    return Ok(Drained {
                        count,
                        failure: Some(error),
                    });
                }
            }
        }
    }
    Ok(Drained {
        count,
        failure: Some(io::Error::from(ErrorKind::TimedOut)),
    })
}

/// Looks what is next in an input after the first `from` bytes ahead. A document has at most `most` bytes.
pub fn look_ahead<R: Read>(
    reader: &mut R,
    window: &mut Window,
    from: usize,
    most: usize,
) -> Result<Next, Failure>
    requires { IsWindow window.old × (from ≤ length (ahead_of window.old)) × (from < 2 ^ 26) }
    ensures told { IfOk result (TellsNext most (R.remaining reader.old) (R.remaining reader.new) window.old window.new from) }
    ensures fails { IfErr result (λ _. Stays (R.remaining reader.old) (R.remaining reader.new) window.old window.new) }
{
    if !window.look(reader, from + 4)? {
        return Ok(too_few(window.ahead().len() - from));
    }
    let said = length_at(window.ahead(), from);
    let len = said as usize;
    if !is_sound(len, most) {
        return Ok(Next::End(Ending::Unsound(said.cast_signed())));
    }
    if window.look(reader, from + len)? {
        Ok(Next::Document(len))
    } else {
        Ok(Next::End(Ending::CutOff(window.ahead().len() - from)))
    }
}

/// The length that four bytes at this offset say.
fn length_at(bytes: &[u8], from: usize) -> u32
    requires { from + 4 ≤ length bytes.now }
    ensures { result ≡ said_len (drop from bytes.now) }
{
    let Some(head) = bytes[from..].first_chunk::<4>() else {
        unreachable!()
    };
    u32::from_le_bytes(*head)
}

/// What is next if only `count` bytes are left, fewer than a length has.
fn too_few(count: usize) -> Next
    requires { count < 4 }
    ensures { (new : Option (List ℕ)) (s : List ℕ) → length s ≡ count → IsAtEnd new → (most : ℕ) → IsNextPiece most new s result }
{
    if count == 0 {
        Next::Nothing
    } else {
        Next::End(Ending::CutOff(count))
    }
}

/// Whether a document may have this length: from 5 to `most` bytes.
fn is_sound(len: usize, most: usize) -> bool
    ensures { MatchBool result (IsSoundLength most len) ((len < 5) ⊎ (most < len)) }
{
    5 <= len && len <= most
}
