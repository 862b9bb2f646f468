//! Bytes that are written as hex digits.
#![tactic(auto)]

use std::alloc::Global;
use std::io;
use std::io::Read;

/// How many bytes of a text are read at a time at most.
const ROOM: usize = 4096;

/// A reader of the bytes whose hex digits another gives, with white space anywhere; or of those that it gives, where that is asked for.
#[derive(Drop)]
pub struct Digits<R> {
    /// what gives the text
    pub reader: R,
    /// whether it is one of hex digits
    pub on: bool,
    pub alloc: Global,
    /// how many bytes of the text were read
    at: u64,
    /// the first digit of a byte, where the second one is still to come
    first: Option<u8>,
    /// where in the text no digit is
    wrong: Option<u64>,
}

impl<R> Digits<R> {
    pub fn new(alloc: Global, reader: R, on: bool) -> Digits<R> {
        Digits {
            reader,
            on,
            alloc,
            at: 0,
            first: None,
            wrong: None,
        }
    }

    /// Puts the bytes of these digits into the room, up to what is no digit. Returns how many there are.
    fn put(&mut self, text: &[u8], room: &mut [u8]) -> usize {
        let mut len: usize = 0;
        for byte in text {
            match (digit_of(*byte), self.first) {
                (None, _) if byte.is_ascii_whitespace() => (),
                (None, _) => {
                    self.wrong = Some(self.at);
                    return len;
                }
                (Some(digit), None) => self.first = Some(digit),
                (Some(digit), Some(first)) => {
                    self.first = None;
                    if let Some(place) = room.get_mut(len) {
                        *place = first.wrapping_mul(16).wrapping_add(digit);
                        len = len.saturating_add(1);
                    }
                }
            }
            self.at = self.at.saturating_add(1);
        }
        len
    }

    /// What is wrong at a place of the text.
    fn error(&self, words: &str, at: u64) -> io::Error {
        match format!(in self.alloc; "{words} at byte {at} of the text") {
            Ok(text) => io::Error::other(text.as_str()),
            Err(_) => io::Error::from(io::ErrorKind::OutOfMemory),
        }
    }
}

impl<R: Read> Read for Digits<R> {
    fn read(&mut self, buf: &mut [u8]) -> io::Result<usize> {
        if !self.on {
            return self.reader.read(buf);
        }
        let mut room = [0; ROOM];
        if buf.is_empty() {
            return Ok(0);
        }
        for _ in 0..u64::MAX {
            if let Some(at) = self.wrong {
                return Err(self.error("no hex digit", at));
            }
            let most = ROOM.min(buf.len());
            let len = self.reader.read(&mut room[..most])?;
            if len == 0 && self.first.is_some() {
                return Err(self.error("the second hex digit of a byte is missing", self.at));
            }
            let count = self.put(&room[..len.min(ROOM)], &mut *buf).min(most);
            if len == 0 || count > 0 {
                return Ok(count);
            }
        }
        Ok(0)
    }
}

/// The number that a hex digit stands for.
fn digit_of(byte: u8) -> Option<u8> {
    match byte {
        b'0'..=b'9' => Some(byte.wrapping_sub(b'0')),
        b'a'..=b'f' => Some(byte.wrapping_sub(b'a').wrapping_add(10)),
        b'A'..=b'F' => Some(byte.wrapping_sub(b'A').wrapping_add(10)),
        _ => None,
    }
}
