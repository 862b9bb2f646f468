//! The words of a line, and what they write: numbers, bytes and texts.

use crate::failure::Failure;
use std::alloc::Global;

/// The words of a line, and how many of them are read.
#[derive(Drop)]
pub struct Words<'a, 'w> {
    words: &'w [&'a str],
    at: usize,
}

impl<'a, 'w> Words<'a, 'w> {
    /// These words, of which none is read.
    pub fn new(words: &'w [&'a str]) -> Words<'a, 'w> {
        Words { words, at: 0 }
    }

    /// The next word.
    pub fn next(&mut self) -> Result<&'a str, Failure> {
        match self.words.get(self.at) {
            Some(word) => {
                self.at = self.at.saturating_add(1);
                Ok(*word)
            }
            None => Err(Failure::Form),
        }
    }

    /// Whether the next word is this one.
    pub fn is_next(&self, word: &str) -> bool {
        match self.words.get(self.at) {
            Some(found) => *found == word,
            None => false,
        }
    }

    /// Whether the next word is this one; it is then read.
    pub fn skip(&mut self, word: &str) -> bool {
        let is_next = self.is_next(word);
        if is_next {
            self.at = self.at.saturating_add(1);
        }
        is_next
    }

    /// That no word is left.
    pub fn end(&self) -> Result<(), Failure> {
        if self.len() == 0 {
            Ok(())
        } else {
            Err(Failure::Form)
        }
    }

    /// How many words are left.
    pub fn len(&self) -> usize {
        self.words.len().saturating_sub(self.at)
    }

    /// A number in decimal, without a sign.
    pub fn number(&mut self) -> Result<usize, Failure> {
        self.next()?.parse().map_err(|_| Failure::Form)
    }

    /// A number in decimal of 32 bits, without a sign.
    pub fn unsigned(&mut self) -> Result<u32, Failure> {
        self.next()?.parse().map_err(|_| Failure::Form)
    }

    /// A number in decimal of 64 bits, with a sign.
    pub fn signed(&mut self) -> Result<i64, Failure> {
        self.next()?.parse().map_err(|_| Failure::Form)
    }

    /// A text in quotes, or a letter and how many of it.
    pub fn text(&mut self, alloc: Global) -> Result<String, Failure> {
        text_of(alloc, self.next()?)
    }

    /// The bytes that the next word writes.
    pub fn bytes(&mut self, alloc: Global) -> Result<Vec<u8>, Failure> {
        let mut bytes = Vec::new(alloc);
        push_bytes(&mut bytes, self.next()?)?;
        Ok(bytes)
    }

    /// The bytes that all words up to the end of the line write.
    pub fn all_bytes(&mut self, alloc: Global) -> Result<Vec<u8>, Failure> {
        let mut bytes = Vec::new(alloc);
        for _ in 0..self.len() {
            push_bytes(&mut bytes, self.next()?)?;
        }
        Ok(bytes)
    }
}

/// After the bytes, those of a word: hexadecimal digits; or the digits of a byte, `*`, and how many of it; or `-` for none.
fn push_bytes(bytes: &mut Vec<u8>, word: &str) -> Result<(), Failure> {
    if word == "-" {
        return Ok(());
    }
    let alloc = *bytes.allocator();
    match word.split_once('*') {
        None => Ok(bytes.extend_from_slice(&digits_of(alloc, word)?)?),
        Some((digits, times)) => {
            let times: usize = times.parse().map_err(|_| Failure::Form)?;
            match digits_of(alloc, digits)?.as_slice() {
                [byte] => Ok(bytes.resize(bytes.len().saturating_add(times), *byte)?),
                _ => Err(Failure::Form),
            }
        }
    }
}

/// The bytes of hexadecimal digits.
fn digits_of(alloc: Global, digits: &str) -> Result<Vec<u8>, Failure> {
    match hex::decode(alloc, digits) {
        Ok(bytes) => Ok(bytes),
        Err(hex::FromHexError::OutOfMemory) => Err(Failure::NoMemory),
        Err(_) => Err(Failure::Form),
    }
}

/// The text of a word: in quotes, where `\0`, `\"`, `\\` and `\xHH` stand for a character; or a letter, `*`, and how many of it.
fn text_of(alloc: Global, word: &str) -> Result<String, Failure> {
    match word.strip_prefix('"') {
        Some(quoted) => match quoted.strip_suffix('"') {
            Some(inner) => unescaped(alloc, inner),
            None => Err(Failure::Form),
        },
        None => match word.split_once('*') {
            Some((letter, times)) => repeated(alloc, letter, times),
            None => Err(Failure::Form),
        },
    }
}

fn repeated(alloc: Global, letter: &str, times: &str) -> Result<String, Failure> {
    let times: usize = times.parse().map_err(|_| Failure::Form)?;
    let mut text = String::new(alloc);
    for _ in 0..times {
        text.push_str(letter)?;
    }
    Ok(text)
}

/// What an escape has so far.
#[derive(Clone, Copy)]
enum Escape {
    None,
    Begun,
    NoDigit,
    Digit(u32),
}

/// What a character after a backslash begins or stands for.
fn escaped(character: char) -> Result<(Escape, Option<char>), Failure> {
    match character {
        '0' => Ok((Escape::None, Some('\0'))),
        '"' | '\\' => Ok((Escape::None, Some(character))),
        'x' => Ok((Escape::NoDigit, None)),
        _ => Err(Failure::Form),
    }
}

/// The next step of a text with escapes: what is known of an escape after a character, and which character the text gets.
fn step(escape: Escape, character: char) -> Result<(Escape, Option<char>), Failure> {
    match (escape, character) {
        (Escape::None, '\\') => Ok((Escape::Begun, None)),
        (Escape::None, _) => Ok((Escape::None, Some(character))),
        (Escape::Begun, _) => escaped(character),
        (Escape::NoDigit, _) => match character.to_digit(16) {
            Some(digit) => Ok((Escape::Digit(digit), None)),
            None => Err(Failure::Form),
        },
        (Escape::Digit(high), _) => match character.to_digit(16) {
            Some(low) => Ok((
                Escape::None,
                char::from_u32(high.wrapping_mul(16).wrapping_add(low)),
            )),
            None => Err(Failure::Form),
        },
    }
}

fn unescaped(alloc: Global, inner: &str) -> Result<String, Failure> {
    let mut text = String::new(alloc);
    let mut escape = Escape::None;
    for character in inner.chars() {
        let (next, stands) = step(escape, character)?;
        escape = next;
        if let Some(stands) = stands {
            text.push(stands)?;
        }
    }
    match escape {
        Escape::None => Ok(text),
        _ => Err(Failure::Form),
    }
}
