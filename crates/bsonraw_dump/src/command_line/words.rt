//! The words of the command line.
#![tactic(auto)]

use std::alloc::{AllocError, Global};
use std::env::{Env, FillError};
use std::str;

/// The most bytes that the system gives an argument.
const LONGEST: usize = 1 << 17;

/// What is before a word that stands for one that isn't UTF-8: no argument has a byte 0.
const MARK: char = '\0';

/// The words of the command line.
#[derive(Drop)]
pub struct Words {
    /// the words; in place of one that isn't UTF-8, after a mark, what names it
    pub words: Vec<String>,
    /// the first one that isn't UTF-8 and can't be a FILE, since it is the command or an option
    pub wrong: Option<String>,
}

/// What stands for a word that isn't UTF-8, if this does.
pub(super) fn stand_in(word: &str) -> Option<&str> {
    word.strip_prefix(MARK)
}

impl Words {
    /// The first word that isn't UTF-8, if there is one, that isn't one of these FILEs either.
    pub fn misplaced(&self, files: &[&str]) -> Option<&str> {
        for word in &self.words {
            let name = stand_in(word.as_str());
            if name.is_some() && !has(files, word.as_str()) {
                return name;
            }
        }
        None
    }

    /// The words as they are shown: each control character is `\u` and its number, so a terminal shows it, and obeys none.
    pub fn shown(&self, alloc: Global) -> Result<Vec<String>, AllocError> {
        let mut all = Vec::new(alloc);
        for word in &self.words {
            let word = word.as_str();
            all.push(escaped(alloc, stand_in(word).unwrap_or(word))?)?;
        }
        Ok(all)
    }
}

fn has(words: &[&str], word: &str) -> bool {
    words.iter().any(|other| *other == word)
}

fn escaped(alloc: Global, word: &str) -> Result<String, AllocError> {
    let mut text = String::new(alloc);
    for char in word.chars() {
        if char.is_control() {
            let number = char as u32;
            write!(text, "\\u{number:04x}")?;
        } else {
            text.push(char)?;
        }
    }
    Ok(text)
}

/// The words of the command line.
pub fn given_words(rt: &HostRuntime) -> Result<Words, AllocError> {
    let alloc = rt.alloc();
    let mut words = Words {
        words: Vec::new(alloc),
        wrong: None,
    };
    let mut room = Vec::new(alloc);
    room.resize(LONGEST, 0u8)?;
    for number in 0..usize::MAX {
        let len = match rt.arg(number, &mut room) {
            Ok(len) => len,
            Err(FillError::NotPresent) => break,
            Err(FillError::TooLong) => LONGEST,
        };
        let bytes = &room[..len.min(room.len())];
        match str::from_utf8(bytes) {
            Ok(word) => words.words.push(String::from_str(alloc, word)?)?,
            Err(_) => stand_for(alloc, &mut words, number, bytes)?,
        }
    }
    Ok(words)
}

/// Puts a stand-in after the words for one of these bytes, which aren't UTF-8.
fn stand_for(
    alloc: Global,
    words: &mut Words,
    number: usize,
    bytes: &[u8],
) -> Result<(), AllocError> {
    if number < 2 || bytes.starts_with(b"-") {
        let name = format!(in alloc; "argument {number} isn't UTF-8")?;
        words.wrong.get_or_insert(name);
    }
    words
        .words
        .push(format!(in alloc; "{MARK}argument {number} isn't UTF-8")?)?;
    Ok(())
}
