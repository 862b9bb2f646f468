//! Lines in colors, as grep and ls have them.
#![tactic(auto)]

ghost use Rattle.std.specs.Prelude.{None, if◌then◌else◌};

use crate::files::bytes::{About, Bytes, bytes_of, parted};
use std::alloc::{AllocError, Global};
use std::io::Write;
use std::{env, io};

/// When lines are in colors.
#[derive(Clone, Copy)]
pub enum When {
    /// on a terminal that knows colors, unless NO_COLOR is set
    Auto,
    Always,
    Never,
}

const NAME: &[u8] = b"\x1b[35m";

const NUMBER: &[u8] = b"\x1b[32m";

const KEY: &[u8] = b"\x1b[36m";

const FAULT: &[u8] = b"\x1b[1;31m";

const FAINT: &[u8] = b"\x1b[2m";

const END: &[u8] = b"\x1b[m";

/// Words with which the reason of a finding begins, or a fault in a list.
const FAULTS: &[&[u8]] = &[
    b"damaged",
    b"replaced",
    b"too deep",
    b"unsound length",
    b"wrong length",
    b"cut off",
    b"repeated-key",
    b"array-key",
    b"options",
];

/// Whether lines that go to a terminal or not are in colors.
pub fn are_colored(rt: &HostRuntime, when: When, is_terminal: bool) -> bool {
    match when {
        When::Always => true,
        When::Never => false,
        When::Auto => is_terminal && !is_set(rt, "NO_COLOR") && !is_dumb(rt),
    }
}

fn is_set(rt: &HostRuntime, name: &str) -> bool {
    env::var(rt, name).is_ok_and(|value| !value.as_str().is_empty())
}

/// Whether the terminal knows no colors.
fn is_dumb(rt: &HostRuntime) -> bool {
    env::var(rt, "TERM").is_ok_and(|kind| kind.as_str() == "dumb")
}

/// A writer of whole lines, which may be in colors.
#[derive(Drop)]
pub struct Colors<W> {
    /// what takes the lines
    pub writer: W,
    /// whether they are in colors
    pub on: bool,
    pub alloc: Global,
}

impl<W: Write> Write for Colors<W> {
    ghost contents = { λ colors. if colors.on then None else W.contents colors.writer };

    fn write(&mut self, buf: &[u8]) -> io::Result<usize> {
        if !self.on {
            return self.writer.write(buf);
        }
        let Ok(text) = painted(self.alloc, buf) else {
            return Err(io::Error::from(io::ErrorKind::OutOfMemory));
        };
        self.writer.write_all(&text)?;
        Ok(buf.len())
    }

    fn flush(&mut self) -> io::Result<()> {
        self.writer.flush()
    }
}

/// These lines in colors.
fn painted(alloc: Global, lines: &[u8]) -> Result<Vec<u8>, AllocError> {
    let mut text = Vec::new(alloc);
    for line in lines.split_inclusive(|byte| *byte == b'\n') {
        paint_line(&mut text, line)?;
    }
    Ok(text)
}

/// Puts a line after the others that shows bytes.
fn paint_bytes(text: &mut Vec<u8>, line: Bytes<'_>) -> Result<(), AllocError> {
    text.extend_from_slice(b"  ")?;
    paint(text, NUMBER, line.offset)?;
    let (before, marked, after) = parted(line.bytes);
    text.extend_from_slice(before)?;
    paint(text, FAULT, marked)?;
    text.extend_from_slice(after)?;
    match color_of(line.about) {
        Some(color) => paint(text, color, line.words)?,
        None => text.extend_from_slice(line.words)?,
    }
    text.extend_from_slice(b"\n")
}

fn color_of(about: About) -> Option<&'static [u8]> {
    match about {
        About::Fault => Some(FAULT),
        About::Key => Some(KEY),
        About::Tag => Some(NAME),
        About::Length | About::End | About::More => Some(FAINT),
        About::Value => None,
    }
}

/// Puts a line after the others: a name or a key, the offset after a name, and what is found. A line of counts stays as it is.
fn paint_line(text: &mut Vec<u8>, line: &[u8]) -> Result<(), AllocError> {
    if let Some(bytes) = bytes_of(line) {
        return paint_bytes(text, bytes);
    }
    let indent = line.iter().take_while(|byte| **byte == b' ').count();
    let (spaces, rest) = line.split_at(indent.min(line.len()));
    let (quote, rest) = rest.split_at(quoted_len(rest).min(rest.len()));
    if rest.starts_with(b": documents: ") || (spaces.is_empty() && quote.is_empty()) {
        return text.extend_from_slice(line);
    }
    text.extend_from_slice(spaces)?;
    paint(text, if spaces.is_empty() { NAME } else { KEY }, quote)?;
    let rest = paint_number(text, rest)?;
    paint_fault(text, rest)
}

/// Puts a colon and the digits after it, and returns what is after them.
fn paint_number<'a>(text: &mut Vec<u8>, rest: &'a [u8]) -> Result<&'a [u8], AllocError> {
    let [b':', after @ ..] = rest else {
        return Ok(rest);
    };
    text.push(b':')?;
    let len = after
        .iter()
        .take_while(|byte| byte.is_ascii_digit())
        .count();
    let (digits, rest) = after.split_at(len.min(after.len()));
    paint(text, NUMBER, digits)?;
    Ok(rest)
}

/// Puts the rest of a line, with what is found in a color. What is in quotes is a value or a path.
fn paint_fault(text: &mut Vec<u8>, rest: &[u8]) -> Result<(), AllocError> {
    let end = rest.iter().take_while(|byte| **byte != b'"').count();
    for at in 0..end.min(rest.len()) {
        let (before, fault) = rest.split_at(at);
        if let Some(len) = fault_len(before, fault) {
            let (word, after) = fault.split_at(len.min(fault.len()));
            text.extend_from_slice(before)?;
            paint(text, FAULT, word)?;
            return text.extend_from_slice(after);
        }
    }
    text.extend_from_slice(rest)
}

/// How many bytes the word of a fault has, if one is there, after these bytes.
fn fault_len(before: &[u8], fault: &[u8]) -> Option<usize> {
    if !before.is_empty() && !before.ends_with(b" ") {
        return None;
    }
    for word in FAULTS {
        if fault.starts_with(word) {
            return Some(word.len());
        }
    }
    None
}

/// Puts bytes in a color, if there are any.
fn paint(text: &mut Vec<u8>, color: &[u8], bytes: &[u8]) -> Result<(), AllocError> {
    if bytes.is_empty() {
        return Ok(());
    }
    text.extend_from_slice(color)?;
    text.extend_from_slice(bytes)?;
    text.extend_from_slice(END)
}

/// How many bytes the text in quotes has with which these begin; 0 where they begin with none.
fn quoted_len(bytes: &[u8]) -> usize {
    if !bytes.starts_with(b"\"") {
        return 0;
    }
    let mut is_escaped = false;
    for (at, byte) in bytes.iter().enumerate().skip(1) {
        if is_escaped {
            is_escaped = false;
        } else if *byte == b'\\' {
            is_escaped = true;
        } else if *byte == b'"' {
            return at.saturating_add(1);
        }
    }
    0
}
