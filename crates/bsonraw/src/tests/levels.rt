//! Documents of many levels and long keys.

use super::{is_answer, require};
use std::alloc::{AllocError, Global};
use std::process::Abort;

/// What holds the next level.
#[derive(Clone, Copy)]
struct Level {
    /// the number of bytes of the level besides those of the next one
    size: u32,
    /// the digits of the tag and the key
    element: &'static str,
    /// whether the next one is the scope of the empty code
    is_scope: bool,
}

/// A document under the empty key.
const DOCUMENT: Level = Level {
    size: 7,
    element: "0300",
    is_scope: false,
};

/// An array under the key `0`.
const ARRAY: Level = Level {
    size: 8,
    element: "043000",
    is_scope: false,
};

/// The scope of the empty code, under the empty key.
const SCOPE: Level = Level {
    size: 16,
    element: "0f00",
    is_scope: true,
};

fn push_number(alloc: Global, text: &mut String, number: u32) -> Result<(), AllocError> {
    text.push_str(&hex::encode(alloc, number.to_le_bytes())?)
}

/// The length of a level, and what is before the next one.
fn push_head(alloc: Global, text: &mut String, level: Level, len: u32) -> Result<(), AllocError> {
    push_number(alloc, text, len)?;
    text.push_str(level.element)?;
    if level.is_scope {
        // a code with scope begins with its length, 7 less than that of its level
        push_number(alloc, text, len.saturating_sub(7))?;
        text.push_str("0100000000")?;
    }
    Ok(())
}

/// The text of this many levels: the innermost is empty, and each other level holds the next one alone.
fn levels(alloc: Global, level: Level, count: u32) -> Result<String, AllocError> {
    let mut text = String::new(alloc);
    for inside in (1..count).rev() {
        let len = inside.saturating_mul(level.size).saturating_add(5);
        push_head(alloc, &mut text, level, len)?;
    }
    text.push_str("0500000000")?;
    for _ in 1..count {
        text.push_str("00")?;
    }
    text.push_str("\n")?;
    Ok(text)
}

/// Whether a text has this many bytes, begins with these digits, and a command prints this of it.
fn is_answered(
    alloc: Global,
    command: &str,
    text: &str,
    (bytes, header): (usize, &str),
    (status, output): (u8, &str),
) -> bool {
    text.len() == bytes.wrapping_mul(2).wrapping_add(1)
        && text.starts_with(header)
        && is_answer(alloc, command, text, status, output)
}

/// Levels with their number of bytes and their header, 500 of each kind.
const LEVELS: &[(Level, usize, &str)] = &[
    (DOCUMENT, 3498, "aa0d0000"),
    (ARRAY, 3997, "9d0f0000"),
    (SCOPE, 7989, "351f0000"),
];

#[test]
fn five_hundred_levels_come_back(rt: HostRuntime) {
    for (level, bytes, header) in LEVELS {
        let text = levels(rt.alloc(), *level, 500).expect(&rt, "no memory");
        let is_right = is_answered(rt.alloc(), "canon", &text, (*bytes, *header), (0, &text));
        drop(text);
        require(&rt, is_right, "canon", header);
    }
}

#[test]
fn five_hundred_and_one_levels_are_refused(rt: HostRuntime) {
    let text = levels(rt.alloc(), DOCUMENT, 501).expect(&rt, "no memory");
    let size = (3505, "b10d0000");
    let is_right = is_answered(rt.alloc(), "canon", &text, size, (1, "refused 7\n"))
        && is_answered(rt.alloc(), "check", &text, size, (0, "canonical\n"));
    drop(text);
    assert!(rt; is_right);
}

/// Seventy letters `a` in hex.
const LETTERS: &str =
    "61616161616161616161616161616161616161616161616161616161616161616161616161616161616161616161616161616161616161616161616161616161616161616161";

/// What `list` has to print of a null under the key of these digits; and the text of that document.
fn push_null(
    text: &mut String,
    listing: &mut String,
    digits: &str,
    len: usize,
) -> Result<(), AllocError> {
    let key = if digits.is_empty() { "-" } else { digits };
    write!(text, "{len:02x}0000000a{digits}0000")?;
    write!(listing, "0a {key} 0\nend\n")
}

/// Whether `list` prints it.
fn is_null_listed(alloc: Global, letters: usize) -> bool {
    let mut text = String::new(alloc);
    let mut listing = String::new(alloc);
    let digits = LETTERS.get(..letters.wrapping_mul(2)).unwrap_or("none");
    let is_made = push_null(&mut text, &mut listing, digits, letters.wrapping_add(7)).is_ok();
    let is_right = is_made && is_answer(alloc, "list", &text, 0, &listing);
    drop(text);
    drop(listing);
    is_right
}

#[test]
fn a_null_under_a_key_of_each_short_length(rt: HostRuntime) {
    for letters in 0..=70_usize {
        assert!(rt; is_null_listed(rt.alloc(), letters), "{letters} letters");
    }
}
