//! Documents that are cut off, and documents with a bit flipped: `list` is compared with the slow lister, `canon` with itself, and `check`
//! with `canon`. All are far within the limits of `canon`, so that it refuses none of them for a limit.

use super::documents::{DOCUMENTS, bytes_of};
use super::lister::{Listing, listing_of, refusal_of};
use super::{is_answer, require};
use crate::answer::answer;
use std::alloc::Global;
use std::process::Abort;

/// Whether a command prints this refusal.
fn is_refused(alloc: Global, command: &str, text: &str, refusal: &str) -> bool {
    is_answer(alloc, command, text, 1, refusal)
}

/// Whether `canon` prints this text as it is, and a line end.
fn is_unchanged(alloc: Global, text: &str) -> bool {
    let (status, output) = answer(alloc, "canon", text.as_bytes());
    let is_right = status == 0 && output.strip_suffix(b"\n") == Some(text.as_bytes());
    drop(output);
    is_right
}

/// Whether this may be the output of `canon` for a document whose walk is sound or not: a form, which is its own form, or a fault.
fn is_form_or_fault(alloc: Global, is_sound: bool, status: u8, output: &[u8]) -> bool {
    match (status, output) {
        (0, [form @ .., b'\n']) => is_sound && is_form(alloc, form),
        (1, line) => line.starts_with(b"fault malformed ") || line.starts_with(b"fault utf8 "),
        _ => false,
    }
}

fn is_form(alloc: Global, form: &[u8]) -> bool {
    match str::from_utf8(form) {
        Ok(text) => is_unchanged(alloc, text),
        Err(_) => false,
    }
}

/// Whether `canon` prints a form or a fault. A document has a form only if its walk ends at its final 0.
fn is_canonized(alloc: Global, text: &str, is_sound: bool) -> bool {
    let (status, output) = answer(alloc, "canon", text.as_bytes());
    let is_right = is_form_or_fault(alloc, is_sound, status, &output);
    drop(output);
    is_right
}

/// Whether `check` calls a document canonical if and only if `canon` prints it as it is, and otherwise says its breach.
fn is_checked(alloc: Global, text: &str) -> bool {
    let (status, output) = answer(alloc, "check", text.as_bytes());
    let is_right = if is_unchanged(alloc, text) {
        status == 0 && output.as_slice() == b"canonical\n".as_slice()
    } else {
        status == 1 && output.starts_with(b"breach ")
    };
    drop(output);
    is_right
}

/// Whether all three commands print this refusal; if there is none, whether `list` prints what the slow lister does, and the others agree.
fn is_answered(alloc: Global, text: &str, refusal: Option<&str>, listing: &Listing) -> bool {
    match refusal {
        Some(line) => {
            is_refused(alloc, "list", text, line)
                && is_refused(alloc, "canon", text, line)
                && is_refused(alloc, "check", text, line)
        }
        None => {
            is_answer(alloc, "list", text, listing.status, &listing.output)
                && is_canonized(alloc, text, listing.status == 0)
                && is_checked(alloc, text)
        }
    }
}

/// Whether the commands print of these bytes what they have to.
fn is_right(alloc: Global, bytes: &[u8]) -> bool {
    match (hex::encode(alloc, bytes), listing_of(alloc, bytes)) {
        (Ok(text), Ok(listing)) => is_answered(alloc, &text, refusal_of(bytes), &listing),
        _ => false,
    }
}

/// How many documents were compared, and how many of them are refused.
#[derive(Drop)]
struct Counts {
    compared: usize,
    refused: usize,
}

impl Counts {
    /// Ends the test if the commands don't print of the bytes what they have to.
    fn compare(&mut self, rt: &impl Abort, alloc: Global, bytes: &[u8]) {
        assert!(*rt; is_right(alloc, bytes), "{bytes:?}");
        let refused = usize::from(refusal_of(bytes).is_some());
        self.compared = self.compared.wrapping_add(1);
        self.refused = self.refused.wrapping_add(refused);
    }

    /// Compares the first 5 bytes and more, with their number in the header and a final 0. The longest come first: so no byte of a shorter one
    /// is changed.
    fn compare_cut(&mut self, rt: &impl Abort, alloc: Global, bytes: &mut [u8]) {
        for len in (5..=bytes.len()).rev() {
            if let Some(cut) = bytes.get_mut(..len) {
                seal(cut);
                self.compare(rt, alloc, cut);
            }
        }
    }

    /// Compares the bytes with each of their bits flipped.
    fn compare_flipped(&mut self, rt: &impl Abort, alloc: Global, bytes: &mut [u8]) {
        for place in 0..bytes.len() {
            for bit in BITS {
                flip(bytes, place, *bit);
                self.compare(rt, alloc, bytes);
                flip(bytes, place, *bit);
            }
        }
    }
}

/// Sets the header to the length, and the last byte to 0.
fn seal(bytes: &mut [u8]) {
    let len = bytes.len();
    if let Some(header) = bytes.get_mut(..4) {
        header.copy_from_slice(&len.to_le_bytes()[..4]);
    }
    if let Some(last) = bytes.last_mut() {
        *last = 0;
    }
}

/// Each bit of a byte.
const BITS: &[u8] = &[1, 2, 4, 8, 16, 32, 64, 128];

fn flip(bytes: &mut [u8], place: usize, bit: u8) {
    if let Some(byte) = bytes.get_mut(place) {
        *byte ^= bit;
    }
}

/// The bytes of all 25 documents together.
const BYTES: usize = 355;

/// A document of n bytes is cut off in n - 4 ways, and never refused.
#[test]
fn documents_that_are_cut_off(rt: HostRuntime) {
    let mut counts = Counts {
        compared: 0,
        refused: 0,
    };
    for text in DOCUMENTS {
        let mut bytes = bytes_of(rt.alloc(), text).expect(&rt, "no hex");
        counts.compare_cut(&rt, rt.alloc(), &mut bytes);
        drop(bytes);
    }
    assert!(rt; counts.compared == BYTES - 4 * 25 && counts.refused == 0);
}

/// Eight bits of each byte are flipped; the 32 of a header and the 8 of a final 0 leave what is refused.
#[test]
fn documents_with_a_bit_flipped(rt: HostRuntime) {
    let mut counts = Counts {
        compared: 0,
        refused: 0,
    };
    for text in DOCUMENTS {
        let mut bytes = bytes_of(rt.alloc(), text).expect(&rt, "no hex");
        counts.compare_flipped(&rt, rt.alloc(), &mut bytes);
        drop(bytes);
    }
    assert!(rt; counts.compared == 8 * BYTES && counts.refused == 40 * 25);
}
