//! What the program prints: worked documents, damaged ones compared with a slow lister, and runs whose memory, reads or writes fail.

mod damage;
mod documents;
mod levels;
mod lister;
mod memory;
mod rows;
mod streams;

use crate::answer::answer;
use std::alloc::Global;
use std::process::Abort;

/// A text, and the exit status and the output of a command on it.
type Row = (&'static str, u8, &'static str);

const USAGE_LINE: &str = "usage: bsonraw list|canon|check\n";

/// Whether a command on a text ends with this status and prints this.
fn is_answer(alloc: Global, command: &str, text: &str, status: u8, output: &str) -> bool {
    let (found, printed) = answer(alloc, command, text.as_bytes());
    let is_right = found == status && printed.as_slice() == output.as_bytes();
    drop(printed);
    is_right
}

/// Ends the test, and names the command and the text, if this isn't right.
fn require(rt: &impl Abort, is_right: bool, command: &str, text: &str) {
    assert!(*rt; is_right, "{command} {text}");
}

/// The command has to print what each row says.
fn require_rows(rt: &impl Abort, alloc: Global, command: &str, rows: &[Row]) {
    for (text, status, output) in rows {
        let is_right = is_answer(alloc, command, text, *status, output);
        require(rt, is_right, command, text);
    }
}
