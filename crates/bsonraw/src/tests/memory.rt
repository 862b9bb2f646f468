//! Tests that `bin/test` runs with each request for memory refused in turn, alone.

use super::documents::{GREETING, NEGATIVE_DOCUMENT_LENGTH};
use crate::answer::answer;
use crate::run::run;
use std::alloc::Global;
use std::process::Abort;

/// A command, a text, and what is printed of it with ample memory.
type Row = (&'static str, &'static str, u8, &'static str);

const ROWS: &[Row] = &[
    ("list", GREETING, 0, "02 6869 10\nend\n"),
    (
        "canon",
        GREETING,
        0,
        "1300000002686900060000007927616c6c0000\n",
    ),
    ("list", NEGATIVE_DOCUMENT_LENGTH, 1, "fault malformed 61\n"),
    ("canon", NEGATIVE_DOCUMENT_LENGTH, 1, "fault malformed 61\n"),
];

/// Whether the answer is that of the row, or status 4 and nothing.
fn is_row_or_nothing(alloc: Global, (command, text, status, output): Row) -> bool {
    let (found, printed) = answer(alloc, command, text.as_bytes());
    let is_right = (found == status && printed.as_slice() == output.as_bytes())
        || (found == 4 && printed.is_empty());
    drop(printed);
    is_right
}

#[test]
fn an_answer_or_out_of_memory(rt: HostRuntime) {
    for (row, wanted) in ROWS.iter().enumerate() {
        assert!(rt; is_row_or_nothing(rt.alloc(), *wanted), "row {row}");
    }
}

/// Whether a run ends as the row says; or it ends with status 4, or 5 if memory for reading ran out, and writes nothing. The writer takes no
/// memory.
fn is_run_or_nothing(alloc: Global, (command, text, status, output): Row) -> bool {
    let mut reader = text.as_bytes();
    let mut room = [0; 64];
    let mut writer = room.as_mut_slice();
    let found = run(alloc, command, &mut reader, &mut writer);
    let left = writer.len();
    let taken = room.len().wrapping_sub(left);
    (found == status && room.get(..taken) == Some(output.as_bytes()))
        || (found == 4 && taken == 0)
        || (found == 5 && taken == 0)
}

#[test]
fn a_run_or_out_of_memory(rt: HostRuntime) {
    for (row, wanted) in ROWS.iter().enumerate() {
        assert!(rt; is_run_or_nothing(rt.alloc(), *wanted), "row {row}");
    }
}
