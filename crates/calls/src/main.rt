//! Runs the calls of the library that lines of standard input name, and prints what each returns. `stdin` has calls alone, `stdout` their
//! answers, which are written by hand: the program sees no answer.
//!
//! A line is a call and its arguments, words with blanks between them; one that begins with `#` is printed as it is. A call is named by its
//! path, as `RawDocument::get_str`. `NAME = CALL ..` gives a name to the document, array, value, tree or shelf that a call makes, and prints
//! `ok`; later lines use it. A call of `RawDocument` or `RawArray` takes a document's name, and its view or the array of its bytes.
//!
//! - A text is in quotes, where `\0`, `\"`, `\\` and `\xHH` stand for a character, also for a blank; `a*70` is 70 times the letter.
//! - Bytes are hexadecimal digits, `-` for none; `00*16` is 16 times the byte. `nest 500 documents` makes this many levels.
//! - A value is the name of its variant and what it holds: `Int32 -1`, `Binary Generic 01`, `Timestamp TIME INCREMENT`; a document or an
//!   array in it is a name, or bytes. In a tree it is pairs between braces, `{ "a" Int32 1 }`, or values between brackets.
//!
//! What is printed has the same form. Of more than a hundred bytes it is the first four and how many there are; of a tree, ten levels. An
//! error is `Err`, its kind and its key, `none` without one, and its text; of a getter the key comes first. Of an iterator it is a line for
//! each item, and `end`.
//!
//! A call that it doesn't know ends the run with status 2, a line that isn't in this form with 3.
#![tactic(auto)]

mod accessors;
mod arrays;
mod cows;
mod documents;
mod errors;
mod failure;
mod getters;
mod laws;
mod leaves;
mod line;
mod nests;
mod owned;
mod put;
mod shelves;
mod shown;
mod shown_errors;
mod shown_trees;
mod shown_values;
mod smalls;
mod store;
mod tree;
mod trees;
mod values;
mod views;
mod words;

use failure::Failure;
use std::alloc::Global;
use std::io::Read;
use std::process::ExitCode;
use store::Store;

/// Runs the lines of a text in order, up to the first that fails: its number, and why.
fn run_lines(alloc: Global, text: &str, out: &mut String) -> Result<(), (usize, Failure)> {
    let mut store = Store::new(alloc);
    let mut number: usize = 0;
    for line in text.lines() {
        number = number.saturating_add(1);
        if let Err(failure) = line::run(alloc, &mut store, line, out) {
            return Err((number, failure));
        }
    }
    Ok(())
}

fn main(rt: HostRuntime) -> ExitCode {
    let alloc = rt.alloc();
    let mut text = String::new(alloc);
    if rt.stdin().read_to_string(&mut text).is_err() {
        return ExitCode::from(Failure::Io.code());
    }
    let mut out = String::new(alloc);
    let ran = run_lines(alloc, text.as_str(), &mut out);
    if rt.print(out.as_str()).is_err() {
        return ExitCode::from(Failure::Io.code());
    }
    match ran {
        Ok(()) => ExitCode::from(0),
        Err((number, failure)) => {
            let _ = eprintln!(rt; "calls: line {number}: {}", failure.text());
            ExitCode::from(failure.code())
        }
    }
}
