//! Tells on standard error what goes wrong, in a line each.
#![tactic(auto)]

ghost use Rattle.std.specs.Prelude.{◌≡◌, ◌++◌, ℕ, List, IfOk, OnOk};
ghost use Rattle.bsonraw_dump.specs.files.Errors.{error_line, input_name, input_words, lack_line, lack_words, place_text};
ghost use Rattle.dump_io.specs.declared.lines.style.Style.TheVariants.{Json, Words};

use dump_io::input::done::Lack;
use dump_io::lines::failure::Failure;
use dump_io::lines::object::error_object;
use dump_io::lines::quote::{push_quoted, quotation};
use dump_io::lines::style::Style;
use dump_io::lines::text::{push_number, push_words};
use std::alloc::{AllocError, Global};
use std::io;
use std::io::Write;

/// Prints these words of a file. If even that fails, nothing is printed.
pub fn tell_text(rt: &HostRuntime, style: Style, name: &str, text: &str) {
    match line_of(rt.alloc(), style, name, None, text) {
        Ok(line) => put(rt, &line),
        Err(_) => tell_words(rt, style, "not enough memory"),
    }
}

/// Reports what goes wrong with a file, and after how many bytes, if some were read. If even that fails, nothing is reported.
pub fn tell(rt: &HostRuntime, style: Style, name: &str, at: Option<u64>, error: &io::Error) {
    match told(rt, style, name, at, error) {
        Ok(line) => put(rt, &line),
        Err(_) => tell_words(rt, style, "not enough memory"),
    }
}

fn told(
    rt: &HostRuntime,
    style: Style,
    name: &str,
    at: Option<u64>,
    error: &io::Error,
) -> Result<Vec<u8>, AllocError>
    ensures { IfOk result (λ line. (text : List ℕ) × (line.items ≡ error_line style name.now at text)) }
{
    let text = format!(in rt.alloc(); "{error}")?;
    line_of(rt.alloc(), style, name, at, text.as_str())
}

/// The line of what goes wrong with a file.
fn line_of(
    alloc: Global,
    style: Style,
    name: &str,
    at: Option<u64>,
    text: &str,
) -> Result<Vec<u8>, AllocError>
    ensures { IfOk result (λ line. line.items ≡ error_line style name.now at text.now) }
{
    match style {
        Style::Words | Style::Quiet => words_of(alloc, name, at, text),
        Style::Json => error_object(alloc, name, at, text),
    }
}

fn words_of(alloc: Global, name: &str, at: Option<u64>, text: &str) -> Result<Vec<u8>, AllocError>
    ensures { IfOk result (λ line. line.items ≡ error_line Words name.now at text.now) }
{
    let mut line = Vec::from_slice(alloc, b"bsonraw-dump: ")?;
    push_quoted(&mut line, name)?;
    push_place(&mut line, at)?;
    push_words(&mut line, ": ")?;
    push_words(&mut line, text)?;
    push_words(&mut line, "\n")?;
    Ok(line)
}

fn push_place(line: &mut Vec<u8>, at: Option<u64>) -> Result<(), AllocError>
    ensures { OnOk result (line.new.items ≡ line.old.items ++ place_text at) }
{
    match at {
        Some(at) => {
            push_words(line, ":")?;
            push_number(line, at)
        }
        None => Ok(()),
    }
}

fn put(rt: &HostRuntime, line: &[u8]) {
    let _told = rt.stderr().write_all(line);
}

/// Tells that a file isn't written, and why not; of an input that could be read on, in these words.
pub fn tell_lack(rt: &HostRuntime, style: Style, way_on: &str, name: &str, lack: &Lack<'_>) {
    match lack_of(rt.alloc(), style, way_on, name, lack) {
        Ok(line) => put(rt, &line),
        Err(_) => tell_words(rt, style, "not enough memory"),
    }
}

/// The line of a file that isn't written.
fn lack_of(
    alloc: Global,
    style: Style,
    way_on: &str,
    name: &str,
    lack: &Lack<'_>,
) -> Result<Vec<u8>, AllocError>
    ensures { IfOk result (λ line. line.items ≡ lack_line way_on.now style name.now lack.now) }
{
    match style {
        Style::Words | Style::Quiet => lack_words_of(alloc, way_on, name, lack),
        Style::Json => lack_object_of(alloc, way_on, name, lack),
    }
}

fn lack_words_of(
    alloc: Global,
    way_on: &str,
    name: &str,
    lack: &Lack<'_>,
) -> Result<Vec<u8>, AllocError>
    ensures { IfOk result (λ line. line.items ≡ lack_line way_on.now Words name.now lack.now) }
{
    let mut line = quotation(alloc, name)?;
    push_words(&mut line, ": not written: ")?;
    push_input(&mut line, lack)?;
    push_words(&mut line, why(way_on, lack))?;
    push_words(&mut line, "\n")?;
    Ok(line)
}

/// After the text, the input for which a file isn't written, in quotes.
fn push_input(line: &mut Vec<u8>, lack: &Lack<'_>) -> Result<(), AllocError>
    ensures { OnOk result (line.new.items ≡ line.old.items ++ input_words lack.now) }
{
    match lack {
        Lack::Cut(cut) => push_quoted(line, cut.name),
        Lack::Failed(_) => Ok(()),
    }
}

fn lack_object_of(
    alloc: Global,
    way_on: &str,
    name: &str,
    lack: &Lack<'_>,
) -> Result<Vec<u8>, AllocError>
    ensures { IfOk result (λ line. line.items ≡ lack_line way_on.now Json name.now lack.now) }
{
    let mut text = String::from_str(alloc, "not written: ")?;
    text.push_str(input_of(lack))?;
    text.push_str(why(way_on, lack))?;
    error_object(alloc, name, None, text.as_str())
}

/// The input for which a file isn't written.
fn input_of<'a>(lack: &Lack<'a>) -> &'a str
    ensures { result.now ≡ input_name lack.now }
{
    match lack {
        Lack::Cut(cut) => cut.name,
        Lack::Failed(_) => "",
    }
}

/// Why a file isn't written, after the name of the input, if it is for one.
fn why<'a>(way_on: &'a str, lack: &Lack<'_>) -> &'a str
    ensures { result.now ≡ lack_words way_on.now lack.now }
{
    match lack {
        Lack::Cut(cut) => {
            if cut.goes_on {
                way_on
            } else {
                " wasn't read to its end"
            }
        }
        Lack::Failed(Failure::Memory) => "not enough memory",
        Lack::Failed(_) => "writing failed",
    }
}

/// Tells what goes wrong with no file.
pub fn tell_words(rt: &HostRuntime, style: Style, words: &str) {
    match style {
        Style::Words | Style::Quiet => {
            let _told = eprintln!(rt; "bsonraw-dump: {words}");
        }
        Style::Json => {
            let _told = eprintln!(rt; "{{\"error\":\"{words}\"}}");
        }
    }
}

/// Clears the line of a terminal that shows how far the reading has come.
pub fn clear_line(rt: &HostRuntime) {
    let _shown = rt.stderr().write_all(b"\x1b[K");
}
