//! The values of a document at paths, as a row of a table.
#![tactic(auto)]

ghost use Rattle.std.specs.Prelude.{◌≡◌, ◌++◌, ◌∷◌, [], flat_map, IfOk, OnOk};
ghost use Rattle.std.specs.List.{list_any};
ghost use Rattle.raw_view.specs.Document.{bytes_of};
ghost use Rattle.dump_commands.specs.elements.Pick.{comma, parts};
ghost use Rattle.dump_commands.specs.elements.Row.{IsCellAt, IsRow, doubled, escaped, filled, needs_quotes, row_of, separator_byte, written};

use crate::elements::cell::cell;
use crate::elements::pick::element_at;
use crate::picking::Separator;
use raw_view::RawDocument;
use std::alloc::{AllocError, Global};

/// The row of the values to which these paths lead. A value of more levels than `depth` counts as out of memory.
pub fn row(
    alloc: Global,
    document: RawDocument<'_>,
    paths: &str,
    separator: Separator,
    depth: usize,
) -> Result<Vec<u8>, AllocError>
    ensures { IfOk result (λ row. IsRow separator (bytes_of document.entry) (parts comma paths.now) row.items) }
{
    let mut row = Vec::new(alloc);
    let mut rest = paths;
    'paths: while let Some((path, more)) = rest.split_once(',') {
        let text = cell_at(alloc, document, path, depth)?;
        push_cell(&mut row, separator, &text)?;
        row.push(byte_of(separator))?;
        rest = more;
    }
    let text = cell_at(alloc, document, rest, depth)?;
    push_cell(&mut row, separator, &text)?;
    end(&mut row, separator)?;
    Ok(row)
}

/// The row of these paths themselves.
pub fn header(alloc: Global, paths: &str, separator: Separator) -> Result<Vec<u8>, AllocError>
    ensures { IfOk result (λ row. row.items ≡ row_of separator (parts comma paths.now)) }
{
    let mut row = Vec::new(alloc);
    let mut rest = paths;
    'paths: while let Some((path, more)) = rest.split_once(',') {
        push_cell(&mut row, separator, path.as_bytes())?;
        row.push(byte_of(separator))?;
        rest = more;
    }
    push_cell(&mut row, separator, rest.as_bytes())?;
    end(&mut row, separator)?;
    Ok(row)
}

/// Ends a row. With commas no line is empty: an empty cell alone is in quotes, since readers pass over empty lines.
fn end(row: &mut Vec<u8>, separator: Separator) -> Result<(), AllocError>
    ensures { OnOk result (row.new.items ≡ filled separator row.old.items ++ 10 ∷ []) }
{
    if row.is_empty() && matches!(separator, Separator::Comma) {
        row.extend_from_slice(b"\"\"")?;
    }
    row.push(b'\n')?;
    Ok(())
}

/// What is between two cells.
fn byte_of(separator: Separator) -> u8
    ensures { result ≡ separator_byte separator }
{
    match separator {
        Separator::Comma => b',',
        Separator::Tab => b'\t',
    }
}

/// Puts a cell with this text after the others.
fn push_cell(row: &mut Vec<u8>, separator: Separator, text: &[u8]) -> Result<(), AllocError>
    ensures { OnOk result (row.new.items ≡ row.old.items ++ written separator text.now) }
{
    match separator {
        Separator::Comma if has_mark(text) => push_quoted(row, text),
        Separator::Comma => row.extend_from_slice(text),
        Separator::Tab => push_escaped(row, text),
    }
}

/// Whether a text has a byte for which it has to be in quotes.
fn has_mark(text: &[u8]) -> bool
    ensures { result ≡ list_any needs_quotes text.now }
{
    let mut rest = text;
    'bytes: while let [byte, more @ ..] = rest {
        if is_mark(*byte) {
            return true;
        }
        rest = more;
    }
    false
}

fn is_mark(byte: u8) -> bool
    ensures { result ≡ needs_quotes byte }
{
    byte == b',' || byte == b'"' || byte == b'\n' || byte == b'\r'
}

/// Puts a text in quotes after the others, with each quote in it twice.
fn push_quoted(row: &mut Vec<u8>, text: &[u8]) -> Result<(), AllocError>
    ensures { OnOk result (row.new.items ≡ row.old.items ++ 34 ∷ (flat_map doubled text.now ++ 34 ∷ [])) }
{
    row.push(b'"')?;
    push_doubled(row, text)?;
    row.push(b'"')?;
    Ok(())
}

fn push_doubled(row: &mut Vec<u8>, text: &[u8]) -> Result<(), AllocError>
    ensures { OnOk result (row.new.items ≡ row.old.items ++ flat_map doubled text.now) }
{
    for byte in text {
        if *byte == b'"' {
            row.push(b'"')?;
        }
        row.push(*byte)?;
    }
    Ok(())
}

/// Puts a text after the others, with tabs, line ends and backslashes escaped.
fn push_escaped(row: &mut Vec<u8>, text: &[u8]) -> Result<(), AllocError>
    ensures { OnOk result (row.new.items ≡ row.old.items ++ flat_map escaped text.now) }
{
    for byte in text {
        push_escape(row, *byte)?;
    }
    Ok(())
}

fn push_escape(row: &mut Vec<u8>, byte: u8) -> Result<(), AllocError>
    ensures { OnOk result (row.new.items ≡ row.old.items ++ escaped byte) }
{
    match byte {
        b'\t' => row.extend_from_slice(b"\\t"),
        b'\n' => row.extend_from_slice(b"\\n"),
        b'\r' => row.extend_from_slice(b"\\r"),
        b'\\' => row.extend_from_slice(b"\\\\"),
        _ => row.extend_from_slice(&[byte]),
    }
}

/// The text of the value to which a path leads; none where it leads to nothing.
fn cell_at(
    alloc: Global,
    document: RawDocument<'_>,
    path: &str,
    depth: usize,
) -> Result<Vec<u8>, AllocError>
    ensures { IfOk result (λ text. IsCellAt (bytes_of document.entry) path.now text.items) }
{
    match element_at(document, path) {
        Some(element) => cell(alloc, element, depth),
        None => Ok(Vec::new(alloc)),
    }
}
