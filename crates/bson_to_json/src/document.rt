//! Documents as Extended JSON, within limits.
#![tactic(auto)]

ghost use Rattle.std.specs.Prelude.{◌≡◌, ℕ, List, string_bytes, OnOk, IfOk, IfErr};
ghost use Rattle.std.specs.Str.{IsUtf8};
ghost use Rattle.std.specs.Io.KnownBytes.{Appends};
ghost use Rattle.bson_model.specs.Tree.{Tree};
ghost use Rattle.raw_tree.specs.WithinLimits.{ReadsWithin};
ghost use Rattle.raw_tree.specs.declared.reader.limits.Limits.{Limits};
ghost use Rattle.raw_view.specs.Document.{bytes_of};
ghost use Rattle.bson_to_json.specs.Errors.{IsCaused, TellsJsonError, TellsWriteError};
ghost use Rattle.bson_to_json.specs.Guarding.{failed_of, inner_of};
ghost use Rattle.bson_to_json.specs.Json.{IsJson};
ghost use Rattle.bson_to_json.specs.Measured.{Measures};
ghost use Rattle.bson_to_json.specs.Passing.{TellsBriefly};

use crate::error::{ToJsonError, WriteJsonError};
use crate::guarded::Guarded;
use crate::print::{PrintError, print};
use crate::sink::{Counted, Failure, Measured};
use crate::style::Style;
use raw_tree::Limits;
use raw_view::RawDocument;
use std::alloc::Global;
use std::io::Write;

/// Writes a document within limits as MongoDB Extended JSON v2. Each element is written as it is: repeated keys in
/// order, an array without its keys. If the error is the first barrier, as `first_fault_within` returns it,
/// nothing was written. If it is the error of the writer, or out of memory, a prefix of the text may have been
/// written. It is the error of the writer only if a write failed, which `has_failed` says then. BSON 1.1, `document`.
///
/// Not in the contract: memory is taken for the levels, for the text of one value, and for 4 KiB, which are
/// written in one call. No depth fills the stack.
/// ```
/// let document = RawDocument::from_bytes(b"\x0C\0\0\0\x10a\0\x01\0\0\0\0")?;
/// let style = Style { format: Format::Canonical, layout: Layout::OneLine };
/// let mut out = Guarded::new(Vec::new(alloc));
/// assert!(rt; write_json(alloc, document, style, Limits { bytes: 1000, depth: 10 }, &mut out).is_ok());
/// assert_eq!(rt; out.into_inner().as_slice(), b"{\"a\":{\"$numberInt\":\"1\"}}".as_slice());
/// ```
pub fn write_json<'a, W: Write>(
    alloc: Global,
    document: RawDocument<'a>,
    style: Style,
    limits: Limits,
    out: &mut Guarded<W>,
) -> Result<(), WriteJsonError<'a>>
    ensures text { OnOk result ((text : List ℕ) × IsJson style (bytes_of document.entry) text
        × Appends (W.contents (inner_of out.old)) (W.contents (inner_of out.new)) text) }
    ensures within { OnOk result ((t : Tree) × ReadsWithin limits (bytes_of document.entry) t) }
    ensures same { OnOk result (failed_of out.new ≡ failed_of out.old) }
    ensures err { IfErr result
        (TellsWriteError limits style (bytes_of document.entry) (W.contents (inner_of out.old)) (W.contents (inner_of out.new))) }
    ensures caused { IfErr result (IsCaused (failed_of out.old) (failed_of out.new)) }
{
    match print(alloc, document, style, limits, true, out) {
        Ok(()) => Ok(()),
        Err(PrintError::Barrier(barrier)) => Err(WriteJsonError::Barrier(barrier)),
        Err(PrintError::Failure(Failure::OutOfMemory)) => Err(WriteJsonError::OutOfMemory),
        Err(PrintError::Failure(Failure::Writing(error))) => Err(WriteJsonError::Writing(error)),
    }
}

/// The error of a text in memory. Only out of memory is possible.
fn json_error(error: PrintError<'_>) -> ToJsonError<'_>
    ensures { (limits : Limits)
        → (b : List ℕ)
        → TellsBriefly limits b error.entry
        → TellsJsonError limits b result }
{
    match error {
        PrintError::Barrier(barrier) => ToJsonError::Barrier(barrier),
        PrintError::Failure(_) => ToJsonError::OutOfMemory,
    }
}

/// The JSON text as a string. It is UTF-8, so it isn't tested again.
fn string_of(text: Vec<u8>) -> String
    requires { IsUtf8 text.items }
    ensures { string_bytes result ≡ text.items }
{
    unsafe { String::from_utf8_unchecked(text) }
}

/// A document within limits as MongoDB Extended JSON v2, as `write_json` writes it. The error is the first
/// barrier, as `first_fault_within` returns it, or out of memory. BSON 1.1, `document`.
/// ```
/// let document = RawDocument::from_bytes(b"\x0C\0\0\0\x10a\0\x01\0\0\0\0")?;
/// let style = Style { format: Format::Relaxed, layout: Layout::OneLine };
/// let text = to_json(alloc, document, style, Limits { bytes: 1000, depth: 10 }).map_err(|_| NoMemory)?;
/// assert_eq!(rt; text.as_str(), "{\"a\":1}");
/// ```
pub fn to_json<'a>(
    alloc: Global,
    document: RawDocument<'a>,
    style: Style,
    limits: Limits,
) -> Result<String, ToJsonError<'a>>
    ensures text { IfOk result (λ text. IsJson style (bytes_of document.entry) (string_bytes text)) }
    ensures within { OnOk result ((t : Tree) × ReadsWithin limits (bytes_of document.entry) t) }
    ensures err { IfErr result (TellsJsonError limits (bytes_of document.entry)) }
{
    let mut text = Vec::new(alloc);
    match print(alloc, document, style, limits, false, &mut text) {
        Ok(()) => Ok(string_of(text)),
        Err(error) => Err(json_error(error)),
    }
}

/// The length of a document within limits as MongoDB Extended JSON v2, and the text if it has at most `most`
/// bytes. The error is the first barrier, as `first_fault_within` returns it, or out of memory. BSON 1.1,
/// `document`.
///
/// Not in the contract: memory is taken as by `write_json`, and for at most twice `most` bytes of the text.
/// ```
/// let document = RawDocument::from_bytes(b"\x0C\0\0\0\x10a\0\x01\0\0\0\0")?;
/// let style = Style { format: Format::Relaxed, layout: Layout::OneLine };
/// let text = measured_json(alloc, document, style, Limits { bytes: 1000, depth: 10 }, 6).map_err(|_| NoMemory)?;
/// assert_eq!(rt; text.len, 7);
/// assert!(rt; text.text.is_none());
/// ```
pub fn measured_json<'a>(
    alloc: Global,
    document: RawDocument<'a>,
    style: Style,
    limits: Limits,
    most: usize,
) -> Result<Measured, ToJsonError<'a>>
    ensures text { IfOk result
        (λ m. (text : List ℕ) × IsJson style (bytes_of document.entry) text × Measures most text m) }
    ensures within { OnOk result ((t : Tree) × ReadsWithin limits (bytes_of document.entry) t) }
    ensures err { IfErr result (TellsJsonError limits (bytes_of document.entry)) }
{
    let mut counted = Counted::new(alloc, most);
    if let Err(error) = print(alloc, document, style, limits, false, &mut counted) {
        return Err(json_error(error));
    }
    let len = counted.len;
    if most < len {
        return Ok(Measured { len, text: None });
    }
    Ok(Measured {
        len,
        text: Some(string_of(counted.text)),
    })
}
