//! Prints a document and reads the text again.
#![tactic(auto)]

ghost use Rattle.std.specs.Prelude.{◌≡◌, IfErr, IfOk};
ghost use Rattle.raw_view.specs.Document.{bytes_of};
ghost use Rattle.json_round_trip.specs.Closing.{IsOutOfMemory, IsReadAgain, IsReturning, IsWithin, TellsRoundTripError};

use bson_from_json::{JsonError, from_json};
use bson_to_json::{Format, Layout, Style, ToJsonError, to_json};
use raw_bson::{Limits, RawDocument, RawDocumentBuf};
use std::alloc::Global;

/// Why a document isn't printed, or its text can't be read.
#[derive(Debug, Drop)]
pub enum RoundTripError<'a> {
    /// It isn't printed.
    Print(ToJsonError<'a>),
    /// Its text can't be read.
    Read(JsonError),
}

/// Prints a document as MongoDB Extended JSON v2 in the canonical format, as `to_json` does, and reads the text
/// again, as `from_json` does. A canonical document comes back byte by byte, unless it has a NaN other than the
/// default one, a decimal that isn't canonical, or a nested document with the key of a wrapper. For a document
/// that comes back and is within the limits, the only error is out of memory.
/// ```
/// let document = RawDocument::from_bytes(b"\x10\0\0\0\x12a\0\x01\0\0\0\0\0\0\0\0")?;
/// let again = round_trip(alloc, document, Layout::Indented, Limits { bytes: 1000, depth: 10 }).map_err(|_| NoMemory)?;
/// assert_eq!(rt; again.as_bytes(), document.as_bytes());
/// ```
pub fn round_trip<'a>(
    alloc: Global,
    document: RawDocument<'a>,
    layout: Layout,
    limits: Limits,
) -> Result<RawDocumentBuf, RoundTripError<'a>>
    ensures read { IfOk result (IsReadAgain (bytes_of document.entry) layout) }
    ensures same { IfOk result (λ again. IsReturning (bytes_of document.entry) → again ≡ bytes_of document.entry) }
    ensures error { IfErr result (TellsRoundTripError limits (bytes_of document.entry) layout) }
    ensures memory { IfErr result (λ error. IsReturning (bytes_of document.entry) → IsWithin limits (bytes_of document.entry) → IsOutOfMemory error) }
{
    let style = Style {
        format: Format::Canonical,
        layout,
    };
    let text = match to_json(alloc, document, style, limits) {
        Ok(text) => text,
        Err(error) => return Err(RoundTripError::Print(error)),
    };
    match from_json(alloc, text.as_str(), limits) {
        Ok(again) => Ok(again),
        Err(error) => Err(RoundTripError::Read(error)),
    }
}
