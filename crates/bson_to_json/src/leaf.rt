//! Values that hold no others.
#![tactic(auto)]

ghost use Rattle.std.specs.Prelude.{◌≤◌, ◌++◌, length, OnOk};
ghost use Rattle.std.specs.Io.KnownBytes.{Appends};
ghost use Rattle.base64.specs.Engines.{standard};
ghost use Rattle.base64.specs.GeneralPurpose.{encode_of};
ghost use Rattle.bson_model.specs.Scalars.{bytes_of_object_id};
ghost use Rattle.hex.specs.Hex.{encode_lower};
ghost use Rattle.json.specs.Print.{quoted};
ghost use Rattle.raw_view.specs.Meaning.Value.{namespace_of, id_of};
ghost use Rattle.bson_to_json.specs.Leaves.{binary_json, int32_json, int64_json, pointer_json, regex_json, timestamp_json};

use crate::put::{put, put_between, put_bytes_between, put_words};
use crate::quote::put_quoted;
use crate::style::Format;
use base64::engine::general_purpose::STANDARD;
use bson_model::{ObjectId, Timestamp};
use itoa::Buffer;
use raw_view::{RawBinaryRef, RawDbPointerRef, RawRegexRef};
use std::io;
use std::io::Write;

/// The number of bytes that are encoded at a time.
const CHUNK: usize = 192;

/// Writes a text in quotes between two others.
pub(crate) fn put_text<W: Write>(
    out: &mut W,
    before: &str,
    text: &str,
    behind: &str,
) -> io::Result<()>
    ensures { OnOk result
        (Appends (W.contents out.old) (W.contents out.new) (before.now ++ (quoted text.now ++ behind.now))) }
{
    put_words(out, before)?;
    put_quoted(out, text)?;
    put_words(out, behind)
}

/// Writes a number of 32 bits.
pub(crate) fn put_int32<W: Write>(out: &mut W, format: Format, number: i32) -> io::Result<()>
    ensures { OnOk result
        (Appends (W.contents out.old) (W.contents out.new) (int32_json format number)) }
{
    let mut digits = Buffer::new();
    let text = digits.format(number);
    match format {
        Format::Relaxed => put_words(out, text),
        Format::Canonical => put_between(out, "{\"$numberInt\":\"", text, "\"}"),
    }
}

/// Writes a number of 64 bits.
pub(crate) fn put_int64<W: Write>(out: &mut W, format: Format, number: i64) -> io::Result<()>
    ensures { OnOk result
        (Appends (W.contents out.old) (W.contents out.new) (int64_json format number)) }
{
    let mut digits = Buffer::new();
    let text = digits.format(number);
    match format {
        Format::Relaxed => put_words(out, text),
        Format::Canonical => put_between(out, "{\"$numberLong\":\"", text, "\"}"),
    }
}

/// Writes a timestamp.
pub(crate) fn put_timestamp<W: Write>(out: &mut W, time: Timestamp) -> io::Result<()>
    ensures { OnOk result (Appends (W.contents out.old) (W.contents out.new) (timestamp_json time.time time.increment)) }
{
    let mut digits = Buffer::new();
    put_between(
        out,
        "{\"$timestamp\":{\"t\":",
        digits.format(time.time),
        ",\"i\":",
    )?;
    put_between(out, "", digits.format(time.increment), "}}")
}

/// Writes an identifier between two texts.
pub(crate) fn put_id<W: Write>(
    out: &mut W,
    before: &str,
    id: ObjectId,
    behind: &str,
) -> io::Result<()>
    ensures { OnOk result
        (Appends (W.contents out.old) (W.contents out.new) (before.now ++ (encode_lower (bytes_of_object_id id) ++ behind.now))) }
{
    let mut digits = [0; 24];
    let Ok(()) = hex::encode_to_slice(id.bytes(), &mut digits) else {
        unreachable!()
    };
    put_bytes_between(out, before, &digits, behind)
}

/// Writes a pointer to an object.
pub(crate) fn put_pointer<W: Write>(out: &mut W, pointer: RawDbPointerRef<'_>) -> io::Result<()>
    ensures { OnOk result
        (Appends (W.contents out.old) (W.contents out.new) (pointer_json (namespace_of pointer.entry) (id_of pointer.entry))) }
{
    put_text(
        out,
        "{\"$dbPointer\":{\"$ref\":",
        pointer.namespace(),
        ",\"$id\":",
    )?;
    put_id(out, "{\"$oid\":\"", pointer.id(), "\"}}}")
}

/// Writes a regular expression.
pub(crate) fn put_regex<W: Write>(out: &mut W, regex: RawRegexRef<'_>) -> io::Result<()>
    ensures { OnOk result
        (Appends (W.contents out.old) (W.contents out.new) (regex_json regex.entry.pattern.now regex.entry.options.now)) }
{
    put_text(
        out,
        "{\"$regularExpression\":{\"pattern\":",
        regex.pattern,
        ",\"options\":",
    )?;
    put_text(out, "", regex.options, "}}")
}

/// Writes a few bytes in base64.
fn put_chunk<W: Write>(out: &mut W, bytes: &[u8]) -> io::Result<()>
    requires { length bytes.now ≤ CHUNK }
    ensures { OnOk result
        (Appends (W.contents out.old) (W.contents out.new) (encode_of standard bytes.now)) }
{
    let mut symbols = [0; 256];
    let Ok(len) = STANDARD.encode_slice(bytes, &mut symbols) else {
        unreachable!()
    };
    put(out, &symbols[..len])
}

/// Writes bytes in base64.
fn put_base64<W: Write>(out: &mut W, bytes: &[u8]) -> io::Result<()>
    ensures { OnOk result
        (Appends (W.contents out.old) (W.contents out.new) (encode_of standard bytes.now)) }
{
    let mut at = 0;
    'chunks: while bytes.len() - at > CHUNK {
        put_chunk(out, &bytes[at..at + CHUNK])?;
        at += CHUNK;
    }
    put_chunk(out, &bytes[at..])
}

/// Writes bytes with their subtype.
pub(crate) fn put_binary<W: Write>(out: &mut W, binary: RawBinaryRef<'_>) -> io::Result<()>
    ensures { OnOk result
        (Appends (W.contents out.old) (W.contents out.new) (binary_json binary.entry.subtype binary.entry.bytes.now)) }
{
    put(out, b"{\"$binary\":{\"base64\":\"")?;
    put_base64(out, binary.bytes)?;
    let mut digits = [0; 2];
    let Ok(()) = hex::encode_to_slice([binary.subtype.to_u8()], &mut digits) else {
        unreachable!()
    };
    put_bytes_between(out, "\",\"subType\":\"", &digits, "\"}}")
}
