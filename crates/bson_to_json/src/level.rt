//! What is printed around the members of a level.
#![tactic(auto)]

ghost use Rattle.std.specs.Prelude.{◌++◌, ◌*◌, ℕ, List, OnOk, IfOk, replicate};
ghost use Rattle.std.specs.Io.KnownBytes.{Appends};
ghost use Rattle.bson_to_json.specs.Json.{colon, end_text, head_text, line};
ghost use Rattle.json.specs.Print.{quoted};
ghost use Rattle.bson_to_json.specs.Levels.{PutsOpening, PutsSingle, level_sort, after};
ghost use Rattle.raw_view.specs.Meaning.Value.{held_value, value_of};

use crate::dates::put_date;
use crate::decimals::decimal128_text;
use crate::doubles::put_double;
use crate::leaf::{
    put_binary, put_id, put_int32, put_int64, put_pointer, put_regex, put_text, put_timestamp,
};
use crate::put::{put, put_bytes_between, put_repeated};
use crate::quote::put_quoted;
use crate::style::{Format, Layout};
use raw_view::{Holder, RawBsonRef, RawLevel};
use std::io;
use std::io::Write;

/// The sort of a level.
#[derive(Clone, Copy, PartialEq, Eq)]
pub(crate) enum Sort {
    Document,
    Array,
    /// the scope of a code
    Scope,
}

/// Writes two spaces for each level.
fn put_spaces<W: Write>(out: &mut W, depth: usize) -> io::Result<()>
    ensures { OnOk result
        (Appends (W.contents out.old) (W.contents out.new) (replicate (2 * depth) 32)) }
{
    put_repeated(out, b' ', depth)?;
    put_repeated(out, b' ', depth)
}

/// Writes a new line, if the layout has lines, with two spaces for each level around it.
#[inline(always)]
fn put_line<W: Write>(out: &mut W, layout: Layout, depth: usize) -> io::Result<()>
    ensures { OnOk result
        (Appends (W.contents out.old) (W.contents out.new) (line layout depth)) }
{
    match layout {
        Layout::OneLine => Ok(()),
        Layout::Indented => {
            put(out, b"\n")?;
            put_spaces(out, depth)
        }
    }
}

/// Writes a key and a colon.
fn put_key<W: Write>(out: &mut W, layout: Layout, key: &str) -> io::Result<()>
    ensures { OnOk result
        (Appends (W.contents out.old) (W.contents out.new) (quoted key.now ++ colon layout)) }
{
    put_quoted(out, key)?;
    match layout {
        Layout::OneLine => put(out, b":"),
        Layout::Indented => put(out, b": "),
    }
}

/// Writes what is before a member's value.
#[inline]
pub(crate) fn put_head<W: Write>(
    out: &mut W,
    layout: Layout,
    depth: usize,
    sort: Sort,
    first: bool,
    key: &str,
) -> io::Result<()>
    ensures { OnOk result
        (Appends (W.contents out.old) (W.contents out.new) (head_text layout depth (level_sort sort) first key.now)) }
{
    if !first {
        put(out, b",")?;
    }
    put_line(out, layout, depth)?;
    match sort {
        Sort::Array => Ok(()),
        Sort::Document | Sort::Scope => put_key(out, layout, key),
    }
}

/// Writes what comes after the last member of a level.
pub(crate) fn put_end<W: Write>(
    out: &mut W,
    layout: Layout,
    depth: usize,
    sort: Sort,
    first: bool,
) -> io::Result<()>
    ensures { OnOk result
        (Appends (W.contents out.old) (W.contents out.new) (end_text layout depth (level_sort sort) first ++ after sort)) }
{
    if !first {
        put_line(out, layout, depth)?;
    }
    match sort {
        Sort::Document => put(out, b"}"),
        Sort::Array => put(out, b"]"),
        Sort::Scope => put(out, b"}}"),
    }
}

/// Writes what is before the first member of a value that holds others, and returns the sort of its level.
pub(crate) fn put_opening<W: Write>(out: &mut W, level: RawLevel<'_>) -> io::Result<Sort>
    ensures { IfOk result (PutsOpening (held_value level.entry) (W.contents out.old) (W.contents out.new)) }
{
    match level.holder {
        Holder::Document => {
            put(out, b"{")?;
            Ok(Sort::Document)
        }
        Holder::Array => {
            put(out, b"[")?;
            Ok(Sort::Array)
        }
        Holder::Code(code) => {
            put_text(out, "{\"$code\":", code, ",\"$scope\":{")?;
            Ok(Sort::Scope)
        }
    }
}

/// Writes a value that holds no others.
pub(crate) fn put_single<W: Write>(
    out: &mut W,
    format: Format,
    value: RawBsonRef<'_>,
) -> io::Result<()>
    ensures { OnOk result (PutsSingle format (value_of value.entry) (W.contents out.old) (W.contents out.new)) }
{
    match value {
        RawBsonRef::Double(number) => put_double(out, format, number.0),
        RawBsonRef::String(text) => put_quoted(out, text),
        RawBsonRef::Binary(binary) => put_binary(out, binary),
        RawBsonRef::ObjectId(id) => put_id(out, "{\"$oid\":\"", id, "\"}"),
        RawBsonRef::Boolean(true) => put(out, b"true"),
        RawBsonRef::Boolean(false) => put(out, b"false"),
        RawBsonRef::DateTime(time) => put_date(out, format, time.timestamp_millis()),
        RawBsonRef::RegularExpression(regex) => put_regex(out, regex),
        RawBsonRef::DbPointer(pointer) => put_pointer(out, pointer),
        RawBsonRef::JavaScriptCode(code) => put_text(out, "{\"$code\":", code, "}"),
        RawBsonRef::Symbol(symbol) => put_text(out, "{\"$symbol\":", symbol, "}"),
        RawBsonRef::Int32(number) => put_int32(out, format, number),
        RawBsonRef::Timestamp(time) => put_timestamp(out, time),
        RawBsonRef::Int64(number) => put_int64(out, format, number),
        RawBsonRef::Decimal128(number) => {
            let text = decimal128_text(number);
            put_bytes_between(out, "{\"$numberDecimal\":\"", text.as_bytes(), "\"}")
        }
        RawBsonRef::Null => put(out, b"null"),
        RawBsonRef::Undefined => put(out, b"{\"$undefined\":true}"),
        RawBsonRef::MaxKey => put(out, b"{\"$maxKey\":1}"),
        RawBsonRef::MinKey => put(out, b"{\"$minKey\":1}"),
        RawBsonRef::Document(_) | RawBsonRef::Array(_) | RawBsonRef::JavaScriptCodeWithScope(_) =>
            Ok(()),
    }
}
