//! Values as a person reads them.
#![tactic(auto)]

ghost use Rattle.std.specs.Prelude.{◌≡◌, ◌++◌, ℕ, List, codes, decimal, length, OnOk};
ghost use Rattle.std.specs.Fmt.{signed_decimal};
ghost use Rattle.hex.specs.Hex.{encode_lower};
ghost use Rattle.raw_view.specs.Frame.Kind.{kind_text};
ghost use Rattle.bson_model.specs.Subtype.{subtype_byte};
ghost use Rattle.raw_view.specs.Document.{bytes_of};
ghost use Rattle.raw_view.specs.Meaning.Value.{id_of, namespace_of, value_of};
ghost use Rattle.dump_io.specs.lines.Quoting.{quoted};
ghost use Rattle.dump_io.specs.lines.Values.{ShowsBehind, ShowsDouble, ShowsValue, size_text, sized_text};

use crate::lines::quote::push_quoted;
use crate::lines::text::{push_number, push_words};
use bson_model::Timestamp;
use raw_view::{
    ElementType, RawBinaryRef, RawBsonRef, RawDbPointerRef, RawJavaScriptCodeWithScopeRef,
    RawRegexRef,
};
use std::alloc::{AllocError, Global};

/// Texts and bytes longer than this aren't shown.
const SHORT: usize = 64;

/// Appends a value to the text: the name of its kind, and what shows it.
pub fn push_value(
    alloc: Global,
    text: &mut Vec<u8>,
    value: RawBsonRef<'_>,
) -> Result<(), AllocError>
    ensures { OnOk result ((shown : List ℕ) × ShowsValue (value_of value.entry) shown
        × (text.new.items ≡ text.old.items ++ shown)) }
{
    push_kind(text, value.element_type())?;
    push_behind(alloc, text, value)
}

/// Appends the name of a kind to the text.
pub fn push_kind(text: &mut Vec<u8>, kind: ElementType) -> Result<(), AllocError>
    ensures { OnOk result (text.new.items ≡ text.old.items ++ kind_text kind) }
{
    push_words(text, name_of(kind))
}

fn name_of(kind: ElementType) -> &'static str
    ensures { result.now ≡ kind_text kind }
{
    match kind {
        ElementType::Double => "Double",
        ElementType::String => "String",
        ElementType::EmbeddedDocument => "EmbeddedDocument",
        ElementType::Array => "Array",
        ElementType::Binary => "Binary",
        ElementType::Undefined => "Undefined",
        ElementType::ObjectId => "ObjectId",
        ElementType::Boolean => "Boolean",
        ElementType::DateTime => "DateTime",
        ElementType::Null => "Null",
        ElementType::RegularExpression => "RegularExpression",
        ElementType::DbPointer => "DbPointer",
        ElementType::JavaScriptCode => "JavaScriptCode",
        ElementType::Symbol => "Symbol",
        ElementType::JavaScriptCodeWithScope => "JavaScriptCodeWithScope",
        ElementType::Int32 => "Int32",
        ElementType::Timestamp => "Timestamp",
        ElementType::Int64 => "Int64",
        ElementType::Decimal128 => "Decimal128",
        ElementType::MaxKey => "MaxKey",
        ElementType::MinKey => "MinKey",
    }
}

/// Puts what shows a value after the name of its kind.
pub fn push_behind(
    alloc: Global,
    text: &mut Vec<u8>,
    value: RawBsonRef<'_>,
) -> Result<(), AllocError>
    ensures { OnOk result ((shown : List ℕ) × ShowsBehind (value_of value.entry) shown
        × (text.new.items ≡ text.old.items ++ shown)) }
{
    match value {
        RawBsonRef::Double(number) => push_double(text, number.0),
        RawBsonRef::String(string) => push_string(text, string),
        RawBsonRef::Document(document) => push_size(text, document.as_bytes().len()),
        RawBsonRef::Array(array) => push_size(text, array.as_bytes().len()),
        RawBsonRef::Binary(binary) => push_binary(alloc, text, binary),
        RawBsonRef::ObjectId(id) => push_hex(alloc, text, ": ", &id.bytes()),
        RawBsonRef::Boolean(true) => push_words(text, ": true"),
        RawBsonRef::Boolean(false) => push_words(text, ": false"),
        RawBsonRef::DateTime(time) => push_date(text, time.timestamp_millis()),
        RawBsonRef::RegularExpression(regex) => push_regex(text, regex),
        RawBsonRef::DbPointer(pointer) => push_pointer(alloc, text, pointer),
        RawBsonRef::JavaScriptCode(code) => push_string(text, code),
        RawBsonRef::Symbol(symbol) => push_string(text, symbol),
        RawBsonRef::JavaScriptCodeWithScope(code) => push_code(text, code),
        RawBsonRef::Int32(number) => push_signed(text, i64::from(number)),
        RawBsonRef::Timestamp(time) => push_timestamp(text, time),
        RawBsonRef::Int64(number) => push_signed(text, number),
        RawBsonRef::Decimal128(number) => push_hex(alloc, text, ": ", &number.bytes()),
        RawBsonRef::Null => Ok(()),
        RawBsonRef::Undefined => Ok(()),
        RawBsonRef::MaxKey => Ok(()),
        RawBsonRef::MinKey => Ok(()),
    }
}

fn push_double(text: &mut Vec<u8>, bits: u64) -> Result<(), AllocError>
    ensures { OnOk result ((number : List ℕ) × ShowsDouble bits number
        × (text.new.items ≡ text.old.items ++ (codes ": " ++ number))) }
{
    push_words(text, ": ")?;
    if bits % (1 << 63) > 0x7ff0_0000_0000_0000 {
        return push_words(text, "NaN");
    }
    let mut digits = ryu::Buffer::new();
    push_words(text, digits.format(f64::from_bits(bits)))
}

fn push_signed(text: &mut Vec<u8>, number: i64) -> Result<(), AllocError>
    ensures { OnOk result
        (text.new.items ≡ text.old.items ++ (codes ": " ++ signed_decimal number)) }
{
    push_words(text, ": ")?;
    let mut digits = itoa::Buffer::new();
    push_words(text, digits.format(number))
}

fn push_date(text: &mut Vec<u8>, millis: i64) -> Result<(), AllocError>
    ensures { OnOk result
        (text.new.items ≡ text.old.items ++ (codes ": " ++ signed_decimal millis ++ codes " ms")) }
{
    push_signed(text, millis)?;
    push_words(text, " ms")
}

fn push_timestamp(text: &mut Vec<u8>, time: Timestamp) -> Result<(), AllocError>
    ensures { OnOk result (text.new.items
        ≡ text.old.items ++ (codes ": " ++ decimal time.time ++ codes ", " ++ decimal time.increment)) }
{
    push_words(text, ": ")?;
    push_number(text, u64::from(time.time))?;
    push_words(text, ", ")?;
    push_number(text, u64::from(time.increment))
}

/// Appends words to the text, and bytes as hex digits.
fn push_hex(alloc: Global, text: &mut Vec<u8>, words: &str, bytes: &[u8]) -> Result<(), AllocError>
    ensures { OnOk result
        (text.new.items ≡ text.old.items ++ (words.now ++ encode_lower bytes.now)) }
{
    push_words(text, words)?;
    push_words(text, hex::encode(alloc, bytes)?.as_str())
}

fn push_size(text: &mut Vec<u8>, size: usize) -> Result<(), AllocError>
    ensures { OnOk result (text.new.items ≡ text.old.items ++ size_text size) }
{
    push_words(text, ", ")?;
    push_number(text, size as u64)?;
    push_words(text, " bytes")
}

fn push_string(text: &mut Vec<u8>, string: &str) -> Result<(), AllocError>
    ensures { OnOk result
        (text.new.items ≡ text.old.items ++ sized_text string.now (quoted string.now)) }
{
    push_size(text, string.len())?;
    if string.len() > SHORT {
        return Ok(());
    }
    push_words(text, ": ")?;
    push_quoted(text, string)
}

fn push_binary(
    alloc: Global,
    text: &mut Vec<u8>,
    binary: RawBinaryRef<'_>,
) -> Result<(), AllocError>
    ensures { OnOk result (text.new.items
        ≡ text.old.items ++ (codes ", subtype " ++ decimal (subtype_byte binary.entry.subtype) ++ sized_text binary.entry.bytes.now (encode_lower binary.entry.bytes.now))) }
{
    push_words(text, ", subtype ")?;
    push_number(text, u64::from(binary.subtype.to_u8()))?;
    push_size(text, binary.bytes.len())?;
    if binary.bytes.len() > SHORT {
        return Ok(());
    }
    push_hex(alloc, text, ": ", binary.bytes)
}

fn push_regex(text: &mut Vec<u8>, regex: RawRegexRef<'_>) -> Result<(), AllocError>
    ensures { OnOk result (text.new.items
        ≡ text.old.items ++ (sized_text regex.entry.pattern.now (quoted regex.entry.pattern.now) ++ sized_text regex.entry.options.now (quoted regex.entry.options.now))) }
{
    push_string(text, regex.pattern)?;
    push_string(text, regex.options)
}

fn push_pointer(
    alloc: Global,
    text: &mut Vec<u8>,
    pointer: RawDbPointerRef<'_>,
) -> Result<(), AllocError>
    ensures { OnOk result (text.new.items
        ≡ text.old.items ++ (sized_text (namespace_of pointer.entry) (quoted (namespace_of pointer.entry)) ++ codes ", " ++ encode_lower (id_of pointer.entry))) }
{
    push_string(text, pointer.namespace())?;
    push_hex(alloc, text, ", ", &pointer.id().bytes())
}

fn push_code(text: &mut Vec<u8>, code: RawJavaScriptCodeWithScopeRef<'_>) -> Result<(), AllocError>
    ensures { OnOk result (text.new.items
        ≡ text.old.items ++ (sized_text code.entry.code.now (quoted code.entry.code.now) ++ size_text (length (bytes_of code.entry.scope)))) }
{
    push_string(text, code.code)?;
    push_size(text, code.scope.as_bytes().len())
}
