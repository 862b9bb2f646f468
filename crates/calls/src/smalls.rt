//! The calls of small types.

use crate::failure::Failure;
use crate::leaves::{byte, double, pointer, regex, sixteen, twelve};
use crate::owned::owned;
use crate::put::put;
use crate::store::Store;
use crate::words::Words;
use raw_bson::{
    BinarySubtype, DateTime, Decimal128, DoubleBits, ElementType, ObjectId, RawBinaryRef,
    RawDbPointerRef, Regex, total_len,
};
use std::alloc::Global;

/// Runs a call of a small type.
pub fn run(
    alloc: Global,
    owner: &str,
    call: &str,
    words: &mut Words<'_, '_>,
    out: &mut String,
) -> Result<(), Failure> {
    match (owner, call) {
        ("ObjectId", "from_bytes" | "bytes") => {
            put(out, ObjectId::from_bytes(twelve(words)?).bytes().as_slice())
        }
        ("ObjectId", "to_hex") => put(out, ObjectId::from_bytes(twelve(words)?).to_hex(alloc)),
        ("ObjectId", "fmt") => {
            let id = ObjectId::from_bytes(twelve(words)?);
            Ok(writeln!(out, "{id}")?)
        }
        ("Decimal128", "from_bytes" | "bytes") => {
            put(
                out,
                Decimal128::from_bytes(sixteen(words)?).bytes().as_slice(),
            )
        }
        ("DateTime", "from_millis" | "timestamp_millis") => {
            put(
                out,
                DateTime::from_millis(words.signed()?).timestamp_millis(),
            )
        }
        ("Regex", "new") => {
            let written = regex(alloc, words)?;
            put(
                out,
                Regex::new(alloc, written.pattern.as_str(), written.options.as_str()),
            )
        }
        _ => of_kind(alloc, owner, call, words, out),
    }
}

fn of_kind(
    alloc: Global,
    owner: &str,
    call: &str,
    words: &mut Words<'_, '_>,
    out: &mut String,
) -> Result<(), Failure> {
    match (owner, call) {
        ("BinarySubtype", "from_u8") => put(out, BinarySubtype::from_u8(byte(words)?)),
        ("BinarySubtype", "to_u8") => put(out, crate::leaves::subtype(words)?.to_u8()),
        ("ElementType", "from") => put(out, ElementType::from(byte(words)?)),
        ("DoubleBits", "to_f64") => {
            let number = double(words)?.to_f64();
            Ok(writeln!(out, "{number}")?)
        }
        ("DoubleBits", "from_f64") => put(out, DoubleBits::from_f64(double(words)?.to_f64())),
        ("RawDbPointerRef", _) => {
            let written = pointer(alloc, words)?;
            of_pointer(
                RawDbPointerRef::new(written.namespace.as_str(), written.id),
                call,
                out,
            )
        }
        ("RawBinaryRef", "to_binary") => {
            let written = crate::leaves::binary(alloc, words)?;
            let subtype = written.subtype;
            let bytes = &written.bytes;
            put(out, RawBinaryRef { subtype, bytes }.to_binary(alloc))
        }
        _ => Err(Failure::Unknown),
    }
}

fn of_pointer(pointer: RawDbPointerRef<'_>, call: &str, out: &mut String) -> Result<(), Failure> {
    match call {
        "new" => put(out, pointer),
        "namespace" => put(out, pointer.namespace()),
        "id" => put(out, pointer.id()),
        _ => Err(Failure::Unknown),
    }
}

/// Runs `ElementType::to_tag` on the kind of a value.
pub fn to_tag(
    alloc: Global,
    store: &Store,
    words: &mut Words<'_, '_>,
    out: &mut String,
) -> Result<(), Failure> {
    put(out, owned(alloc, store, words)?.element_type().to_tag())
}

/// Runs `total_len`.
pub fn total(words: &mut Words<'_, '_>, out: &mut String) -> Result<(), Failure> {
    let len = words.number()?;
    let added = words.number()?;
    put(out, total_len(len, added))
}
