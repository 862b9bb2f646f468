//! Trees that words write.

use crate::failure::Failure;
use crate::leaves::{binary, boolean, double, int32, pointer, regex, sixteen, timestamp, twelve};
use crate::words::Words;
use raw_bson::{Bson, DateTime, Decimal128, Document, JavaScriptCodeWithScope, ObjectId};
use std::alloc::Global;

/// This many levels of a tree are read.
pub const LEVELS: usize = 10;

/// The document that the next words write: its pairs between braces.
#[cycle(trees)]
pub fn document(
    levels: usize,
    alloc: Global,
    words: &mut Words<'_, '_>,
) -> Result<Document, Failure> {
    if levels == 0 || !words.skip("{") {
        return Err(Failure::Form);
    }
    let mut document = Document::new(alloc);
    for _ in 0..words.len() {
        if words.skip("}") {
            return Ok(document);
        }
        let key = words.text(alloc)?;
        document.put(key, tree(levels - 1, alloc, words)?)?;
    }
    Err(Failure::Form)
}

/// The list that the next words write: its values between brackets.
#[cycle(trees)]
pub fn list(levels: usize, alloc: Global, words: &mut Words<'_, '_>) -> Result<Vec<Bson>, Failure> {
    if levels == 0 || !words.skip("[") {
        return Err(Failure::Form);
    }
    let mut values = Vec::new(alloc);
    for _ in 0..words.len() {
        if words.skip("]") {
            return Ok(values);
        }
        values.push(tree(levels - 1, alloc, words)?)?;
    }
    Err(Failure::Form)
}

#[cycle(trees)]
fn code(
    levels: usize,
    alloc: Global,
    words: &mut Words<'_, '_>,
) -> Result<JavaScriptCodeWithScope, Failure> {
    let code = words.text(alloc)?;
    let scope = document(levels, alloc, words)?;
    Ok(JavaScriptCodeWithScope { code, scope })
}

/// The value that the next words write: the name of its variant, and what it holds.
#[cycle(trees)]
pub fn tree(levels: usize, alloc: Global, words: &mut Words<'_, '_>) -> Result<Bson, Failure> {
    let word = words.next()?;
    match word {
        "Document" => Ok(Bson::Document(document(levels, alloc, words)?)),
        "Array" => Ok(Bson::Array(list(levels, alloc, words)?)),
        "JavaScriptCodeWithScope" => {
            Ok(Bson::JavaScriptCodeWithScope(code(levels, alloc, words)?))
        }
        _ => leaf(alloc, word, words),
    }
}

fn leaf(alloc: Global, word: &str, words: &mut Words<'_, '_>) -> Result<Bson, Failure> {
    match word {
        "String" => Ok(Bson::String(words.text(alloc)?)),
        "RegularExpression" => Ok(Bson::RegularExpression(regex(alloc, words)?)),
        "JavaScriptCode" => Ok(Bson::JavaScriptCode(words.text(alloc)?)),
        "Symbol" => Ok(Bson::Symbol(words.text(alloc)?)),
        "Binary" => Ok(Bson::Binary(binary(alloc, words)?)),
        "DbPointer" => Ok(Bson::DbPointer(pointer(alloc, words)?)),
        "Null" => Ok(Bson::Null),
        "Undefined" => Ok(Bson::Undefined),
        "MaxKey" => Ok(Bson::MaxKey),
        "MinKey" => Ok(Bson::MinKey),
        _ => number(word, words),
    }
}

fn number(word: &str, words: &mut Words<'_, '_>) -> Result<Bson, Failure> {
    match word {
        "Double" => Ok(Bson::Double(double(words)?)),
        "Boolean" => Ok(Bson::Boolean(boolean(words)?)),
        "Int32" => Ok(Bson::Int32(int32(words)?)),
        "Int64" => Ok(Bson::Int64(words.signed()?)),
        "Timestamp" => Ok(Bson::Timestamp(timestamp(words)?)),
        "ObjectId" => Ok(Bson::ObjectId(ObjectId::from_bytes(twelve(words)?))),
        "DateTime" => Ok(Bson::DateTime(DateTime::from_millis(words.signed()?))),
        "Decimal128" => Ok(Bson::Decimal128(Decimal128::from_bytes(sixteen(words)?))),
        _ => Err(Failure::Unknown),
    }
}
