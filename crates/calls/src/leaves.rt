//! What words write of a value that holds no others.

use crate::failure::Failure;
use crate::words::Words;
use hex::FromHex;
use raw_bson::{Binary, BinarySubtype, DbPointer, DoubleBits, ObjectId, Regex, Timestamp};
use std::alloc::Global;

/// The 64 bits of a double, as sixteen hexadecimal digits.
pub fn double(words: &mut Words<'_, '_>) -> Result<DoubleBits, Failure> {
    match <[u8; 8] as FromHex>::from_hex(words.next()?) {
        Ok(bytes) => Ok(DoubleBits(u64::from_be_bytes(bytes))),
        Err(_) => Err(Failure::Form),
    }
}

/// Twelve bytes.
pub fn twelve(words: &mut Words<'_, '_>) -> Result<[u8; 12], Failure> {
    <[u8; 12] as FromHex>::from_hex(words.next()?).map_err(|_| Failure::Form)
}

/// Sixteen bytes.
pub fn sixteen(words: &mut Words<'_, '_>) -> Result<[u8; 16], Failure> {
    <[u8; 16] as FromHex>::from_hex(words.next()?).map_err(|_| Failure::Form)
}

/// A byte.
pub fn byte(words: &mut Words<'_, '_>) -> Result<u8, Failure> {
    match <[u8; 1] as FromHex>::from_hex(words.next()?) {
        Ok(bytes) => Ok(bytes[0]),
        Err(_) => Err(Failure::Form),
    }
}

/// `true` or `false`.
pub fn boolean(words: &mut Words<'_, '_>) -> Result<bool, Failure> {
    match words.next()? {
        "true" => Ok(true),
        "false" => Ok(false),
        _ => Err(Failure::Form),
    }
}

/// A number of 32 bits.
pub fn int32(words: &mut Words<'_, '_>) -> Result<i32, Failure> {
    words.next()?.parse().map_err(|_| Failure::Form)
}

/// Time, then increment.
pub fn timestamp(words: &mut Words<'_, '_>) -> Result<Timestamp, Failure> {
    let time = words.unsigned()?;
    let increment = words.unsigned()?;
    Ok(Timestamp { time, increment })
}

/// A subtype by its name, and by its number in decimal where the name needs one.
pub fn subtype(words: &mut Words<'_, '_>) -> Result<BinarySubtype, Failure> {
    match words.next()? {
        "Generic" => Ok(BinarySubtype::Generic),
        "Function" => Ok(BinarySubtype::Function),
        "BinaryOld" => Ok(BinarySubtype::BinaryOld),
        "UuidOld" => Ok(BinarySubtype::UuidOld),
        "Uuid" => Ok(BinarySubtype::Uuid),
        "Md5" => Ok(BinarySubtype::Md5),
        "Encrypted" => Ok(BinarySubtype::Encrypted),
        "Column" => Ok(BinarySubtype::Column),
        "Sensitive" => Ok(BinarySubtype::Sensitive),
        "Vector" => Ok(BinarySubtype::Vector),
        word => numbered(word),
    }
}

fn numbered(word: &str) -> Result<BinarySubtype, Failure> {
    let Some((name, number)) = word.split_once('(') else {
        return Err(Failure::Form);
    };
    let Some(number) = number.strip_suffix(')') else {
        return Err(Failure::Form);
    };
    let number = number.parse().map_err(|_| Failure::Form)?;
    match name {
        "Reserved" => Ok(BinarySubtype::Reserved(number)),
        "UserDefined" => Ok(BinarySubtype::UserDefined(number)),
        _ => Err(Failure::Form),
    }
}

/// A subtype, then bytes.
pub fn binary(alloc: Global, words: &mut Words<'_, '_>) -> Result<Binary, Failure> {
    let subtype = subtype(words)?;
    let bytes = words.bytes(alloc)?;
    Ok(Binary { subtype, bytes })
}

/// A pattern, then options, as they stand.
pub fn regex(alloc: Global, words: &mut Words<'_, '_>) -> Result<Regex, Failure> {
    let pattern = words.text(alloc)?;
    let options = words.text(alloc)?;
    Ok(Regex { pattern, options })
}

/// A namespace, then an identifier.
pub fn pointer(alloc: Global, words: &mut Words<'_, '_>) -> Result<DbPointer, Failure> {
    let namespace = words.text(alloc)?;
    let id = ObjectId::from_bytes(twelve(words)?);
    Ok(DbPointer { namespace, id })
}
