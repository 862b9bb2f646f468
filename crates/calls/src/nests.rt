//! Documents of many levels, written without the library.

use crate::failure::Failure;
use crate::words::Words;
use std::alloc::Global;

/// The bytes that each level but the innermost puts before the next one, after its own header.
fn front(kind: &str, inner: u32, bytes: &mut Vec<u8>) -> Result<(), Failure> {
    match kind {
        "documents" => Ok(bytes.extend_from_slice(&[3, 0])?),
        "arrays" => Ok(bytes.extend_from_slice(&[4, b'0', 0])?),
        "codes" => {
            bytes.extend_from_slice(&[15, 0])?;
            bytes.extend_from_slice(&inner.wrapping_add(9).to_le_bytes())?;
            Ok(bytes.extend_from_slice(&[1, 0, 0, 0, 0])?)
        }
        _ => Err(Failure::Form),
    }
}

/// How many bytes a level has more than the one inside it.
fn growth(kind: &str) -> Result<u32, Failure> {
    match kind {
        "documents" => Ok(7),
        "arrays" => Ok(8),
        "codes" => Ok(16),
        _ => Err(Failure::Form),
    }
}

/// This many levels, each but the innermost holding the next alone: documents under the empty key, arrays under the key 0, or the scopes
/// of codes without text under the empty key.
pub fn nest(alloc: Global, words: &mut Words<'_, '_>) -> Result<Vec<u8>, Failure> {
    let levels = words.unsigned()?;
    let kind = words.next()?;
    let growth = growth(kind)?;
    let mut bytes = Vec::new(alloc);
    for around in (1..levels).rev() {
        let inner = around.wrapping_sub(1).wrapping_mul(growth).wrapping_add(5);
        bytes.extend_from_slice(&inner.wrapping_add(growth).to_le_bytes())?;
        front(kind, inner, &mut bytes)?;
    }
    bytes.extend_from_slice(&[5, 0, 0, 0])?;
    for _ in 0..levels {
        bytes.push(0)?;
    }
    Ok(bytes)
}
