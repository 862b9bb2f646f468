ghost use Rattle.std.specs.Prelude.{◌≡◌, ◌↔◌, IfErr, IfOk, IsTrue};
ghost use Rattle.raw_bson.specs.Conversion.{RefusesForm};
ghost use Rattle.raw_bson.specs.Reading.{Reads};
ghost use Rattle.raw_bson.specs.Tree.{Tree};
ghost use Rattle.bson_uses.specs.Comparing.{AreNormalised, Compares};

use raw_bson::{Result, canonical_bytes};
use std::alloc::Global;

/// Whether two documents have the same tree, however they are written. It fails if one has no canonical form, with the error of
/// `canonical_bytes`, of the first one if neither has one.
/// ```
/// // the numbers 1 and 2 under `a`, and 2 alone
/// let twice = b"\x13\0\0\0\x10a\0\x01\0\0\0\x10a\0\x02\0\0\0\0";
/// let once = b"\x0C\0\0\0\x10a\0\x02\0\0\0\0";
/// assert!(rt; are_equal(alloc, twice, once)?);
/// assert!(rt; !are_equal(alloc, twice, b"\x05\0\0\0\0")?);
/// assert!(rt; are_equal(alloc, twice, &once[1..]).is_err() && are_equal(alloc, &twice[1..], once).is_err());
/// ```
pub fn are_equal(alloc: Global, one: &[u8], other: &[u8]) -> Result<bool>
    ensures compares { Compares one.now other.now result }
    ensures same { IfOk result
        (λ same. (t u : Tree) → Reads one.now t → Reads other.now u → (IsTrue same ↔ (t ≡ u))) }
{
    Ok(canonical_bytes(alloc, one)? == canonical_bytes(alloc, other)?)
}

/// The canonical form of a document, and the canonical form of that, which is the same. It fails as `canonical_bytes` does.
/// ```
/// let (once, twice) = normalised_twice(alloc, b"\x13\0\0\0\x10a\0\x01\0\0\0\x10a\0\x02\0\0\0\0")?;
/// assert_eq!(rt; once.as_slice(), b"\x0C\0\0\0\x10a\0\x02\0\0\0\0".as_slice());
/// assert_eq!(rt; twice.as_slice(), once.as_slice());
/// ```
pub fn normalised_twice(alloc: Global, bytes: &[u8]) -> Result<(Vec<u8>, Vec<u8>)>
    ensures forms { IfOk result (λ forms. AreNormalised bytes.now forms.0.items forms.1.items) }
    ensures refused { IfErr result (RefusesForm bytes.now) }
{
    let once = canonical_bytes(alloc, bytes)?;
    let twice = canonical_bytes(alloc, &once)?;
    Ok((once, twice))
}
