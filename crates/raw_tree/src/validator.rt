//! Whether a document is canonical, and where it first isn't.
#![tactic(auto)]

ghost use Rattle.std.specs.Prelude.{◌≡◌, map, IfOk, IfErr, OnOk};
ghost use Rattle.raw_tree.specs.validator.Breaches.{AllAreValidatedOneWay, TellsBreach};
ghost use Rattle.raw_tree.specs.CanonicalForm.{AllAreSpelledOneWay};
ghost use Rattle.raw_tree.specs.reader.Reading.{as_document};
ghost use Rattle.raw_view.specs.Document.{bytes_of};
ghost use Rattle.raw_view.specs.Errors.{IsOutOfMemory};

pub(crate) mod breach;
pub(crate) mod keys_so_far;
pub(crate) mod step;
pub(crate) mod within;

use crate::validator::breach::Breach;
use crate::validator::within::validate_to_depth;
use crate::walk::place::PathStep;
use raw_view::{RawDocument, Result};
use std::alloc::Global;

/// The numbers of these steps. The only error is out of memory.
fn numbers_of(alloc: Global, steps: &[PathStep<'_>]) -> Result<Vec<usize>>
    ensures numbers { IfOk result
        (λ numbers. numbers.items ≡ map (λ step. step.number) steps.now) }
    ensures err { IfErr result IsOutOfMemory }
{
    let mut numbers = Vec::with_capacity(alloc, steps.len())?;
    for step in steps {
        numbers.push(step.number)?;
    }
    Ok(numbers)
}

/// Returns `None` if and only if a document is canonical, otherwise its first breach: the first place, depth first
/// in byte order, where it isn't canonical, and why. A canonical document has a tree, which is written back as its
/// own bytes. The key of an element is validated first, then its value, then what is inside the value. The only
/// error is out of memory. BSON 1.1, `document`.
///
/// Not in the contract: no tree is built, and no depth fills the stack. Memory is taken for the keys of the
/// open levels, for the waiting levels and for the path.
/// ```
/// let document = RawDocument::from_bytes(b"\x13\0\0\0\x10a\0\x01\0\0\0\x10a\0\x02\0\0\0\0")?;
/// let Some(breach) = validate(alloc, document)? else { unreachable!() };
/// assert_eq!(rt; (breach.cause, breach.path.as_slice()), (Cause::RepeatedKey, [1].as_slice()));
/// ```
#[tactic(auto, using(crate::proofs::Laws::documents_validated, crate::proofs::Forms::bytes_spelled_one_way))]
pub fn validate(alloc: Global, document: RawDocument<'_>) -> Result<Option<Breach>>
    ensures breach { IfOk result (TellsBreach (bytes_of document.entry)) }
    ensures err { IfErr result IsOutOfMemory }
    ensures one_validation { AllAreValidatedOneWay as_document }
    ensures one_spelling { AllAreSpelledOneWay as_document }
{
    let Some(found) = validate_to_depth(alloc, document, usize::MAX)? else {
        return Ok(None);
    };
    let Some(cause) = found.cause else {
        unreachable!()
    };
    let path = numbers_of(alloc, &found.place.path)?;
    Ok(Some(Breach { path, cause }))
}
