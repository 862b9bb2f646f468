//! A dump that is summed up.
ghost use Rattle.std.specs.Prelude.{◌≡◌, ◌↔◌, [], IsTrue, IfOk, IfErr, FitsSigned};
ghost use Rattle.std.specs.Int.{w64};
ghost use Rattle.raw_bson.specs.Document.{bytes_of};
ghost use Rattle.raw_bson.specs.EachItem.{value_in};
ghost use Rattle.raw_bson.specs.Folds.{ReadsDump};
ghost use Rattle.raw_form.specs.Violations.{IsCanonicalWithin};
ghost use Rattle.bson_uses.specs.Tallies.{AddsDocument, CountsOneMore, IsOutOfMemory, PlusOne, RefusesPlus, RefusesTally, Steps, TellsNumber, none, number_in};

use raw_bson::{Error, Limits, NoDocument, RawBsonRef, RawDocument};
use raw_form::{ValidateError, validate_within};
use std::alloc::Global;

/// The summary of a dump's documents.
#[derive(Clone, Copy)]
pub struct Tally {
    /// how many there are
    pub documents: usize,
    /// how many of them are canonical within limits
    pub canonical: usize,
    /// the sum of the 64-bit numbers under a key
    pub sum: i64,
}

/// Why a dump has no tally.
#[derive(Debug, PartialEq, Eq, Drop)]
pub enum TallyError {
    /// no document is where one should begin
    NoDocument(NoDocument),
    /// a document is damaged where its number is looked for, or memory ran out for the error
    Damaged(Error),
    /// a sum doesn't fit 64 bits
    Overflow,
    /// memory ran out
    OutOfMemory,
}

impl From<Error> for TallyError {
    ghost use Rattle.std.specs.Prelude.{◌≡◌};
    ghost use Rattle.bson_uses.specs.declared.tally.TallyError.TheVariants as error;

    ghost from_gives = { λ inner gives. gives ≡ error.Damaged inner };

    fn from(error: Error) -> TallyError {
        TallyError::Damaged(error)
    }
}

impl Tally {
    /// The tally with one more document, which is canonical or not and has this number.
    fn plus(self, canonical: bool, number: i64) -> Result<Tally, TallyError>
        requires { CountsOneMore self }
        ensures more { IfOk result (PlusOne self canonical number) }
        ensures over { IfErr result (RefusesPlus self number) }
    {
        let Some(sum) = self.sum.checked_add(number) else {
            return Err(TallyError::Overflow);
        };
        Ok(Tally {
            documents: self.documents + 1,
            canonical: if canonical {
                self.canonical + 1
            } else {
                self.canonical
            },
            sum,
        })
    }
}

/// Whether the document is canonical within the limits; or out of memory.
fn is_canonical(
    alloc: Global,
    document: RawDocument<'_>,
    limits: Limits,
) -> Result<bool, TallyError>
    ensures told { IfOk result (λ is. IsTrue is ↔ IsCanonicalWithin limits (bytes_of document.entry)) }
    ensures err { IfErr result IsOutOfMemory }
{
    match validate_within(alloc, document, limits) {
        Ok(None) => Ok(true),
        Ok(Some(_)) => Ok(false),
        Err(ValidateError::TooManyBytes) => Ok(false),
        Err(ValidateError::TooDeep(_)) => Ok(false),
        Err(ValidateError::OutOfMemory) => Err(TallyError::OutOfMemory),
    }
}

/// The 64-bit number that was found, otherwise 0.
fn number_of(found: Option<RawBsonRef<'_>>) -> i64
    ensures value { result ≡ number_in (value_in found.entry) }
    ensures fits { FitsSigned w64 result }
{
    match found {
        Some(RawBsonRef::Int64(number)) => number,
        _ => 0,
    }
}

/// The 64-bit number under the key, 0 if there is none; or the fault that is found.
fn number_under(alloc: Global, document: RawDocument<'_>, key: &str) -> Result<i64, TallyError>
    ensures told { TellsNumber (bytes_of document.entry) key.now result }
    ensures fits { IfOk result (FitsSigned w64) }
{
    let found = document.get(alloc, key)?;
    Ok(number_of(found))
}

/// The tally with one more document.
fn with_document(
    alloc: Global,
    tally: Tally,
    document: RawDocument<'_>,
    key: &str,
    limits: Limits,
) -> Result<Tally, TallyError>
    requires { CountsOneMore tally }
    ensures { AddsDocument limits key.now tally (bytes_of document.entry) result }
{
    let canonical = is_canonical(alloc, document, limits)?;
    let number = number_under(alloc, document, key)?;
    let more = tally.plus(canonical, number)?;
    Ok(more)
}

/// The tally of a dump.
/// ```
/// // the number 7 under `n`; a repeated key, which isn't canonical; and the number once more
/// let dump = b"\x10\0\0\0\x12n\0\x07\0\0\0\0\0\0\0\0\x13\0\0\0\x10a\0\x01\0\0\0\x10a\0\x02\0\0\0\0\x10\0\0\0\x12n\0\x07\0\0\0\0\0\0\0\0";
/// let tally = tally_of(alloc, dump, "n", MOST);
/// assert!(rt; matches!(tally, Ok(Tally { documents: 3, canonical: 2, sum: 14 })));
/// ```
pub fn tally_of(alloc: Global, bytes: &[u8], key: &str, limits: Limits) -> Result<Tally, TallyError>
    ensures counted { IfOk result (λ t. ReadsDump (Steps limits key.now) none bytes.now t []) }
    ensures refused { IfErr result (RefusesTally limits key.now bytes.now) }
{
    let mut tally = Tally {
        documents: 0,
        canonical: 0,
        sum: 0,
    };
    let mut rest = bytes;
    while !rest.is_empty() {
        let (document, behind) = match RawDocument::split_first(rest) {
            Ok(parts) => parts,
            Err(why) => return Err(TallyError::NoDocument(why)),
        };
        tally = with_document(alloc, tally, document, key, limits)?;
        rest = behind;
    }
    Ok(tally)
}
