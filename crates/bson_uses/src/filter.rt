//! Filters, as in queries: which documents match.
ghost use Rattle.std.specs.Prelude.{◌≡◌, ◌↔◌, IsTrue, Ok};
ghost use Rattle.raw_bson.specs.Document.{bytes_of};
ghost use Rattle.raw_bson.specs.EachItem.{SeeksOne, value_in};
ghost use Rattle.raw_bson.specs.Value.{value_of, array_bytes_of};
ghost use Rattle.bson_uses.specs.Matching.{Wants, IsThis, MeetsOperator, MeetsNamed, MeetsCondition, MeetsWanted, MeetsUnder, Matches};

use raw_bson::{Error, RawArray, RawBsonRef, RawDocument, Result};
use std::alloc::Global;
use std::fmt;

/// Why a document doesn't match a filter.
#[derive(Debug, PartialEq, Eq, Drop)]
pub enum Unmet {
    /// Under a key it has another value, or none.
    Differs,
    /// The filter has an operator that isn't known, or one with an operand of another kind.
    BadOperator,
    /// The filter or the document is damaged where it is read, or memory ran out.
    Damaged(Error),
}

impl fmt::Display for Unmet {
    fn fmt<W: fmt::Write>(&self, f: &mut fmt::Formatter<W>) -> fmt::Result {
        match self {
            Unmet::Differs => write!(f, "another value, or none"),
            Unmet::BadOperator => write!(f, "bad operator"),
            Unmet::Damaged(error) => write!(f, "{error}"),
        }
    }
}

impl std::error::Error for Unmet {}

/// Ok if something matches a filter.
pub type Met = std::result::Result<(), Unmet>;

impl From<Error> for Unmet {
    ghost use Rattle.std.specs.Prelude.{◌≡◌};
    ghost use Rattle.bson_uses.specs.declared.filter.Unmet.TheVariants as unmet;

    ghost from_gives = { λ error gives. gives ≡ unmet.Damaged error };

    fn from(error: Error) -> Unmet {
        Unmet::Damaged(error)
    }
}

/// What is tested of a value.
/// ```
/// let mut ada = RawDocumentBuf::new(alloc)?;
/// ada.append("age", RawBson::Int32(36))?;
/// let mut over = RawDocumentBuf::new(alloc)?;
/// over.append("$gt", RawBson::Int32(21))?;
/// let mut filter = RawDocumentBuf::new(alloc)?;
/// filter.append_ref("age", RawBsonRef::from(&over))?;
/// assert_eq!(rt; matches(alloc, ada.as_ref(), filter.as_ref()), Ok(()));
/// let mut ages = RawArrayBuf::new(alloc)?;
/// ages.push(RawBson::Int32(21))?;
/// let mut among = RawDocumentBuf::new(alloc)?;
/// among.append_ref("$in", RawBsonRef::from(&ages))?;
/// let mut filter = RawDocumentBuf::new(alloc)?;
/// filter.append_ref("age", RawBsonRef::from(&among))?;
/// assert_eq!(rt; matches(alloc, ada.as_ref(), filter.as_ref()), Err(Unmet::Differs));
/// ```
#[derive(Clone, Copy)]
pub enum Operator<'a> {
    /// whether it is a number greater than this
    Over(i32),
    /// whether it is one of these
    Among(RawArray<'a>),
}

/// Whether the array contains this value.
fn is_among(alloc: Global, value: RawBsonRef<'_>, array: RawArray<'_>) -> Result<bool>
    ensures { SeeksOne (λ e. e) (λ key v. v ≡ value_of value.entry) (array_bytes_of array.entry) result }
{
    for item in array.iter(alloc) {
        let element = item?;
        if element == value {
            return Ok(true);
        }
    }
    Ok(false)
}

/// Whether what was found passes the operator. Nothing passes none.
fn is_met(alloc: Global, found: Option<RawBsonRef<'_>>, operator: Operator<'_>) -> Met
    ensures { MeetsOperator (value_in found.entry) operator.entry result }
{
    let Some(value) = found else {
        return Err(Unmet::Differs);
    };
    let is_met = match operator {
        Operator::Over(least) => match value.as_i32() {
            Some(number) => least < number,
            None => false,
        },
        Operator::Among(array) => is_among(alloc, value, array)?,
    };
    if is_met { Ok(()) } else { Err(Unmet::Differs) }
}

/// Whether what was found passes the operator with this name and this operand.
fn is_met_named(
    alloc: Global,
    found: Option<RawBsonRef<'_>>,
    name: &str,
    operand: RawBsonRef<'_>,
) -> Met
    ensures { MeetsNamed (value_in found.entry) name.now (value_of operand.entry) result }
{
    match (name, operand) {
        ("$gt", RawBsonRef::Int32(least)) => is_met(alloc, found, Operator::Over(least)),
        ("$in", RawBsonRef::Array(array)) => is_met(alloc, found, Operator::Among(array)),
        _ => Err(Unmet::BadOperator),
    }
}

/// Whether what was found passes all operators of a condition.
fn are_met(alloc: Global, found: Option<RawBsonRef<'_>>, condition: RawDocument<'_>) -> Met
    ensures { MeetsCondition (bytes_of condition.entry) (value_in found.entry) result }
{
    for item in condition.iter(alloc) {
        let (name, operand) = item?;
        is_met_named(alloc, found, name, operand)?;
    }
    Ok(())
}

/// Whether a value was found, and is this.
#[tactic(auto, using(raw_bson::proofs::Face::view_same))]
fn is_equal(found: Option<RawBsonRef<'_>>, wanted: RawBsonRef<'_>) -> Met
    ensures { Wants (IsThis (value_in found.entry) (value_of wanted.entry)) result }
{
    let Some(value) = found else {
        return Err(Unmet::Differs);
    };
    if value == wanted {
        Ok(())
    } else {
        Err(Unmet::Differs)
    }
}

/// Whether what was found is as wanted: a document is a condition, any other value has to be equal.
fn is_wanted(alloc: Global, found: Option<RawBsonRef<'_>>, wanted: RawBsonRef<'_>) -> Met
    ensures { MeetsWanted (value_of wanted.entry) (value_in found.entry) result }
{
    match wanted.as_document() {
        Some(condition) => are_met(alloc, found, condition),
        None => is_equal(found, wanted),
    }
}

/// Whether what the document has under this key is as wanted.
fn has(alloc: Global, document: RawDocument<'_>, key: &str, wanted: RawBsonRef<'_>) -> Met
    ensures { MeetsUnder (bytes_of document.entry) key.now (value_of wanted.entry) result }
{
    let found = document.get(alloc, key)?;
    is_wanted(alloc, found, wanted)
}

/// Whether the document matches the filter; otherwise the first thing that doesn't, or the first error.
/// ```
/// let mut ada = RawDocumentBuf::new(alloc)?;
/// ada.append_ref("name", RawBsonRef::String("Ada"))?;
/// ada.append("age", RawBson::Int32(36))?;
/// let mut bob = RawDocumentBuf::new(alloc)?;
/// bob.append_ref("name", RawBsonRef::String("Bob"))?;
/// assert_eq!(rt; matches(alloc, ada.as_ref(), ada.as_ref()), Ok(()));
/// assert_eq!(rt; matches(alloc, ada.as_ref(), RawDocumentBuf::new(alloc)?.as_ref()), Ok(()));
/// assert_eq!(rt; matches(alloc, ada.as_ref(), bob.as_ref()), Err(Unmet::Differs));
/// assert_eq!(rt; matches(alloc, bob.as_ref(), ada.as_ref()), Err(Unmet::Differs));
/// ```
pub fn matches(alloc: Global, document: RawDocument<'_>, filter: RawDocument<'_>) -> Met
    ensures { Matches (bytes_of document.entry) (bytes_of filter.entry) result }
{
    for item in filter.iter(alloc) {
        let (key, wanted) = item?;
        has(alloc, document, key, wanted)?;
    }
    Ok(())
}
