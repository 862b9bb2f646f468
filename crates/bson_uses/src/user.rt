//! Documents checked against a fixed set of fields.
ghost use Rattle.std.specs.Prelude.{◌≡◌, ◌↔◌, IsTrue};
ghost use Rattle.raw_bson.specs.Document.{bytes_of};
ghost use Rattle.raw_bson.specs.Folds.{FoldsEach};
ghost use Rattle.raw_bson.specs.Value.{value_of};
ghost use Rattle.bson_uses.specs.Users.{AddsField, AddsItem, ChecksUser, HasAllFields, TellsField, damaged, nothing};

use raw_bson::{Error, RawBsonRef, RawDocument};
use std::alloc::Global;

/// A field of a user.
#[derive(Clone, Copy)]
pub enum Field {
    /// `_id`, an ObjectId
    Id,
    /// `email`, a text that isn't empty
    Email,
    /// `age`, a number from 0 to 150
    Age,
}

/// Which fields a document has.
#[derive(Clone, Copy)]
pub struct Fields {
    /// whether it has `_id`
    pub id: bool,
    /// whether it has `email`
    pub email: bool,
    /// whether it has `age`
    pub age: bool,
}

/// Why a document is no user.
#[derive(Debug, PartialEq, Eq, Drop)]
pub enum NotUser {
    /// it has a field that no user has, or one of another kind
    OtherField,
    /// it has a field twice
    Repeated,
    /// it has no `_id`, or no `email`
    Missing,
    /// it is damaged, or memory ran out for the error
    Damaged(Error),
}

impl From<Error> for NotUser {
    ghost use Rattle.std.specs.Prelude.{◌≡◌};
    ghost use Rattle.bson_uses.specs.declared.user.NotUser.TheVariants as refused;

    ghost from_gives = { λ error gives. gives ≡ refused.Damaged error };

    fn from(error: Error) -> NotUser {
        NotUser::Damaged(error)
    }
}

impl Fields {
    /// These fields and one more.
    fn with(self, field: Field) -> Result<Fields, NotUser>
        ensures { AddsField self field result }
    {
        match field {
            Field::Id if !self.id => Ok(Fields { id: true, ..self }),
            Field::Email if !self.email => Ok(Fields {
                email: true,
                ..self
            }),
            Field::Age if !self.age => Ok(Fields { age: true, ..self }),
            _ => Err(NotUser::Repeated),
        }
    }

    /// Whether none is missing.
    fn is_whole(self) -> bool
        ensures { IsTrue result ↔ HasAllFields self }
    {
        self.id && self.email
    }
}

/// The field of a key and a value, if there is one.
fn field_of(key: &str, value: RawBsonRef<'_>) -> Option<Field>
    ensures { TellsField key.now (value_of value.entry) result }
{
    match (key, value) {
        ("_id", RawBsonRef::ObjectId(_)) => Some(Field::Id),
        ("email", RawBsonRef::String(text)) if !text.is_empty() => Some(Field::Email),
        ("age", RawBsonRef::Int32(age)) if 0 <= age && age <= 150 => Some(Field::Age),
        _ => None,
    }
}

/// These fields, and that of a key and a value.
fn with_item(fields: Fields, key: &str, value: RawBsonRef<'_>) -> Result<Fields, NotUser>
    ensures { AddsItem fields key.now (value_of value.entry) result }
{
    match field_of(key, value) {
        Some(field) => fields.with(field),
        None => Err(NotUser::OtherField),
    }
}

/// The fields of a document, each once; or the first item that is no field of a user, or a fault before it.
fn fields_of(alloc: Global, document: RawDocument<'_>) -> Result<Fields, NotUser>
    ensures { FoldsEach damaged AddsItem nothing (bytes_of document.entry) result }
{
    let mut fields = Fields {
        id: false,
        email: false,
        age: false,
    };
    for item in document.iter(alloc) {
        let (key, value) = item?;
        fields = with_item(fields, key, value)?;
    }
    Ok(fields)
}

/// Ok if the document is a user: `_id`, `email`, perhaps `age`, each once, and nothing else.
/// ```
/// let user = b"\x23\0\0\0\x07_id\0\0\0\0\0\0\0\0\0\0\0\0\0\x02email\0\x02\0\0\0x\0\0";
/// assert_eq!(rt; check_user(alloc, RawDocument::from_bytes(user)?), Ok(()));
/// let other = RawDocument::from_bytes(b"\x08\0\0\0\x0Aa\0\0")?;
/// assert_eq!(rt; check_user(alloc, other), Err(NotUser::OtherField));
/// ```
pub fn check_user(alloc: Global, document: RawDocument<'_>) -> Result<(), NotUser>
    ensures { ChecksUser (bytes_of document.entry) result }
{
    let fields = fields_of(alloc, document)?;
    if fields.is_whole() {
        Ok(())
    } else {
        Err(NotUser::Missing)
    }
}
