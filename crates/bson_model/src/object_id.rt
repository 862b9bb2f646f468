//! ObjectIds, and pointers to objects.
ghost use Rattle.std.specs.Prelude.{◌≡◌, length, IfOk, Some};
ghost use Rattle.std.specs.String.{string_bytes};
ghost use Rattle.hex.specs.Hex.{encode_lower};
ghost use Rattle.bson_model.specs.Bytes.{AreBytesOf};
ghost use Rattle.bson_model.specs.Scalars.{bytes_of_object_id};

use crate::errors::NoMemory;
use crate::ranges::attest_bytes;
use std::alloc::Global;
use std::{fmt, str};

/// Twelve bytes that name an object (BSON 1.1, element of type ObjectId).
/// ```
/// let id = ObjectId::from_bytes([7; 12]);
/// assert_eq!(rt; id.to_hex(alloc)?.as_str(), "070707070707070707070707");
/// ```
#[derive(Clone, Copy, Debug, PartialEq, Eq)]
pub struct ObjectId {
    bytes: [u8; 12],
}

impl ObjectId {
    /// The identifier of these twelve bytes.
    pub fn from_bytes(bytes: [u8; 12]) -> ObjectId
        ensures { bytes_of_object_id result ≡ bytes }
    {
        ObjectId { bytes }
    }

    /// Its twelve bytes, in order.
    pub fn bytes(self) -> [u8; 12]
        ensures bytes { result ≡ bytes_of_object_id self }
        ensures in_range { AreBytesOf 12 result }
    {
        attest_bytes(&self.bytes[..]);
        self.bytes
    }

    /// Its bytes as 24 lower case hexadecimal digits, or `NoMemory`.
    pub fn to_hex(self, alloc: Global) -> Result<String, NoMemory>
        ensures digits { IfOk result
            (λ text. string_bytes text ≡ encode_lower (bytes_of_object_id self)) }
        ensures length { IfOk result (λ text. length (string_bytes text) ≡ 24) }
    {
        Ok(hex::encode(alloc, &self.bytes()[..])?)
    }
}

/// Its bytes as 24 lower case hexadecimal digits, as `to_hex` has them.
///
/// Not in the contract: it takes no memory.
impl fmt::Display for ObjectId {
    ghost output = { λ id. Some (encode_lower (bytes_of_object_id id)) };

    fn fmt<W: fmt::Write>(&self, f: &mut fmt::Formatter<W>) -> fmt::Result {
        let id = *self;
        let bytes = id.bytes();
        let mut digits = [0u8; 24];
        let Ok(()) = hex::encode_to_slice(&bytes[..], &mut digits) else {
            unreachable!();
        };
        let Ok(text) = str::from_utf8(&digits) else {
            unreachable!();
        };
        f.write_str(text)
    }
}

/// A pointer to an object of a database (BSON 1.1, DBPointer, deprecated).
/// ```
/// let pointer = DbPointer { namespace: String::from_str(alloc, "db.c")?, id: ObjectId::from_bytes([7; 12]) };
/// assert_eq!(rt; RawBson::from(pointer).element_type(), ElementType::DbPointer);
/// ```
#[derive(Debug, PartialEq, Eq, Drop)]
pub struct DbPointer {
    /// The name of the database and of the collection, UTF-8.
    pub namespace: String,
    /// The object's identifier.
    pub id: ObjectId,
}
