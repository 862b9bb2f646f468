//! Binary values: bytes with a subtype.
ghost use Rattle.std.specs.Prelude.{◌≡◌};
ghost use Rattle.bson_model.specs.Subtype.{subtype_of, subtype_byte};

/// What the bytes of a binary value are (BSON 1.1, binary subtypes).
/// ```
/// assert_eq!(rt; BinarySubtype::from_u8(4), BinarySubtype::Uuid);
/// assert_eq!(rt; BinarySubtype::UserDefined(200).to_u8(), 200);
/// ```
#[derive(Clone, Copy, Debug, PartialEq, Eq)]
pub enum BinarySubtype {
    /// Bytes of no stated meaning (byte 0).
    Generic,
    /// A function (byte 1).
    Function,
    /// Bytes that are written after their length once more, deprecated (byte 2).
    BinaryOld,
    /// A UUID as older drivers wrote it, deprecated (byte 3).
    UuidOld,
    /// A UUID (byte 4).
    Uuid,
    /// An MD5 hash (byte 5).
    Md5,
    /// An encrypted value (byte 6).
    Encrypted,
    /// Compressed columns of a time series (byte 7).
    Column,
    /// Sensitive bytes, which should not be logged (byte 8).
    Sensitive,
    /// A vector of numbers of one type (byte 9).
    Vector,
    /// A byte without a meaning so far: 10 to 127 if it was read. It may hold any byte.
    Reserved(u8),
    /// A byte whose meaning is up to the user: 128 to 255 if it was read. It may hold any byte.
    UserDefined(u8),
}

impl BinarySubtype {
    /// The subtype of a byte: 0 to 9 have names, 10 to 127 are reserved, 128 to 255 user defined.
    pub fn from_u8(byte: u8) -> BinarySubtype
        ensures { result ≡ subtype_of byte }
    {
        match byte {
            0 => BinarySubtype::Generic,
            1 => BinarySubtype::Function,
            2 => BinarySubtype::BinaryOld,
            3 => BinarySubtype::UuidOld,
            4 => BinarySubtype::Uuid,
            5 => BinarySubtype::Md5,
            6 => BinarySubtype::Encrypted,
            7 => BinarySubtype::Column,
            8 => BinarySubtype::Sensitive,
            9 => BinarySubtype::Vector,
            10..=127 => BinarySubtype::Reserved(byte),
            _ => BinarySubtype::UserDefined(byte),
        }
    }

    /// The byte of a subtype. That of a reserved or user-defined one is the byte that it holds, whatever it is.
    pub fn to_u8(self) -> u8
        ensures { result ≡ subtype_byte self }
    {
        match self {
            BinarySubtype::Generic => 0,
            BinarySubtype::Function => 1,
            BinarySubtype::BinaryOld => 2,
            BinarySubtype::UuidOld => 3,
            BinarySubtype::Uuid => 4,
            BinarySubtype::Md5 => 5,
            BinarySubtype::Encrypted => 6,
            BinarySubtype::Column => 7,
            BinarySubtype::Sensitive => 8,
            BinarySubtype::Vector => 9,
            BinarySubtype::Reserved(byte) => byte,
            BinarySubtype::UserDefined(byte) => byte,
        }
    }
}

/// Bytes with a subtype (BSON 1.1, `binary`). Those of the old subtype exclude the inner length.
/// ```
/// let bytes = Vec::from_slice(alloc, &[1, 2])?;
/// let value = RawBson::from(Binary { subtype: BinarySubtype::Generic, bytes });
/// assert_eq!(rt; value.element_type(), ElementType::Binary);
/// ```
#[derive(Debug, PartialEq, Eq, Drop)]
pub struct Binary {
    /// What the bytes are.
    pub subtype: BinarySubtype,
    /// The bytes: at most 2147483647 if they are to be written.
    pub bytes: Vec<u8>,
}
