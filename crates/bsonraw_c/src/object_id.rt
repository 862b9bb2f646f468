//! ObjectIds as hex digits.

ghost use Rattle.std.specs.Prelude.{◌≡◌};
ghost use Rattle.hex.specs.Hex.{encode_lower};
ghost use Rattle.bsonraw_c.specs.Iters.{Returns};
ghost use Rattle.bsonraw_c.specs.Texts.{ReadsHex, seconds_of};
ghost use Rattle.bsonraw_c.specs.declared.codes.Status.TheVariants as status;

use crate::codes::Status;

/// The twelve bytes of an ObjectId.
#[repr(C)]
#[derive(Clone, Copy)]
pub struct ObjectId {
    /// its bytes, in order
    pub bytes: [u8; 12],
}

/// Room for the hex digits of an ObjectId.
#[repr(C)]
#[derive(Clone, Copy)]
pub struct HexText {
    /// two for each byte
    pub digits: [u8; 24],
    /// the 0 after them
    pub end: u8,
}

/// Puts the bytes of an ObjectId into the room as hex digits in lower case, with a 0 after them.
#[unsafe(no_mangle)]
pub extern "C" fn bsonraw_oid_to_hex(id: &ObjectId, hex: &mut HexText) -> i32
    ensures digits { hex.new.digits ≡ encode_lower id.now.bytes }
    ensures end { hex.new.end ≡ 0 }
    ensures status { Returns status.Done result }
{
    hex.end = 0;
    let Ok(()) = hex::encode_to_slice(&id.bytes[..], &mut hex.digits) else {
        unreachable!();
    };
    Status::Done.number()
}

/// Puts the twelve bytes that 24 hex digits write into the room.
#[unsafe(no_mangle)]
pub extern "C" fn bsonraw_oid_from_hex(hex: &[u8], id: &mut ObjectId) -> i32
    ensures { ReadsHex hex.now id.old.bytes id.new.bytes result }
{
    let mut bytes = [0; 12];
    match hex::decode_to_slice(hex, &mut bytes) {
        Ok(()) => {
            id.bytes = bytes;
            Status::Done.number()
        }
        Err(_) => Status::Fault.number(),
    }
}

/// The seconds from 1970 on that an ObjectId says.
#[unsafe(no_mangle)]
pub extern "C" fn bsonraw_oid_time(id: &ObjectId) -> u32
    ensures { result ≡ seconds_of id.now.bytes }
{
    let [first, second, third, fourth, ..] = id.bytes;
    u32::from_be_bytes([first, second, third, fourth])
}
