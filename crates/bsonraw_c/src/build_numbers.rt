//! Numbers that are appended by a builder.

ghost use Rattle.std.specs.Prelude.{◌≡◌};
ghost use Rattle.bsonraw_c.specs.Build.{HoldsMore, TakesMore};
ghost use Rattle.bsonraw_c.specs.Numbers.{AppendsNumber, IsReadNumber};

use crate::build::Builder;
use crate::build_parts::{Layout, kind_of};
use crate::codes::Status;

/// Appends the element of this tag whose payload is the lowest bytes of a number, as many as its kind has. In an array its key is
/// the next number.
#[unsafe(no_mangle)]
pub extern "C" fn bsonraw_append_number(
    builder: &mut Builder,
    room: &mut [u8],
    tag: u32,
    key: &[u8],
    number: u64,
) -> i32
    ensures appends { AppendsNumber tag key.now number builder.old builder.new room.old room.new }
    ensures holds { HoldsMore (IsReadNumber builder.old tag key.now number)
        builder.old builder.new room.old room.new }
    ensures status { result ≡ builder.new.status }
{
    if !builder.goes_on() {
        return builder.status;
    }
    builder.append_number(room, tag, key, number);
    builder.status
}

impl Builder {
    /// Appends the element of this tag whose payload is the lowest bytes of a number.
    #[inline(always)]
    fn append_number(&mut self, room: &mut [u8], tag: u32, key: &[u8], number: u64)
        requires { TakesMore self.old }
        ensures { AppendsNumber tag key.now number self.old self.new room.old room.new }
    {
        if !self.is_begun() {
            return self.refuse(Status::BadOffset);
        }
        let Some(kind) = kind_of(tag) else {
            return self.refuse(Status::OtherKind);
        };
        let layout = Layout::of(kind);
        let Some(size) = layout.number_size() else {
            return self.refuse(Status::OtherKind);
        };
        let bytes = number.to_le_bytes();
        let payload = &bytes[..size];
        match layout.validate(payload, &[]) {
            Ok(()) => self.add_under(room, kind, key, payload),
            Err(status) => self.refuse(status),
        }
    }
}
