ghost use Rattle.std.specs.Prelude.{IsTrue, ◌↔◌, ◌≤◌, ◌<◌, ◌+◌, length, IfSome, IfNone};
ghost use Rattle.bsonraw_c.specs.Forms.{FillsRoom};
ghost use Rattle.bsonraw_c.specs.Places.{StandsAt};

/// Puts these items at the front of the caller's room and leaves the rest of it as it was; puts nothing where they don't fit.
/// Returns whether they fit.
pub fn put<T: Copy>(room: &mut [T], items: &[T]) -> bool
    ensures fits { IsTrue result ↔ (length items.now ≤ length room.old) }
    ensures filled { FillsRoom items.now room.old room.new }
{
    if room.len() < items.len() {
        return false;
    }
    let (front, _) = room.split_at_mut(items.len());
    front.copy_from_slice(items);
    true
}

/// The `len` bytes from this offset on; or none, where there are fewer.
#[inline(always)]
pub fn part(bytes: &[u8], offset: usize, len: usize) -> Option<&[u8]>
    ensures stands { IfSome result (λ part. StandsAt bytes.now offset len part.now) }
    ensures short { IfNone result (length bytes.now < offset + len) }
{
    if bytes.len() < offset {
        return None;
    }
    let (_, behind) = bytes.split_at(offset);
    if behind.len() < len {
        return None;
    }
    Some(behind.split_at(len).0)
}
