//! What is written into the caller's room, at an offset.

ghost use Rattle.std.specs.Prelude.{◌≡◌, ◌≤◌, ◌+◌, ◌++◌, ◌∷◌, [], length, pos};
ghost use Rattle.raw_bson.specs.Format.{string_payload};
ghost use Rattle.raw_bson.specs.Number.{le32, max_length};
ghost use Rattle.bsonraw_c.specs.Build.{put_bytes};

/// Puts bytes at an offset.
#[inline(always)]
pub fn put_at(room: &mut [u8], at: usize, bytes: &[u8])
    requires { at + length bytes.now ≤ length room.old }
    ensures { room.new ≡ put_bytes at bytes.now room.old }
{
    room[at..at + bytes.len()].copy_from_slice(bytes);
}

/// Puts the four bytes of a length at an offset.
#[inline(always)]
pub fn put_len(room: &mut [u8], at: usize, len: usize)
    requires room { at + 4 ≤ length room.old }
    requires fits { len ≤ max_length }
    ensures { room.new ≡ put_bytes at (le32 (pos len)) room.old }
{
    put_at(room, at, &(len as i32).to_le_bytes()[..]);
}

/// Puts a text and a 0 at an offset.
#[inline(always)]
pub fn put_c_text(room: &mut [u8], at: usize, text: &[u8])
    requires { at + (length text.now + 1) ≤ length room.old }
    ensures { room.new ≡ put_bytes at (text.now ++ 0 ∷ []) room.old }
{
    put_at(room, at, text);
    put_at(room, at + text.len(), &[0]);
}

/// Puts the length of a text with its 0, the text and the 0 at an offset.
#[inline(always)]
pub fn put_string(room: &mut [u8], at: usize, text: &[u8])
    requires room { at + (length text.now + 5) ≤ length room.old }
    requires fits { length text.now + 1 ≤ max_length }
    ensures { room.new ≡ put_bytes at (string_payload text.now) room.old }
{
    put_len(room, at, text.len() + 1);
    put_c_text(room, at + 4, text);
}

/// Puts the tag of an element, its key and a 0 at an offset.
#[inline(always)]
pub fn put_head(room: &mut [u8], at: usize, tag: u8, key: &[u8])
    requires { at + (length key.now + 2) ≤ length room.old }
    ensures { room.new ≡ put_bytes at (tag ∷ (key.now ++ 0 ∷ [])) room.old }
{
    put_at(room, at, &[tag]);
    put_c_text(room, at + 1, key);
}

/// Puts bytes at an offset, in few steps where they are as many as those of a usual kind.
#[inline(always)]
pub fn put_short(room: &mut [u8], at: usize, bytes: &[u8])
    requires { at + length bytes.now ≤ length room.old }
    ensures { room.new ≡ put_bytes at bytes.now room.old }
{
    match bytes.len() {
        4 => put_at(room, at, &bytes[..4]),
        8 => put_at(room, at, &bytes[..8]),
        12 => put_at(room, at, &bytes[..12]),
        _ => put_at(room, at, bytes),
    }
}
