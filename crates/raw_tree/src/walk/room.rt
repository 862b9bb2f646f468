//! Buffers of the caller into which items are written.
#![tactic(auto)]

ghost use Rattle.std.specs.Prelude.{◌≡◌, ◌∷◌, []};
ghost use Rattle.raw_tree.specs.walk.Rooms.{filled_from};

/// Writes `item` into the room at `place`, if the room has that place.
#[inline(always)]
pub fn put_at<T: Copy>(room: &mut [T], place: usize, item: T)
    ensures { room.new ≡ filled_from place room.old (item ∷ []) }
{
    if place < room.len() {
        room[place] = item;
    }
}
