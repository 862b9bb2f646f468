ghost use Rattle.std.specs.Prelude.{◌+◌, ◌<◌, ◌^◌, length};
ghost use Rattle.bsonraw_c.specs.Entries.{FillsEntries, IsEntryWorkedOut};
ghost use Rattle.raw_bson.specs.ElementSteps.{frame_of};

use crate::codes::Status;
use crate::iter::{Iter, behind, end_of};
use raw_bson::RawElement;

/// An element by its offsets in the caller's bytes.
#[repr(C)]
#[derive(Clone, Copy)]
pub struct Entry {
    /// the element's tag
    pub tag: u32,
    /// where the key begins
    pub key_at: u32,
    /// how many bytes the key has, its 0 not counted
    pub key_len: u32,
    /// where the payload begins
    pub payload_at: u32,
    /// how many bytes the payload has
    pub payload_len: u32,
}

/// Goes on over as many elements as the room has entries, and puts them there.
#[unsafe(no_mangle)]
pub extern "C" fn bsonraw_iter_next_many(
    iter: &mut Iter,
    bytes: &[u8],
    entries: &mut [Entry],
    count: &mut u64,
) -> i32
    ensures { FillsEntries bytes.now iter.old iter.new entries.old entries.new count.new result }
{
    let end = end_of(bytes);
    *count = 0;
    let Some(mut elements) = iter.elements(bytes) else {
        iter.leave(end);
        return Status::BadOffset.number();
    };
    let mut next = iter.next;
    for index in 0..entries.len() {
        match elements.next() {
            Some(Ok(element)) => {
                entries[index] = Entry::at(next, element);
                next = behind(next, element);
            }
            None => {
                *count = index as u64;
                iter.next = next;
                iter.leave(end);
                return Status::Nothing.number();
            }
            Some(Err(stop)) => {
                *count = index as u64;
                iter.next = next;
                iter.stop(end, next, &stop);
                return Status::Fault.number();
            }
        }
    }
    *count = entries.len() as u64;
    iter.next = next;
    iter.leave(end);
    Status::Done.number()
}

impl Entry {
    /// This element, whose tag is at this offset.
    #[inline(always)]
    fn at(offset: u32, element: RawElement<'_>) -> Entry
        requires { offset + (2 + (length (frame_of element).key
            + length (frame_of element).payload)) < 2 ^ 32 }
        ensures { IsEntryWorkedOut offset (frame_of element.entry) result }
    {
        let key_len = element.key().len() as u32;
        Entry {
            tag: element.element_type().to_tag() as u32,
            key_at: offset + 1,
            key_len,
            payload_at: offset + 2 + key_len,
            payload_len: element.len() as u32,
        }
    }
}
