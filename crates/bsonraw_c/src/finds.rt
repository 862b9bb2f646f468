ghost use Rattle.std.specs.Prelude.{IsTrue, ◌↔◌, ◌≡◌};
ghost use Rattle.raw_bson.specs.ElementSteps.{frame_of};
ghost use Rattle.bsonraw_c.specs.Iters.{BeginsAndFinds, FindsOn};

use crate::codes::Status;
use crate::iter::{Iter, behind, end_of};
use crate::moves::bsonraw_iter_init;
use raw_bson::RawElement;

/// Goes on to the next element with this key.
#[unsafe(no_mangle)]
pub extern "C" fn bsonraw_iter_find(iter: &mut Iter, bytes: &[u8], key: &[u8]) -> i32
    ensures { FindsOn bytes.now key.now iter.old iter.new result }
{
    let end = end_of(bytes);
    let Some(elements) = iter.elements(bytes) else {
        iter.leave(end);
        return Status::BadOffset.number();
    };
    let mut next = iter.next;
    for step in elements {
        match step {
            Err(stop) => {
                iter.next = next;
                iter.stop(end, next, &stop);
                return Status::Fault.number();
            }
            Ok(element) => {
                if has_key(element, key) {
                    iter.enter(next, element);
                    return Status::Done.number();
                }
                next = behind(next, element);
            }
        }
    }
    iter.next = next;
    iter.leave(end);
    Status::Nothing.number()
}

/// Begins in a document and goes on to the first element with this key.
#[unsafe(no_mangle)]
pub extern "C" fn bsonraw_iter_init_find(iter: &mut Iter, bytes: &[u8], key: &[u8]) -> i32
    ensures { BeginsAndFinds bytes.now key.now iter.new result }
{
    let code = bsonraw_iter_init(iter, bytes);
    if code != 0 {
        return code;
    }
    bsonraw_iter_find(iter, bytes, key)
}

/// Whether this is the element's key.
pub fn has_key(element: RawElement<'_>, key: &[u8]) -> bool
    ensures { IsTrue result ↔ ((frame_of element.entry).key ≡ key.now) }
{
    element.key().as_bytes() == key
}
