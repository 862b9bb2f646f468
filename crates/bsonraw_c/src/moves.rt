ghost use Rattle.bsonraw_c.specs.Iters.{BeginsAt, BeginsWhole, Descends, Moves};

use crate::codes::Status;
use crate::iter::{Iter, end_of};
use crate::room::part;
use crate::view::document_of;

/// Begins before the first element of the document that the bytes are.
#[unsafe(no_mangle)]
pub extern "C" fn bsonraw_iter_init(iter: &mut Iter, bytes: &[u8]) -> i32
    ensures { BeginsWhole bytes.now iter.new result }
{
    let end = end_of(bytes);
    match document_of(bytes) {
        Ok(_) => {
            *iter = Iter::begin(end, 0, end);
            Status::Done.number()
        }
        Err(reason) => {
            *iter = Iter::refused(end, 0, reason);
            Status::NoDocument.number()
        }
    }
}

/// Begins before the first element of the document that the `len` bytes from this offset on are.
#[unsafe(no_mangle)]
pub extern "C" fn bsonraw_iter_init_at(iter: &mut Iter, bytes: &[u8], offset: u32, len: u32) -> i32
    ensures { BeginsAt bytes.now offset len iter.new result }
{
    let end = end_of(bytes);
    let document = match offset.checked_add(len) {
        Some(_) => part(bytes, offset as usize, len as usize),
        None => None,
    };
    let Some(document) = document else {
        *iter = Iter::shut(end);
        return Status::BadOffset.number();
    };
    match document_of(document) {
        Ok(_) => {
            *iter = Iter::begin(end, offset, len);
            Status::Done.number()
        }
        Err(reason) => {
            *iter = Iter::refused(end, offset, reason);
            Status::NoDocument.number()
        }
    }
}

/// Begins before the first element of the document or the array that another iterator is at.
#[unsafe(no_mangle)]
pub extern "C" fn bsonraw_iter_recurse(iter: &Iter, bytes: &[u8], child: &mut Iter) -> i32
    ensures { Descends bytes.now iter.now child.new result }
{
    if iter.tag == 3 || iter.tag == 4 {
        return bsonraw_iter_init_at(child, bytes, iter.payload_at, iter.payload_len);
    }
    *child = Iter::shut(end_of(bytes));
    Status::OtherKind.number()
}

/// Goes on to the next element.
#[unsafe(no_mangle)]
pub extern "C" fn bsonraw_iter_next(iter: &mut Iter, bytes: &[u8]) -> i32
    ensures { Moves bytes.now iter.old iter.new result }
{
    let next = iter.next;
    if let Some(mut elements) = iter.elements(bytes) {
        if let Some(element) = elements.next_plain() {
            iter.enter(next, element);
            return Status::Done.number();
        }
    }
    step(iter, bytes)
}

/// Goes on to the next element, or says why there is none.
#[inline(never)]
fn step(iter: &mut Iter, bytes: &[u8]) -> i32
    ensures { Moves bytes.now iter.old iter.new result }
{
    let end = end_of(bytes);
    let next = iter.next;
    let Some(mut elements) = iter.elements(bytes) else {
        iter.leave(end);
        return Status::BadOffset.number();
    };
    match elements.next() {
        None => {
            iter.leave(end);
            Status::Nothing.number()
        }
        Some(Ok(element)) => {
            iter.enter(next, element);
            Status::Done.number()
        }
        Some(Err(stop)) => {
            iter.stop(end, next, &stop);
            Status::Fault.number()
        }
    }
}
