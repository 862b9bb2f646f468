ghost use Rattle.std.specs.Prelude.{◌↔◌, ◌≡◌, ◌∷◌, ◌++◌, decimal, IfNone, IfSome, IsTrue};
ghost use Rattle.bsonraw_c.specs.Paths.{FindsNumber, FindsPathOf, FindsStep, HasNone};

use crate::codes::Status;
use crate::finds::bsonraw_iter_find;
use crate::iter::{Iter, behind, end_of};
use crate::moves::bsonraw_iter_recurse;
use itoa::Buffer;

/// Goes down a path, whose steps have a separator between them: a key in a document, the number of an element in an array.
#[unsafe(no_mangle)]
pub extern "C" fn bsonraw_iter_find_descendant(
    iter: &mut Iter,
    bytes: &[u8],
    path: &[u8],
    separator: u8,
) -> i32
    ensures { FindsPathOf bytes.now path.now separator iter.old iter.new result }
{
    let mut path = path;
    let mut in_array = false;
    loop {
        let (step, rest) = first_step(path, separator);
        let code = find_step(iter, bytes, in_array, step);
        let Some(rest) = rest else {
            return code;
        };
        if code != 0 {
            return code;
        }
        let parent = *iter;
        let code = bsonraw_iter_recurse(&parent, bytes, iter);
        if code != 0 {
            return code;
        }
        in_array = parent.tag == 4;
        path = rest;
    }
}

/// Goes on to what a step goes to.
fn find_step(iter: &mut Iter, bytes: &[u8], in_array: bool, step: &[u8]) -> i32
    ensures { FindsStep bytes.now in_array step.now iter.old iter.new result }
{
    if in_array {
        return find_number(iter, bytes, step);
    }
    bsonraw_iter_find(iter, bytes, step)
}

/// The first step of a path, and what comes after its separator.
fn first_step(path: &[u8], separator: u8) -> (&[u8], Option<&[u8]>)
    ensures none { HasNone separator result.0.now }
    ensures last { IfNone result.1 (path.now ≡ result.0.now) }
    ensures more { IfSome result.1 (λ rest. path.now ≡ result.0.now ++ separator ∷ rest.now) }
{
    for len in 0..path.len() {
        if path[len] == separator {
            let (step, rest) = path.split_at(len);
            return (step, Some(&rest[1..]));
        }
    }
    (path, None)
}

/// Goes on to the element of an array with this number, counted from the next one on.
fn find_number(iter: &mut Iter, bytes: &[u8], number: &[u8]) -> i32
    ensures { FindsNumber bytes.now number.now iter.old iter.new result }
{
    let end = end_of(bytes);
    let Some(elements) = iter.elements(bytes) else {
        iter.leave(end);
        return Status::BadOffset.number();
    };
    let mut next = iter.next;
    let mut index = 0;
    for step in elements {
        match step {
            Err(stop) => {
                iter.next = next;
                iter.stop(end, next, &stop);
                return Status::Fault.number();
            }
            Ok(element) => {
                if is_decimal(number, index) {
                    iter.enter(next, element);
                    return Status::Done.number();
                }
                next = behind(next, element);
                index += 1;
            }
        }
    }
    iter.next = next;
    iter.leave(end);
    Status::Nothing.number()
}

/// Whether these bytes are the decimal of the number.
fn is_decimal(bytes: &[u8], number: u32) -> bool
    ensures { IsTrue result ↔ (bytes.now ≡ decimal number) }
{
    bytes == Buffer::new().format(number).as_bytes()
}
