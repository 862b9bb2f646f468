//! Payloads that are overwritten in place.

ghost use Rattle.std.specs.Prelude.{◌≡◌, ◌+◌, ◌≤◌, ◌↔◌, IsTrue, length};
ghost use Rattle.bsonraw_c.specs.Overwriting.{IsOfSize, Overwrites, overwritten};

use crate::codes::Status;
use crate::iter::Iter;
use crate::path_values::bsonraw_iter_init_find_descendant;

/// Overwrites the payload of the element at a path, if the element has this tag and the new payload's length.
#[unsafe(no_mangle)]
pub extern "C" fn bsonraw_overwrite(
    bytes: &mut [u8],
    path: &[u8],
    separator: u8,
    tag: u32,
    payload: &[u8],
) -> i32
    ensures { Overwrites bytes.old path.now separator tag payload.now bytes.new result }
{
    let mut iter = Iter::shut(0);
    let code = bsonraw_iter_init_find_descendant(&mut iter, bytes, path, separator);
    if code != 0 {
        return code;
    }
    if !is_of_size(&iter, tag, payload) {
        return Status::OtherKind.number();
    }
    put_from(bytes, iter.payload_at as usize, payload);
    Status::Done.number()
}

fn is_of_size(iter: &Iter, tag: u32, payload: &[u8]) -> bool
    ensures { IsTrue result ↔ IsOfSize iter.now tag payload.now }
{
    iter.tag == tag && iter.payload_len as usize == payload.len()
}

/// Puts these items from this place on.
pub fn put_from(bytes: &mut [u8], at: usize, part: &[u8])
    requires { at + length part.now ≤ length bytes.now }
    ensures { bytes.new ≡ overwritten bytes.old at part.now }
{
    let (_, from) = bytes.split_at_mut(at);
    let (there, _) = from.split_at_mut(part.len());
    there.copy_from_slice(part);
}
