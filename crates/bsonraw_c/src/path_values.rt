//! Values at paths, whose steps have a separator between them.

ghost use Rattle.std.specs.Prelude.{◌≡◌};
ghost use Rattle.bsonraw_c.specs.PathValues as at;
ghost use Rattle.bsonraw_c.specs.PathValues.{BeginsAndFindsPath, GivesValueAt};

use crate::codes::Status;
use crate::fault::Fault;
use crate::iter::Iter;
use crate::moves::bsonraw_iter_init;
use crate::paths::bsonraw_iter_find_descendant;
use crate::value::{Value, bsonraw_iter_value};

/// Begins in a document and goes to the element at a path.
#[unsafe(no_mangle)]
pub extern "C" fn bsonraw_iter_init_find_descendant(
    iter: &mut Iter,
    bytes: &[u8],
    path: &[u8],
    separator: u8,
) -> i32
    ensures { BeginsAndFindsPath bytes.now path.now separator iter.new result }
{
    let code = bsonraw_iter_init(iter, bytes);
    if code != 0 {
        return code;
    }
    bsonraw_iter_find_descendant(iter, bytes, path, separator)
}

/// Puts the value of the element at a path, if its tag is one of these, or if there are none.
#[unsafe(no_mangle)]
pub extern "C" fn bsonraw_value_at(
    bytes: &[u8],
    path: &[u8],
    separator: u8,
    tags: &[u32],
    value: &mut Value,
) -> i32
    ensures { GivesValueAt bytes.now path.now separator tags.now value.new result }
{
    let mut iter = Iter::shut(0);
    let code = bsonraw_iter_init_find_descendant(&mut iter, bytes, path, separator);
    if code != 0 {
        *value = lacking(iter.fault);
        return code;
    }
    if !is_wanted(iter.tag, tags) {
        *value = lacking(Fault::none());
        return Status::OtherKind.number();
    }
    bsonraw_iter_value(&iter, bytes, value)
}

fn is_wanted(tag: u32, tags: &[u32]) -> bool
    ensures { result ≡ at.is_wanted tag tags.now }
{
    tags.is_empty() || tags.contains(&tag)
}

/// No value, for this fault.
fn lacking(fault: Fault) -> Value
    ensures { result ≡ at.lacking fault }
{
    Value {
        fault,
        ..Value::none(0)
    }
}
