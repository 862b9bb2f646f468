//! Lines of output.

ghost use Rattle.std.specs.Iterator.{IsFinite};

use crate::failure::Failure;
use crate::shown::Shown;

/// Writes a line: what a call returns.
pub fn put<T: Shown + Drop>(out: &mut String, value: T) -> Result<(), Failure> {
    value.show(out)?;
    Ok(out.push_str("\n")?)
}

/// Writes a line: an error.
pub fn put_error<E: Shown + Drop>(out: &mut String, error: E) -> Result<(), Failure> {
    put::<Result<(), E>>(out, Err(error))
}

/// Writes a line for each item, and one for the end.
pub fn put_items<T: Shown + Drop, I: Iterator<Item = T> + Drop>(
    out: &mut String,
    items: I,
) -> Result<(), Failure>
    requires can { I.can_next items }
    requires ends { IsFinite (I.remaining items) }
{
    for item in items {
        put(out, item)?;
    }
    Ok(out.push_str("end\n")?)
}
