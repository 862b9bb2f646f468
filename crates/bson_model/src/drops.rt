//! How values that hold others are dropped.

ghost use Rattle.std.specs.Prelude.{◌≡◌, [], IfNone};
ghost use Rattle.bson_model.specs.LeftTrees.{IsCutFrom, IsLess};

use crate::bson::Bson;
use std::mem;

/// Drops the values, however deep they are, and takes no memory. A value whose own values are dropped first
/// waits in the place of the first of them.
pub(crate) fn drop_values(mut held: Vec<Bson>) {
    let mut next = next_of(&mut held);
    while let Some(value) = next {
        next = match value.into_values() {
            Some(values) => enter(&mut held, values),
            None => next_of(&mut held),
        };
    }
    held.destroy_empty();
}

/// Continues with these values, and keeps the held ones waiting among them. Returns the value to drop next.
fn enter(held: &mut Vec<Bson>, values: Vec<Bson>) -> Option<Bson>
    ensures less { IsLess held.new.items result held.old.items values.items }
    ensures none { IfNone result (held.new.items ≡ []) }
{
    if values.is_empty() {
        values.destroy_empty();
        return next_of(held);
    }
    if held.is_empty() {
        mem::replace(held, values).destroy_empty();
        return next_of(held);
    }
    let outer = mem::replace(held, values);
    Some(mem::replace(&mut held[0], Bson::Array(outer)))
}

/// The last of the values that holds something to drop. The values after it hold nothing.
fn next_of(held: &mut Vec<Bson>) -> Option<Bson>
    ensures cut { IsCutFrom held.new.items result held.old.items }
    ensures none { IfNone result (held.new.items ≡ []) }
{
    while let Some(value) = held.pop() {
        if let Some(value) = value.unless_plain() {
            return Some(value);
        }
    }
    None
}
