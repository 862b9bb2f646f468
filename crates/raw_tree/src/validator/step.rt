//! A step of a validation: what is next in a level, and whether it is a breach.
#![tactic(auto)]

ghost use Rattle.std.specs.Prelude.{[], IfOk, IfErr};
ghost use Rattle.raw_tree.specs.validator.ValidationSteps.{AreOpenKeys, HasKeysSoFar, HoldsAsTold, TellsValue, Validates, array_sort};
ghost use Rattle.key_set.specs.References.{texts};
ghost use Rattle.raw_view.specs.Errors.{IsOutOfMemory};
ghost use Rattle.raw_view.specs.Meaning.Value.{value_of};

use crate::validator::breach::Cause;
use crate::validator::keys_so_far::KeysSoFar;
use bson_model::do_options_ascend;
use raw_view::{Elements, Holder, RawBsonRef, RawDocument, RawElement, Result};
use std::alloc::Global;

/// What is next in a level that is being validated.
#[derive(Drop)]
pub(crate) enum Validated<'a> {
    /// the final 0
    End,
    /// an element that is canonical
    Whole(RawElement<'a>),
    /// an element whose key is canonical, the level that its value holds, and whether that is an array
    Inside(RawElement<'a>, RawDocument<'a>, bool),
    /// a breach: the key of the element, or none for a stop; and why
    Breach(Option<&'a str>, Cause),
}

/// What a value holds.
#[derive(Drop)]
pub(crate) enum Held<'a> {
    /// neither a level nor options that descend
    Nothing,
    /// options that descend
    Descending,
    /// a level, and whether it is an array
    Level(RawDocument<'a>, bool),
}

/// What the value holds.
#[inline(always)]
pub(crate) fn held_by(value: RawBsonRef<'_>) -> Held<'_>
    ensures { HoldsAsTold (value_of value.entry) result }
{
    match value.level() {
        Some(level) => Held::Level(level.document, matches!(level.holder, Holder::Array)),
        None => match value {
            RawBsonRef::RegularExpression(regex) if !do_options_ascend(regex.options) =>
                Held::Descending,
            _ => Held::Nothing,
        },
    }
}

/// The keys of a level before its first element is validated.
pub(crate) fn keys_of<'a>(is_array: bool, listed: &[&'a str]) -> KeysSoFar<'a>
    ensures { HasKeysSoFar result listed.now (array_sort is_array) (texts listed.now) [] }
{
    if is_array {
        KeysSoFar::of_array(listed)
    } else {
        KeysSoFar::of_document(listed)
    }
}

/// Validates what is next in a level: a key, then its value. `number` elements are before it. The only error
/// is out of memory.
#[inline(always)]
pub(crate) fn validate_next<'a>(
    alloc: Global,
    elements: &mut Elements<'a>,
    keys: &mut KeysSoFar<'a>,
    listed: &mut Vec<&'a str>,
    number: usize,
) -> Result<Validated<'a>>
    requires { AreOpenKeys keys.old listed.old.items }
    ensures validates { IfOk result
        (Validates elements.old keys.old listed.old.items number elements.new keys.new listed.new.items) }
    ensures err { IfErr result IsOutOfMemory }
{
    let element = match elements.next() {
        None => return Ok(Validated::End),
        Some(Err(_)) => return Ok(Validated::Breach(None, Cause::Stop)),
        Some(Ok(element)) => element,
    };
    let key = element.key();
    match keys.add(alloc, listed, number, key)? {
        Some(cause) => Ok(Validated::Breach(Some(key), cause)),
        None => Ok(validate_value(element)),
    }
}

/// Validates the value of an element whose key is canonical.
#[inline(always)]
fn validate_value(element: RawElement<'_>) -> Validated<'_>
    ensures { TellsValue element.entry result }
{
    let Ok(value) = element.resolve() else {
        return Validated::Breach(Some(element.key()), Cause::Value);
    };
    match held_by(value) {
        Held::Nothing => Validated::Whole(element),
        Held::Descending => Validated::Breach(Some(element.key()), Cause::Options),
        Held::Level(inner, is_array) => Validated::Inside(element, inner, is_array),
    }
}
