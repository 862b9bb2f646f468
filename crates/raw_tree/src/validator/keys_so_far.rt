//! The keys of a level that is being validated.
#![tactic(auto)]

ghost use Rattle.std.specs.Prelude.{◌≡◌, ◌↔◌, [], decimal, IsTrue, IfOk, IfErr};
ghost use Rattle.raw_tree.specs.validator.ValidationSteps.{AddsOpenKey, AreOpenKeys, HasKeysSoFar, LeavesOpenKeys};
ghost use Rattle.raw_tree.specs.reader.Reading.{as_array, as_document};
ghost use Rattle.key_set.specs.References.{texts};
ghost use Rattle.raw_view.specs.Errors.{IsOutOfMemory};

use crate::validator::breach::Cause;
use itoa::Buffer;
use key_set::KeySet;
use raw_view::Result;
use std::alloc::Global;

/// The keys of a level whose elements are validated one after another.
#[derive(Drop)]
pub(crate) enum KeysSoFar<'a> {
    /// the keys of an array: its elements are numbered, so the list has no entry for them
    Numbers,
    /// the keys of a document
    Distinct(KeySet<'a>),
}

/// Whether the key is the decimal of the number.
fn is_decimal(key: &str, number: usize) -> bool
    ensures { IsTrue result ↔ (key.now ≡ decimal number) }
{
    key == Buffer::new().format(number)
}

impl<'a> KeysSoFar<'a> {
    /// The keys of a document before its first element is validated.
    pub(crate) fn of_document(listed: &[&'a str]) -> KeysSoFar<'a>
        ensures { HasKeysSoFar result listed.now as_document (texts listed.now) [] }
    {
        KeysSoFar::Distinct(KeySet::behind(listed))
    }

    /// The keys of an array before its first element is validated.
    pub(crate) fn of_array(listed: &[&'a str]) -> KeysSoFar<'a>
        ensures { HasKeysSoFar result listed.now as_array (texts listed.now) [] }
    {
        KeysSoFar::Numbers
    }

    /// Adds the key of the next element, which has this number. If the key breaches, adds nothing and returns
    /// why. The only error is out of memory.
    #[inline(always)]
    pub(crate) fn add(
        &mut self,
        alloc: Global,
        listed: &mut Vec<&'a str>,
        number: usize,
        key: &'a str,
    ) -> Result<Option<Cause>>
        requires { AreOpenKeys self.old listed.old.items }
        ensures adds { IfOk result
            (AddsOpenKey self.old listed.old.items number key.now self.new listed.new.items) }
        ensures err { IfErr result IsOutOfMemory }
    {
        match self {
            KeysSoFar::Numbers => {
                if is_decimal(key, number) {
                    return Ok(None);
                }
                Ok(Some(Cause::ArrayKey))
            }
            KeysSoFar::Distinct(keys) => {
                if let Some(_) = keys.add(alloc, listed, key)? {
                    return Ok(Some(Cause::RepeatedKey));
                }
                Ok(None)
            }
        }
    }

    /// Removes the keys of this level from the list. The level is the innermost one.
    pub(crate) fn leave(&self, listed: &mut Vec<&'a str>)
        ensures { LeavesOpenKeys self.now listed.old.items listed.new.items }
    {
        if let KeysSoFar::Distinct(keys) = self {
            keys.leave(listed);
        }
    }
}
