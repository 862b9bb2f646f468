//! Paths, each with a number, in memory that is linear in that of their keys.
#![tactic(auto)]

ghost use Rattle.std.specs.Prelude.{◌≡◌, ◌<◌, ◌++◌, ◌∷◌, [], get_or, length, IfOk, OnOk};
ghost use Rattle.dump_commands.specs.elements.Numbered.{AreNumbered, HasNumber, paths_of};

use std::alloc::{AllocError, Global};
use std::collections::BTreeMap;

/// A path by its last key.
#[derive(Clone, Copy)]
pub struct Step<'a> {
    /// the number of the path of the keys before it
    pub before: usize,
    /// the last key
    pub key: &'a [u8],
}

/// Paths, each with a number. The empty path has the number 0.
#[derive(Drop)]
pub struct Numbers<'a> {
    /// the paths from the number 1 on
    pub steps: Vec<Step<'a>>,
    /// the number of each path, by the number of the path before its last key, and by that key
    numbers: BTreeMap<(usize, &'a [u8]), usize>,
}

impl<'a> Numbers<'a> {
    /// The empty path alone.
    pub fn new(alloc: Global) -> Numbers<'a>
        ensures paths { paths_of result ≡ [] ∷ [] }
        ensures numbered { AreNumbered result }
    {
        Numbers {
            steps: Vec::new(alloc),
            numbers: BTreeMap::new(alloc),
        }
    }

    /// The number of the path with this key after that with the number `before`.
    pub fn add(&mut self, before: usize, key: &'a [u8]) -> Result<usize, AllocError>
        requires numbered { AreNumbered self.old }
        requires there { before < length (paths_of self.old) }
        ensures number { IfOk result (λ number. HasNumber (paths_of self.old) (get_or (paths_of self.old) before [] ++ key.now ∷ []) number (paths_of self.new)) }
        ensures numbered { OnOk result (AreNumbered self.new) }
    {
        if let Some(number) = self.numbers.get(&(before, key)) {
            return Ok(*number);
        }
        self.steps.push(Step { before, key })?;
        let number = self.steps.len();
        self.numbers.insert((before, key), number)?;
        Ok(number)
    }
}
