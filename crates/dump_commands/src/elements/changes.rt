//! The paths at which two documents differ.
#![tactic(auto)]

mod leaves;
mod missing;
mod numbers;
mod outer;
mod shown;

ghost use Rattle.std.specs.Prelude.{◌≡◌, IfErr, IfOk};
ghost use Rattle.dump_commands.specs.elements.Changes.{ListsChanges, listing_by};
ghost use Rattle.dump_commands.specs.elements.Changes as says;
ghost use Rattle.dump_io.specs.lines.Failing.{IsReading};

use crate::elements::changes::leaves::leaves;
use crate::elements::changes::missing::unmatched;
use crate::elements::changes::numbers::Numbers;
use crate::elements::changes::outer::outermost;
use crate::elements::changes::shown::{listed, push_more, separated};
use dump_io::lines::failure::Failure;
use std::alloc::{AllocError, Global};

/// The paths at which documents differ, as they are shown.
#[derive(Drop)]
pub struct Changes {
    /// the first ones, in the order of the elements
    pub paths: Vec<Vec<u8>>,
    /// how many more there are
    pub more: usize,
}

/// The paths at which the documents with these bytes differ. A document that has a fault counts as out of memory.
pub fn changed_paths(alloc: Global, old: &[u8], new: &[u8]) -> Result<Changes, Failure>
    ensures listed { IfOk result (λ changes. ListsChanges old.now new.now (listing_by changes)) }
    ensures failed { IfErr result (λ failure. ¬ IsReading failure) }
{
    let mut numbers = Numbers::new(alloc);
    let olds = leaves(alloc, &mut numbers, old)?;
    let news = leaves(alloc, &mut numbers, new)?;
    let (paths, known) = unmatched(alloc, &olds, &news)?;
    let outer = outermost(alloc, &numbers, &paths, &known)?;
    listed(alloc, &numbers, &outer)
}

/// The paths at which documents differ, in words.
pub fn changes_words(alloc: Global, changes: &Changes) -> Result<Vec<u8>, AllocError>
    ensures { IfOk result (λ text. text.items ≡ says.changes_words (listing_by changes.now)) }
{
    let mut text = separated(alloc, ", ", &changes.paths)?;
    push_more(&mut text, changes.paths.is_empty(), changes.more)?;
    Ok(text)
}
