//! Of paths those that are inside no other.
#![tactic(auto)]

ghost use Rattle.std.specs.Prelude.{◌≡◌, ℕ, List, length, map, IfOk};
ghost use Rattle.dump_commands.specs.elements.Changes as says;
ghost use Rattle.dump_commands.specs.elements.Numbered.{AreKnown, AreNumbered, AreWithin, at_numbers, is_in_any, paths_of};

use crate::elements::changes::numbers::Numbers;
use std::alloc::{AllocError, Global};
use std::collections::BTreeSet;

/// The numbers of those paths that are inside no other of these. They are a set too.
pub fn outermost(
    alloc: Global,
    numbers: &Numbers<'_>,
    paths: &[usize],
    known: &BTreeSet<usize>,
) -> Result<Vec<usize>, AllocError>
    requires numbered { AreNumbered numbers.now }
    requires within { AreWithin (length (paths_of numbers.now)) paths.now }
    requires known { AreKnown known.now paths.now }
    ensures outermost { IfOk result (λ outer. at_numbers (paths_of numbers.now) outer.items ≡ says.outermost (at_numbers (paths_of numbers.now) paths.now)) }
    ensures within { IfOk result (λ outer. AreWithin (length (paths_of numbers.now)) outer.items) }
{
    let inside = insides(alloc, numbers, known)?;
    let mut outer = Vec::new(alloc);
    for path in paths {
        if !inside[*path] {
            outer.push(*path)?;
        }
    }
    Ok(outer)
}

/// For each path whether it is inside one whose number is in a set.
fn insides(
    alloc: Global,
    numbers: &Numbers<'_>,
    known: &BTreeSet<usize>,
) -> Result<Vec<bool>, AllocError>
    requires { AreNumbered numbers.now }
    ensures { IfOk result (λ insides. (ns : List ℕ) → AreKnown known.now ns → AreWithin (length (paths_of numbers.now)) ns
        → insides.items ≡ map (is_in_any (at_numbers (paths_of numbers.now) ns)) (paths_of numbers.now)) }
{
    let mut insides = Vec::new(alloc);
    insides.push(false)?;
    for step in &numbers.steps {
        let before = step.before;
        let inside = known.contains(&before) || insides[before];
        insides.push(inside)?;
    }
    Ok(insides)
}
