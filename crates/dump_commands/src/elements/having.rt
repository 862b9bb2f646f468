//! Which of the paths that pick elements lead to one in a document.
#![tactic(auto)]

ghost use Rattle.std.specs.Prelude.{◌≡◌, cond, true, IfOk};
ghost use Rattle.raw_view.specs.Document.{bytes_of};
ghost use Rattle.dump_commands.specs.elements.Cut.{texts_of};
ghost use Rattle.dump_commands.specs.elements.Having.{Has, HasEach, HasNamed};
ghost use Rattle.dump_commands.specs.elements.Pick.{comma, parts};

use crate::elements::cut::{Fate, decided, is_array, level_of};
use crate::elements::pick::element_at;
use crate::picking::{Choice, Picking};
use raw_view::{Elements, RawDocument};
use std::alloc::{AllocError, Global};

/// Of each path that picks elements whether it leads to one in a document with these bytes. What is no document, or has a fault, counts as
/// out of memory.
pub fn had_in(alloc: Global, bytes: &[u8], picking: Picking<'_>) -> Result<Vec<bool>, AllocError>
    ensures { IfOk result (λ flags. HasEach picking.entry.choice bytes.now (parts comma picking.entry.paths.now) flags.items) }
{
    match RawDocument::from_bytes(bytes) {
        Ok(document) => had(alloc, document, picking),
        Err(_) => Err(AllocError),
    }
}

/// Of each path that picks elements whether it leads to one in a document.
fn had(
    alloc: Global,
    document: RawDocument<'_>,
    picking: Picking<'_>,
) -> Result<Vec<bool>, AllocError>
    ensures { IfOk result (λ flags. HasEach picking.entry.choice (bytes_of document.entry) (parts comma picking.entry.paths.now) flags.items) }
{
    let mut flags = Vec::new(alloc);
    let mut rest = picking.paths;
    'paths: while let Some((path, more)) = rest.split_once(',') {
        let has_path = has(alloc, document, picking.choice, path)?;
        flags.push(has_path)?;
        rest = more;
    }
    let has_last = has(alloc, document, picking.choice, rest)?;
    flags.push(has_last)?;
    Ok(flags)
}

/// Whether a path leads to an element of a document, or names one where documents keep their shape.
fn has(
    alloc: Global,
    document: RawDocument<'_>,
    choice: Choice,
    path: &str,
) -> Result<bool, AllocError>
    ensures { IfOk result (λ had. Has choice (bytes_of document.entry) path.now had) }
{
    match choice {
        Choice::Named => Ok(element_at(document, path).is_some()),
        Choice::InPlace | Choice::Others => {
            let had = has_named(alloc, document, false, &[path.as_bytes()], path.len() + 1)?;
            Ok(had)
        }
    }
}

/// Whether a document or an array has an element that these paths name, which lead over at most `depth` levels.
fn has_named(
    alloc: Global,
    level: RawDocument<'_>,
    in_array: bool,
    paths: &[&[u8]],
    depth: usize,
) -> Result<bool, AllocError>
    ensures { IfOk result (λ had. HasNamed depth in_array (texts_of paths.now) (bytes_of level.entry) had) }
{
    if depth == 0 {
        return Ok(false);
    }
    let mut had = false;
    for item in Elements::new(level) {
        let Ok(element) = item else {
            return Err(AllocError);
        };
        match decided(alloc, true, in_array, paths, element)? {
            Fate::Stays => {}
            Fate::Goes => had = true,
            Fate::Opens(rests) => {
                let inside = level_of(element)?;
                let is_inner_array = is_array(element.element_type());
                let here = has_named(alloc, inside, is_inner_array, &rests, depth - 1)?;
                had = either(had, here);
            }
        }
    }
    Ok(had)
}

/// Whether one of these is true.
fn either(one: bool, other: bool) -> bool
    ensures { result ≡ cond one true other }
{
    one || other
}
