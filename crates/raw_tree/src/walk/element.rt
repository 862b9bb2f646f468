//! Single elements of a document.
#![tactic(auto)]

ghost use Rattle.std.specs.Prelude.{◌≤◌, ◌≡◌, List, drop, length, ℕ};
ghost use Rattle.raw_tree.specs.walk.Looking.{TakesFrame};
ghost use Rattle.raw_view.specs.Document.{bytes_of};
ghost use Rattle.raw_view.specs.Frame.ElementSteps.{frame_of};
ghost use Rattle.raw_view.specs.Frame.{Frame, IsFrame};

use raw_view::{Elements, RawDocument, RawElement};

/// The next element, if one can be read.
#[inline(always)]
pub fn next_element<'a>(elements: &mut Elements<'a>) -> Option<RawElement<'a>>
    ensures { TakesFrame elements.old result elements.new }
{
    match elements.next() {
        None => None,
        Some(Err(_)) => None,
        Some(Ok(element)) => Some(element),
    }
}

/// The element that begins at `offset`.
pub fn element_at(document: RawDocument<'_>, offset: usize) -> RawElement<'_>
    requires within { (4 ≤ offset) × (offset ≤ length (bytes_of document)) }
    requires frame { (f : Frame) × (r : List ℕ) × IsFrame (drop offset (bytes_of document)) f r }
    ensures { (f : Frame) (r : List ℕ)
        → IsFrame (drop offset (bytes_of document.entry)) f r
        → frame_of result ≡ f }
{
    let Some(mut elements) = Elements::from_offset(document, offset) else {
        unreachable!()
    };
    let Some(element) = next_element(&mut elements) else {
        unreachable!()
    };
    element
}
