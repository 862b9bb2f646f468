//! What `==` of views returns, and what holds of every element, as calls whose contracts say it. Programs
//! never need them; proofs do.

ghost use Rattle.std.specs.Prelude.{◌≡◌, ◌↔◌, IsTrue};
ghost use Rattle.raw_view.specs.Document.{bytes_of};
ghost use Rattle.raw_view.specs.Frame.ElementSteps.{frame_of};
ghost use Rattle.raw_view.specs.Frame.{IsShortScope, StandsAnywhere};
ghost use Rattle.raw_view.specs.Meaning.Value.{array_bytes_of};

use crate::array::RawArray;
use crate::document::RawDocument;
use crate::element::RawElement;

/// Whether two documents are `==`, which holds if and only if they have the same bytes. Programs never need
/// it; proofs do.
pub fn is_same_view(left: RawDocument<'_>, right: RawDocument<'_>) -> bool
    ensures { IsTrue result ↔ (bytes_of left.entry ≡ bytes_of right.entry) }
{
    left == right
}

/// Whether two arrays are `==`, which holds if and only if they have the same bytes. Programs never need it;
/// proofs do.
pub fn is_same_array_view(first: RawArray<'_>, second: RawArray<'_>) -> bool
    ensures { IsTrue result ↔ (array_bytes_of first.entry ≡ array_bytes_of second.entry) }
{
    first == second
}

/// An element is an element whatever follows it, unless it is a code with scope whose declared length is less
/// than four. Programs never need it; proofs do.
pub fn attest_element(element: RawElement<'_>)
    ensures { ¬ IsShortScope (frame_of element.entry) → StandsAnywhere (frame_of element.entry) }
{
    let _key = element.key();
}
