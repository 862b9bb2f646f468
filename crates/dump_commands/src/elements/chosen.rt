//! The document of the elements that are picked of one.
#![tactic(auto)]

ghost use Rattle.std.specs.Prelude.{IfOk};
ghost use Rattle.raw_view.specs.Document.{bytes_of};
ghost use Rattle.raw_view.specs.Frame.Envelope.{IsEnvelope};
ghost use Rattle.dump_commands.specs.elements.Chosen.{IsChosen};

use crate::elements::cut::cut_at;
use crate::elements::pick::picked;
use crate::picking::{Choice, Picking};
use raw_view::RawDocument;
use std::alloc::{AllocError, Global};

/// The document of the elements that are picked of one. What is over the range of lengths counts as out of memory, and so does a fault where
/// all elements are looked at.
pub fn chosen(
    alloc: Global,
    document: RawDocument<'_>,
    picking: Picking<'_>,
) -> Result<Vec<u8>, AllocError>
    ensures chosen { IfOk result (λ made. IsChosen picking.entry.choice (bytes_of document.entry) picking.entry.paths.now made.items) }
    ensures envelope { IfOk result (λ made. IsEnvelope made.items) }
{
    match picking.choice {
        Choice::Named => picked(alloc, document, picking.paths),
        Choice::InPlace => cut_at(alloc, document, picking.paths, false),
        Choice::Others => cut_at(alloc, document, picking.paths, true),
    }
}
