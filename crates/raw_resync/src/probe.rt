//! Whether a piece of an input is an undamaged document.
#![tactic(auto)]

ghost use Rattle.std.specs.Prelude.{◌≡◌, ◌≤◌, ◌<◌, ◌^◌, IfOk, length};
ghost use Rattle.raw_view.specs.Document.{bytes_of};
ghost use Rattle.raw_resync.specs.Charge.{IsProbed};
ghost use Rattle.raw_resync.specs.Pieces.{IsPiece};
ghost use Rattle.raw_resync.specs.Seeking.{IsWork, KeepsBound, ProbesOrLeaves};

use crate::charge::looked_at;
use crate::work::Work;
use raw_tree::{Limits, first_fault_within};
use raw_view::RawDocument;
use std::alloc::{AllocError, Global};

/// Whether a piece that ends at this offset of the input is an undamaged document; `None` if it could cost too
/// much to know.
pub(crate) fn probe(
    alloc: Global,
    limits: Limits,
    document: RawDocument<'_>,
    end: u128,
    work: &mut Work,
) -> Result<Option<bool>, AllocError>
    requires { IsPiece limits.bytes (bytes_of document) × IsWork work.old × (end < 2 ^ 66) }
    ensures work { IsWork work.new }
    ensures bounded { KeepsBound end work.old work.new }
    ensures probed { IfOk result (ProbesOrLeaves limits (bytes_of document.entry) end work.old work.new) }
{
    if !work.has_room(document.as_bytes().len(), end) {
        return Ok(None);
    }
    let probed = probed_on(alloc, limits, document)?;
    work.charge(probed.cost, end);
    Ok(Some(probed.is_sound))
}

/// Whether a document is undamaged, and the charge for finding out.
#[derive(Clone, Copy)]
struct Probed {
    is_sound: bool,
    cost: usize,
}

fn probed_on(alloc: Global, limits: Limits, document: RawDocument<'_>) -> Result<Probed, AllocError>
    requires { IsPiece limits.bytes (bytes_of document) }
    ensures probed { IfOk result (λ probed. IsProbed limits (bytes_of document.entry) probed.is_sound probed.cost) }
    ensures within { IfOk result (λ probed. probed.cost ≤ length (bytes_of document.entry)) }
{
    match first_fault_within(alloc, document, limits) {
        Ok(None) => Ok(Probed {
            is_sound: true,
            cost: document.as_bytes().len(),
        }),
        Ok(Some(barrier)) => Ok(Probed {
            is_sound: false,
            cost: barrier.place.offset + looked_at(document, &barrier),
        }),
        Err(_) => Err(AllocError),
    }
}
