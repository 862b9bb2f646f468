//! Whether the length of a damaged document is right by its own elements.
#![tactic(auto)]

ghost use Rattle.std.specs.Prelude.{◌≡◌, ◌≤◌, ◌<◌, ◌+◌, ◌^◌, MatchBool, length, take};
ghost use Rattle.raw_view.specs.Document.{bytes_of};
ghost use Rattle.raw_resync.specs.Charge.{IsWalked};
ghost use Rattle.raw_resync.specs.Resync.{IsFramed};
ghost use Rattle.raw_resync.specs.Searches.{Walks};
ghost use Rattle.raw_resync.specs.Seeking.{IsWork, KeepsBound};

use crate::check::Part;
use crate::work::Work;
use raw_tree::next_element;
use raw_view::{Elements, RawDocument};

/// What is known of the length of a piece.
#[derive(Clone, Copy)]
pub enum Length {
    /// it is right: the elements of the piece follow one another up to its end
    Explained,
    /// it may be wrong: they don't
    Unexplained,
    /// it could cost too much to know
    LeftOut,
}

/// What is known of the length of the piece of `len` bytes at the front.
pub fn explain_length(part: Part<'_>, len: usize, work: &mut Work) -> Length
    requires { IsWork work.old × (len ≤ length part.bytes.now) }
    ensures work { IsWork work.new }
    ensures bounded { KeepsBound (part.entry.at + len) work.old work.new }
    ensures walked { Walks part.entry.at part.entry.bytes.now len work.old work.new result }
{
    let end = part.at as u128 + len as u128;
    if !work.has_room(len, end) {
        return Length::LeftOut;
    }
    let walked = walk(part.bytes.split_at(len).0);
    work.charge(walked.cost, end);
    match walked.is_framed {
        true => Length::Explained,
        false => Length::Unexplained,
    }
}

/// Whether the elements of a piece follow one another up to its final 0, and the charge for finding out.
#[derive(Clone, Copy)]
struct Walked {
    is_framed: bool,
    cost: usize,
}

fn walk(piece: &[u8]) -> Walked
    ensures framed { MatchBool result.is_framed (IsFramed piece.now) (¬ IsFramed piece.now) }
    ensures cost { IsWalked piece.now result.cost }
    ensures within { result.cost ≤ length piece.now }
{
    let Ok(document) = RawDocument::from_bytes(piece) else {
        return Walked {
            is_framed: false,
            cost: 0,
        };
    };
    let cost = walked_len(document);
    Walked {
        is_framed: cost + 1 == piece.len(),
        cost,
    }
}

/// The number of bytes of a document before the first place where no element follows.
fn walked_len(document: RawDocument<'_>) -> usize
    ensures walked { IsWalked (bytes_of document.entry) result }
    ensures within { result ≤ length (bytes_of document.entry) }
{
    let mut elements = Elements::new(document);
    let mut offset = 4;
    'elements: loop {
        let Some(element) = next_element(&mut elements) else {
            return offset;
        };
        offset += element.key().len() + element.len() + 2;
    }
}
