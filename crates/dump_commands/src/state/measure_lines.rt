//! The lines of what was gathered of lengths.
#![tactic(auto)]

ghost use Rattle.std.specs.Prelude.{◌≡◌, ◌<◌, ◌*◌, ◌^◌, ◌++◌, ◌∷◌, [], None, codes, flat_map, map, IfOk, OnOk};
ghost use Rattle.dump_commands.specs.Summary.{count_of, counts_line};
ghost use Rattle.dump_commands.specs.state.Measures.{range_line, ranked_line, ranked_of, share_line, share_of};
ghost use Rattle.dump_commands.specs.state.Measures as says;

use crate::state::measures::{Ranked, Share};
use crate::summary::counted::Count;
use crate::summary::lines::{counts_object, counts_words};
use dump_io::lines::style::Style;
use dump_io::lines::text::{line_of, push_number, push_words};
use std::alloc::{AllocError, Global};

/// The lines of the ranges in which there are documents.
pub fn range_lines(alloc: Global, style: Style, ranges: &[u64; 32]) -> Result<Vec<u8>, AllocError>
    ensures { IfOk result (λ text. text.items ≡ says.range_lines style 1 ranges.now) }
{
    let mut text = Vec::new(alloc);
    let mut least = 1;
    for number in 0..32 {
        push_range(alloc, &mut text, style, least, ranges[number])?;
        least *= 2;
    }
    Ok(text)
}

/// After the text, the line of the range that begins with this length, if there are documents in it.
fn push_range(
    alloc: Global,
    text: &mut Vec<u8>,
    style: Style,
    least: u64,
    documents: u64,
) -> Result<(), AllocError>
    requires { least < 2 ^ 32 }
    ensures { OnOk result (text.new.items ≡ text.old.items ++ range_line style least documents) }
{
    if documents == 0 {
        return Ok(());
    }
    let line = range_text(alloc, style, documents, &bounds_of(least))?;
    text.extend_from_slice(&line)
}

/// The bounds of the range that begins with this length.
fn bounds_of(least: u64) -> [Count; 2]
    requires { least < 2 ^ 32 }
    ensures { map count_of result ≡ (codes "bytes from", least) ∷ (codes "below", least * 2) ∷ [] }
{
    [
        Count {
            name: "bytes from",
            number: least,
        },
        Count {
            name: "below",
            number: least * 2,
        },
    ]
}

/// The line of a range and of how many documents are in it.
fn range_text(
    alloc: Global,
    style: Style,
    documents: u64,
    bounds: &[Count],
) -> Result<Vec<u8>, AllocError>
    ensures { IfOk result (λ text. text.items ≡ counts_line style None documents (map count_of bounds.now)) }
{
    match style {
        Style::Words => counts_words(alloc, None, documents, bounds),
        Style::Json => counts_object(alloc, None, documents, bounds),
        Style::Quiet => Ok(Vec::new(alloc)),
    }
}

/// The lines of the longest documents.
pub fn largest_lines(alloc: Global, largest: &[Ranked<'_>]) -> Result<Vec<u8>, AllocError>
    ensures { IfOk result (λ text. text.items ≡ flat_map ranked_line (map ranked_of largest.now)) }
{
    let mut text = Vec::new(alloc);
    for document in largest {
        let words = ranked_words(alloc, document)?;
        let line = line_of(alloc, document.place.name, document.place.offset, &words)?;
        text.extend_from_slice(&line)?;
    }
    Ok(text)
}

/// How many bytes a document has, and what shows its `_id`.
fn ranked_words(alloc: Global, document: &Ranked<'_>) -> Result<Vec<u8>, AllocError>
    ensures { IfOk result (λ text. text.items ≡ says.ranked_words (ranked_of document.now)) }
{
    let mut text = Vec::new(alloc);
    push_number(&mut text, document.size as u64)?;
    push_words(&mut text, " bytes")?;
    if !document.id.is_empty() {
        push_words(&mut text, ", _id: ")?;
        text.extend_from_slice(&document.id)?;
    }
    Ok(text)
}

/// The lines of shares, each as the options that ask for its documents.
pub fn share_lines(alloc: Global, shares: &[Share<'_>]) -> Result<Vec<u8>, AllocError>
    ensures { IfOk result (λ text. text.items ≡ flat_map share_line (map share_of shares.now)) }
{
    let mut text = Vec::new(alloc);
    for share in shares {
        push_share(&mut text, *share)?;
    }
    Ok(text)
}

/// After the text, the line of a share.
fn push_share(text: &mut Vec<u8>, share: Share<'_>) -> Result<(), AllocError>
    ensures { OnOk result (text.new.items ≡ text.old.items ++ share_line (share_of share.entry)) }
{
    push_words(text, "--at ")?;
    push_number(text, share.place.offset)?;
    push_words(text, " --take ")?;
    push_number(text, share.count)?;
    push_words(text, "\n")
}
