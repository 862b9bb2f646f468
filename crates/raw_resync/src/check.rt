//! Whether documents continue at a place.
#![tactic(auto)]

ghost use Rattle.std.specs.Prelude.{◌≡◌, ◌≤◌, ◌<◌, ◌+◌, IfOk, MatchBool, drop, false, length, take, true};
ghost use Rattle.raw_view.specs.Frame.Envelope.{IsEnvelope};
ghost use Rattle.raw_resync.specs.Pieces.{IsPiece};
ghost use Rattle.raw_resync.specs.Searches.{IsBegun};
ghost use Rattle.raw_resync.specs.Seeking.{Checks, IsWork, LacksTag, TellsFront, check_of};

use crate::key::ends_in_key;
use crate::probe::probe;
use crate::work::Work;
use raw_tree::Limits;
use raw_view::{ElementType, RawDocument};
use std::alloc::{AllocError, Global};

/// Part of an input, and what is known of it.
#[derive(Clone, Copy)]
pub struct Part<'a> {
    /// the bytes
    pub bytes: &'a [u8],
    /// whether the input ends after them
    pub is_last: bool,
    /// where in the input they begin
    pub at: u64,
    /// the limits of an undamaged document
    pub limits: Limits,
}

/// What is at the front of the remaining input.
#[derive(Clone, Copy)]
pub(crate) enum Front {
    /// nothing: the input ends here
    End,
    /// no document: none has the length at the front, or the input is shorter than that, or the byte after the
    /// length is no tag
    NoPiece,
    /// that many bytes are needed before it is known
    Wants(usize),
    /// a piece with that many bytes, as its length says
    Piece(usize),
}

/// What is found at a place.
#[derive(Clone, Copy)]
pub(crate) enum Check {
    /// documents continue
    GoesOn,
    /// they don't
    Stops,
    /// it could cost too much to know
    LeftOut,
    /// that many bytes are needed before it is known
    Wants(usize),
}

/// What is at the front of the bytes from `place` on.
#[inline(always)]
pub(crate) fn front_at(part: Part<'_>, place: usize) -> Front
    requires { place ≤ length part.bytes.now }
    ensures { TellsFront part.entry.limits.bytes part.entry.bytes.now part.entry.is_last place result }
{
    let rest = part.bytes.split_at(place).1;
    let Some(head) = rest.first_chunk::<4>() else {
        return match (part.is_last, rest.is_empty()) {
            (true, true) => Front::End,
            (true, false) => Front::NoPiece,
            (false, _) => Front::Wants(place + 4),
        };
    };
    let len = u32::from_le_bytes(*head) as usize;
    if len < 5 || part.limits.bytes < len {
        return Front::NoPiece;
    }
    if len <= rest.len() {
        Front::Piece(len)
    } else if part.is_last || lacks_tag(rest) {
        Front::NoPiece
    } else {
        Front::Wants(place + len)
    }
}

/// Whether there is a byte after the length that is no tag.
#[inline(always)]
fn lacks_tag(rest: &[u8]) -> bool
    requires { 4 ≤ length rest.now }
    ensures { result ≡ true → LacksTag rest.now }
{
    match rest.split_at(4).1.split_first() {
        Some((byte, _)) => ElementType::from(*byte).is_none(),
        None => false,
    }
}

/// A document that counts has more bytes than this.
const SMALL: usize = 8;

/// Whether documents continue at `place`.
#[inline(always)]
pub(crate) fn check_at(
    alloc: Global,
    part: Part<'_>,
    place: usize,
    work: &mut Work,
) -> Result<Check, AllocError>
    requires { IsWork work.old × (place ≤ length part.bytes.now) }
    ensures work { IsWork work.new }
    ensures checked { IfOk result (Checks part.entry.limits part.entry.bytes.now part.entry.is_last part.entry.at place work.old work.new) }
{
    let len = match front_at(part, place) {
        Front::End => return Ok(Check::GoesOn),
        Front::NoPiece => return Ok(Check::Stops),
        Front::Wants(count) => return Ok(Check::Wants(count)),
        Front::Piece(len) => len,
    };
    if len <= SMALL {
        return Ok(Check::Stops);
    }
    check_piece(alloc, part, place, len, work)
}

/// Whether documents continue at `place` with a piece of `len` bytes.
fn check_piece(
    alloc: Global,
    part: Part<'_>,
    place: usize,
    len: usize,
    work: &mut Work,
) -> Result<Check, AllocError>
    requires { IsWork work.old × (place + len ≤ length part.bytes.now) × IsPiece part.limits.bytes (take len (drop place part.bytes.now)) × (8 < len) }
    ensures work { IsWork work.new }
    ensures checked { IfOk result (Checks part.entry.limits part.entry.bytes.now part.entry.is_last part.entry.at place work.old work.new) }
{
    let piece = &part.bytes[place..place + len];
    if !begins_with_tag(piece) {
        return Ok(Check::Stops);
    }
    if !ends_with_zero(piece) {
        return Ok(Check::Stops);
    }
    if ends_in_key(part.bytes.split_at(place).0) {
        return Ok(Check::Stops);
    }
    let Ok(document) = RawDocument::from_bytes(piece) else {
        return Ok(Check::Stops);
    };
    let end = part.at as u128 + (place + len) as u128;
    Ok(told(probe(alloc, part.limits, document, end, work)?))
}

/// Whether a tag follows the length. The first bytes of a piece are looked at before its last one, which may be far
/// away.
#[inline(always)]
fn begins_with_tag(piece: &[u8]) -> bool
    requires { 4 ≤ length piece.now }
    ensures { MatchBool result (IsBegun piece.now) (¬ IsBegun piece.now) }
{
    match piece.split_at(4).1.split_first() {
        Some((byte, _)) => ElementType::from(*byte).is_some(),
        None => false,
    }
}

/// Whether the last byte is 0. For most places this is the only byte far away that is looked at, so no error value is made of it.
#[inline(always)]
fn ends_with_zero(piece: &[u8]) -> bool
    ensures { result ≡ false → ¬ IsEnvelope piece.now }
{
    match piece.last() {
        Some(byte) => *byte == 0,
        None => false,
    }
}

/// What is found at a place by probing its last piece.
fn told(probed: Option<bool>) -> Check
    ensures { result ≡ check_of probed }
{
    match probed {
        Some(true) => Check::GoesOn,
        Some(false) => Check::Stops,
        None => Check::LeftOut,
    }
}
