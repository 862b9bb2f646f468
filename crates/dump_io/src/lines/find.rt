//! What is found in one document.
#![tactic(auto)]

ghost use Rattle.std.specs.Prelude.{◌≡◌, ◌≤◌, ℕ, List, IfOk, MatchBool, Some, length};
ghost use Rattle.std.specs.Option.{option_copied, option_map};
ghost use Rattle.raw_view.specs.Document.{bytes_of};
ghost use Rattle.raw_view.specs.Frame.Envelope.{IsEnvelope, Refuses};
ghost use Rattle.raw_view.specs.Errors.{IsMalformed};
ghost use Rattle.raw_tree.specs.Barriers.{IsBarrier, steps_of};
ghost use Rattle.raw_tree.specs.Looking.{HasNoneBefore};
ghost use Rattle.raw_tree.specs.Places.{FirstBarrierAt};
ghost use Rattle.raw_tree.specs.ValidationSteps.{TellsFound, TellsOutermost, violation_of};
ghost use Rattle.raw_tree.specs.WithinLimits as within;
ghost use Rattle.raw_tree.specs.declared.reader.limits.Limits.{Limits};
ghost use Rattle.dump_io.specs.lines.Find.{account_at, account_of, Finds, MayBeDamaged, SaysBarrier, named_spot, spot_of, usual, violation_word};
ghost use Rattle.dump_io.specs.lines.Find as says;

use crate::lines::reason::{Why, kind_of};
use raw_tree::{
    Barrier, BarrierKind, Cause, FIRST, Found as Violation, Limits, Place, Start, first_behind,
    validate_to_depth,
};
use raw_view::{ErrorKind, RawDocument};
use std::alloc::{AllocError, Global};

/// What is found in a document.
#[derive(Clone, Copy)]
pub enum Finding {
    /// it is canonical
    Canonical,
    /// it is sound but not canonical
    Breached,
    /// it is damaged
    Damaged,
    /// it is too deep
    TooDeep,
    /// it isn't validated
    Unvalidated,
}

impl Finding {
    /// Whether the document is damaged or too deep, or may be.
    pub fn may_be_damaged(self) -> bool
        ensures { MatchBool result (MayBeDamaged self) (¬ MayBeDamaged self) }
    {
        matches!(
            self,
            Finding::Damaged | Finding::TooDeep | Finding::Unvalidated
        )
    }
}

/// What is told of a document that isn't canonical.
#[derive(Drop)]
pub struct Told<'a> {
    /// what is found, in a word or two
    pub word: &'static str,
    /// where; `None` if the document has no envelope
    pub place: Option<Place<'a>>,
    /// why; `None` if it isn't a fault
    pub reason: Option<Why>,
}

/// What is found in a document, and what is told of it.
#[derive(Drop)]
pub struct Found<'a> {
    /// what is found
    pub finding: Finding,
    /// what is told of it; `None` if it is canonical
    pub told: Option<Told<'a>>,
}

/// The limits if none are given: what a server sends, 16 MiB and 16 KiB, and 500 levels.
pub fn most_allowed() -> Limits
    ensures { result ≡ usual }
{
    Limits {
        bytes: 16_793_600,
        depth: 500,
    }
}

/// What is found in the bytes of a document, within limits.
pub fn find(alloc: Global, limits: Limits, bytes: &[u8]) -> Result<Found<'_>, AllocError>
    requires { length bytes.now ≤ limits.bytes }
    ensures { IfOk result
        (λ found. Finds limits bytes.now found.finding (option_map account_of found.told)) }
{
    match RawDocument::from_bytes(bytes) {
        Ok(document) => validate(alloc, limits, document),
        Err(error) => Ok(without_envelope(&error.kind)),
    }
}

/// What is found in bytes without an envelope.
fn without_envelope<'a>(kind: &ErrorKind) -> Found<'a>
    ensures { (limits : Limits) (b : List ℕ) → IsMalformed kind.now (Refuses b)
        → Finds limits b result.finding (option_map account_of result.told) }
{
    Found {
        finding: Finding::Damaged,
        told: Some(Told {
            word: "damaged",
            place: None,
            reason: Some(kind_of(kind)),
        }),
    }
}

fn validate(
    alloc: Global,
    limits: Limits,
    document: RawDocument<'_>,
) -> Result<Found<'_>, AllocError>
    requires { length (bytes_of document) ≤ limits.bytes }
    ensures { IfOk result
        (λ found. Finds limits (bytes_of document.entry) found.finding (option_map account_of found.told)) }
{
    match validate_to_depth(alloc, document, limits.depth) {
        Ok(None) => Ok(Found {
            finding: Finding::Canonical,
            told: None,
        }),
        Ok(Some(violation)) => not_canonical(alloc, limits, document, violation),
        Err(_) => Err(AllocError),
    }
}

/// What is found in a document that isn't canonical: what ends its reading, if anything does; else this violation. No element before the
/// one of the outermost level that has it is read again.
fn not_canonical<'a>(
    alloc: Global,
    limits: Limits,
    document: RawDocument<'a>,
    violation: Violation<'a>,
) -> Result<Found<'a>, AllocError>
    requires { (length (bytes_of document) ≤ limits.bytes) × TellsFound limits.depth (bytes_of document) (Some violation)
        × TellsOutermost (bytes_of document) (Some violation) }
    ensures { IfOk result
        (λ found. Finds limits (bytes_of document.entry) found.finding (option_map account_of found.told)) }
{
    match first_behind(alloc, document, start_of(&violation), limits.depth) {
        Ok(Some(barrier)) => Ok(barred(barrier)),
        Ok(None) => Ok(Found {
            finding: Finding::Breached,
            told: Some(without_reason(cause_words(violation.cause), violation.place)),
        }),
        Err(_) => Err(AllocError),
    }
}

/// Where the search for what ends the reading begins: at the element of the outermost level that has this violation.
fn start_of(violation: &Violation<'_>) -> Start
    ensures { (depth : ℕ) (b : List ℕ) → 5 ≤ length b → TellsFound depth b (Some violation.now) → TellsOutermost b (Some violation.now)
        → HasNoneBefore depth b result.number result.offset }
{
    match violation.place.path.first() {
        None => FIRST,
        Some(step) => Start {
            number: step.number,
            offset: violation.outermost,
            repeats: false,
        },
    }
}

/// What is found in a document whose reading this ends.
fn barred(barrier: Barrier<'_>) -> Found<'_>
    ensures { (limits : Limits) (b : List ℕ) (x : within.Barrier) → IsEnvelope b → IsBarrier barrier.entry.kind x
        → FirstBarrierAt limits b x (steps_of barrier.entry.place) barrier.entry.place.offset
        → Finds limits b result.finding (option_map account_of result.told) }
{
    let finding = match &barrier.kind {
        BarrierKind::TooDeep => Finding::TooDeep,
        BarrierKind::TooManyBytes | BarrierKind::Fault(_) => Finding::Damaged,
    };
    Found {
        finding,
        told: Some(told_of(barrier)),
    }
}

/// What is told of what ends the reading of a document.
fn told_of(barrier: Barrier<'_>) -> Told<'_>
    ensures { (x : within.Barrier) → IsBarrier barrier.entry.kind x
        → SaysBarrier x (spot_of barrier.entry.place) (account_of result) }
{
    let Barrier { kind, place } = barrier;
    match kind {
        BarrierKind::TooManyBytes => without_reason("too long", place),
        BarrierKind::TooDeep => without_reason("too deep", place),
        BarrierKind::Fault(error) => Told {
            word: "damaged",
            place: Some(named(place, error.key)),
            reason: Some(kind_of(&error.kind)),
        },
    }
}

fn without_reason<'a>(word: &'static str, place: Place<'a>) -> Told<'a>
    ensures { account_of result ≡ account_at word.now (spot_of place.entry) }
{
    Told {
        word,
        place: Some(place),
        reason: None,
    }
}

/// The place; its last step gets this key if it has none.
fn named<'a>(place: Place<'a>, key: Option<&'a str>) -> Place<'a>
    ensures { spot_of result ≡ named_spot (option_copied key.entry) (spot_of place.entry) }
{
    let mut place = place;
    if let Some(last) = place.path.last_mut() {
        last.key = key_or(last.key, key);
    }
    place
}

/// The key, if there is one; else the other.
fn key_or<'a>(key: Option<&'a str>, other: Option<&'a str>) -> Option<&'a str>
    ensures { option_copied result ≡ says.key_or (option_copied key.entry) (option_copied other.entry) }
{
    key.or(other)
}

fn cause_words(cause: Option<Cause>) -> &'static str
    ensures { result.now ≡ violation_word (violation_of cause) }
{
    match cause {
        None => "too deep",
        Some(Cause::Stop) => "stop",
        Some(Cause::Value) => "value",
        Some(Cause::RepeatedKey) => "repeated-key",
        Some(Cause::ArrayKey) => "array-key",
        Some(Cause::Options) => "options",
    }
}
