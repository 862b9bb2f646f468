//! Prints the levels of a document.
#![tactic(auto)]

ghost use Rattle.std.specs.Prelude.{◌≡◌, ℕ, List, true, IfErr, IfOk, OnOk};
ghost use Rattle.bson_model.specs.Tree.{Tree};
ghost use Rattle.raw_tree.specs.WithinLimits.{ReadsWithin};
ghost use Rattle.raw_view.specs.Document.{bytes_of};
ghost use Rattle.bson_to_json.specs.Causes.{EndsAs};
ghost use Rattle.bson_to_json.specs.Json.{IsJson};
ghost use Rattle.bson_to_json.specs.Levels.{PutsEvent, Suits};
ghost use Rattle.bson_to_json.specs.Passing.{Guards, IsSeen, TellsLookError, TellsPassError, TellsPrintError};
ghost use Rattle.bson_to_json.specs.Written.{Grows, Moves};
ghost use Rattle.bson_to_json.specs.declared.sink.Failure.TheVariants as failure;
ghost use Rattle.bson_to_json.specs.declared.print.PrintError.TheVariants as print;

use crate::level::{Sort, put_end, put_head, put_opening, put_single};
use crate::put::put;
use crate::sink::{Failure, Sink};
use crate::style::Style;
use raw_tree::{Barrier, Event, Limits, Walk, WalkError, first_fault_within};
use raw_view::RawDocument;
use std::alloc::{AllocFailed, Global};
use std::{io, mem};

/// From this many bytes on, a block is written.
const FULL: usize = 4096;

/// Why a document isn't printed, or not all of it.
#[derive(Debug, Drop)]
pub(crate) enum PrintError<'a> {
    /// its first barrier within the limits
    Barrier(Barrier<'a>),
    Failure(Failure),
}

impl<'a> From<WalkError<'a>> for PrintError<'a> {
    ghost use Rattle.bson_to_json.specs.Levels.{error_of};

    ghost from_gives = { λ error printed. printed ≡ error_of error };

    fn from(error: WalkError<'a>) -> PrintError<'a> {
        match error {
            WalkError::Barrier(barrier) => PrintError::Barrier(barrier),
            WalkError::OutOfMemory => PrintError::Failure(Failure::OutOfMemory),
        }
    }
}

impl<'a> From<Failure> for PrintError<'a> {
    ghost use Rattle.bson_to_json.specs.declared.print.PrintError.TheVariants as print;

    ghost from_gives = { λ failure printed. printed ≡ print.Failure failure };

    fn from(failure: Failure) -> PrintError<'a> {
        PrintError::Failure(failure)
    }
}

/// A block in memory takes all bytes, unless memory runs out.
impl<'a> From<io::Error> for PrintError<'a> {
    ghost use Rattle.bson_to_json.specs.declared.sink.Failure.TheVariants as failure;
    ghost use Rattle.bson_to_json.specs.declared.print.PrintError.TheVariants as print;

    ghost from_gives = { λ _ printed. printed ≡ print.Failure failure.OutOfMemory };

    fn from(_error: io::Error) -> PrintError<'a> {
        PrintError::Failure(Failure::OutOfMemory)
    }
}

impl<'a, T: Drop> From<AllocFailed<T>> for PrintError<'a> {
    ghost use Rattle.bson_to_json.specs.declared.sink.Failure.TheVariants as failure;
    ghost use Rattle.bson_to_json.specs.declared.print.PrintError.TheVariants as print;

    ghost from_gives = { λ _ printed. printed ≡ print.Failure failure.OutOfMemory };

    fn from(_error: AllocFailed<T>) -> PrintError<'a> {
        PrintError::Failure(Failure::OutOfMemory)
    }
}

/// Looks through a document for a barrier, if that is still to be done.
fn look_through<'a>(
    alloc: Global,
    document: RawDocument<'a>,
    limits: Limits,
    unseen: bool,
) -> Result<(), PrintError<'a>>
    ensures seen { OnOk result (unseen ≡ true → IsSeen limits (bytes_of document.entry)) }
    ensures told { IfErr result (λ error. (unseen ≡ true) × TellsLookError limits (bytes_of document.entry) error) }
{
    if !unseen {
        return Ok(());
    }
    match first_fault_within(alloc, document, limits) {
        Ok(None) => Ok(()),
        Ok(Some(barrier)) => Err(PrintError::Barrier(barrier)),
        Err(_) => Err(PrintError::Failure(Failure::OutOfMemory)),
    }
}

/// Writes a full block, and empties it. If the document is still to be looked through, that is done before its
/// first block is written. Returns whether it is still to be done.
#[inline]
fn pass_on<'a, S: Sink>(
    alloc: Global,
    document: RawDocument<'a>,
    limits: Limits,
    unseen: bool,
    out: &mut S,
    block: &mut Vec<u8>,
) -> Result<bool, PrintError<'a>>
    ensures moved { OnOk result (Moves S.has out.old out.new block.old.items block.new.items) }
    ensures guard { IfOk result (λ still. (before : S)
        → Guards limits (bytes_of document.entry) unseen before out.old
        → Guards limits (bytes_of document.entry) still before out.new) }
    ensures told { IfErr result
        (TellsPassError S.has limits (bytes_of document.entry) unseen out.old out.new block.old.items) }
    ensures same { OnOk result (S.has_failed out.new ≡ S.has_failed out.old) }
    ensures caused { IfErr result (EndsAs (S.has_failed out.old) (S.has_failed out.new)) }
{
    if block.len() < FULL {
        return Ok(unseen);
    }
    look_through(alloc, document, limits, unseen)?;
    out.accept(block)?;
    block.clear();
    Ok(false)
}

/// Writes what an event adds to the text of a level of this sort. Levels of the other sorts wait for it; the sorts
/// are updated. Returns whether the text is complete.
#[inline(always)]
fn put_event<'a>(
    block: &mut Vec<u8>,
    style: Style,
    sorts: &mut Vec<Sort>,
    sort: &mut Sort,
    first: bool,
    event: Event<'a>,
) -> Result<bool, PrintError<'a>>
    requires { Suits event sorts.old.items }
    ensures put { IfOk result (PutsEvent style first event.entry sorts.old.items sort.old block.old.items sorts.new.items sort.new block.new.items) }
    ensures failed { IfErr result (λ error. error ≡ print.Failure failure.OutOfMemory) }
{
    let depth = sorts.len();
    match event {
        Event::Whole(element, value) => {
            put_head(block, style.layout, depth + 1, *sort, first, element.key())?;
            put_single(block, style.format, value)?;
            Ok(false)
        }
        Event::Enter(element, level) => {
            put_head(block, style.layout, depth + 1, *sort, first, element.key())?;
            let inner = put_opening(block, level)?;
            sorts.push(mem::replace(sort, inner))?;
            Ok(false)
        }
        Event::Leave => {
            put_end(block, style.layout, depth, *sort, first)?;
            let Some(outer) = sorts.pop() else {
                unreachable!()
            };
            *sort = outer;
            Ok(false)
        }
        Event::End => {
            put_end(block, style.layout, depth, *sort, first)?;
            Ok(true)
        }
    }
}

/// Writes a document within limits, in blocks of whole values. If it is `careful`, nothing is written of a
/// document that has a barrier. Otherwise what was written before a barrier may be the prefix of no text.
pub(crate) fn print<'a, S: Sink>(
    alloc: Global,
    document: RawDocument<'a>,
    style: Style,
    limits: Limits,
    careful: bool,
    out: &mut S,
) -> Result<(), PrintError<'a>>
    ensures text { OnOk result ((text : List ℕ) × IsJson style (bytes_of document.entry) text
        × Grows S.has out.old out.new text) }
    ensures within { OnOk result ((t : Tree) × ReadsWithin limits (bytes_of document.entry) t) }
    ensures told { IfErr result
        (TellsPrintError S.has style limits (bytes_of document.entry) careful out.old out.new) }
    ensures same { OnOk result (S.has_failed out.new ≡ S.has_failed out.old) }
    ensures caused { IfErr result (EndsAs (S.has_failed out.old) (S.has_failed out.new)) }
{
    let (mut walk, mut level) = Walk::within(alloc, document, limits)?;
    let mut sorts: Vec<Sort> = Vec::new(alloc);
    let mut sort = Sort::Document;
    let mut block: Vec<u8> = Vec::new(alloc);
    let mut unseen = careful;
    put(&mut block, b"{")?;
    'events: loop {
        unseen = pass_on(alloc, document, limits, unseen, out, &mut block)?;
        let first = level.number == 0;
        let event = walk.next(alloc, &mut level)?;
        let ended = put_event(&mut block, style, &mut sorts, &mut sort, first, event)?;
        if ended {
            return Ok(out.accept(&block)?);
        }
    }
}
