//! A level that is being rewritten: which of its elements stay, and under which keys.
#![tactic(auto)]

ghost use Rattle.std.specs.Prelude.{◌≡◌, ◌⊎◌, ◌≤◌, ℕ, List, Some, drop, length, IfErr, IfOk, IsTrue};
ghost use Rattle.std.specs.List.{IsDistinct};
ghost use Rattle.std.specs.Str.{bytes_eq};
ghost use Rattle.bson_model.specs.Tree.{Entries, Tree};
ghost use Rattle.raw_form.specs.Rewriting.{HasCode, IsLater, IsLeft, IsPlain, TakesNext, held_opening, member_key};
ghost use Rattle.raw_form.specs.Staying.{IsOwnUpTo};
ghost use Rattle.raw_tree.specs.Violations.{keys_of_frames};
ghost use Rattle.raw_tree.specs.Members.{members};
ghost use Rattle.raw_tree.specs.Reading.{ReadsAs, StandsFor, as_document};
ghost use Rattle.raw_view.specs.Document.{bytes_of};
ghost use Rattle.raw_view.specs.Errors.{IsOutOfMemory};
ghost use Rattle.raw_view.specs.Frame.ElementSteps.{frame_of};
ghost use Rattle.raw_view.specs.Frame.{Done, Frame, IsWalk};
ghost use Rattle.raw_view.specs.Frame.Number.{max_length};
ghost use Rattle.raw_view.specs.Meaning.Value.{held_value};

use crate::code_len::CodeLen;
use crate::held::is_plain;
use crate::last::{LastPlaces, places_of};
use itoa::Buffer;
use raw_tree::{Start, next_element};
use raw_view::{Elements, Holder, RawDocument, RawElement, RawLevel, Result};
use std::alloc::Global;

/// Which elements of a level stay.
#[derive(Drop)]
pub(crate) enum Keys<'a> {
    /// those of an array: all of them, under the numbers from this one on
    Numbers(usize),
    /// those of a document without repeated keys: all of them; the next ones up to this number are known to be
    /// canonical
    Distinct(usize),
    /// those of a document with repeated keys: for each key the last, in the place of the first
    Repeated(Box<LastPlaces<'a>>),
}

/// A level that is being rewritten.
#[derive(Drop)]
pub(crate) struct Rewritten<'a> {
    /// its remaining elements
    pub(crate) elements: Elements<'a>,
    /// which of those stay
    pub(crate) keys: Keys<'a>,
    /// where the payload of its value starts in the output
    pub(crate) start: u32,
    /// the length of the code, if it is a code's scope
    pub(crate) code_len: CodeLen,
}

/// An element that stays: in an array with its new number, and with whether it is known to be canonical.
#[derive(Clone, Copy)]
pub(crate) struct Member<'a> {
    pub(crate) number: Option<usize>,
    pub(crate) element: RawElement<'a>,
    pub(crate) is_known: bool,
}

impl<'a> Member<'a> {
    /// The key under which it is written.
    pub(crate) fn key(self, buffer: &'a mut Buffer) -> &'a str
        ensures { result.now ≡ member_key self.entry }
    {
        match self.number {
            None => self.element.key(),
            Some(number) => buffer.format(number),
        }
    }

    /// Whether it is written as it is, because it is known to be canonical or because its value holds neither a
    /// level nor options.
    #[inline(always)]
    pub(crate) fn is_own(self) -> bool
        ensures { IsTrue result → IsTrue self.entry.is_known ⊎ IsPlain (frame_of self.entry.element).kind }
    {
        self.is_known || is_plain(self.element.element_type())
    }
}

/// Which elements of a document that can be read as a tree stay, where what is before `known` is canonical. The
/// only error is out of memory.
fn keys_of<'a>(
    alloc: Global,
    document: RawDocument<'a>,
    listed: &mut Vec<&'a str>,
    known: Start,
) -> Result<Keys<'a>>
    requires { IsOwnUpTo (bytes_of document) known }
    ensures left { (t : Tree)
        → ReadsAs as_document (bytes_of document.entry) t
        → IfOk result (λ keys. IsLeft keys (Some (drop 4 (bytes_of document.entry))) (members t)) }
    ensures err { IfErr result IsOutOfMemory }
{
    let Some(places) = places_of(alloc, document, listed, known.repeats)? else {
        return Ok(Keys::Distinct(known.number));
    };
    let last = LastPlaces {
        document,
        places,
        passed: 0,
        known: known.offset,
    };
    Ok(Keys::Repeated(Box::new(alloc, last)?))
}

/// A level with these bytes, of which nothing was written yet.
fn level<'a>(
    document: RawDocument<'a>,
    keys: Keys<'a>,
    start: u32,
    code_len: CodeLen,
) -> Rewritten<'a>
    ensures elements { result.elements ≡ Some (drop 4 (bytes_of document.entry)) }
    ensures keys { result.keys ≡ keys.entry }
    ensures start { result.start ≡ start }
    ensures code_len { result.code_len ≡ code_len }
{
    Rewritten {
        elements: Elements::new(document),
        keys,
        start,
        code_len,
    }
}

impl<'a> Rewritten<'a> {
    /// The level that a value holds, with its payload at `start` in the output. The level can be read as a tree,
    /// and its opening fits in a document. The list is used to find repeated keys, unless a key is known to be
    /// repeated. In a level that is no array, what is before `known` is canonical. The only error is out of
    /// memory.
    pub(crate) fn new(
        alloc: Global,
        held: RawLevel<'a>,
        start: u32,
        listed: &mut Vec<&'a str>,
        known: Start,
    ) -> Result<Rewritten<'a>>
        requires opening { length (held_opening held.holder) ≤ max_length }
        requires known { IsOwnUpTo (bytes_of held.document) known }
        ensures left { (t : Tree)
            → StandsFor ReadsAs (held_value held.entry) t
            → IfOk result
            (λ level. HasCode t level.code_len × IsLeft level.keys level.elements (members t)) }
        ensures start { IfOk result (λ level. level.start ≡ start) }
        ensures err { IfErr result IsOutOfMemory }
    {
        let document = held.document;
        match held.holder {
            Holder::Document => {
                let keys = keys_of(alloc, document, listed, known)?;
                Ok(level(document, keys, start, CodeLen::none()))
            }
            Holder::Array => Ok(level(document, Keys::Numbers(0), start, CodeLen::none())),
            Holder::Code(code) => {
                let keys = keys_of(alloc, document, listed, known)?;
                let code_len = CodeLen::of(code.len() as u32);
                Ok(level(document, keys, start, code_len))
            }
        }
    }

    /// The next member that stays.
    #[tactic(auto, using(crate::proofs::rewritten::Members::pair_over))]
    pub(crate) fn next(&mut self) -> Option<Member<'a>>
        requires { (ms : Entries) × IsLeft self.old.keys self.old.elements ms }
        ensures next { (ms : Entries)
            → IsLeft self.old.keys self.old.elements ms
            → TakesNext ms result self.new.keys self.new.elements }
        ensures later { IsLater self.old self.new }
    {
        match &mut self.keys {
            Keys::Numbers(number) => {
                let element = next_element(&mut self.elements)?;
                let place = *number;
                *number = place + 1;
                Some(Member {
                    number: Some(place),
                    element,
                    is_known: false,
                })
            }
            Keys::Distinct(known) => {
                let element = next_element(&mut self.elements)?;
                let count = *known;
                *known = count.saturating_sub(1);
                Some(Member {
                    number: None,
                    element,
                    is_known: count != 0,
                })
            }
            Keys::Repeated(last) => {
                let (element, is_known) = last.next()?;
                Some(Member {
                    number: None,
                    element,
                    is_known,
                })
            }
        }
    }
}
