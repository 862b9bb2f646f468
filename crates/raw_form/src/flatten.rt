//! The elements of all levels, as tokens.
#![tactic(auto)]

ghost use Rattle.std.specs.Prelude.{◌≤◌, ℕ, suc, length};
ghost use Rattle.raw_form.specs.Flattening.{IsAtDocument};
ghost use Rattle.raw_tree.specs.Places.{AllAreBarredAtOnePlace};
ghost use Rattle.raw_form.specs.Tokens.{Flattens};
ghost use Rattle.raw_tree.specs.WithinLimits.{AllAreAnsweredOneWay};
ghost use Rattle.raw_view.specs.Document.{bytes_of};

use crate::token::{Token, set_inside};
use raw_tree::{
    Barrier, BarrierKind, Event, FIRST, Limits, MostWaiting, Place, Walk, WalkError, put_at,
};
use raw_view::RawDocument;
use std::alloc::Global;

/// Why a document isn't flattened within limits. The key and the path borrow from the document.
/// ```
/// let document = RawDocument::from_bytes(b"\x09\0\0\0\x08a\0\x02\0")?;
/// let Err(FlattenError::Barrier(barrier)) = flatten_within(alloc, document, Limits { bytes: 1000, depth: 10 }, &mut []) else { unreachable!() };
/// assert_eq!(rt; (barrier.place.offset, barrier.place.key()), (4, Some("a")));
/// ```
#[derive(Debug, Drop)]
pub enum FlattenError<'a> {
    /// Its first barrier, with its place.
    Barrier(Barrier<'a>),
    /// Memory ran out.
    OutOfMemory,
}

/// The error for a limit that the document exceeds as a whole.
fn whole<'a>(alloc: Global, kind: BarrierKind<'a>) -> FlattenError<'a>
    ensures { IsAtDocument kind.entry result }
{
    FlattenError::Barrier(Barrier {
        kind,
        place: Place::whole(alloc),
    })
}

/// Writes the tokens of a document to the front of the room. `most_waiting` limits how many levels may wait for
/// the innermost one.
#[tactic(auto, using(raw_tree::proofs::Face::filled_none))]
fn flatten_to<'a>(
    alloc: Global,
    document: RawDocument<'a>,
    most_waiting: MostWaiting,
    tokens: &mut [Token],
) -> std::result::Result<usize, FlattenError<'a>>
    ensures { (bytes : ℕ)
        → length (bytes_of document.entry) ≤ bytes
        → Flattens (record { bytes = bytes; depth = suc most_waiting }) (bytes_of document.entry) tokens.old tokens.new result }
{
    let (mut walk, mut level) = Walk::new(alloc, document, FIRST, most_waiting);
    let mut places: Vec<u32> = Vec::new(alloc);
    let mut count = 0;
    'events: loop {
        let offset = level.offset;
        let depth = places.len() as u32;
        match walk.next(alloc, &mut level) {
            Ok(Event::Whole(element, _)) => {
                put_at(tokens, count, Token::new(depth, offset, element));
                count += 1;
            }
            Ok(Event::Enter(element, _)) => {
                put_at(tokens, count, Token::new(depth, offset, element));
                if places.push(count as u32).is_err() {
                    return Err(FlattenError::OutOfMemory);
                }
                count += 1;
            }
            Ok(Event::Leave) => {
                let Some(place) = places.pop() else {
                    unreachable!()
                };
                let place = place as usize;
                set_inside(tokens, place, count - (place + 1));
            }
            Ok(Event::End) => return Ok(count),
            Err(WalkError::Barrier(barrier)) => return Err(FlattenError::Barrier(barrier)),
            Err(WalkError::OutOfMemory) => return Err(FlattenError::OutOfMemory),
        }
    }
}

/// Writes the elements of all levels of a document within limits as tokens, as many as fit, and returns how many
/// there are. They are depth first in byte order; the elements of a scope are inside the code with scope. The rest
/// of the room is unchanged. The error is the first barrier, as `first_fault_within` returns it; then the content
/// of the room is not specified. Out of memory is possible only if there are few enough bytes and a level may be
/// entered. BSON 1.1, `document`.
///
/// Not in the contract: no depth fills the stack. Memory is taken for the waiting levels, and for the path of a
/// barrier.
/// ```
/// let document = RawDocument::from_bytes(b"\x13\0\0\0\x10a\0\x01\0\0\0\x10b\0\x02\0\0\0\0")?;
/// let limits = Limits { bytes: 1000, depth: 10 };
/// let mut tokens = [Token { tag: 0, depth: 0, key_at: 0, key_len: 0, payload_at: 0, payload_len: 0, inside: 0 }; 4];
/// assert!(rt; matches!(flatten_within(alloc, document, limits, &mut tokens), Ok(2)));
/// assert_eq!(rt; (tokens[1].tag, tokens[1].key_at, tokens[1].payload_len), (16, 12, 4));
/// ```
#[tactic(auto, using(raw_tree::proofs::Face::barred_at_one_place))]
pub fn flatten_within<'a>(
    alloc: Global,
    document: RawDocument<'a>,
    limits: Limits,
    tokens: &mut [Token],
) -> std::result::Result<usize, FlattenError<'a>>
    ensures flat { Flattens limits (bytes_of document.entry) tokens.old tokens.new result }
    ensures one_answer { AllAreAnsweredOneWay limits }
    ensures one_place { AllAreBarredAtOnePlace limits }
{
    if document.as_bytes().len() > limits.bytes {
        return Err(whole(alloc, BarrierKind::TooManyBytes));
    }
    let Some(most_waiting) = MostWaiting::of(limits.depth) else {
        return Err(whole(alloc, BarrierKind::TooDeep));
    };
    flatten_to(alloc, document, most_waiting, tokens)
}
