//! The leaves of a document, by the numbers of their paths.
#![tactic(auto)]

ghost use Rattle.std.specs.Prelude.{◌≡◌, ◌<◌, ◌+◌, ◌++◌, ℕ, List, ◌∷◌, [], drop, get_or, length, take, IfErr, IfOk, OnOk};
ghost use Rattle.dump_commands.specs.elements.Changes.{HasLeaves};
ghost use Rattle.dump_commands.specs.elements.Numbered.{AreNumbered, AreWithin, Extends, HasNumber, at_numbers, compared_at, leaves_from, leaves_in, numbers_of, path_after, paths_of};
ghost use Rattle.dump_io.specs.lines.Failing.{IsReading};

use crate::elements::changes::numbers::Numbers;
use crate::state::tokens_of;
use dump_io::lines::failure::Failure;
use raw_form::Token;
use raw_tree::Limits;
use std::alloc::{AllocError, Global};

/// A value that is compared.
#[derive(Clone, Copy, PartialEq, Eq, PartialOrd, Ord)]
pub struct Leaf<'a> {
    /// the number of its path
    pub path: usize,
    /// the tag of its kind
    pub tag: u32,
    /// what is compared of its bytes
    pub bytes: &'a [u8],
}

/// The leaves of a document. One that has a fault counts as out of memory.
pub fn leaves<'a>(
    alloc: Global,
    numbers: &mut Numbers<'a>,
    bytes: &'a [u8],
) -> Result<Vec<Leaf<'a>>, Failure>
    requires { AreNumbered numbers.old }
    ensures leaves { IfOk result (λ leaves. HasLeaves bytes.now (leaves_in (paths_of numbers.new) leaves.items)) }
    ensures within { IfOk result (λ leaves. AreWithin (length (paths_of numbers.new)) (numbers_of leaves.items)) }
    ensures extends { OnOk result (Extends (paths_of numbers.old) (paths_of numbers.new)) }
    ensures numbered { OnOk result (AreNumbered numbers.new) }
    ensures failed { IfErr result (λ failure. ¬ IsReading failure) }
{
    let limits = Limits {
        bytes: bytes.len(),
        depth: bytes.len(),
    };
    let tokens = tokens_of(alloc, bytes, limits)?;
    let found = leaves_of(alloc, numbers, bytes, &tokens)?;
    Ok(found)
}

/// The leaves of a document that has these tokens.
fn leaves_of<'a>(
    alloc: Global,
    numbers: &mut Numbers<'a>,
    bytes: &'a [u8],
    tokens: &[Token],
) -> Result<Vec<Leaf<'a>>, AllocError>
    requires { AreNumbered numbers.old }
    ensures leaves { IfOk result (λ leaves. leaves_in (paths_of numbers.new) leaves.items ≡ leaves_from bytes.now ([] ∷ []) tokens.now) }
    ensures within { IfOk result (λ leaves. AreWithin (length (paths_of numbers.new)) (numbers_of leaves.items)) }
    ensures extends { OnOk result (Extends (paths_of numbers.old) (paths_of numbers.new)) }
    ensures numbered { OnOk result (AreNumbered numbers.new) }
{
    let mut leaves = Vec::new(alloc);
    let mut around = Vec::new(alloc);
    around.push(0)?;
    for token in tokens {
        let path = go_on(numbers, &mut around, bytes, *token)?;
        push_leaf(&mut leaves, path, bytes, *token)?;
    }
    Ok(leaves)
}

/// Goes on to an element, where the levels around it have paths with these numbers, and returns the number of its path. The level inside it
/// has the same path.
fn go_on<'a>(
    numbers: &mut Numbers<'a>,
    around: &mut Vec<usize>,
    bytes: &'a [u8],
    token: Token,
) -> Result<usize, AllocError>
    requires numbered { AreNumbered numbers.old }
    requires within { AreWithin (length (paths_of numbers.old)) around.old.items }
    ensures number { IfOk result (λ number. HasNumber (paths_of numbers.old) (path_after bytes.now (at_numbers (paths_of numbers.old) around.old.items) token) number (paths_of numbers.new)) }
    ensures around { IfOk result (λ number. around.new.items ≡ take (token.depth + 1) around.old.items ++ number ∷ []) }
    ensures numbered { OnOk result (AreNumbered numbers.new) }
{
    let depth = token.depth as usize;
    let before = number_at(around, depth);
    let key = part(bytes, token.key_at as usize, token.key_len as usize);
    let number = numbers.add(before, key)?;
    around.truncate(depth + 1);
    around.push(number)?;
    Ok(number)
}

/// One of these numbers; 0 if there is none at this place.
fn number_at(numbers: &[usize], place: usize) -> usize
    ensures { result ≡ get_or numbers.now place 0 }
{
    match numbers.get(place) {
        Some(number) => *number,
        None => 0,
    }
}

/// Puts the leaf of an element, whose path has this number, after the others.
fn push_leaf<'a>(
    leaves: &mut Vec<Leaf<'a>>,
    path: usize,
    bytes: &'a [u8],
    token: Token,
) -> Result<(), AllocError>
    ensures leaf { OnOk result ((paths : List (List (List ℕ))) → leaves_in paths leaves.new.items
        ≡ leaves_in paths leaves.old.items ++ record { path = get_or paths path []; tag = token.tag; bytes = compared_at bytes.now token } ∷ []) }
    ensures numbers { OnOk result ((count : ℕ) → path < count → AreWithin count (numbers_of leaves.old.items) → AreWithin count (numbers_of leaves.new.items)) }
{
    let tag = token.tag;
    let bytes = compared(bytes, token);
    leaves.push(Leaf { path, tag, bytes })?;
    Ok(())
}

/// What is compared of the bytes of an element's value: of a document and an array nothing.
fn compared<'a>(bytes: &'a [u8], token: Token) -> &'a [u8]
    ensures { result.now ≡ compared_at bytes.now token }
{
    match token.tag {
        3 | 4 => &[],
        _ => part(bytes, token.payload_at as usize, token.payload_len as usize),
    }
}

/// `len` bytes from this place on, as far as there are any.
fn part(bytes: &[u8], at: usize, len: usize) -> &[u8]
    ensures { result.now ≡ take len (drop at bytes.now) }
{
    let rest = &bytes[at.min(bytes.len())..];
    &rest[..len.min(rest.len())]
}
