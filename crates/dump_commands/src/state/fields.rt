//! The elements of a document, put to those that were counted.
#![tactic(auto)]

ghost use Rattle.std.specs.Prelude.{◌≡◌, ◌-◌, ◌≤◌, ◌++◌, ◌∷◌, [], codes, cond, drop, false, fold, get_or, length, nat_lt, take, IfErr, IfOk, OnOk};
ghost use Rattle.raw_form.specs.Tokens.{HasTokens};
ghost use Rattle.raw_view.specs.Document.{bytes_of};
ghost use Rattle.dump_commands.specs.state.Fields.{AreLevels, fields_of, innermost, inside_of, levels_around, levels_of, outermost, path_of, table_of, with_field};
ghost use Rattle.dump_io.specs.lines.Failing.{IsReading};
ghost use Rattle.dump_io.specs.lines.Origins.{origin_of};

use crate::state::paths::Paths;
use dump_io::lines::failure::Failure;
use dump_io::lines::origin::Origin;
use dump_io::lines::text::push_words;
use raw_form::{Token, flatten_within};
use raw_tree::Limits;
use raw_view::RawDocument;
use std::alloc::{AllocError, Global};

/// What fills the room of tokens.
const NONE: Token = Token {
    tag: 0,
    depth: 0,
    key_at: 0,
    key_len: 0,
    payload_at: 0,
    payload_len: 0,
    inside: 0,
};

/// About how many bytes an element has, or fewer than it has.
const USUAL: usize = 8;

/// The elements of a level.
#[derive(Clone, Copy)]
pub struct Level {
    /// how many bytes of their paths are before the last steps
    prefix: usize,
    /// whether they are those of an array
    in_array: bool,
}

/// How many tokens a document has, and the first of them, as many as there is room for.
fn first_tokens(
    alloc: Global,
    document: RawDocument<'_>,
    limits: Limits,
    room: usize,
) -> Result<(usize, Vec<Token>), Failure>
    ensures tokens { IfOk result (λ r. r.0 ≤ room → HasTokens limits.depth 0 0 (bytes_of document.entry) r.1.items) }
    ensures failed { IfErr result (λ failure. ¬ IsReading failure) }
{
    let mut tokens = vec![in alloc; NONE; room]?;
    match flatten_within(alloc, document, limits, &mut tokens) {
        Ok(count) => {
            tokens.truncate(count);
            Ok((count, tokens))
        }
        Err(_) => Err(Failure::Memory),
    }
}

/// The tokens of a document without damage. What has a barrier counts as out of memory.
pub fn tokens_of(alloc: Global, bytes: &[u8], limits: Limits) -> Result<Vec<Token>, Failure>
    ensures tokens { IfOk result (λ tokens. HasTokens limits.depth 0 0 bytes.now tokens.items) }
    ensures failed { IfErr result (λ failure. ¬ IsReading failure) }
{
    let Ok(document) = RawDocument::from_bytes(bytes) else {
        return Err(Failure::Memory);
    };
    let room = bytes.len() / USUAL;
    let (count, tokens) = first_tokens(alloc, document, limits, room)?;
    if count <= room {
        return Ok(tokens);
    }
    let (all, tokens) = first_tokens(alloc, document, limits, count)?;
    if all <= count {
        Ok(tokens)
    } else {
        Err(Failure::Memory)
    }
}

/// `len` bytes from this place on, as far as there are any.
fn part(bytes: &[u8], at: usize, len: usize) -> &[u8]
    ensures { result.now ≡ take len (drop at bytes.now) }
{
    let rest = &bytes[at.min(bytes.len())..];
    &rest[..len.min(rest.len())]
}

/// The innermost of levels; of none the outermost one.
fn innermost(levels: &[Level]) -> Level
    ensures { result ≡ get_or levels.now (length levels.now - 1) (record { prefix = 0; in_array = false }) }
{
    match levels.last() {
        Some(level) => *level,
        None => Level {
            prefix: 0,
            in_array: false,
        },
    }
}

/// The last step of the path of an element.
fn step(bytes: &[u8], in_array: bool, token: Token) -> &[u8]
    ensures { result.now ≡ cond in_array (codes "[]") (take token.key_len (drop token.key_at bytes.now)) }
{
    if in_array {
        b"[]"
    } else {
        part(bytes, token.key_at as usize, token.key_len as usize)
    }
}

fn push_bytes(text: &mut Vec<u8>, bytes: &[u8]) -> Result<(), AllocError>
    ensures { OnOk result (text.new.items ≡ text.old.items ++ bytes.now) }
{
    text.extend_from_slice(bytes)
}

/// Goes on to an element: leaves the levels that aren't around it, and makes this its path.
fn go_on(
    path: &mut Vec<u8>,
    levels: &mut Vec<Level>,
    bytes: &[u8],
    token: Token,
) -> Result<(), AllocError>
    requires { AreLevels path.old.items levels.old.items }
    ensures levels { OnOk result (levels_of path.new.items levels.new.items ≡ levels_around (levels_of path.old.items levels.old.items) token) }
    ensures path { OnOk result (path.new.items ≡ path_of bytes.now (innermost (levels_around (levels_of path.old.items levels.old.items) token)) token) }
    ensures kept { OnOk result (AreLevels path.new.items levels.new.items) }
{
    levels.truncate(token.depth as usize + 1);
    let level = innermost(levels);
    path.truncate(level.prefix);
    push_bytes(path, step(bytes, level.in_array, token))
}

/// Enters the level inside the element with this path, if anything is inside.
fn enter(path: &mut Vec<u8>, levels: &mut Vec<Level>, token: Token) -> Result<(), AllocError>
    requires { AreLevels path.old.items levels.old.items }
    ensures levels { OnOk result (levels_of path.new.items levels.new.items ≡ cond (nat_lt 0 token.inside)
        (levels_of path.old.items levels.old.items ++ inside_of path.old.items token.tag ∷ []) (levels_of path.old.items levels.old.items)) }
    ensures kept { OnOk result (AreLevels path.new.items levels.new.items) }
{
    if token.inside == 0 {
        return Ok(());
    }
    push_words(path, ".")?;
    levels.push(Level {
        prefix: path.len(),
        in_array: token.tag == 4,
    })?;
    Ok(())
}

/// Puts the elements of a document with these tokens, which begins there, to those that were counted. The path of one element becomes
/// that of the next, since a path for each level could take as much as the square of the document's bytes.
pub fn add_tokens<'a>(
    alloc: Global,
    paths: &mut Paths<'a>,
    origin: Origin<'a>,
    bytes: &[u8],
    tokens: &[Token],
) -> Result<(), Failure>
    ensures added { OnOk result (table_of paths.new
        ≡ fold (with_field (origin_of origin.entry)) (table_of paths.old) (fields_of bytes.now (outermost ∷ []) tokens.now)) }
    ensures failed { IfErr result (λ failure. ¬ IsReading failure) }
{
    let mut levels = outer_levels(alloc)?;
    let mut path = Vec::new(alloc);
    for token in tokens {
        go_on(&mut path, &mut levels, bytes, *token)?;
        paths.add(alloc, origin, &path, token.tag, token.payload_len)?;
        enter(&mut path, &mut levels, *token)?;
    }
    Ok(())
}

/// The level that no other is around.
fn outer_levels(alloc: Global) -> Result<Vec<Level>, AllocError>
    ensures levels { IfOk result (λ levels. levels_of [] levels.items ≡ outermost ∷ []) }
    ensures are { IfOk result (λ levels. AreLevels [] levels.items) }
{
    let mut levels = Vec::new(alloc);
    levels.push(Level {
        prefix: 0,
        in_array: false,
    })?;
    Ok(levels)
}
