//! Canonical forms of documents that aren't canonical.
#![tactic(auto)]

ghost use Rattle.std.specs.Prelude.{◌+◌, ◌<◌, ◌≤◌, length, vec_len, IfOk, IfErr};
ghost use Rattle.bson_model.specs.Tree.{Tree};
ghost use Rattle.raw_form.specs.Forms.{IsFormOf, RefusesFormOf};
ghost use Rattle.raw_form.specs.Rewriting.{FailsFor, IsMemberOf, PutsMember, member_key};
ghost use Rattle.raw_form.specs.Staying.{IsOwnUpTo};
ghost use Rattle.raw_tree.specs.Encoding.{encoded_len};
ghost use Rattle.raw_tree.specs.Reading.{Reads};
ghost use Rattle.raw_view.specs.Document.{bytes_of};
ghost use Rattle.raw_view.specs.Frame.Number.{max_length};

use crate::held::{put_end, put_leaf, put_opening, put_plain, put_start};
use crate::rewritten::{Member, Rewritten};
use itoa::Buffer;
use raw_tree::{FIRST, Start};
use raw_view::{Error, Holder, RawDocument, RawLevel, Result};
use std::alloc::Global;
use std::mem;

/// The encoding of the tree of a document that has one. What is before `known` in the outermost level is canonical
/// and is copied. The error is out of memory, or that the encoding is too long.
pub(crate) fn rewrite(alloc: Global, document: RawDocument<'_>, known: Start) -> Result<Vec<u8>>
    requires read { (t : Tree) × Reads (bytes_of document) t }
    requires known { IsOwnUpTo (bytes_of document) known }
    ensures form { IfOk result (λ form. IsFormOf (bytes_of document.entry) form.items) }
    ensures err { IfErr result (RefusesFormOf (bytes_of document.entry)) }
{
    let mut out = Vec::with_capacity(alloc, document.as_bytes().len())?;
    let whole = RawLevel {
        document,
        holder: Holder::Document,
    };
    put_opening(&mut out, whole.holder)?;
    let mut listed = Vec::new(alloc);
    let mut waiting: Vec<Rewritten<'_>> = Vec::new(alloc);
    let mut level = Rewritten::new(alloc, whole, 0, &mut listed, known)?;
    'levels: loop {
        let Some(member) = level.next() else {
            put_end(&mut out, level.start, &level.code_len)?;
            let Some(outer) = waiting.pop() else {
                return Ok(out);
            };
            level = outer;
            continue 'levels;
        };
        let Some(held) = put_member(alloc, &mut out, member)? else {
            continue 'levels;
        };
        let start = out.len() as u32;
        put_opening(&mut out, held.holder)?;
        let inner = Rewritten::new(alloc, held, start, &mut listed, FIRST)?;
        let outer = mem::replace(&mut level, inner);
        if waiting.push(outer).is_err() {
            return Err(Error::out_of_memory());
        }
    }
}

/// Appends a member. If its value holds a level, appends the tag and the key only, and returns the level.
#[inline(always)]
fn put_member<'a>(
    alloc: Global,
    out: &mut Vec<u8>,
    member: Member<'a>,
) -> Result<Option<RawLevel<'a>>>
    requires { (t : Tree) × IsMemberOf member t }
    ensures put { (t : Tree) → IsMemberOf member.entry t → IfOk result (λ held. PutsMember member.entry t held out.old.items out.new.items) }
    ensures grows { IfOk result (λ _. vec_len out.old < vec_len out.new) }
    ensures fits { IfOk result (λ _. vec_len out.new ≤ max_length) }
    ensures err { (t : Tree) → IsMemberOf member.entry t → IfErr result (FailsFor (vec_len out.old + (2 + length (member_key member.entry) + encoded_len t))) }
{
    let mut buffer = Buffer::new();
    let key = member.key(&mut buffer);
    if member.is_own() {
        put_plain(out, key, member.element)?;
        return Ok(None);
    }
    let Ok(value) = member.element.resolve() else {
        unreachable!()
    };
    let Some(inner) = value.level() else {
        put_leaf(alloc, out, key, value)?;
        return Ok(None);
    };
    put_start(out, key, value.element_type())?;
    Ok(Some(inner))
}
