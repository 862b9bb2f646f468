//! The bytes of a document with open levels.
#![tactic(auto, using(crate::proofs::Placing::placed_more, crate::proofs::Placing::placed_last, crate::proofs::Placing::placed_others, crate::proofs::Placing::length_after))]

ghost use Rattle.std.specs.Prelude.{◌≡◌, ◌≤◌, ◌+◌, ◌++◌, ◌∷◌, [], length, vec_capacity, vec_len, IfErr, IfOk, IfSome, OnOk, MatchOption};
ghost use Rattle.std.specs.Str.{IsUtf8};
ghost use Rattle.raw_view.specs.Frame.Format.{c_string as text_then, framed, leaf_payload, string_payload};
ghost use Rattle.raw_view.specs.Document.{bytes_of};
ghost use Rattle.raw_view.specs.Frame.Kind.{tag_of};
ghost use Rattle.raw_view.specs.Frame.Number.{max_length};
ghost use Rattle.raw_tree.specs.Payload.{IsRawInRange, element_bytes, payload_of, unset};
ghost use Rattle.bson_model.specs.Leaf.{string};
ghost use Rattle.bson_model.specs.Tree.{Tree};
ghost use Rattle.raw_view.specs.Meaning.{single};
ghost use Rattle.raw_view.specs.Meaning.Value.{value_of};
ghost use Rattle.raw_tree.specs.WithinLimits.{ReadsWithin};
ghost use Rattle.bson_from_json.specs.Levels.{IsReadAgain, IsReadableDocument, headed, level_at, typed_bytes, with_len, with_string};
ghost use Rattle.bson_from_json.specs.Placed.{IsPlaced, code_start};
ghost use Rattle.bson_from_json.specs.Ends.{Refuses, StopsDocument};
ghost use Rattle.bson_from_json.specs.Texts.{capped};

use crate::unfinished::Unfinished;
use raw_bson::RawDocumentBuf;
use raw_tree::{
    BarrierKind, Limits, first_fault_within, payload_len, put_element, put_head, put_string,
    set_len,
};
use raw_view::{ElementType, RawBsonRef, RawDocument};
use std::alloc::Global;
use values_from_json::JsonReason;

/// The most bytes that a document has.
const MAX_LEN: usize = 0x7FFF_FFFF;

/// What holds a level.
#[derive(Clone, Copy)]
pub(crate) enum Holder<'a> {
    /// the text
    Text,
    Document,
    /// a document a key of which was taken, and whose value is next
    Begun(&'a str),
    /// a document whose first key, `$type`, was taken, and the opening brace of an object that is its value
    Typed,
    /// an array with this many items so far
    Array(usize),
    /// the scope of a code that came before it; the payload starts there
    Scope(usize),
    /// the scope of a code that comes after it; the payload starts there
    ScopeBeforeCode(usize),
}

/// An open level.
#[derive(Clone, Copy)]
pub(crate) struct Level<'a> {
    pub(crate) holder: Holder<'a>,
    /// where it starts
    pub(crate) start: usize,
}

impl<'a> Unfinished<'a> {
    pub(crate) fn new(alloc: Global, limits: Limits) -> Unfinished<'a>
        ensures bytes { result.bytes.items ≡ [] }
        ensures levels { result.levels.items ≡ [] }
        ensures limits { result.limits ≡ capped limits }
    {
        let limits = Limits {
            bytes: limits.bytes.min(MAX_LEN),
            depth: limits.depth,
        };
        Unfinished {
            bytes: Vec::new(alloc),
            levels: Vec::new(alloc),
            limits,
        }
    }

    /// Removes the innermost level, and returns it.
    pub(crate) fn pop(&mut self) -> Option<Level<'a>>
        ensures level { MatchOption result ((self.old.levels.items ≡ []) × (self.new.levels.items ≡ []))
            (λ level. self.old.levels.items ≡ self.new.levels.items ++ level ∷ []) }
        ensures placed { IfSome result (IsPlaced (length self.new.bytes.items)) }
        ensures bytes { self.new.bytes.items ≡ self.old.bytes.items }
        ensures limits { self.new.limits ≡ self.old.limits }
    {
        self.levels.pop()
    }

    /// Puts back a level that was removed.
    pub(crate) fn push(&mut self, level: Level<'a>) -> Result<(), JsonReason>
        requires { IsPlaced (length self.old.bytes.items) level }
        ensures level { OnOk result (self.new.levels.items ≡ self.old.levels.items ++ level.entry ∷ []) }
        ensures bytes { self.new.bytes.items ≡ self.old.bytes.items }
        ensures limits { self.new.limits ≡ self.old.limits }
        ensures refused { IfErr result (Refuses self.old 0 0) }
    {
        match self.levels.push(level) {
            Ok(()) => Ok(()),
            Err(_) => Err(JsonReason::OutOfMemory),
        }
    }

    /// Appends bytes.
    fn put(&mut self, bytes: &[u8]) -> Result<(), JsonReason>
        ensures bytes { OnOk result (self.new.bytes.items ≡ self.old.bytes.items ++ bytes.now) }
        ensures levels { self.new.levels.items ≡ self.old.levels.items }
        ensures limits { self.new.limits ≡ self.old.limits }
        ensures refused { IfErr result (Refuses self.old (length bytes.now) 0) }
    {
        if bytes.len() > self.limits.bytes - self.bytes.len() {
            return Err(JsonReason::TooManyBytes);
        }
        match self.bytes.extend_from_slice(bytes) {
            Ok(()) => Ok(()),
            Err(_) => Err(JsonReason::OutOfMemory),
        }
    }

    /// Makes room for `added` more bytes, if the limit allows them.
    fn make_room(&mut self, added: usize) -> Result<(), JsonReason>
        ensures bytes { self.new.bytes.items ≡ self.old.bytes.items }
        ensures room { OnOk result (vec_len self.new.bytes + added ≤ vec_capacity self.new.bytes) }
        ensures fits { OnOk result (vec_len self.new.bytes + added ≤ self.new.limits.bytes) }
        ensures levels { self.new.levels.items ≡ self.old.levels.items }
        ensures limits { self.new.limits ≡ self.old.limits }
        ensures refused { IfErr result (Refuses self.old added 0) }
    {
        if added > self.limits.bytes - self.bytes.len() {
            return Err(JsonReason::TooManyBytes);
        }
        match self.bytes.reserve(added) {
            Ok(()) => Ok(()),
            Err(_) => Err(JsonReason::OutOfMemory),
        }
    }

    /// Appends the tag of a kind and a key.
    fn put_head(&mut self, kind: ElementType, key: &str) -> Result<(), JsonReason>
        ensures bytes { OnOk result (self.new.bytes.items ≡ self.old.bytes.items ++ tag_of kind ∷ text_then key.now []) }
        ensures levels { self.new.levels.items ≡ self.old.levels.items }
        ensures limits { self.new.limits ≡ self.old.limits }
        ensures refused { IfErr result (Refuses self.old (2 + length key.now) 0) }
    {
        self.make_room(key.len() + 2)?;
        put_head(&mut self.bytes, kind.to_tag(), key);
        Ok(())
    }

    /// Appends a string: its length, its text and a 0.
    pub(crate) fn put_string(&mut self, text: &str) -> Result<(), JsonReason>
        ensures text { IsUtf8 text.now }
        ensures bytes { OnOk result (self.new.bytes.items ≡ self.old.bytes.items ++ string_payload text.now) }
        ensures levels { self.new.levels.items ≡ self.old.levels.items }
        ensures limits { self.new.limits ≡ self.old.limits }
        ensures refused { IfErr result (Refuses self.old (5 + length text.now) 0) }
    {
        self.make_room(text.len() + 5)?;
        put_string(&mut self.bytes, text);
        Ok(())
    }

    /// Appends the element with this key and this value.
    #[inline(always)]
    pub(crate) fn put_element(&mut self, key: &str, value: RawBsonRef<'_>) -> Result<(), JsonReason>
        ensures bytes { OnOk result (self.new.bytes.items ≡ self.old.bytes.items ++ element_bytes key.now (value_of value.entry)) }
        ensures in_range { OnOk result (IsRawInRange (value_of value.entry)) }
        ensures levels { self.new.levels.items ≡ self.old.levels.items }
        ensures limits { self.new.limits ≡ self.old.limits }
        ensures refused { IfErr result (Refuses self.old (2 + length key.now + length (payload_of (value_of value.entry))) 0) }
    {
        self.make_room(payload_len(value).saturating_add(key.len() + 2))?;
        put_element(&mut self.bytes, key, value);
        Ok(())
    }

    /// Whether one more level may be opened.
    fn check_depth(&self) -> Result<(), JsonReason>
        ensures { IfErr result (Refuses self.now 0 1) }
    {
        if self.levels.len() >= self.limits.depth {
            Err(JsonReason::TooDeep)
        } else {
            Ok(())
        }
    }

    /// Appends a document without elements, under a key.
    pub(crate) fn put_empty(&mut self, key: &str) -> Result<(), JsonReason>
        ensures bytes { OnOk result (self.new.bytes.items ≡ headed self.old.bytes.items 3 key.now ++ framed []) }
        ensures levels { self.new.levels.items ≡ self.old.levels.items }
        ensures limits { self.new.limits ≡ self.old.limits }
        ensures refused { IfErr result (Refuses self.old (2 + length key.now + 5) 1) }
    {
        self.put_head(ElementType::EmbeddedDocument, key)?;
        self.check_depth()?;
        self.put(&[5, 0, 0, 0, 0])
    }

    /// Appends a document whose one element is a string with the key `$type`, under a key.
    pub(crate) fn put_typed(&mut self, key: &str, text: &str) -> Result<(), JsonReason>
        ensures bytes { OnOk result (self.new.bytes.items ≡ typed_bytes self.old.bytes.items key.now text.now) }
        ensures len { OnOk result (length self.new.bytes.items ≡ length self.old.bytes.items + (2 + length key.now + (12 + length (leaf_payload (string text.now))))) }
        ensures in_range { OnOk result (IsRawInRange (single (string text.now))) }
        ensures levels { self.new.levels.items ≡ self.old.levels.items }
        ensures limits { self.new.limits ≡ self.old.limits }
        ensures refused { IfErr result (Refuses self.old (2 + length key.now + (12 + length (leaf_payload (string text.now)))) 1) }
    {
        self.put_head(ElementType::EmbeddedDocument, key)?;
        self.check_depth()?;
        let level = Level {
            holder: Holder::Document,
            start: self.bytes.len(),
        };
        self.put(&[0; 4])?;
        self.put_element("$type", RawBsonRef::String(text))?;
        self.close(level)
    }

    /// Opens a level under a key.
    pub(crate) fn open_under(
        &mut self,
        kind: ElementType,
        key: &str,
        holder: Holder<'a>,
    ) -> Result<(), JsonReason>
        requires { code_start holder ≡ 0 }
        ensures bytes { OnOk result (self.new.bytes.items ≡ headed self.old.bytes.items (tag_of kind) key.now ++ unset) }
        ensures level { OnOk result (self.new.levels.items
            ≡ self.old.levels.items ++ level_at holder.entry (length (headed self.old.bytes.items (tag_of kind) key.now)) ∷ []) }
        ensures limits { self.new.limits ≡ self.old.limits }
        ensures refused { IfErr result (Refuses self.old (2 + length key.now + 4) 1) }
    {
        self.put_head(kind, key)?;
        self.open(holder)
    }

    /// Opens a level.
    pub(crate) fn open(&mut self, holder: Holder<'a>) -> Result<(), JsonReason>
        requires { code_start holder ≤ length self.old.bytes.items }
        ensures bytes { OnOk result (self.new.bytes.items ≡ self.old.bytes.items ++ unset) }
        ensures level { OnOk result (self.new.levels.items
            ≡ self.old.levels.items ++ level_at holder.entry (length self.old.bytes.items) ∷ []) }
        ensures limits { self.new.limits ≡ self.old.limits }
        ensures refused { IfErr result (Refuses self.old 4 1) }
    {
        self.check_depth()?;
        let level = Level {
            holder,
            start: self.bytes.len(),
        };
        self.put(&[0; 4])?;
        self.push(level)
    }

    /// Appends what is before the text of a code with scope, under a key. Returns where the payload starts; its
    /// length isn't set yet.
    pub(crate) fn put_code_head(&mut self, key: &str) -> Result<usize, JsonReason>
        ensures start { IfOk result (λ start. start ≡ length (headed self.old.bytes.items 15 key.now)) }
        ensures bytes { OnOk result (self.new.bytes.items ≡ headed self.old.bytes.items 15 key.now ++ unset) }
        ensures levels { self.new.levels.items ≡ self.old.levels.items }
        ensures limits { self.new.limits ≡ self.old.limits }
        ensures refused { IfErr result (Refuses self.old (2 + length key.now + 4) 0) }
    {
        self.put_head(ElementType::JavaScriptCodeWithScope, key)?;
        let start = self.bytes.len();
        self.put(&[0; 4])?;
        Ok(start)
    }

    /// Puts a string between the first `at` bytes and the others.
    pub(crate) fn insert_string(
        &mut self,
        alloc: Global,
        at: usize,
        text: &str,
    ) -> Result<(), JsonReason>
        requires { at ≤ length self.old.bytes.items }
        ensures text { IsUtf8 text.now }
        ensures bytes { OnOk result (self.new.bytes.items ≡ with_string at text.now self.old.bytes.items) }
        ensures len { OnOk result (length self.new.bytes.items ≡ length self.old.bytes.items + (5 + length text.now)) }
        ensures levels { self.new.levels.items ≡ self.old.levels.items }
        ensures limits { self.new.limits ≡ self.old.limits }
        ensures refused { IfErr result (Refuses self.old (5 + length text.now) 0) }
    {
        self.make_room(text.len() + 5)?;
        let Ok(behind) = Vec::from_slice(alloc, &self.bytes[at..]) else {
            return Err(JsonReason::OutOfMemory);
        };
        self.bytes.truncate(at);
        put_string(&mut self.bytes, text);
        match self.bytes.extend_from_slice(&behind) {
            Ok(()) => Ok(()),
            Err(_) => unreachable!(),
        }
    }

    /// Ends a level that was removed.
    pub(crate) fn close(&mut self, level: Level<'a>) -> Result<(), JsonReason>
        requires { IsPlaced (length self.old.bytes.items) level }
        ensures bytes { OnOk result (self.new.bytes.items ≡ with_len level.entry.start (self.old.bytes.items ++ 0 ∷ [])) }
        ensures len { OnOk result (length self.new.bytes.items ≡ length self.old.bytes.items + 1) }
        ensures levels { self.new.levels.items ≡ self.old.levels.items }
        ensures limits { self.new.limits ≡ self.old.limits }
        ensures refused { IfErr result (Refuses self.old 1 0) }
    {
        self.put(&[0])?;
        self.set_len(level.start);
        Ok(())
    }

    /// Sets the four bytes at `start` to the number of bytes from there on.
    pub(crate) fn set_len(&mut self, start: usize)
        requires { start + 4 ≤ length self.old.bytes.items }
        ensures bytes { self.new.bytes.items ≡ with_len start self.old.bytes.items }
        ensures len { length self.new.bytes.items ≡ length self.old.bytes.items }
        ensures levels { self.new.levels.items ≡ self.old.levels.items }
        ensures limits { self.new.limits ≡ self.old.limits }
    {
        set_len(&mut self.bytes, start);
    }

    /// The document, whose levels have all ended, if it is within the limits.
    pub(crate) fn finish(self, alloc: Global) -> Result<RawDocumentBuf, JsonReason>
        requires { IsReadableDocument self.bytes.items }
        ensures bytes { IfOk result (λ document. document ≡ self.entry.bytes.items) }
        ensures sound { IfOk result (λ document. (t : Tree) × ReadsWithin self.entry.limits document t) }
        ensures stops { IfErr result (StopsDocument self.entry.limits self.entry.bytes.items) }
    {
        let Ok(document) = RawDocumentBuf::from_bytes(self.bytes) else {
            unreachable!()
        };
        check(alloc, document.as_ref(), self.limits)?;
        Ok(document)
    }
}

/// Whether a document without a fault is within the limits.
fn check(alloc: Global, document: RawDocument<'_>, limits: Limits) -> Result<(), JsonReason>
    requires { IsReadAgain (bytes_of document) }
    ensures sound { OnOk result ((t : Tree) × ReadsWithin limits (bytes_of document.entry) t) }
    ensures stops { IfErr result (StopsDocument limits (bytes_of document.entry)) }
{
    match first_fault_within(alloc, document, limits) {
        Err(_) => Err(JsonReason::OutOfMemory),
        Ok(None) => Ok(()),
        Ok(Some(barrier)) => match barrier.kind {
            BarrierKind::TooManyBytes => Err(JsonReason::TooManyBytes),
            BarrierKind::TooDeep => Err(JsonReason::TooDeep),
            BarrierKind::Fault(_) => unreachable!(),
        },
    }
}
