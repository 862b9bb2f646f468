//! Documents from text: one loop over the members of the innermost level.
#![tactic(auto, using(crate::proofs::Left::one_taken, crate::proofs::Left::some_taken))]

ghost use Rattle.std.specs.Prelude.{◌≡◌, ◌≢◌, ◌+◌, ◌<◌, ◌≤◌, ◌∷◌, [], length, IfErr, IfOk, OnErr, OnOk};
ghost use Rattle.std.specs.Str.{IsUtf8};
ghost use Rattle.json.specs.Reads.{token_of};
ghost use Rattle.json.specs.declared.token.Token.TheVariants.{BeginObject};
ghost use Rattle.json.specs.Token.{begin_object};
ghost use Rattle.bson_model.specs.Bytes.{NulFree};
ghost use Rattle.bson_model.specs.Tree.{Tree};
ghost use Rattle.raw_view.specs.Meaning.Value.{value_of};
ghost use Rattle.raw_tree.specs.WithinLimits.{ReadsWithin};
ghost use Rattle.bson_from_json.specs.Left.{left_of};
ghost use Rattle.bson_from_json.specs.Levels.{ClosesBracket, HasMembers, MayBeIn, Puts, SaysBytes, TakesLevel, TakesValue, array_level};
ghost use Rattle.bson_from_json.specs.Placed.{IsPlaced};
ghost use Rattle.values_from_json.specs.Place.{IsPlaceIn};
ghost use Rattle.bson_from_json.specs.Ends.{HaveLength, KeepsClosed, KeepsLevel, KeepsValue, RefusesValue, StopsClosed, StopsLevel, StopsValue, StopsWhole};
ghost use Rattle.bson_from_json.specs.Texts.{IsCause, IsWritten};

use crate::levels::{Holder, Level};
use crate::unfinished::Unfinished;
use itoa::Buffer;
use json::{Reader as Tokens, Scratch, Token};
use raw_bson::{Limits, RawDocumentBuf};
use raw_view::{ElementType, RawBsonRef};
use std::alloc::Global;
use values_from_json::{
    JsonError, JsonReason, Source, Wanted, Wrapper, error_at, is_nul_free, wrapper_of_key,
};

/// A text and the document that is made of it.
#[derive(Drop)]
pub(crate) struct Reader<'a> {
    pub(crate) alloc: Global,
    pub(crate) source: Source<'a>,
    pub(crate) document: Unfinished<'a>,
}

/// The document that a text of MongoDB Extended JSON v2 writes, canonical or relaxed. An integer without a wrapper
/// is an Int32 if it fits, otherwise an Int64, and may have up to 64 bits. Any other number without a wrapper is
/// the nearest double. An object with the keys of a wrapper, in any order, is the value of the wrapper; one with
/// the key of a wrapper and other keys is an error. A binary may be as in version 1, with the keys `$binary` and
/// `$type`. The whole text and a scope are documents whatever their keys are. A decimal must equal a Decimal128.
/// Members are in the order of the text, even with repeated keys; options are sorted. The document has a tree
/// within the limits, so it has no fault at any level. The error is about the first token that is wrong, with its
/// place; or it is out of memory. The reason is `TooDeep` or `TooManyBytes` only where every document that the text
/// writes is over that limit, or has more bytes than BSON allows. With any other reason but `OutOfMemory` the text
/// writes no document. BSON 1.1, `document`.
///
/// Not in the contract: no depth of the text takes stack, the time is linear, and memory is taken for as many
/// bytes as the text has, besides the document. A code after its scope is written before it: the bytes of the scope
/// are moved, and so once for each such scope that they are in.
/// ```
/// let limits = Limits { bytes: 1000, depth: 10 };
/// let document = from_json(alloc, "{\"a\": 1}", limits)?;
/// assert_eq!(rt; document.as_bytes(), b"\x0C\0\0\0\x10a\0\x01\0\0\0\0".as_slice());
/// ```
pub fn from_json(alloc: Global, text: &str, limits: Limits) -> Result<RawDocumentBuf, JsonError>
    ensures written { IfOk result (IsWritten text.now) }
    ensures sound { IfOk result (λ document. (t : Tree) × ReadsWithin limits document t) }
    ensures place { IfErr result (IsPlaceIn text.now) }
    ensures cause { IfErr result (λ error. IsCause limits text.now error.reason) }
{
    let mut scratch = Scratch::new(alloc);
    let tokens = match Tokens::new(text, &mut scratch) {
        Ok(tokens) => tokens,
        Err(_) => return Err(error_at(JsonReason::OutOfMemory, text.as_bytes(), 0)),
    };
    let mut reader = Reader {
        alloc,
        source: Source::new(text, tokens),
        document: Unfinished::new(alloc, limits),
    };
    let outcome = reader.read();
    let place = reader.source.place;
    let reason = match outcome {
        Err(reason) => reason,
        Ok(()) => match reader.document.finish(alloc) {
            Ok(document) => return Ok(document),
            Err(reason) => reason,
        },
    };
    Err(error_at(reason, text.as_bytes(), place))
}

impl<'a> Reader<'a> {
    /// Reads the whole text.
    fn read(&mut self) -> Result<(), JsonReason>
        requires bytes { self.old.document.bytes.items ≡ [] }
        requires levels { self.old.document.levels.items ≡ [] }
        ensures some { OnOk result (SaysBytes self.old.source.tokens self.new.document.bytes.items) }
        ensures limits { OnOk result (self.new.document.limits ≡ self.old.document.limits) }
        ensures length { OnOk result (HaveLength self.old.source.tokens (length self.new.document.bytes.items)) }
        ensures stops { IfErr result (StopsWhole self.old.document.limits self.old.source.tokens) }
    {
        let Token::BeginObject = self.source.token(Wanted::Document)? else {
            return Err(self.source.fault(Wanted::Document));
        };
        self.document.open(Holder::Text)?;
        'members: while let Some(level) = self.document.pop() {
            self.on_with(level)?;
        }
        self.source.end_of_text()
    }

    /// Takes an item or a member of a level that was removed, or the end of the level.
    fn on_with(&mut self, level: Level<'a>) -> Result<(), JsonReason>
        requires { IsPlaced (length self.old.document.bytes.items) level }
        ensures less { OnOk result (left_of self.new < left_of self.old) }
        ensures rest { OnOk result (TakesLevel self.old self.new level.entry) }
        ensures keeps { OnOk result (KeepsLevel self.old self.new level.entry) }
        ensures stops { IfErr result (StopsLevel self.old level.entry) }
    {
        match level.holder {
            Holder::Array(items) => self.item(level.start, items),
            Holder::Begun(key) => {
                self.document.push(Level {
                    holder: Holder::Document,
                    start: level.start,
                })?;
                self.value_of(key)
            }
            Holder::Typed => {
                self.document.push(Level {
                    holder: Holder::Document,
                    start: level.start,
                })?;
                self.object("$type")
            }
            _ => self.member(level),
        }
    }

    /// Takes an item of an array that starts at `start` and has `items` items, or its end.
    fn item(&mut self, start: usize, items: usize) -> Result<(), JsonReason>
        requires { IsPlaced (length self.old.document.bytes.items) (array_level items start) }
        ensures less { OnOk result (left_of self.new < left_of self.old) }
        ensures rest { OnOk result (TakesLevel self.old self.new (array_level items start)) }
        ensures keeps { OnOk result (KeepsLevel self.old self.new (array_level items start)) }
        ensures stops { IfErr result (StopsLevel self.old (array_level items start)) }
    {
        let token = self.source.token(Wanted::Item)?;
        if let Token::EndArray = token {
            return self.close(Level {
                holder: Holder::Array(items),
                start,
            });
        }
        let more = items.checked_add(1).ok_or(JsonReason::OutOfMemory)?;
        self.document.push(Level {
            holder: Holder::Array(more),
            start,
        })?;
        let mut buffer = Buffer::new();
        let key = buffer.format(items);
        self.value(token, key, Wanted::Item)
    }

    /// Takes a member of a level that was removed, or the end of the level.
    fn member(&mut self, level: Level<'a>) -> Result<(), JsonReason>
        requires members { HasMembers level.holder }
        requires placed { IsPlaced (length self.old.document.bytes.items) level }
        ensures less { OnOk result (left_of self.new < left_of self.old) }
        ensures rest { OnOk result (TakesLevel self.old self.new level.entry) }
        ensures keeps { OnOk result (KeepsLevel self.old self.new level.entry) }
        ensures stops { IfErr result (StopsLevel self.old level.entry) }
    {
        match self.source.token(Wanted::Member)? {
            Token::EndObject => self.close(level),
            Token::Key(key) => {
                check_key(key, level.holder)?;
                self.document.push(level)?;
                self.value_of(key)
            }
            _ => Err(self.source.fault(Wanted::Member)),
        }
    }

    /// Takes the value of a member.
    fn value_of(&mut self, key: &str) -> Result<(), JsonReason>
        ensures less { OnOk result (left_of self.new < left_of self.old) }
        ensures rest { OnOk result (TakesValue self.old self.new key.now []) }
        ensures keeps { OnOk result (KeepsValue self.old self.new key.now []) }
        ensures stops { IfErr result (StopsValue self.old key.now []) }
    {
        let token = self.source.token(Wanted::Value)?;
        self.value(token, key, Wanted::Value)
    }

    /// Ends a level that was removed, whose bracket was passed, and the wrapper that it is in.
    fn close(&mut self, level: Level<'a>) -> Result<(), JsonReason>
        requires { IsPlaced (length self.old.document.bytes.items) level }
        ensures less { OnOk result (left_of self.new ≤ left_of self.old) }
        ensures rest { OnOk result (ClosesBracket self.old self.new level.entry) }
        ensures keeps { OnOk result (KeepsClosed self.old self.new level.entry) }
        ensures stops { IfErr result (StopsClosed self.old level.entry) }
    {
        self.document.close(level)?;
        match level.holder {
            Holder::Scope(start) => {
                self.document.set_len(start);
                self.source.end(Wrapper::Code)
            }
            Holder::ScopeBeforeCode(start) => {
                let code = self.source.code()?;
                self.document.insert_string(self.alloc, level.start, code)?;
                self.document.set_len(start);
                Ok(())
            }
            _ => Ok(()),
        }
    }

    /// Puts the value that begins with this token, or the beginning of one that is a level, under a key.
    fn value(&mut self, token: Token<'a>, key: &str, wanted: Wanted) -> Result<(), JsonReason>
        ensures less { OnOk result (left_of self.new ≤ left_of self.old) }
        ensures rest { OnOk result (TakesValue self.old self.new key.now (token_of token.entry ∷ [])) }
        ensures keeps { OnOk result (KeepsValue self.old self.new key.now (token_of token.entry ∷ [])) }
        ensures stops { IfErr result (StopsValue self.old key.now (token_of token.entry ∷ [])) }
    {
        match token {
            Token::BeginObject => self.object(key),
            _ => self.plain(token, key, wanted),
        }
    }

    /// The same of a token that isn't the opening brace of an object.
    #[inline(always)]
    pub(crate) fn plain(
        &mut self,
        token: Token<'a>,
        key: &str,
        wanted: Wanted,
    ) -> Result<(), JsonReason>
        requires { token ≢ BeginObject }
        ensures less { OnOk result (left_of self.new ≤ left_of self.old) }
        ensures rest { OnOk result (TakesValue self.old self.new key.now (token_of token.entry ∷ [])) }
        ensures keeps { OnOk result (KeepsValue self.old self.new key.now (token_of token.entry ∷ [])) }
        ensures stops { IfErr result (StopsValue self.old key.now (token_of token.entry ∷ [])) }
    {
        match token {
            Token::String(text) => self.put(key, RawBsonRef::String(text)),
            Token::Number(text) => self.number(key, text),
            Token::Bool(value) => self.put(key, RawBsonRef::Boolean(value)),
            Token::Null => self.put(key, RawBsonRef::Null),
            Token::BeginObject => unreachable!(),
            Token::BeginArray => self
                .document
                .open_under(ElementType::Array, key, Holder::Array(0)),
            Token::Key(_) => Err(self.source.fault(Wanted::Comma)),
            Token::EndObject | Token::EndArray | Token::Bad => Err(self.source.fault(wanted)),
        }
    }

    /// Takes the first key of an object, which decides whether the object is a wrapper, or its end.
    fn object(&mut self, key: &str) -> Result<(), JsonReason>
        ensures less { OnOk result (left_of self.new < left_of self.old) }
        ensures rest { OnOk result (TakesValue self.old self.new key.now (begin_object ∷ [])) }
        ensures keeps { OnOk result (KeepsValue self.old self.new key.now (begin_object ∷ [])) }
        ensures stops { IfErr result (StopsValue self.old key.now (begin_object ∷ [])) }
    {
        let brace = self.source.place;
        match self.source.token(Wanted::Member)? {
            Token::EndObject => {
                self.source.place = brace;
                self.document.put_empty(key)
            }
            Token::Key(first) => match wrapper_of_key(first) {
                Some(wrapper) => self.wrapped(wrapper, key),
                None => {
                    if first == "$type" {
                        return self.typed(key, brace);
                    }
                    check_free(first)?;
                    self.source.place = brace;
                    self.document
                        .open_under(ElementType::EmbeddedDocument, key, Holder::Begun(first))
                }
            },
            _ => Err(self.source.fault(Wanted::Member)),
        }
    }

    /// Puts a value under a key.
    #[inline(always)]
    pub(crate) fn put(&mut self, key: &str, value: RawBsonRef<'_>) -> Result<(), JsonReason>
        ensures source { self.new.source ≡ self.old.source }
        ensures puts { OnOk result (Puts self.old self.new key.now (value_of value.entry)) }
        ensures refused { IfErr result (RefusesValue self.old.document key.now (value_of value.entry)) }
    {
        self.document.put_element(key, value)
    }
}

/// A key contains no U+0000, which would end it. In a document it isn't the key of a wrapper either.
pub(crate) fn check_key(key: &str, holder: Holder<'_>) -> Result<(), JsonReason>
    ensures text { IsUtf8 key.now }
    ensures some { OnOk result (MayBeIn holder.entry key.now) }
    ensures none { OnErr result (¬ MayBeIn holder.entry key.now) }
{
    match holder {
        Holder::Document => match wrapper_of_key(key) {
            Some(wrapper) => Err(JsonReason::Malformed(wrapper)),
            None => check_free(key),
        },
        _ => check_free(key),
    }
}

/// A key contains no U+0000, which would end it.
fn check_free(key: &str) -> Result<(), JsonReason>
    ensures text { IsUtf8 key.now }
    ensures some { OnOk result (NulFree key.now) }
    ensures none { OnErr result (¬ NulFree key.now) }
{
    if is_nul_free(key) {
        Ok(())
    } else {
        Err(JsonReason::InteriorNul)
    }
}
