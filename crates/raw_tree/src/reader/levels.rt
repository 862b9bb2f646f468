//! The levels of bytes that are being read, and what was read of each so far.
#![tactic(auto, using(std::proofs::lemmas::Grind::common_steps, bson_model::proofs::Face::tree_laws))]

ghost use Rattle.std.specs.Prelude.{◌≡◌, [], ◌∷◌, ◌++◌, map, IfOk, IfErr, OnOk};
ghost use Rattle.std.specs.String.{string_bytes};
ghost use Rattle.bson_model.specs.Scalars.{bytes_of_object_id};
ghost use Rattle.bson_model.specs.Tree.{tree_of};
ghost use Rattle.raw_tree.specs.reader.Levels.{ClosesAs, DraftsTree, Finishes, IsOneMore, IsPairMore, IsSameDraft, IsUnread, PutsLevel, PutsValue};
ghost use Rattle.raw_tree.specs.reader.Reading.{ReadsAs, StandsFor};
ghost use Rattle.raw_view.specs.Errors.{IsOutOfMemory};
ghost use Rattle.raw_view.specs.Meaning.Value.{IsSingle, id_of, namespace_of, value_of};

use bson_model::{Bson, DbPointer, Document, JavaScriptCodeWithScope, Regex};
use raw_view::{Elements, Holder, RawBsonRef, RawDbPointerRef, RawLevel, Result};
use std::alloc::Global;
use std::mem;

/// A level with more values than this hands over its vector as it is. The values of a smaller level are moved
/// into a vector of the exact size.
const MOST_MOVED: usize = 256;

/// The content of bytes: a document, the scope of this code, or an array.
#[derive(Drop)]
pub(crate) enum Contents<'a> {
    Document(Option<&'a str>, Document),
    Array(Vec<Bson>),
}

/// What was read of a level so far: its keys, unless it is an array, and its values.
#[derive(Drop)]
pub(crate) struct Draft<'a> {
    pub(crate) keys: Vec<&'a str>,
    pub(crate) values: Vec<Bson>,
}

/// A level that is being read: its remaining elements, what holds it, and what was read of it so far.
#[derive(Drop)]
pub(crate) struct Level<'a> {
    pub(crate) elements: Elements<'a>,
    pub(crate) holder: Holder<'a>,
    pub(crate) draft: Draft<'a>,
}

/// A level that waits for the value under this key. The bytes of that value are the next level.
#[derive(Drop)]
pub(crate) struct Waiting<'a> {
    pub(crate) level: Level<'a>,
    pub(crate) key: &'a str,
}

/// The pointer, with a namespace that it owns. The only error is out of memory. BSON 1.1, `element`,
/// DBPointer.
pub fn copied_pointer(alloc: Global, pointer: RawDbPointerRef<'_>) -> Result<DbPointer>
    ensures namespace { IfOk result
        (λ p. string_bytes p.namespace ≡ namespace_of pointer.entry) }
    ensures id { IfOk result (λ p. bytes_of_object_id p.id ≡ id_of pointer.entry) }
    ensures err { IfErr result IsOutOfMemory }
{
    Ok(DbPointer {
        namespace: String::from_str(alloc, pointer.namespace())?,
        id: pointer.id(),
    })
}

/// A value that holds no level, with parts of its own. The only error is out of memory.
#[inline(always)]
pub(crate) fn copied(alloc: Global, value: RawBsonRef<'_>) -> Result<Bson>
    requires { IsSingle (value_of value) }
    ensures copied { IfOk result (λ t. StandsFor ReadsAs (value_of value.entry) (tree_of t)) }
    ensures err { IfErr result IsOutOfMemory }
{
    match value {
        RawBsonRef::Double(bits) => Ok(Bson::Double(bits)),
        RawBsonRef::String(text) => Ok(Bson::String(String::from_str(alloc, text)?)),
        RawBsonRef::Boolean(value) => Ok(Bson::Boolean(value)),
        RawBsonRef::Null => Ok(Bson::Null),
        RawBsonRef::RegularExpression(regex) => {
            let regex = Regex::new(alloc, regex.pattern, regex.options)?;
            Ok(Bson::RegularExpression(regex))
        }
        RawBsonRef::JavaScriptCode(text) => {
            let code = String::from_str(alloc, text)?;
            Ok(Bson::JavaScriptCode(code))
        }
        RawBsonRef::Int32(number) => Ok(Bson::Int32(number)),
        RawBsonRef::Int64(number) => Ok(Bson::Int64(number)),
        RawBsonRef::Timestamp(time) => Ok(Bson::Timestamp(time)),
        RawBsonRef::Binary(binary) => Ok(Bson::Binary(binary.to_binary(alloc)?)),
        RawBsonRef::ObjectId(id) => Ok(Bson::ObjectId(id)),
        RawBsonRef::DateTime(time) => Ok(Bson::DateTime(time)),
        RawBsonRef::Symbol(text) => Ok(Bson::Symbol(String::from_str(alloc, text)?)),
        RawBsonRef::Decimal128(number) => Ok(Bson::Decimal128(number)),
        RawBsonRef::Undefined => Ok(Bson::Undefined),
        RawBsonRef::MaxKey => Ok(Bson::MaxKey),
        RawBsonRef::MinKey => Ok(Bson::MinKey),
        RawBsonRef::DbPointer(pointer) => { Ok(Bson::DbPointer(copied_pointer(alloc, pointer)?)) }
        RawBsonRef::Document(_) | RawBsonRef::Array(_) | RawBsonRef::JavaScriptCodeWithScope(_) =>
            unreachable!(),
    }
}

impl<'a> Draft<'a> {
    /// An empty draft. It takes no memory.
    pub(crate) fn new(alloc: Global) -> Draft<'a>
        ensures keys { result.keys.items ≡ [] }
        ensures values { result.values.items ≡ [] }
    {
        Draft {
            keys: Vec::new(alloc),
            values: Vec::new(alloc),
        }
    }

    /// If nothing was read yet, takes the room of a spare draft.
    #[tactic(auto, using(std::proofs::lemmas::Grind::common_steps, bson_model::proofs::Face::tree_laws, std::proofs::lemmas::List::nil_from_length, crate::proofs::reader::Stacks::drafted_none, crate::proofs::reader::Stacks::no_trees))]
    #[inline(always)]
    fn take_room(&mut self, spare: &mut Draft<'a>)
        ensures { IsSameDraft self.old self.new }
    {
        if self.values.len() > 0 {
            return;
        }
        spare.keys.clear();
        spare.values.clear();
        mem::swap(self, spare);
    }

    /// Appends a pair. The only error is out of memory.
    #[tactic(auto, using(std::proofs::lemmas::Grind::common_steps, bson_model::proofs::Face::tree_laws, std::proofs::lemmas::List::map_push))]
    #[inline(always)]
    fn put_pair(&mut self, key: &'a str, value: Bson) -> Result<()>
        ensures put { OnOk result (IsPairMore self.old key.now (tree_of value) self.new) }
        ensures err { IfErr result IsOutOfMemory }
    {
        self.keys.push(key)?;
        self.values.push(value)?;
        Ok(())
    }

    /// Appends a value. The only error is out of memory.
    #[tactic(auto, using(std::proofs::lemmas::Grind::common_steps, bson_model::proofs::Face::tree_laws, std::proofs::lemmas::List::map_push))]
    #[inline(always)]
    fn put_value(&mut self, value: Bson) -> Result<()>
        ensures put { OnOk result (map tree_of self.new.values.items ≡ map tree_of self.old.values.items ++ tree_of value ∷ []) }
        ensures err { IfErr result IsOutOfMemory }
    {
        self.values.push(value)?;
        Ok(())
    }

    /// Moves the values into a vector of the exact size, unless they are many, and returns the vector that
    /// they were in.
    fn fit(&mut self, alloc: Global) -> Result<Vec<Bson>>
        ensures keys { OnOk result (self.new.keys.items ≡ self.old.keys.items) }
        ensures values { OnOk result (self.new.values.items ≡ self.old.values.items) }
        ensures err { IfErr result IsOutOfMemory }
    {
        if self.values.len() > MOST_MOVED {
            return Ok(Vec::new(alloc));
        }
        let exact = self.values.split_off(0)?;
        Ok(mem::replace(&mut self.values, exact))
    }

    /// Leaves its room to a later level if it is larger than the spare room.
    fn leave_room(self, spare: &mut Draft<'a>) {
        if self.values.capacity() > spare.values.capacity() {
            *spare = self;
        }
    }
}

/// A level of which nothing was read.
#[inline(always)]
pub(crate) fn begin<'a>(alloc: Global, nested: RawLevel<'a>) -> Level<'a>
    ensures { IsUnread nested.entry result }
{
    Level {
        elements: Elements::new(nested.document),
        holder: nested.holder,
        draft: Draft::new(alloc),
    }
}

/// Appends a value, under this key unless the level is an array. The first value takes the room that another
/// level left. The only error is out of memory.
#[tactic(auto, using(std::proofs::lemmas::Grind::common_steps, bson_model::proofs::Face::tree_laws, std::proofs::lemmas::List::map_push))]
#[inline(always)]
fn put<'a>(level: &mut Level<'a>, spare: &mut Draft<'a>, key: &'a str, value: Bson) -> Result<()>
    ensures put { OnOk result (IsOneMore level.old key.now (tree_of value) level.new) }
    ensures err { IfErr result IsOutOfMemory }
{
    level.draft.take_room(spare);
    match level.holder {
        Holder::Document | Holder::Code(_) => level.draft.put_pair(key, value),
        Holder::Array => level.draft.put_value(value),
    }
}

/// Appends a copy of a value that holds no level, under this key unless the level is an array. The only error
/// is out of memory.
#[inline(always)]
pub(crate) fn put_copied<'a>(
    alloc: Global,
    level: &mut Level<'a>,
    key: &'a str,
    value: RawBsonRef<'_>,
    spare: &mut Draft<'a>,
) -> Result<()>
    requires { IsSingle (value_of value) }
    ensures put { OnOk result (PutsValue (value_of value.entry) level.old key.now level.new) }
    ensures err { IfErr result IsOutOfMemory }
{
    let copy = copied(alloc, value)?;
    put(level, spare, key, copy)
}

/// The content of a level, once all of it was read. It takes over the vector of the values. The only error is
/// out of memory.
#[tactic(auto, using(std::proofs::lemmas::Grind::common_steps, bson_model::proofs::Face::tree_laws, crate::proofs::reader::Stacks::zip_pairs))]
pub(crate) fn finish<'a>(
    alloc: Global,
    holder: Holder<'a>,
    draft: &mut Draft<'a>,
) -> Result<Contents<'a>>
    ensures finished { IfOk result (Finishes holder.entry draft.old) }
    ensures err { IfErr result IsOutOfMemory }
{
    let values = mem::replace(&mut draft.values, Vec::new(alloc));
    match holder {
        Holder::Document => {
            let document = Document::from_columns(alloc, draft.keys.as_slice(), values)?;
            Ok(Contents::Document(None, document))
        }
        Holder::Array => Ok(Contents::Array(values)),
        Holder::Code(code) => {
            let scope = Document::from_columns(alloc, draft.keys.as_slice(), values)?;
            Ok(Contents::Document(Some(code), scope))
        }
    }
}

/// The value that holds a level, once all of it was read. The room of the level goes to a later level. The
/// only error is out of memory.
#[inline(always)]
fn end<'a>(alloc: Global, level: Level<'a>, spare: &mut Draft<'a>) -> Result<Bson>
    ensures ended { IfOk result (DraftsTree level.entry.holder level.entry.draft) }
    ensures err { IfErr result IsOutOfMemory }
{
    let mut draft = level.draft;
    let room = draft.fit(alloc)?;
    let contents = finish(alloc, level.holder, &mut draft)?;
    draft.values = room;
    draft.leave_room(spare);
    close(alloc, contents)
}

/// Puts the value that holds a level, once all of it was read, into the level that waits for it. The only
/// error is out of memory.
#[inline(always)]
pub(crate) fn put_ended<'a>(
    alloc: Global,
    level: Level<'a>,
    outer: &mut Waiting<'a>,
    spare: &mut Draft<'a>,
) -> Result<()>
    ensures put { OnOk result (PutsLevel level.entry outer.old outer.new) }
    ensures err { IfErr result IsOutOfMemory }
{
    let ended = end(alloc, level, spare)?;
    put(&mut outer.level, spare, outer.key, ended)
}

/// The value with this content. The only error is out of memory, for the copy of a code.
#[inline(always)]
pub(crate) fn close(alloc: Global, contents: Contents<'_>) -> Result<Bson>
    ensures closed { IfOk result (ClosesAs contents.entry) }
    ensures err { IfErr result IsOutOfMemory }
{
    match contents {
        Contents::Document(None, document) => Ok(Bson::Document(document)),
        Contents::Document(Some(code), scope) => {
            let code = String::from_str(alloc, code)?;
            Ok(Bson::JavaScriptCodeWithScope(JavaScriptCodeWithScope { code, scope }))
        }
        Contents::Array(list) => Ok(Bson::Array(list)),
    }
}
