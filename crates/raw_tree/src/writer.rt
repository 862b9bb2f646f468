//! Bytes from trees.
#![tactic(auto, using(std::proofs::lemmas::Grind::common_steps, bson_model::proofs::Face::tree_laws))]

ghost use Rattle.std.specs.Prelude.{◌≡◌, ◌≤◌, ◌+◌, ◌++◌, ◌∷◌, [], vec_len, vec_capacity, IfOk, IfErr, OnOk};
ghost use Rattle.bson_model.specs.Bytes.{AreBytes};
ghost use Rattle.bson_model.specs.Tree.{Tree, tree_of, tree_of_document, tree_of_list};
ghost use Rattle.raw_tree.specs.CanonicalForm.{DocumentsComeBack, ListsComeBack};
ghost use Rattle.raw_tree.specs.writer.Encoding.{encoded_len, tree_payload, kind_of_tree, IsEncoded, IsRefused};
ghost use Rattle.raw_tree.specs.writer.Encoding.{HasRoomFor, Measures};
ghost use Rattle.raw_tree.specs.writer.Members.{begun_at, begun_of, ended, key_bytes, members_start, opening, opening_len, tree_of_container};
ghost use Rattle.raw_view.specs.Frame.Envelope.{IsEnvelope};
ghost use Rattle.raw_view.specs.Errors.{IsOutOfMemory};
ghost use Rattle.raw_view.specs.Frame.Kind.{tag_of};
ghost use Rattle.raw_view.specs.Frame.Number.{max_length};

pub(crate) mod measuring;
pub(crate) mod members;

use crate::put::total::total_len;
use crate::put::{put_element, put_head, put_string, put_unset, set_len};
use crate::writer::measuring::measure;
use crate::writer::members::{Container, Key, Members, Shown, show};
use bson_model::{Bson, Document};
use itoa::Buffer;
use raw_view::{ElementType, Error, Reason, Result};
use std::alloc::Global;

/// The tag of a container.
#[inline(always)]
fn tag(container: Container<'_>) -> u8
    ensures { result ≡ tag_of (kind_of_tree (tree_of_container container.entry)) }
{
    let kind = match container {
        Container::Document(_) => ElementType::EmbeddedDocument,
        Container::Array(_) => ElementType::Array,
        Container::Code(_) => ElementType::JavaScriptCodeWithScope,
    };
    kind.to_tag()
}

/// A payload that is being written: the remaining members of its container, and where it starts.
#[derive(Clone, Copy)]
struct Payload<'a> {
    members: Members<'a>,
    start: usize,
}

/// Appends the beginning of the payload of a container to `out`, which has room for the whole payload. Its
/// lengths aren't set yet.
#[inline(always)]
fn put_opening(out: &mut Vec<u8>, container: Container<'_>)
    requires room { vec_len out.old + encoded_len (tree_of_container container) ≤ vec_capacity out.old }
    requires fits { encoded_len (tree_of_container container) ≤ max_length }
    ensures items { out.new.items ≡ out.old.items ++ opening (tree_of_container container.entry) }
    ensures len { vec_len out.new ≡ vec_len out.old + opening_len (tree_of_container container.entry) }
    ensures capacity { vec_capacity out.old ≤ vec_capacity out.new }
{
    match container {
        Container::Document(_) | Container::Array(_) => put_unset(out),
        Container::Code(code) => {
            put_unset(out);
            put_string(out, &code.code);
            put_unset(out);
        }
    }
}

impl<'a> Payload<'a> {
    /// Appends the beginning of the payload of a container to `out`, which has room for the whole payload.
    #[tactic(auto, using(std::proofs::lemmas::Grind::common_steps, crate::proofs::writer::WrittenMembers::begins))]
    #[inline(always)]
    fn start(out: &mut Vec<u8>, container: Container<'a>) -> Payload<'a>
        requires room { vec_len out.old + encoded_len (tree_of_container container) ≤ vec_capacity out.old }
        requires fits { encoded_len (tree_of_container container) ≤ max_length }
        ensures items { out.new.items ≡ out.old.items ++ opening (tree_of_container container.entry) }
        ensures len { vec_len out.new ≡ vec_len out.old + opening_len (tree_of_container container.entry) }
        ensures capacity { vec_capacity out.old ≤ vec_capacity out.new }
        ensures begun { begun_of result ≡ begun_at (tree_of_container container.entry) (vec_len out.old) }
    {
        let start = out.len();
        put_opening(out, container);
        Payload {
            members: Members::of(container),
            start,
        }
    }

    /// Ends the payload, whose members were all written, and sets its lengths.
    #[inline(always)]
    fn end(self, out: &mut Vec<u8>)
        requires begun { members_start (begun_of self) ≤ vec_len out.old }
        requires room { vec_len out.old + 1 ≤ vec_capacity out.old }
        requires fits { vec_len out.old + 1 ≤ max_length }
        ensures items { out.new.items ≡ ended (tree_of_container self.entry.members.container) self.entry.start (out.old.items ++ 0 ∷ []) }
        ensures bytes { AreBytes out.new.items }
        ensures len { vec_len out.new ≡ vec_len out.old + 1 }
        ensures capacity { vec_capacity out.old ≤ vec_capacity out.new }
    {
        out.push_reserved(0);
        if let Container::Code(code) = self.members.container {
            set_len(out, self.start + 9 + code.code.len());
        }
        set_len(out, self.start);
    }
}

/// The text of a key; the decimal of a number is written into the buffer.
#[inline(always)]
fn text<'a>(key: Key<'a>, buffer: &'a mut Buffer) -> &'a str
    ensures { result.now ≡ key_bytes key.entry }
{
    match key {
        Key::Text(text) => text,
        Key::Number(number) => buffer.format(number),
    }
}

/// Writes the payload of a container into `out`, which is empty and has room for it. The containers around
/// the one that is being written wait in memory. The only error is out of memory.
#[tactic(auto, using(std::proofs::lemmas::Grind::common_steps, crate::proofs::writer::WrittenMembers::room_left))]
fn write(alloc: Global, out: &mut Vec<u8>, container: Container<'_>) -> Result<()>
    requires empty { out.old.items ≡ [] }
    requires room { encoded_len (tree_of_container container) ≤ vec_capacity out.old }
    requires fits { encoded_len (tree_of_container container) ≤ max_length }
    ensures items { OnOk result (out.new.items ≡ tree_payload (tree_of_container container.entry)) }
    ensures bytes { OnOk result (AreBytes out.new.items) }
    ensures err { IfErr result IsOutOfMemory }
{
    let mut buffer = Buffer::new();
    let mut waiting: Vec<Payload<'_>> = Vec::new(alloc);
    let mut payload = Payload::start(out, container);
    'payloads: loop {
        let Some((key, value)) = payload.members.next() else {
            payload.end(out);
            let Some(outer) = waiting.pop() else {
                return Ok(());
            };
            payload = outer;
            continue 'payloads;
        };
        let key = text(key, &mut buffer);
        match show(value) {
            Shown::Leaf(leaf) => put_element(out, key, leaf),
            Shown::Container(inner) => {
                waiting.push(payload)?;
                put_head(out, tag(inner), key);
                payload = Payload::start(out, inner);
            }
        }
    }
}

/// No bytes, with room for a tree of this measured length; or why the tree can't be written.
fn room_for(alloc: Global, measured: Option<usize>) -> Result<Vec<u8>>
    ensures ok { (t : Tree) → Measures t measured → IfOk result (HasRoomFor t) }
    ensures err { (t : Tree) → Measures t measured → IfErr result (IsRefused t) }
{
    let Some(len) = measured else {
        return Err(Error::malformed(Reason::InteriorNul));
    };
    if total_len(0, len).is_none() {
        return Err(Error::malformed(Reason::TooLong));
    }
    Ok(Vec::with_capacity(alloc, len)?)
}

/// The payload of a container, or why it can't be written.
fn encoded(alloc: Global, container: Container<'_>) -> Result<Vec<u8>>
    ensures ok { IfOk result (λ out. IsEncoded (tree_of_container container.entry) out.items) }
    ensures bytes { IfOk result (λ out. AreBytes out.items) }
    ensures err { IfErr result (IsRefused (tree_of_container container.entry)) }
{
    let mut out = room_for(alloc, measure(alloc, container))?;
    write(alloc, &mut out, container)?;
    Ok(out)
}

/// The bytes of a document. BSON 1.1, `document`. It fails, without a key, for the first of these reasons: a
/// key, a pattern or options at any depth contain a 0; the bytes would be more than 2147483647; memory runs
/// out. It reserves memory for the whole once. If options never descend and each subtype is the one that its
/// byte gives, what is written is canonical and is read as the same tree. `attest_document` says that the
/// tree of a `Document` is well formed.
/// ```
/// let mut tree = Document::new(alloc);
/// tree.put(String::from_str(alloc, "a")?, Bson::Int32(1))?;
/// assert_eq!(rt; encode(alloc, &tree)?.as_slice(), b"\x0C\0\0\0\x10a\0\x01\0\0\0\0".as_slice());
/// ```
#[tactic(auto, using(std::proofs::lemmas::Grind::common_steps, crate::proofs::Forms::document_enveloped, crate::proofs::Returns::document_returns))]
pub fn encode(alloc: Global, document: &Document) -> Result<Vec<u8>>
    ensures ok { IfOk result (λ bytes. IsEncoded (tree_of_document document.now) bytes.items) }
    ensures envelope { IfOk result (λ bytes. IsEnvelope bytes.items) }
    ensures comes_back { DocumentsComeBack }
    ensures err { IfErr result (IsRefused (tree_of_document document.now)) }
{
    encoded(alloc, Container::Document(document))
}

/// The bytes of a list, whose keys are the decimals from 0. BSON 1.1, `array`. It fails as `encode` does, for
/// the same reasons in the same order. The same holds of what is written of a list.
#[tactic(auto, using(std::proofs::lemmas::Grind::common_steps, crate::proofs::Forms::list_enveloped, crate::proofs::Returns::array_returns))]
pub fn encode_list(alloc: Global, values: &[Bson]) -> Result<Vec<u8>>
    ensures ok { IfOk result (λ bytes. IsEncoded (tree_of_list values.now) bytes.items) }
    ensures envelope { IfOk result (λ bytes. IsEnvelope bytes.items) }
    ensures comes_back { ListsComeBack }
    ensures err { IfErr result (IsRefused (tree_of_list values.now)) }
{
    encoded(alloc, Container::Array(values))
}
