//! The members of a tree: the pairs of a document or of a scope, the values of a list.
#![tactic(auto, using(std::proofs::lemmas::Grind::common_steps, bson_model::proofs::Face::tree_laws))]

ghost use Rattle.std.specs.Prelude.{◌≡◌, ◌≤◌, ◌<◌, ◌+◌, ◌^◌, length, decimal, IfSome, IfNone};
ghost use Rattle.bson_model.specs.Bytes.{NulFree};
ghost use Rattle.bson_model.specs.Tree.{tree_of};
ghost use Rattle.raw_tree.specs.writer.Members.{IsStep, IsTreeOf, key_bytes, members, members_from, members_left, pairs_from, tree_of_container, values_from};

use crate::put::payload::is_nul_free;
use bson_model::{Bson, Document, JavaScriptCodeWithScope};
use raw_view::{RawBsonRef, RawDbPointerRef, RawRegexRef};

/// What holds values: a document, a list, or a code with a scope.
#[derive(Clone, Copy)]
pub(crate) enum Container<'a> {
    Document(&'a Document),
    Array(&'a [Bson]),
    Code(&'a JavaScriptCodeWithScope),
}

/// The key of a member: a text, or in a list its number.
#[derive(Clone, Copy)]
pub(crate) enum Key<'a> {
    Text(&'a str),
    Number(usize),
}

/// A value that holds no others, or the container of the values that it holds.
#[derive(Clone, Copy)]
pub(crate) enum Shown<'a> {
    Leaf(RawBsonRef<'a>),
    Container(Container<'a>),
}

/// The members of a container after the first `passed`.
#[derive(Clone, Copy)]
pub(crate) struct Members<'a> {
    pub(crate) container: Container<'a>,
    passed: usize,
}

/// The pair at a place of a document, counted from 0.
#[tactic(auto, using(std::proofs::lemmas::Grind::common_steps, crate::proofs::writer::MemberSteps::pair_step, crate::proofs::writer::MemberSteps::last_pair))]
#[inline(always)]
fn pair_at(document: &Document, place: usize) -> Option<(Key<'_>, &Bson)>
    ensures member { IsStep (pairs_from document.now place) result (pairs_from document.now (place + 1)) }
    ensures fits { IfSome result (λ m. place + 1 < 2 ^ 64) }
{
    let (key, value) = document.pair_at(place)?;
    Some((Key::Text(key), value))
}

/// The value at a place of a list, counted from 0.
#[inline(always)]
fn value_at(values: &[Bson], place: usize) -> Option<(Key<'_>, &Bson)>
    ensures member { IsStep (values_from values.now place) result (values_from values.now (place + 1)) }
    ensures fits { IfSome result (λ m. place + 1 < 2 ^ 64) }
{
    if place >= values.len() {
        return None;
    }
    Some((Key::Number(place), &values[place]))
}

impl<'a> Container<'a> {
    /// The member at a place, counted from 0.
    #[inline(always)]
    fn member_at(self, place: usize) -> Option<(Key<'a>, &'a Bson)>
        ensures member { IsStep (members_from self.entry place) result (members_from self.entry (place + 1)) }
        ensures fits { IfSome result (λ m. place + 1 < 2 ^ 64) }
    {
        match self {
            Container::Document(document) => pair_at(document, place),
            Container::Array(values) => value_at(values, place),
            Container::Code(code) => pair_at(&code.scope, place),
        }
    }
}

impl<'a> Members<'a> {
    /// All members.
    #[inline(always)]
    pub(crate) fn of(container: Container<'a>) -> Members<'a>
        ensures container { result.container ≡ container.entry }
        ensures all { members_left result ≡ members (tree_of_container container.entry) }
    {
        Members {
            container,
            passed: 0,
        }
    }

    /// The next member, if one is left.
    #[inline(always)]
    pub(crate) fn next(&mut self) -> Option<(Key<'a>, &'a Bson)>
        ensures container { self.new.container ≡ self.old.container }
        ensures step { IsStep (members_left self.old) result (members_left self.new) }
    {
        let member = self.container.member_at(self.passed)?;
        self.passed += 1;
        Some(member)
    }
}

/// The length of the key without its final 0; `None` if it contains a 0.
#[tactic(auto, using(std::proofs::lemmas::Grind::common_steps, crate::proofs::writer::Decimals::decimal_nul_free))]
#[inline(always)]
pub(crate) fn key_len(key: Key<'_>) -> Option<usize>
    ensures some { IfSome result
        (λ len. NulFree (key_bytes key.entry) × (len ≡ length (key_bytes key.entry))) }
    ensures none { IfNone result (¬ NulFree (key_bytes key.entry)) }
{
    match key {
        Key::Text(text) => {
            if is_nul_free(text) {
                Some(text.len())
            } else {
                None
            }
        }
        Key::Number(number) => Some(decimal_len(number)),
    }
}

/// The length of the decimal of a number.
#[tactic(auto, using(std::proofs::lemmas::Grind::common_steps, std::proofs::lemmas::Fmt::decimal_digit, std::proofs::lemmas::Fmt::decimal_step, crate::proofs::writer::Decimals::at_most_twenty))]
#[inline(always)]
fn decimal_len(number: usize) -> usize
    ensures len { result ≡ length (decimal number) }
    ensures short { result ≤ 20 }
{
    let mut len = 1;
    let mut rest = number;
    while rest >= 10 {
        rest /= 10;
        len += 1;
    }
    len
}

/// What a value is. The values that it may hold aren't looked at.
#[tactic(auto, using(bson_model::proofs::Face::tree_laws))]
#[inline(always)]
pub(crate) fn show(value: &Bson) -> Shown<'_>
    ensures { IsTreeOf (tree_of value.now) result }
{
    match value {
        Bson::Document(document) => Shown::Container(Container::Document(document)),
        Bson::Array(values) => Shown::Container(Container::Array(values)),
        Bson::JavaScriptCodeWithScope(code) => Shown::Container(Container::Code(code)),
        Bson::Double(bits) => Shown::Leaf(RawBsonRef::Double(*bits)),
        Bson::String(text) => Shown::Leaf(RawBsonRef::String(text.as_str())),
        Bson::Binary(binary) => Shown::Leaf(RawBsonRef::from(binary)),
        Bson::Undefined => Shown::Leaf(RawBsonRef::Undefined),
        Bson::ObjectId(id) => Shown::Leaf(RawBsonRef::ObjectId(*id)),
        Bson::Boolean(value) => Shown::Leaf(RawBsonRef::Boolean(*value)),
        Bson::DateTime(time) => Shown::Leaf(RawBsonRef::DateTime(*time)),
        Bson::Null => Shown::Leaf(RawBsonRef::Null),
        Bson::RegularExpression(regex) => {
            Shown::Leaf(RawBsonRef::RegularExpression(RawRegexRef {
                pattern: regex.pattern.as_str(),
                options: regex.options.as_str(),
            }))
        }
        Bson::DbPointer(pointer) => Shown::Leaf(RawBsonRef::DbPointer(RawDbPointerRef::new(
            pointer.namespace.as_str(),
            pointer.id,
        ))),
        Bson::JavaScriptCode(text) => Shown::Leaf(RawBsonRef::JavaScriptCode(text.as_str())),
        Bson::Symbol(text) => Shown::Leaf(RawBsonRef::Symbol(text.as_str())),
        Bson::Int32(number) => Shown::Leaf(RawBsonRef::Int32(*number)),
        Bson::Timestamp(time) => Shown::Leaf(RawBsonRef::Timestamp(*time)),
        Bson::Int64(number) => Shown::Leaf(RawBsonRef::Int64(*number)),
        Bson::Decimal128(number) => Shown::Leaf(RawBsonRef::Decimal128(*number)),
        Bson::MaxKey => Shown::Leaf(RawBsonRef::MaxKey),
        Bson::MinKey => Shown::Leaf(RawBsonRef::MinKey),
    }
}
