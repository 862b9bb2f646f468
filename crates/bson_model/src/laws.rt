//! What holds of all values and documents, as calls whose contracts say it. Programs never need them; proofs
//! do.

ghost use Rattle.std.specs.Prelude.{◌≡◌, ◌↔◌, IsTrue};
ghost use Rattle.bson_model.specs.Tree.{tree_of, tree_of_document, tree_of_list};
ghost use Rattle.bson_model.specs.Proper.{IsWellFormed};

use crate::bson::{Bson, Document};
pub use crate::ranges::{attest_bytes, attest_u32, attest_u64};

/// Whether two values have the same tree, which is what `==` returns. Programs never need it; proofs do.
///
/// Not in the contract: it takes the stack that `==` takes.
pub fn is_same_tree(a: &Bson, b: &Bson) -> bool
    ensures { IsTrue result ↔ (tree_of a.now ≡ tree_of b.now) }
{
    a == b
}

/// Whether two documents have the same tree, which is what `==` returns: the same keys with the same trees in
/// the same order. Programs never need it; proofs do.
///
/// Not in the contract: it takes the stack that `==` takes.
pub fn is_same_document(left: &Document, right: &Document) -> bool
    ensures { IsTrue result ↔ (tree_of_document left.now ≡ tree_of_document right.now) }
{
    left == right
}

/// The tree of a value is well formed. Numbers are in the ranges of their types. An ObjectId has twelve bytes
/// and a Decimal128 sixteen. Texts and keys are UTF-8. No key occurs twice in a document. No other call of
/// the libraries calls this. Programs never need it; proofs do.
///
/// Not in the contract: it reads the whole value, takes no memory, and calls itself for each level.
#[cycle(attest)]
pub fn attest_value(value: &Bson)
    ensures { IsWellFormed (tree_of value.now) }
{
    match value {
        Bson::Double(bits) => attest_u64(bits.0),
        Bson::Document(document) => attest_document(document),
        Bson::Array(values) => attest_list(values),
        Bson::Binary(binary) => {
            let _byte = binary.subtype.to_u8();
            attest_bytes(&binary.bytes);
        }
        Bson::ObjectId(id) => {
            let _bytes = id.bytes();
        }
        Bson::DateTime(time) => {
            let _millis = time.timestamp_millis();
        }
        Bson::DbPointer(pointer) => {
            let _bytes = pointer.id.bytes();
        }
        Bson::JavaScriptCodeWithScope(code) => attest_document(&code.scope),
        Bson::Int32(number) => {
            let _number = *number;
        }
        Bson::Timestamp(timestamp) => {
            attest_u32(timestamp.time);
            attest_u32(timestamp.increment);
        }
        Bson::Int64(number) => {
            let _number = *number;
        }
        Bson::Decimal128(number) => {
            let _bytes = number.bytes();
        }
        Bson::String(_text) => {}
        Bson::JavaScriptCode(_text) => {}
        Bson::Symbol(_text) => {}
        Bson::RegularExpression(_regex) => {}
        Bson::Undefined | Bson::Boolean(_) | Bson::Null | Bson::MaxKey | Bson::MinKey => {}
    }
}

/// The trees of a list are well formed. Programs never need it; proofs do.
///
/// Not in the contract: it reads the whole list, as `attest_value` does each value, and takes no memory.
#[cycle(attest)]
pub fn attest_list(values: &[Bson])
    ensures { IsWellFormed (tree_of_list values.now) }
{
    for member in values {
        attest_value(member);
    }
}

/// The tree of a document is well formed. Programs never need it; proofs do.
///
/// Not in the contract: it reads the whole document, as `attest_value` does each value, and takes no memory.
#[cycle(attest)]
pub fn attest_document(document: &Document)
    ensures { IsWellFormed (tree_of_document document.now) }
{
    for index in 0..document.len() {
        if let Some((_key, value)) = document.pair_at(index) {
            attest_value(value);
        }
    }
}
