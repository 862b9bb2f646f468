//! A recursion down a tree.
use crate::fixtures::{let_go, tree_of};
use bson_model::{Bson, Document};
use std::process::Abort;

// A recursion down a tree in a crate above `bson_model`: its lemmas say that what a value holds is smaller than it.

/// The number of values that hold no others in this value, at any depth.
#[cycle(count)]
fn leaves_of_value(value: &Bson) -> u64 {
    match value {
        Bson::Document(document) => leaves_of_document(document),
        Bson::Array(values) => leaves_of_list(values),
        Bson::JavaScriptCodeWithScope(code) => leaves_of_document(&code.scope),
        _ => 1,
    }
}

#[cycle(count)]
fn leaves_of_list(values: &[Bson]) -> u64 {
    let mut count: u64 = 0;
    for member in values {
        count = count.saturating_add(leaves_of_value(member));
    }
    count
}

#[cycle(count)]
fn leaves_of_document(document: &Document) -> u64 {
    let mut count: u64 = 0;
    for index in 0..document.len() {
        if let Some((_key, value)) = document.pair_at(index) {
            count = count.saturating_add(leaves_of_value(value));
        }
    }
    count
}

/// How many leaves the tree has; 0 if there was no memory for it.
fn leaves(made: &raw_bson::Result<Document>) -> u64 {
    match made {
        Ok(document) => leaves_of_document(document),
        Err(_) => 0,
    }
}

/// An array of a number and of a code with a null in its scope, and a boolean.
const TREE: &[u8] = b"\x2D\0\0\0\x04a\0\x21\0\0\0\x100\0\x01\0\0\0\x0F1\0\
\x12\0\0\0\x02\0\0\0f\0\x08\0\0\0\x0Ax\0\0\0\x08b\0\x01\0";

#[test]
fn leaves_are_counted_at_any_depth(rt: HostRuntime) {
    assert!(rt; let_go!(made = tree_of(rt.alloc(), TREE); leaves(&made)) == 3);
}
