//! `bin/test` runs these alone, with each request for memory failing in turn.

use crate::fixtures::{Checks, let_go};
use bson_model::{Bson, Document, NoMemory, Regex};
use std::alloc::Global;
use std::process::Abort;

/// Enough pairs for the keys and the values to request memory more than once, and for the keys to be put into a
/// set.
const PAIRS: &[(&str, i32)] = &[
    ("a", 1),
    ("b", 2),
    ("c", 3),
    ("d", 4),
    ("e", 5),
    ("f", 6),
    ("g", 7),
    ("h", 8),
    ("i", 9),
    ("j", 10),
    ("k", 11),
    ("l", 12),
    ("m", 13),
    ("n", 14),
    ("o", 15),
    ("p", 16),
    ("q", 17),
    ("r", 18),
];

/// Puts the pair last, and returns whether its key is a new one.
fn insert(alloc: Global, document: &mut Document, pair: (&str, i32)) -> Result<bool, NoMemory> {
    let key = String::from_str(alloc, pair.0)?;
    Ok(let_go!(old = document.insert(key, Bson::Int32(pair.1))?; old.is_none()))
}

/// Whether the pair was put last.
fn is_inserted(alloc: Global, document: &mut Document, pair: (&str, i32)) -> bool {
    let_go!(made = insert(alloc, document, pair); matches!(made, Ok(true)))
}

/// Whether this number is under this key.
fn is_under(document: &Document, pair: (&str, i32)) -> bool {
    matches!(document.get(pair.0), Some(Bson::Int32(found)) if *found == pair.1)
}

/// Whether each pair is inserted, at once or, if a request failed, the second time; and all are there then.
fn are_inserted(alloc: Global, document: &mut Document) -> bool {
    let mut are_right = true;
    for pair in PAIRS {
        are_right = are_right
            && (is_inserted(alloc, document, *pair) || is_inserted(alloc, document, *pair));
    }
    for pair in PAIRS {
        are_right = are_right && is_under(document, *pair);
    }
    are_right && document.len() == PAIRS.len()
}

/// Whether the first key, which is there, takes a new value.
fn is_replaced(alloc: Global, document: &mut Document) -> bool {
    let_go!(made = insert(alloc, document, ("a", 19)); matches!(made, Ok(false)))
}

/// Whether the first key takes a new value and keeps its place. If a request was refused, the old value stays, and the key takes the new
/// value when it is inserted again.
fn is_kept(alloc: Global, document: &mut Document) -> bool {
    let is_right = is_replaced(alloc, document)
        || (is_under(document, ("a", 1)) && is_replaced(alloc, document));
    is_right
        && is_under(document, ("a", 19))
        && is_first(document, "a")
        && document.len() == PAIRS.len()
}

/// Whether this key is the first.
fn is_first(document: &Document, wanted: &str) -> bool {
    match document.pair_at(0) {
        Some((key, _)) => key == wanted,
        None => false,
    }
}

#[test]
fn insert_or_out_of_memory(rt: HostRuntime) {
    assert!(rt;
        let_go!(
            mut made = Document::new(rt.alloc());
            are_inserted(rt.alloc(), &mut made) && is_kept(rt.alloc(), &mut made)
        )
    );
}

/// Whether the regular expression has these texts, or memory ran out.
fn is_regex(checks: Checks, answer: &Result<Regex, NoMemory>, texts: (&str, &str)) -> bool {
    match answer {
        Ok(regex) => regex.pattern.as_str() == texts.0 && regex.options.as_str() == texts.1,
        Err(NoMemory) => checks.is_refusable,
    }
}

/// Whether a regular expression puts its options in order, or memory ran out.
pub(crate) fn is_ordered(checks: Checks) -> bool {
    let_go!(made = Regex::new(checks.alloc, "^a", "mi"); is_regex(checks, &made, ("^a", "im")))
}

#[test]
fn regex_or_out_of_memory(rt: HostRuntime) {
    assert!(rt; is_ordered(Checks::refusable(rt.alloc())));
}
