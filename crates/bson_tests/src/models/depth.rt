//! Documents of many levels. `bin/test` also runs the first of these on a stack of 256 KiB, and checks that all
//! memory is released.

use crate::fixtures::*;
use bson_model::Document;
use std::alloc::{AllocError, Global};
use std::process::Abort;

/// Whether the outermost level of a branch is there.
fn is_branch(made: &raw_bson::Result<Document>) -> bool {
    matches!(made, Ok(tree) if tree.len() == 3)
}

/// Whether these bytes are read as a branch, which is then dropped.
fn is_let_go(alloc: Global, bytes: &[u8]) -> bool {
    let_go!(made = tree_of(alloc, bytes); is_branch(&made))
}

#[test]
fn a_deep_branch_among_others_is_let_go(rt: HostRuntime) {
    let bytes = levels(&rt, rt.alloc(), AMONG_OTHERS, 200_000);
    assert!(rt; is_let_go(rt.alloc(), &bytes));
}

/// Whether both were made, and are equal.
fn are_equal(tree: &raw_bson::Result<Document>, other: &raw_bson::Result<Document>) -> bool {
    match (tree, other) {
        (Ok(tree), Ok(other)) => tree == other,
        _ => false,
    }
}

/// Whether two trees of these bytes were made, and are equal.
fn are_levels_equal(alloc: Global, bytes: &[u8]) -> bool {
    let_go!(
        tree = tree_of(alloc, bytes);
        let_go!(other = tree_of(alloc, bytes); are_equal(&tree, &other))
    )
}

/// The bytes of `levels` nested levels of this kind.
fn levels(rt: &impl Abort, alloc: Global, level: Level, levels: usize) -> Vec<u8> {
    nested(alloc, &[level], levels, EMPTY).expect(rt, "no memory for the levels")
}

#[test]
fn levels_are_compared(rt: HostRuntime) {
    for (row, (level, _)) in TEXTS.iter().enumerate() {
        // as many as the comment of `Bson` says
        let bytes = levels(&rt, rt.alloc(), *level, 40_000);
        require_row(&rt, are_levels_equal(rt.alloc(), &bytes), "levels", row);
    }
}

/// A text of levels: what is before and after all levels, before and after the next level in each, and in the
/// innermost.
struct LevelsText {
    outside: (&'static str, &'static str),
    around: (&'static str, &'static str),
    innermost: &'static str,
}

/// The texts of levels.
const TEXTS: &[(Level, LevelsText)] = &[
    (
        IN_A_DOCUMENT,
        LevelsText {
            outside: ("", ""),
            around: (r#"Document { pairs: {"0": Document("#, ")} }"),
            innermost: "Document { pairs: {} }",
        },
    ),
    (
        IN_AN_ARRAY,
        LevelsText {
            outside: (r#"Document { pairs: {"0": "#, "} }"),
            around: ("Array([", "])"),
            innermost: "",
        },
    ),
    (
        IN_A_SCOPE,
        LevelsText {
            outside: ("", ""),
            around: (
                r#"Document { pairs: {"0": JavaScriptCodeWithScope(JavaScriptCodeWithScope { code: "", scope: "#,
                " })} }",
            ),
            innermost: "Document { pairs: {} }",
        },
    ),
];

/// What is between these two, if the text begins and ends with them.
fn inside<'a>(text: &'a str, around: (&str, &str)) -> Option<&'a str> {
    text.strip_prefix(around.0)?.strip_suffix(around.1)
}

/// What is inside `levels` levels, where each has these two around the next one.
fn inside_levels<'a>(text: &'a str, around: (&str, &str), levels: usize) -> Option<&'a str> {
    let mut rest = text;
    for _ in 0..levels {
        rest = inside(rest, around)?;
    }
    Some(rest)
}

/// Whether this is the text of `levels` levels.
fn is_text_of_levels(text: &str, wanted: &LevelsText, levels: usize) -> bool {
    match inside(text, wanted.outside) {
        Some(whole) => inside_levels(whole, wanted.around, levels) == Some(wanted.innermost),
        None => false,
    }
}

/// Whether this was printed of `levels` levels.
fn is_printed(made: &Result<String, AllocError>, wanted: &LevelsText, levels: usize) -> bool {
    match made {
        Ok(text) => is_text_of_levels(text.as_str(), wanted, levels),
        Err(_) => false,
    }
}

/// Whether the tree was made, and is printed like this.
fn is_tree_printed(
    alloc: Global,
    made: &raw_bson::Result<Document>,
    wanted: &LevelsText,
    levels: usize,
) -> bool {
    match made {
        Ok(tree) => let_go!(
            text = format!(in alloc; "{tree:?}");
            is_printed(&text, wanted, levels)
        ),
        Err(_) => false,
    }
}

/// The same of the tree of these bytes.
fn are_levels_printed(alloc: Global, bytes: &[u8], wanted: &LevelsText, levels: usize) -> bool {
    let_go!(made = tree_of(alloc, bytes); is_tree_printed(alloc, &made, wanted, levels))
}

#[test]
fn levels_are_printed(rt: HostRuntime) {
    for (row, (level, wanted)) in TEXTS.iter().enumerate() {
        // as many as the comment of `Bson` says
        let bytes = levels(&rt, rt.alloc(), *level, 15_000);
        let is_right = are_levels_printed(rt.alloc(), &bytes, wanted, 15_000);
        require_row(&rt, is_right, "levels", row);
    }
}
